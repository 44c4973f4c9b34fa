ghost use Rattle.std.specs.Prelude.{◌≡◌, ℕ, ◌≤◌, ◌<◌, ◌-◌, List, Bool, Option, length, take, IsTrue, IfOk, IsOkAnd, OnOk, OnErr};
ghost use Rattle.src_io.specs.Faults.{Rose};
ghost use Rattle.src_io.specs.Holding.{Holding, Opens, Lacks, Reads};
ghost use Rattle.src_io.specs.Written.{Appends};
ghost use Rattle.src_io.specs.declared.device.OpenEnd.TheVariants as opening;

use thiserror::Error;

/// A device failed.
#[derive(Clone, Copy, Debug, PartialEq, Eq, Error)]
#[error("a device failed")]
pub struct Failed;

/// Why a name was not opened: it is not held, or the device failed.
#[derive(Clone, Copy, Debug, PartialEq, Eq, Error)]
pub enum OpenEnd {
    #[error("cannot be opened")]
    Missing,
    #[error("a device failed")]
    Failed,
}

impl From<Failed> for OpenEnd {
    ghost from_gives = { λ _ e. e ≡ opening.Failed };

    fn from(_e: Failed) -> OpenEnd {
        OpenEnd::Failed
    }
}

/// Where sources are read from, one name at a time.
pub trait Sources {
    /// What is held and being read, where the object tells it.
    ghost told: { Self → Option Holding };

    /// Whether a name is open, which every object tells.
    ghost is_open: { Self → Bool };

    /// How many calls failed.
    ghost faults: { Self → ℕ };

    /// Opens a name at its first byte.
    fn open_named(&mut self, name: &str) -> Result<(), OpenEnd>
        ensures opened { OnOk result (IsTrue (is_open self.new) × (faults self.new ≡ faults self.old)
            × Opens name.now (told self.old) (told self.new)) }
        ensures missing { result ≡ Err OpenEnd.Missing → Lacks name.now (told self.old) × (faults self.new ≡ faults self.old)
            × (is_open self.new ≡ is_open self.old) × (told self.new ≡ told self.old) }
        ensures failed { result ≡ Err OpenEnd.Failed → Rose (faults self.old) (faults self.new)
            × (is_open self.new ≡ is_open self.old) × (told self.new ≡ told self.old) };

    /// Reads the next bytes of the open name into the buffer, and answers how many; 0 is the end.
    fn read(&mut self, into: &mut [u8]) -> Result<usize, Failed>
        requires { IsTrue (is_open self.old) }
        ensures read { IfOk result (λ n. (n ≤ length into.new) × IsTrue (is_open self.new)
            × (faults self.new ≡ faults self.old) × Reads n into.new (told self.old) (told self.new)) }
        ensures failed { OnErr result (Rose (faults self.old) (faults self.new)
            × (is_open self.new ≡ is_open self.old) × (told self.new ≡ told self.old)) };
}

/// Where text goes.
pub trait Sink {
    /// The bytes that were written, where the object tells them.
    ghost written: { Self → Option (List ℕ) };

    /// How many calls failed.
    ghost faults: { Self → ℕ };

    /// That this many more bytes are taken without a failure, where the object tells so.
    ghost accepts: { Self → ℕ → Type 0 } = { λ _ _. ⊥ };

    /// Writes a front of the piece, and answers its length, at least one where the piece is not empty.
    fn write(&mut self, piece: &[u8]) -> Result<usize, Failed>
        ensures written { IfOk result (λ n. (n ≤ length piece.now) × (0 < length piece.now → 0 < n)
            × (faults self.new ≡ faults self.old) × Appends (written self.old) (written self.new) (take n piece.now)) }
        ensures failed { OnErr result (Rose (faults self.old) (faults self.new) × (written self.new ≡ written self.old)) }
        ensures accepted { (n : ℕ) → length piece.now ≤ n → accepts self.old n
            → IsOkAnd result (λ taken. accepts self.new (n - taken)) };
}
