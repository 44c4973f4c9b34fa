ghost use Rattle.std.specs.Prelude.{◌≡◌, ◌+◌, ◌-◌, ◌^◌, ◌<◌, ◌≤◌, IfOk, length, vec_len};
ghost use Rattle.src_io.specs.Faults.{Rose};
ghost use Rattle.src_io.specs.Holding.{Lacks};
ghost use Rattle.src_io.specs.Reading.{IsRead, SameFiles, end_of_opening};
ghost use Rattle.src_io.specs.declared.reading.ReadEnd.TheVariants as reading_is;

use crate::{Failed, OpenEnd, Sources};
use std::alloc::{AllocError, Global};
use thiserror::Error;

/// How many bytes are read at a time.
const BUFFER_LEN: usize = 65536;

/// Why a name was not read: it is not held, the device failed, or the machine gave no memory.
#[derive(Clone, Copy, Debug, PartialEq, Eq, Error)]
pub enum ReadEnd {
    #[error("cannot be opened")]
    Missing,
    #[error("a device failed")]
    Failed,
    #[error("no memory")]
    NoMemory,
}

impl From<OpenEnd> for ReadEnd {
    ghost from_gives = { λ e r. r ≡ end_of_opening e };

    fn from(e: OpenEnd) -> ReadEnd {
        match e {
            OpenEnd::Missing => ReadEnd::Missing,
            OpenEnd::Failed => ReadEnd::Failed,
        }
    }
}

impl From<Failed> for ReadEnd {
    ghost from_gives = { λ _ r. r ≡ reading_is.Failed };

    fn from(_e: Failed) -> ReadEnd {
        ReadEnd::Failed
    }
}

impl From<AllocError> for ReadEnd {
    ghost from_gives = { λ _ r. r ≡ reading_is.NoMemory };

    fn from(_e: AllocError) -> ReadEnd {
        ReadEnd::NoMemory
    }
}

/// The bytes under a name, `limit + 1` of them at most, so that a caller sees where there are more than `limit`.
/// Missing where the name is not held, Failed where the device failed, NoMemory where none is left.
pub fn read_named<S: Sources>(
    alloc: Global,
    src: &mut S,
    name: &str,
    limit: usize,
) -> Result<Vec<u8>, ReadEnd>
    requires { limit < 2 ^ 64 - 1 }
    ensures found { IfOk result (λ v. IsRead name.now limit (S.told src.old) v.items
        × (S.faults src.new ≡ S.faults src.old)) }
    ensures bounded { IfOk result (λ v. vec_len v ≤ limit + 1) }
    ensures missing { result ≡ Err ReadEnd.Missing → Lacks name.now (S.told src.old) × (S.faults src.new ≡ S.faults src.old) }
    ensures failed { result ≡ Err ReadEnd.Failed → Rose (S.faults src.old) (S.faults src.new) }
    ensures memory { result ≡ Err ReadEnd.NoMemory → S.faults src.new ≡ S.faults src.old }
    ensures kept { SameFiles (S.told src.old) (S.told src.new) }
{
    src.open_named(name)?;
    let mut buffer = [0; BUFFER_LEN];
    let mut bytes = Vec::new(alloc);
    while bytes.len() <= limit {
        let count = src.read(&mut buffer)?;
        if count == 0 {
            break;
        }
        let room = limit + 1 - bytes.len();
        bytes.extend_from_slice(&buffer[..count.min(room)])?;
    }
    Ok(bytes)
}
