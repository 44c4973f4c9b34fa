ghost use Rattle.std.specs.Prelude.{◌≡◌};
ghost use Rattle.tl_text.specs.declared.fault.Fault.TheVariants as fault_is;

use crate::{Code, Place};
use std::alloc::{AllocError, AllocFailed};
use thiserror::Error;

/// The machine gave no memory.
#[derive(Clone, Copy, Debug, PartialEq, Eq, Error)]
#[error("no memory")]
pub struct NoMemory;

impl From<AllocError> for NoMemory {
    fn from(_e: AllocError) -> NoMemory {
        NoMemory
    }
}

impl<T: Drop> From<AllocFailed<T>> for NoMemory {
    fn from(_e: AllocFailed<T>) -> NoMemory {
        NoMemory
    }
}

/// A code, and the place where it stands.
#[derive(Clone, Copy, Debug, PartialEq, Eq, Error)]
#[error("{code} at {place}")]
pub struct Refusal {
    pub place: Place,
    pub code: Code,
}

/// Why a call gives no answer: the source is refused, or the machine gave no memory.
#[derive(Clone, Copy, Debug, PartialEq, Eq, Error)]
pub enum Fault {
    #[error(transparent)]
    Refused(Refusal),
    #[error(transparent)]
    NoMemory(NoMemory),
}

impl From<NoMemory> for Fault {
    ghost from_gives = { λ e f. f ≡ fault_is.NoMemory e };

    fn from(e: NoMemory) -> Fault {
        Fault::NoMemory(e)
    }
}

impl From<Refusal> for Fault {
    ghost from_gives = { λ e f. f ≡ fault_is.Refused e };

    fn from(e: Refusal) -> Fault {
        Fault::Refused(e)
    }
}
