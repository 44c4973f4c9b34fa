ghost use Rattle.std.specs.Prelude.{◌≡◌};
ghost use Rattle.smltl.specs.Status.{status_of};

use tl_text::Refusal;

/// How a call of `run` ends.
#[derive(Clone, Copy, Debug, PartialEq, Eq)]
pub enum End {
    /// The list and every source were read, accepted and written.
    Done,
    /// The words are no command.
    BadWords,
    /// The first bad line of the list, from 1.
    BadList { line: u32 },
    /// The number of a name that is not held: 0 for LIST, else its place among the names, from 1.
    Missing { name: u32 },
    /// A source is refused.
    Refused(Refusal),
    /// Reading failed.
    ReadFault,
    /// Writing failed.
    WriteFault,
    /// The machine gave no memory.
    NoMemory,
}

/// The status with which the program ends: 0 for Done, 1 for Refused, 2 for what is wrong with words or list, 3 for
/// what is wrong with names and devices, 4 for want of memory.
pub fn status(end: &End) -> u8
    ensures { result ≡ status_of end.now }
{
    match end {
        End::Done => 0,
        End::Refused(_) => 1,
        End::BadWords | End::BadList { .. } => 2,
        End::Missing { .. } | End::ReadFault | End::WriteFault => 3,
        End::NoMemory => 4,
    }
}
