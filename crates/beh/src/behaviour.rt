ghost use Rattle.std.specs.Prelude.{IsTrue, ◌↔◌};
ghost use Rattle.beh.specs.Behaviour.{Extends};
ghost use Rattle.beh.specs.View.{view};

use tl_text::{List, Name};

/// What was written so far, byte for byte.
pub type Text = List<u8>;

/// How a run stands.
#[derive(Debug)]
pub enum Ending {
    /// It came to its end.
    Ended,
    /// An exception of this name left it.
    Raised(Name),
    /// There is more to come.
    More,
}

impl Drop for Ending {
    fn drop(self) {
        match self {
            Ending::Ended => {}
            Ending::Raised(_) => {}
            Ending::More => {}
        }
    }
}

/// What is seen of a run, or of a meaning: the output so far, and how it stands.
#[derive(Debug)]
pub struct Behaviour {
    pub output: Text,
    pub ending: Ending,
}

impl Drop for Behaviour {
    fn drop(self) {
        let Behaviour {
            output: _,
            ending: _,
        } = self;
    }
}

/// Whether `long` goes on from `short`: its output begins with that of `short`, and where `short`
/// has ended or raised, both are the same.
pub fn extends(long: &Behaviour, short: &Behaviour) -> bool
    ensures { IsTrue result ↔ Extends (view long.now) (view short.now) }
{
    match (&long.ending, &short.ending) {
        (_, Ending::More) => long.output.items().starts_with(short.output.items()),
        (Ending::Ended, Ending::Ended) => long.output.items() == short.output.items(),
        (Ending::Raised(name), Ending::Raised(other)) => {
            name == other && long.output.items() == short.output.items()
        }
        _ => false,
    }
}
