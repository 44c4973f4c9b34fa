ghost use Rattle.std.specs.Prelude.{◌≡◌, ◌↔◌, IsErr, is_ok, if◌then◌else◌, OnErr};
ghost use Rattle.src_io.specs.Counted.{NextFails, no_calls, after_call, after_failure};
ghost use Rattle.src_io.specs.Faults.{Rose};

use crate::Failed;
use std::marker::Model;

/// The calls of a device in memory: how many were made, which fail, how many failed.
#[derive(Debug, Drop)]
pub(crate) struct Calls {
    fails: Vec<u64>,
    made: u64,
    failed: u64,
}

impl Model for Calls {
    ghost use Rattle.src_io.specs.Counted.{Counted};

    ghost Value = { Counted };

    ghost view = { λ c. record { fails = c.fails.items; made = c.made; failed = c.failed } };
}

impl Calls {
    /// No call yet; those with these numbers will fail.
    pub(crate) fn new(fails: Vec<u64>) -> Calls
        ensures { result ≡ no_calls fails.items }
    {
        Calls {
            fails,
            made: 0,
            failed: 0,
        }
    }

    /// Begins the next call. Failed where its number is one of those that fail.
    pub(crate) fn begin(&mut self) -> Result<(), Failed>
        ensures named { IsErr result ↔ NextFails self.old }
        ensures now { self.new ≡ (if is_ok result then after_call self.old else after_failure (after_call self.old)) }
        ensures rose { OnErr result (Rose self.old.failed self.new.failed) }
    {
        self.made = self.made.saturating_add(1);
        if self.fails.contains(&self.made) {
            Err(self.fail())
        } else {
            Ok(())
        }
    }

    /// Counts a failure.
    pub(crate) fn fail(&mut self) -> Failed
        ensures now { self.new ≡ after_failure self.old }
        ensures rose { Rose self.old.failed self.new.failed }
    {
        self.failed = self.failed.saturating_add(1);
        Failed
    }
}
