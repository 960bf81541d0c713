//! What the forms in memory keep of their calls.

ghost use Rattle.std.specs.Prelude.{◌≡◌, ◌≤◌, IsTrue, OnOk, OnErr};
ghost use Rattle.tandem_io.specs.Causes.{Rose};

use std::alloc::{AllocError, Global};
use std::marker::Model;

/// The calls that one count of faults is about: numbered from 1, of which some are to fail.
#[derive(Debug, Drop)]
pub(super) struct Calls {
    made: u64,
    faults: u64,
    failing: Vec<u64>,
}

impl Model for Calls {
    ghost use Rattle.tandem_io.specs.Calls.{CallRecord};

    ghost Value = { CallRecord };

    ghost view = { λ c. record { made = c.made; faults = c.faults; failing = c.failing.items } };
}

impl Calls {
    ghost use Rattle.tandem_io.specs.Calls.{no_calls, next_fails, after_call, with_failing};

    /// No call yet, and none that is to fail.
    pub(super) fn new(alloc: Global) -> Calls
        ensures { result ≡ no_calls }
    {
        Calls {
            made: 0,
            faults: 0,
            failing: Vec::new(alloc),
        }
    }

    /// Has the call of this number fail.
    pub(super) fn fail_at(&mut self, call: u64) -> Result<(), AllocError>
        ensures ok { OnOk result (self.new ≡ with_failing self.old call) }
        ensures err { OnErr result (self.new ≡ self.old) }
    {
        self.failing.push(call)?;
        Ok(())
    }

    /// Whether the next call is to fail.
    pub(super) fn next_fails(&self) -> bool
        ensures { result ≡ next_fails self.now }
    {
        self.failing.contains(&self.made.saturating_add(1))
    }

    /// Numbers the next call, and counts it where it failed.
    pub(super) fn count(&mut self, fails: bool)
        ensures after { self.new ≡ after_call self.old fails }
        ensures cause { IsTrue fails → Rose self.old.faults self.new.faults }
        ensures count { self.old.faults ≤ self.new.faults }
    {
        self.made = self.made.saturating_add(1);
        if fails {
            self.faults = self.faults.saturating_add(1);
        }
    }

    /// Numbers the next call, counts it where it is to fail, and answers whether it is.
    pub(super) fn next(&mut self) -> bool
        ensures answer { result ≡ next_fails self.old }
        ensures after { self.new ≡ after_call self.old result }
        ensures cause { IsTrue result → Rose self.old.faults self.new.faults }
        ensures count { self.old.faults ≤ self.new.faults }
    {
        let fails = self.next_fails();
        self.count(fails);
        fails
    }
}
