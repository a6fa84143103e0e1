// The calls of a device in memory, counted, some of them made to fail.
ghost use Rattle.std.specs.Prelude.{◌≡◌, ◌↔◌, [], IsTrue, OnOk, OnErr};
ghost use Rattle.chart_dev.specs.Memory.{counted, failing_at, FailsNext};

use std::alloc::{AllocError, Global};
use std::marker::Model;

/// A kind of call of a shelf, of which one can be made to fail.
#[derive(Clone, Copy, Debug, PartialEq, Eq)]
pub enum CallKind {
    /// `Shelf::read_at` of a name that is there.
    Read,
    /// `Shelf::start`.
    Start,
    /// `Shelf::append`.
    Append,
}

// The calls of one kind: how many were made, and the numbers of those that are made to fail, from 1.
#[derive(Drop)]
pub(crate) struct Calls {
    made: u64,
    failing: Vec<u64>,
}

impl Model for Calls {
    ghost use Rattle.chart_dev.specs.Memory.{Counted, counted_code};

    ghost Value = { Counted };

    ghost coded = { counted_code };

    ghost view = { λ c. record { made = c.made; failing = c.failing.items } };
}

impl Calls {
    pub(crate) fn new(alloc: Global) -> Self
        ensures { result ≡ record { made = 0; failing = [] } }
    {
        Calls {
            made: 0,
            failing: Vec::new(alloc),
        }
    }

    // Counts one call more, and says whether it is made to fail.
    pub(crate) fn count(&mut self) -> bool
        ensures counts { self.new ≡ counted self.old }
        ensures fails { IsTrue result ↔ FailsNext self.old }
    {
        if self.made == u64::MAX {
            return false;
        }
        self.made += 1;
        self.failing.contains(&self.made)
    }

    // Makes the call of a number fail, where it is still to come.
    pub(crate) fn fail(&mut self, nth: u64) -> Result<(), AllocError>
        ensures ok { OnOk result (self.new ≡ failing_at nth self.old) }
        ensures err { OnErr result (self.new ≡ self.old) }
    {
        if self.made < nth {
            self.failing.push(nth)?;
        }
        Ok(())
    }
}
