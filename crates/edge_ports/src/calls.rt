ghost use Rattle.std.specs.Prelude.{◌≡◌, ◌↔◌, ◌≤◌, IsErr, IsTrue, is_err};
ghost use Rattle.edge_ports.specs.InMemory.{counted, faulted, no_calls, numbered, IsNextFailing};

use crate::failed::Failed;
use std::marker::Model;

/// Numbers the calls of an object in memory from 1, and fails those that are to fail.
///
/// Its counters stand still at their last value.
#[derive(Drop)]
pub struct Calls {
    failing: Vec<u64>,
    made: u64,
    faults: u64,
}

impl Model for Calls {
    ghost use Rattle.edge_ports.specs.InMemory.{CallCount};

    ghost Value = { CallCount };

    ghost view = { λ c. record { failing = c.failing.items; made = c.made; faults = c.faults } };
}

impl Calls {
    pub fn new(failing: Vec<u64>) -> Calls
        ensures none { result ≡ no_calls failing.items }
    {
        Calls {
            failing,
            made: 0,
            faults: 0,
        }
    }

    /// Begins the next call, which fails where its number is among those that are to fail.
    pub fn begin(&mut self) -> Result<(), Failed>
        ensures refuses { IsErr result ↔ IsNextFailing self.old }
        ensures counts { self.new ≡ counted (is_err result) self.old }
        ensures later { self.old.faults ≤ self.new.faults }
    {
        if self.number() {
            return Err(self.fail());
        }
        Ok(())
    }

    /// Numbers the next call, and answers whether it is to fail, which the caller counts.
    pub fn number(&mut self) -> bool
        ensures value { IsTrue result ↔ IsNextFailing self.old }
        ensures counts { self.new ≡ numbered self.old }
    {
        self.made = self.made.saturating_add(1);
        self.failing.contains(&self.made)
    }

    /// Lets a call that has begun fail for another cause.
    pub fn fail(&mut self) -> Failed
        ensures counts { self.new ≡ faulted self.old }
        ensures later { self.old.faults ≤ self.new.faults }
    {
        self.faults = self.faults.saturating_add(1);
        Failed
    }
}
