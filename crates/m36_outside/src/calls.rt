//! Numbered calls, some of which have to fail.

ghost use Rattle.std.specs.Prelude.{◌≡◌, IfOk};
ghost use Rattle.m36_outside.specs.CallPlan.{new_plan, next_fails, after_call};

use m36_word::NoMemory;
use std::alloc::Global;
use std::marker::Model;

/// Counts the calls of an object in memory and has the numbers of those that fail. Calls are
/// numbered from 1, and from 2^32 - 1 on each has that number.
#[derive(Drop)]
pub struct Calls {
    failing: Vec<u32>,
    last: u32,
}

impl Model for Calls {
    ghost use Rattle.m36_outside.specs.CallPlan.{CallPlan};

    ghost Value = { CallPlan };

    ghost view = { λ c. record { failing = c.failing.items; last = c.last } };
}

impl Calls {
    /// No call so far. `failing` has the numbers of the calls that fail. Fails only with
    /// `NoMemory`.
    pub fn new(alloc: Global, failing: &[u32]) -> Result<Calls, NoMemory>
        ensures { IfOk result (λ calls. calls ≡ new_plan failing.now) }
    {
        Ok(Calls {
            failing: Vec::from_slice(alloc, failing)?,
            last: 0,
        })
    }

    /// Counts one more call, and returns whether it has to fail.
    pub fn next_fails(&mut self) -> bool
        ensures fails { result ≡ next_fails self.old }
        ensures after { self.new ≡ after_call self.old }
    {
        self.last = self.last.saturating_add(1);
        self.failing.as_slice().contains(&self.last)
    }
}
