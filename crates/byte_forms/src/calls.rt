//! Which calls of a form in memory are to fail. Calls are numbered from 0.

ghost use Rattle.std.specs.Prelude.{◌≡◌, nat_eq, IfOk};
ghost use Rattle.std.specs.List.{list_any};
ghost use Rattle.dsy_base.specs.Counts.{raised};

use dsy_base::fault::raise;
use std::alloc::{AllocError, Global};

/// The numbers of the calls that are to fail.
pub type Fails = Vec<u64>;

/// The calls of one object: those that are to fail, and how many there were. The number of calls stays at its
/// greatest value.
#[derive(Debug, Drop)]
pub struct Calls {
    fails: Vec<u64>,
    so_far: u64,
}

impl Calls {
    pub fn new(fails: Fails) -> Calls
        ensures kept { result.fails ≡ fails }
        ensures counts { result.so_far ≡ 0 }
    {
        Calls { fails, so_far: 0 }
    }

    /// The number of the call that is made next.
    pub fn so_far(&self) -> u64
        ensures { result ≡ self.now.so_far }
    {
        self.so_far
    }

    /// Whether the call that is made now is to fail.
    pub fn next_fails(&mut self) -> bool
        ensures value { result ≡ list_any (nat_eq self.old.so_far) self.old.fails.items }
        ensures kept { self.new.fails ≡ self.old.fails }
        ensures counts { self.new.so_far ≡ raised self.old.so_far 1 }
    {
        let call = self.so_far;
        self.so_far = raise(call, 1);
        self.fails.contains(&call)
    }

    /// The same list, with no call made yet.
    pub fn again(&self, alloc: Global) -> Result<Calls, AllocError>
        ensures kept { IfOk result (λ c. c.fails.items ≡ self.now.fails.items) }
        ensures counts { IfOk result (λ c. c.so_far ≡ 0) }
    {
        let fails = Vec::from_slice(alloc, &self.fails)?;
        Ok(Calls { fails, so_far: 0 })
    }
}
