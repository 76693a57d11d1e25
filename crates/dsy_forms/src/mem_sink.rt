//! A sink in memory, with stated calls that fail.

ghost use Rattle.std.specs.Prelude.{◌≡◌, []};

use byte_forms::calls::{Calls, Fails};
use dsy_base::fault::{IoFault, Memory, raise};
use dsy_base::sink::Sink;
use std::alloc::Global;

/// A sink in memory. A put that fails appends nothing.
#[derive(Debug, Drop)]
pub struct MemSink {
    taken: Vec<u8>,
    calls: Calls,
    faults: u64,
}

impl MemSink {
    pub fn new(alloc: Global, fails: Fails) -> MemSink
        ensures taken { result.taken.items ≡ [] }
        ensures said { result.calls.fails ≡ fails }
        ensures faults { result.faults ≡ 0 }
    {
        MemSink {
            taken: Vec::new(alloc),
            calls: Calls::new(fails),
            faults: 0,
        }
    }

    pub fn taken(&self) -> &[u8]
        ensures { result.now ≡ self.now.taken.items }
    {
        self.taken.as_slice()
    }
}

impl Sink for MemSink {
    ghost use Rattle.std.specs.Prelude.{◌-◌, true, false, refl, vec_capacity, vec_len};
    ghost use Rattle.dsy_forms.specs.MemSinks.{output_of};
    ghost use Rattle.std.proofs.Common.{rules};

    ghost output = { output_of };

    ghost room = { λ s. vec_capacity s.taken - vec_len s.taken };

    ghost tells = { true };

    ghost never_fails = { false };

    fn reserve(&mut self, n: usize) -> Result<(), Memory> {
        match self.taken.reserve(n) {
            Ok(()) => Ok(()),
            Err(_) => Err(Memory),
        }
    }

    fn put(&mut self, b: &[u8]) -> Result<(), IoFault> {
        if self.calls.next_fails() {
            self.faults = raise(self.faults, 1);
            return Err(IoFault::Failed);
        }
        match self.taken.extend_from_slice(b) {
            Ok(()) => Ok(()),
            Err(_) => Err(IoFault::Memory),
        }
    }

    ghost told = { λ _. refl };

    ghost sure = { Prim.search rules };
}
