//! A sink in memory, whose calls never fail.

ghost use Rattle.std.specs.Prelude.{◌≡◌, []};

use dsy_base::fault::{IoFault, Memory};
use dsy_base::sink::Sink;
use std::alloc::Global;

/// A sink in memory.
#[derive(Debug, Drop)]
pub struct SureSink {
    taken: Vec<u8>,
}

impl SureSink {
    pub fn new(alloc: Global) -> SureSink
        ensures taken { result.taken.items ≡ [] }
    {
        SureSink {
            taken: Vec::new(alloc),
        }
    }

    pub fn taken(&self) -> &[u8]
        ensures { result.now ≡ self.now.taken.items }
    {
        self.taken.as_slice()
    }
}

impl Sink for SureSink {
    ghost use Rattle.std.specs.Prelude.{◌-◌, true, refl, vec_capacity, vec_len};
    ghost use Rattle.dsy_sure.specs.SureSinks.{output_of};

    ghost output = { output_of };

    ghost room = { λ s. vec_capacity s.taken - vec_len s.taken };

    ghost tells = { true };

    ghost never_fails = { true };

    fn reserve(&mut self, n: usize) -> Result<(), Memory> {
        match self.taken.reserve(n) {
            Ok(()) => Ok(()),
            Err(_) => Err(Memory),
        }
    }

    fn put(&mut self, b: &[u8]) -> Result<(), IoFault> {
        match self.taken.extend_from_slice(b) {
            Ok(()) => Ok(()),
            Err(_) => Err(IoFault::Memory),
        }
    }

    ghost told = { λ _. refl };

    ghost sure = { λ _ _. refl };
}
