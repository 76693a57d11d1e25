//! Standard output and standard error as sinks.

use dsy_base::fault::{IoFault, Memory, raise};
use dsy_base::sink::Sink;
use std::io::Write;

/// A stream of the system that is written.
#[derive(Drop)]
pub struct RealSink<W: Write + Drop> {
    stream: W,
    faults: u64,
}

impl<W: Write + Drop> RealSink<W> {
    pub fn new(stream: W) -> RealSink<W> {
        RealSink { stream, faults: 0 }
    }
}

// Writes all of the bytes, past what the stream keeps back.
fn write_through<W: Write>(stream: &mut W, b: &[u8]) -> bool {
    stream.write_all(b).is_ok() && stream.flush().is_ok()
}

impl<W: Write + Drop> Sink for RealSink<W> {
    ghost use Rattle.std.specs.Prelude.{◌^◌, None, false, refl};
    ghost use Rattle.std.proofs.Common.{rules};

    ghost output = { λ s. record { taken = None; faults = s.faults } };

    // The system's buffers take none of the program's memory.
    ghost room = { λ _. 2 ^ 64 };

    ghost tells = { false };

    ghost never_fails = { false };

    fn reserve(&mut self, _n: usize) -> Result<(), Memory> {
        Ok(())
    }

    fn put(&mut self, b: &[u8]) -> Result<(), IoFault> {
        if write_through(&mut self.stream, b) {
            Ok(())
        } else {
            self.faults = raise(self.faults, 1);
            Err(IoFault::Failed)
        }
    }

    ghost told = { λ _. refl };

    ghost sure = { Prim.search rules };
}
