//! The bytes of an index file, in memory.

ghost use Rattle.std.specs.Prelude.{◌≡◌, IfOk};
ghost use Rattle.caibx_codec.specs.Spelling.{IsIndexFile, file_of};

use caibx_codec::index::Index;
use caibx_codec::laws::file_is_read;
use caibx_codec::writing::write_index;
use dsy_base::fault::{IoFault, Memory};
use dsy_base::sink::Sink;
use std::alloc::{AllocError, Global};

// A sink that keeps what it takes, and never fails.
#[derive(Drop)]
struct Kept {
    bytes: Vec<u8>,
}

impl Sink for Kept {
    ghost use Rattle.std.specs.Prelude.{◌-◌, Some, true, refl, vec_capacity, vec_len};

    ghost output = { λ s. record { taken = Some s.bytes.items; faults = 0 } };

    ghost room = { λ s. vec_capacity s.bytes - vec_len s.bytes };

    ghost tells = { true };

    ghost never_fails = { true };

    fn reserve(&mut self, n: usize) -> Result<(), Memory> {
        match self.bytes.reserve(n) {
            Ok(()) => Ok(()),
            Err(_) => Err(Memory),
        }
    }

    fn put(&mut self, b: &[u8]) -> Result<(), IoFault> {
        match self.bytes.extend_from_slice(b) {
            Ok(()) => Ok(()),
            Err(_) => Err(IoFault::Memory),
        }
    }

    ghost told = { λ _. refl };

    ghost sure = { λ _ _. refl };
}

/// The bytes of the index's file.
pub fn spell(alloc: Global, index: &Index) -> Result<Vec<u8>, AllocError>
    ensures ok { IfOk result (λ v. v.items ≡ file_of index.now) }
    ensures bytes { IfOk result (λ v. IsIndexFile v.items index.now) }
{
    file_is_read(index);
    index.rules();
    let bytes = Vec::with_capacity(alloc, 104 + 40 * index.count())?;
    let mut sink = Kept { bytes };
    match write_index(alloc, index, &mut sink) {
        Ok(()) => {
            let Kept { bytes } = sink;
            Ok(bytes)
        }
        Err(IoFault::Memory) => Err(AllocError),
        Err(IoFault::Failed) => unreachable!(),
    }
}
