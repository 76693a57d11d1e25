//! Bytes in memory that can only be read, with stated calls that fail. Offsets are bytes from 0, ends are exclusive.

ghost use Rattle.std.specs.Prelude.{◌≡◌, []};

use crate::calls::{Calls, Fails};
use crate::ranges::next_fails;
use dsy_base::fault::{Failed, raise};
use dsy_base::name::Name;
use dsy_base::view::View;
use std::alloc::Global;

/// Bytes in memory that can only be read. Reads fail by their number, and those of a file's view by their range.
#[derive(Debug, Drop)]
pub struct MemView {
    bytes: Vec<u8>,
    calls: Calls,
    reads: Vec<(u64, u32)>,
    faults: u64,
    name: Name,
}

impl MemView {
    pub fn new(alloc: Global, bytes: Vec<u8>, fails: Fails) -> MemView
        ensures bytes { result.bytes ≡ bytes }
        ensures said { result.calls.fails ≡ fails }
        ensures faults { result.faults ≡ 0 }
        ensures named { result.name ≡ [] }
    {
        MemView {
            bytes,
            calls: Calls::new(fails),
            reads: Vec::new(alloc),
            faults: 0,
            name: Name::empty(alloc),
        }
    }

    /// A view of the file of this name. A read fails as the pairs of an offset and a number of times say.
    pub fn of(alloc: Global, name: Name, bytes: Vec<u8>, reads: Vec<(u64, u32)>) -> MemView
        ensures bytes { result.bytes ≡ bytes }
        ensures faults { result.faults ≡ 0 }
        ensures named { result.name ≡ name }
    {
        MemView {
            bytes,
            calls: Calls::new(Vec::new(alloc)),
            reads,
            faults: 0,
            name,
        }
    }

    /// The name, and how often a read has failed.
    pub fn into_count(self) -> (Name, u64)
        ensures named { result.0 ≡ self.name }
        ensures faults { result.1 ≡ self.faults }
    {
        (self.name, self.faults)
    }
}

impl View for MemView {
    ghost use Rattle.std.specs.Prelude.{Some, vec_len, true, false, refl};
    ghost use Rattle.std.proofs.Common.{rules};

    ghost held = { λ v. record { bytes = Some v.bytes.items; size = vec_len v.bytes; name = v.name } };

    ghost faults = { λ v. v.faults };

    ghost tells = { true };

    ghost never_fails = { false };

    fn size(&self) -> u64 {
        self.bytes.len() as u64
    }

    fn read_at(&mut self, at: u64, out: &mut [u8]) -> Result<(), Failed> {
        let start = at as usize;
        let end = start + out.len();
        let listed = self.calls.next_fails();
        let covered = next_fails(&mut self.reads, at, end as u64);
        if listed || covered {
            self.faults = raise(self.faults, 1);
            return Err(Failed);
        }
        out.copy_from_slice(&self.bytes[start..end]);
        Ok(())
    }

    ghost told = { λ _. refl };

    ghost sized = { Prim.search rules };

    ghost sure = { Prim.search rules };
}
