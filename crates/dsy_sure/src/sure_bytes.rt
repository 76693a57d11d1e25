//! Bytes in memory that are always read and written. Offsets are bytes from 0, ends are exclusive.

ghost use Rattle.std.specs.Prelude.{◌≡◌, [], true};
ghost use Rattle.std.specs.List.{sum_by};
ghost use Rattle.dsy_base.specs.Counts.{raised};
ghost use Rattle.dsy_base.specs.Splits.{joined, held_joined};
ghost use Rattle.dsy_sure.specs.SureTargets.{target_held, target_left};

use byte_forms::mem_part::{MemoryPart, join_parts, parts_of};
use byte_forms::mem_target::{resize, write_over};
use dsy_base::fault::{Failed, IoFault, SplitFault};
use dsy_base::name::Name;
use dsy_base::view::{Part, Target, View};
use std::alloc::{AllocError, Global};

/// A view, a target or a part of a target in memory. Reads and writes never fail.
#[derive(Debug, Drop)]
pub struct SureBytes {
    bytes: Vec<u8>,
    name: Name,
}

impl SureBytes {
    pub fn new(alloc: Global, bytes: Vec<u8>) -> SureBytes
        ensures bytes { result.bytes ≡ bytes }
        ensures named { result.name ≡ [] }
    {
        SureBytes::of(Name::empty(alloc), bytes)
    }

    pub fn bytes(&self) -> &[u8]
        ensures { result.now ≡ self.now.bytes.items }
    {
        self.bytes.as_slice()
    }

    /// The bytes of the file of this name.
    pub(crate) fn of(name: Name, bytes: Vec<u8>) -> SureBytes
        ensures bytes { result.bytes ≡ bytes }
        ensures named { result.name ≡ name }
    {
        SureBytes { bytes, name }
    }

    pub(crate) fn into_bytes(self) -> Vec<u8>
        ensures { result ≡ self.bytes }
    {
        self.bytes
    }
}

impl MemoryPart for SureBytes {
    type Said = ();

    fn of(alloc: Global, bytes: Vec<u8>, _from: u64, _said: &()) -> Result<SureBytes, AllocError> {
        Ok(SureBytes {
            bytes,
            name: Name::empty(alloc),
        })
    }

    fn bytes(&self) -> &[u8] {
        self.bytes.as_slice()
    }
}

impl View for SureBytes {
    ghost use Rattle.std.specs.Prelude.{Some, vec_len, true, refl};
    ghost use Rattle.std.proofs.Common.{rules};

    ghost held = { λ t. record { bytes = Some t.bytes.items; size = vec_len t.bytes; name = t.name } };

    ghost faults = { λ _. 0 };

    ghost tells = { true };

    ghost never_fails = { true };

    fn size(&self) -> u64 {
        self.bytes.len() as u64
    }

    fn read_at(&mut self, at: u64, out: &mut [u8]) -> Result<(), Failed> {
        let start = at as usize;
        out.copy_from_slice(&self.bytes[start..start + out.len()]);
        Ok(())
    }

    ghost told = { λ _. refl };

    ghost sized = { Prim.search rules };

    ghost sure = { λ _ _. refl };
}

impl Part for SureBytes {
    fn write_at(&mut self, at: u64, b: &[u8]) -> Result<(), Failed> {
        write_over(&mut self.bytes, at as usize, b);
        Ok(())
    }
}

impl Target for SureBytes {
    ghost use Rattle.std.specs.Prelude.{vec_len, refl};

    type Piece = SureBytes;

    // The bytes stay, as room for those of the parts.
    type Rest = SureBytes;

    ghost left = { λ t. record { size = vec_len t.bytes; name = t.name; faults = 0 } };

    fn set_len(&mut self, n: u64) -> Result<(), IoFault> {
        match resize(&mut self.bytes, n as usize) {
            Ok(()) => Ok(()),
            Err(_) => Err(IoFault::Memory),
        }
    }

    fn split(self, cuts: &[u64]) -> Result<(SureBytes, Vec<SureBytes>), (SureBytes, SplitFault)> {
        let alloc = *self.bytes.allocator();
        match parts_of(alloc, self.bytes.as_slice(), cuts, &()) {
            Ok(parts) => Ok((self, parts)),
            Err(_) => Err((self, SplitFault::Memory)),
        }
    }

    fn rejoin(rest: SureBytes, parts: Vec<SureBytes>) -> SureBytes
        requires { sum_by (λ p. (target_held p).size) parts.items ≡ (target_left rest).size }
        ensures bytes { target_held result ≡ held_joined (target_left rest) true (joined target_held parts.items) }
        ensures faults { 0 ≡ raised (target_left rest).faults (sum_by (λ _. 0) parts.items) }
    {
        let mut target = rest;
        join_parts(&mut target.bytes, &parts);
        target
    }

    ghost parts_tell = { refl };

    ghost parts_fail = { refl };
}
