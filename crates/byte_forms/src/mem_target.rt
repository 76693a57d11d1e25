//! Bytes in memory that can be written, with stated calls that fail. Offsets are bytes from 0, ends are exclusive.

ghost use Rattle.std.specs.Prelude.{◌≡◌, ◌+◌, ◌≤◌, [], length, true, OnOk, OnErr};
ghost use Rattle.std.specs.List.{sum_by};
ghost use Rattle.dsy_base.specs.Bytes.{written, resized};
ghost use Rattle.dsy_base.specs.Counts.{raised};
ghost use Rattle.dsy_base.specs.Splits.{joined, held_joined};
ghost use Rattle.byte_forms.specs.MemTargets.{target_held, target_left};

use crate::mem_part::{MemoryPart, join_parts, parts_of};
use crate::ranges::{RangeFails, next_fails};
use dsy_base::fault::{Failed, IoFault, SplitFault, raise};
use dsy_base::name::Name;
use dsy_base::view::{Part, Target, View};
use std::alloc::{AllocError, Global};

/// A file in memory at rest, and the calls on it that are to fail.
#[derive(Debug, Drop)]
pub struct MemFile {
    pub bytes: Vec<u8>,
    pub fails: RangeFails,
}

/// Bytes in memory that can be written, or a part of such bytes. A write that fails fills its range with the byte 0xee.
#[derive(Debug, Drop)]
pub struct MemTarget {
    bytes: Vec<u8>,
    // where they begin in the target that they are a part of, or 0
    from: u64,
    fails: RangeFails,
    faults: u64,
    name: Name,
}

impl MemTarget {
    pub fn new(alloc: Global, bytes: Vec<u8>, fails: RangeFails) -> MemTarget
        ensures bytes { result.bytes ≡ bytes }
        ensures said { result.fails ≡ fails }
        ensures faults { result.faults ≡ 0 }
        ensures named { result.name ≡ [] }
    {
        MemTarget {
            bytes,
            from: 0,
            fails,
            faults: 0,
            name: Name::empty(alloc),
        }
    }

    pub fn bytes(&self) -> &[u8]
        ensures { result.now ≡ self.now.bytes.items }
    {
        self.bytes.as_slice()
    }

    /// The file that was taken under this name.
    pub fn of(name: Name, file: MemFile) -> MemTarget
        ensures bytes { result.bytes ≡ file.bytes }
        ensures faults { result.faults ≡ 0 }
        ensures named { result.name ≡ name }
    {
        MemTarget {
            bytes: file.bytes,
            from: 0,
            fails: file.fails,
            faults: 0,
            name,
        }
    }

    /// The file, and how often a call on it has failed.
    pub fn into_file(self) -> (MemFile, u64)
        ensures bytes { result.0.bytes ≡ self.bytes }
        ensures faults { result.1 ≡ self.faults }
    {
        let file = MemFile {
            bytes: self.bytes,
            fails: self.fails,
        };
        (file, self.faults)
    }
}

impl MemoryPart for MemTarget {
    type Said = RangeFails;

    fn of(
        alloc: Global,
        bytes: Vec<u8>,
        from: u64,
        said: &RangeFails,
    ) -> Result<MemTarget, AllocError> {
        let to = from.saturating_add(bytes.len() as u64);
        let fails = said.within(alloc, from, to)?;
        Ok(MemTarget {
            bytes,
            from,
            fails,
            faults: 0,
            name: Name::empty(alloc),
        })
    }

    fn bytes(&self) -> &[u8] {
        self.bytes.as_slice()
    }
}

impl View for MemTarget {
    ghost use Rattle.std.specs.Prelude.{Some, vec_len, true, false, refl};
    ghost use Rattle.std.proofs.Common.{rules};

    ghost held = { λ t. record { bytes = Some t.bytes.items; size = vec_len t.bytes; name = t.name } };

    ghost faults = { λ t. t.faults };

    ghost tells = { true };

    ghost never_fails = { false };

    fn size(&self) -> u64 {
        self.bytes.len() as u64
    }

    fn read_at(&mut self, at: u64, out: &mut [u8]) -> Result<(), Failed> {
        let start = at as usize;
        let end = start + out.len();
        if next_fails(&mut self.fails.reads, at, end as u64) {
            self.faults = raise(self.faults, 1);
            return Err(Failed);
        }
        out.copy_from_slice(&self.bytes[start..end]);
        Ok(())
    }

    ghost told = { λ _. refl };

    ghost sized = { Prim.search rules };

    ghost sure = { Prim.search rules };
}

impl Part for MemTarget {
    fn write_at(&mut self, at: u64, b: &[u8]) -> Result<(), Failed> {
        let start = at as usize;
        let end = start + b.len();
        if next_fails(&mut self.fails.writes, at, end as u64) {
            self.bytes[start..end].fill(0xee);
            self.faults = raise(self.faults, 1);
            return Err(Failed);
        }
        write_over(&mut self.bytes, start, b);
        Ok(())
    }
}

impl Target for MemTarget {
    ghost use Rattle.std.specs.Prelude.{vec_len, refl};

    // The bytes stay, as room for those of the parts.
    type Rest = MemTarget;

    type Piece = MemTarget;

    ghost left = { λ t. record { size = vec_len t.bytes; name = t.name; faults = t.faults } };

    fn set_len(&mut self, n: u64) -> Result<(), IoFault> {
        if 0 < self.fails.set_len {
            self.fails.set_len -= 1;
            self.faults = raise(self.faults, 1);
            return Err(IoFault::Failed);
        }
        match resize(&mut self.bytes, n as usize) {
            Ok(()) => Ok(()),
            Err(_) => Err(IoFault::Memory),
        }
    }

    fn split(self, cuts: &[u64]) -> Result<(MemTarget, Vec<MemTarget>), (MemTarget, SplitFault)> {
        let mut target = self;
        if 0 < target.fails.split {
            target.fails.split -= 1;
            target.faults = raise(target.faults, 1);
            return Err((target, SplitFault::Failed));
        }
        let alloc = *target.bytes.allocator();
        match parts_of(alloc, target.bytes.as_slice(), cuts, &target.fails) {
            Ok(parts) => Ok((target, parts)),
            Err(_) => Err((target, SplitFault::Memory)),
        }
    }

    fn rejoin(rest: MemTarget, parts: Vec<MemTarget>) -> MemTarget
        requires { sum_by (λ p. (target_held p).size) parts.items ≡ (target_left rest).size }
        ensures bytes { target_held result ≡ held_joined (target_left rest) true (joined target_held parts.items) }
        ensures faults { result.faults ≡ raised (target_left rest).faults (sum_by (λ p. p.faults) parts.items) }
    {
        let mut target = rest;
        join_parts(&mut target.bytes, &parts);
        target.faults = gather(&mut target.fails, target.faults, &parts);
        target
    }

    ghost parts_tell = { refl };

    ghost parts_fail = { refl };
}

// Gives the target back what the parts have left of its fails, and counts the faults of all.
fn gather(fails: &mut RangeFails, count: u64, parts: &[MemTarget]) -> u64
    ensures { result ≡ raised count (sum_by (λ p. p.faults) parts.now) }
{
    let mut faults = count;
    for part in parts.iter() {
        let to = part.from.saturating_add(part.bytes.len() as u64);
        fails.take_back(&part.fails, part.from, to);
        faults = raise(faults, part.faults);
    }
    faults
}

/// Writes `b` over the bytes from offset `at` on.
pub fn write_over(bytes: &mut [u8], at: usize, b: &[u8])
    requires { at + length b.now ≤ length bytes.old }
    ensures { bytes.new ≡ written bytes.old at b.now }
{
    bytes[at..at + b.len()].copy_from_slice(b);
}

/// Cuts off the end, or fills up with zeros, to `n` bytes.
pub fn resize(bytes: &mut Vec<u8>, n: usize) -> Result<(), AllocError>
    ensures ok { OnOk result (bytes.new.items ≡ resized bytes.old.items n) }
    ensures err { OnErr result (bytes.new.items ≡ bytes.old.items) }
{
    bytes.resize(n, 0)
}
