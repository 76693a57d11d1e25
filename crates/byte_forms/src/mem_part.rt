//! Parts of bytes in memory that were split. Offsets are bytes from 0, ends are exclusive.

ghost use Rattle.std.specs.Prelude.{◌≡◌, Some, IfOk, length, map};
ghost use Rattle.std.specs.List.{sum_by, All};
ghost use Rattle.dsy_base.specs.Splits.{IsCuts, extent, extents, joined};

use crate::mem_target::write_over;
use dsy_base::view::Part;
use std::alloc::{AllocError, Global};

/// A part whose bytes lie in memory.
pub trait MemoryPart: Part {
    /// What the target says of its parts beside their bytes.
    type Said;

    /// The part that holds these bytes, which begin at offset `from` of the target.
    fn of(alloc: Global, bytes: Vec<u8>, from: u64, said: &Self::Said) -> Result<Self, AllocError>
        ensures bytes { IfOk result (λ p. extent (Self.held p) ≡ (Some bytes.items, length bytes.items)) }
        ensures faults { IfOk result (λ p. Self.faults p ≡ 0) };

    /// Its bytes.
    fn bytes(&self) -> &[u8]
        ensures { extent (Self.held self.now) ≡ (Some result.now, length result.now) };
}

/// The parts of the bytes between the cuts.
pub fn parts_of<P: MemoryPart>(
    alloc: Global,
    bytes: &[u8],
    cuts: &[u64],
    said: &P::Said,
) -> Result<Vec<P>, AllocError>
    requires { IsCuts 0 cuts.now (length bytes.now) }
    ensures parts { IfOk result (λ v. map (λ p. extent (P.held p)) v.items ≡ extents (Some bytes.now) 0 cuts.now) }
    ensures faults { IfOk result (λ v. All (λ p. P.faults p ≡ 0) v.items) }
{
    let mut parts = Vec::with_capacity(alloc, cuts.len())?;
    let mut from = 0;
    for cut in cuts.iter() {
        let to = *cut;
        let piece = Vec::from_slice(alloc, &bytes[from as usize..to as usize])?;
        parts.push(P::of(alloc, piece, from, said)?)?;
        from = to;
    }
    Ok(parts)
}

/// Copies the parts over the bytes, one after the other.
pub fn join_parts<P: MemoryPart>(bytes: &mut [u8], parts: &[P])
    requires { sum_by (λ p. (P.held p).size) parts.now ≡ length bytes.old }
    ensures { bytes.new ≡ joined (λ p. P.held p) parts.now }
{
    let mut at = 0;
    for part in parts.iter() {
        let piece = part.bytes();
        write_over(bytes, at, piece);
        at += piece.len();
    }
}
