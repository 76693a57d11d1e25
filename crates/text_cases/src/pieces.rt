//! Pieces in which bytes come over a connection in memory.

ghost use Rattle.std.specs.Prelude.{◌<◌};

use crate::compare::ok;
use std::alloc::Global;
use std::process::Abort;

/// The bytes in pieces of this size.
pub fn pieces_of(rt: &impl Abort, alloc: Global, bytes: &[u8], size: usize) -> Vec<Vec<u8>>
    requires { 0 < size }
{
    let mut pieces = Vec::new(alloc);
    for piece in bytes.chunks(size) {
        ok(rt, pieces.push(ok(rt, piece.to_vec(alloc))));
    }
    pieces
}
