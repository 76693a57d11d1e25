//! Indexes of small images, and the digests of their chunks. Sizes are in bytes.

ghost use Rattle.std.specs.Prelude.{◌≡◌};
ghost use Rattle.caibx_codec.specs.Listing.{kind_of};
ghost use Rattle.chunk_store.specs.declared.id.DigestKind.TheVariants as kinds;

use crate::compare::ok;
use caibx_codec::index::{Entry, Index};
use chunk_store::id::{ChunkId, DigestKind};
use std::alloc::Global;
use std::process::Abort;

/// SHA-512/256 of `abc`, from FIPS 180-4's examples. The three others are from `openssl dgst -sha512-256`.
pub const ABC: &str = "53048e2681941ef99b2e29b76b4c7dabe4c2d0c634fc6d46e0e2f13107e7af23";

/// SHA-512/256 of `abX`.
pub const ABX: &str = "69b9fe464181451d00de83054c5fd4017d2537e0c35399e228a72f14ec546a03";

/// SHA-512/256 of `def`.
pub const DEF: &str = "f391834ba55302124fbcfc8df6831a666e468b310e99295e1fce0abf8ef9ec3f";

/// SHA-512/256 of `deX`.
pub const DEX: &str = "99fd98af64dbf7b52833a40d79bb5d8719070460665c2be3a01a01a88c57b2ef";

/// The id that has these digits.
pub fn id_of(rt: &impl Abort, text: &str) -> ChunkId {
    ok(rt, ChunkId::from_hex(text))
}

/// The index of chunks of three bytes with these names.
pub fn index_of(rt: &impl Abort, alloc: Global, names: &[&str]) -> Index {
    let mut entries = Vec::new(alloc);
    let mut end = 0u64;
    for name in names {
        end = end.saturating_add(3);
        let id = id_of(rt, name);
        ok(rt, entries.push(Entry { end, id }));
    }
    ok(
        rt,
        Index::new(0xa000_0000_0000_0000, 16_384, 65_536, 262_144, entries),
    )
}

/// The same index, whose chunks are named by SHA-512/256.
pub fn by_sha512(rt: &impl Abort, index: Index) -> Index
    ensures { kind_of result ≡ kinds.Sha512T256 }
{
    let by = match index.kind() {
        DigestKind::Sha512T256 => Some(index),
        DigestKind::Sha256 => None,
    };
    by.expect(rt, "an index by SHA-512/256")
}

/// The id of these bytes.
pub fn id_of_piece(piece: &[u8]) -> ChunkId {
    ChunkId::of(DigestKind::Sha512T256, piece)
}

/// The index of an image in these pieces.
pub fn index_of_pieces(rt: &impl Abort, alloc: Global, pieces: &[&[u8]]) -> Index
    ensures { kind_of result ≡ kinds.Sha512T256 }
{
    let mut entries = Vec::new(alloc);
    let mut end = 0u64;
    for piece in pieces {
        end = end.saturating_add(piece.len() as u64);
        let id = id_of_piece(piece);
        ok(rt, entries.push(Entry { end, id }));
    }
    let index = ok(rt, Index::new(0xa000_0000_0000_0000, 1, 2, 64, entries));
    by_sha512(rt, index)
}
