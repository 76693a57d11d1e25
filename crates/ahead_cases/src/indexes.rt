//! Indexes of small images, and the digests of their chunks. Sizes are in bytes.

ghost use Rattle.std.specs.Prelude.{◌≡◌};
ghost use Rattle.caibx_codec.specs.Listing.{kind_of};
ghost use Rattle.chunk_store.specs.declared.id.DigestKind.TheVariants as kinds;

use crate::compare::ok;
use caibx_codec::index::{Entry, Index};
use chunk_store::id::{ChunkId, DigestKind};
use std::alloc::Global;
use std::process::Abort;

/// SHA-512/256 of `abc`, from FIPS 180-4's examples. The others are from `openssl dgst -sha512-256`.
pub const ABC: &str = "53048e2681941ef99b2e29b76b4c7dabe4c2d0c634fc6d46e0e2f13107e7af23";

/// SHA-512/256 of `abX`.
pub const ABX: &str = "69b9fe464181451d00de83054c5fd4017d2537e0c35399e228a72f14ec546a03";

/// SHA-512/256 of `def`.
pub const DEF: &str = "f391834ba55302124fbcfc8df6831a666e468b310e99295e1fce0abf8ef9ec3f";

/// SHA-512/256 of `ghi`.
pub const GHI: &str = "63123fe62044f1e4dbbf64b82b92ab2eac598efe9171126ddf9faa8865267d99";

/// SHA-512/256 of `jkl`.
pub const JKL: &str = "7f5adb26c3f53b3fed0d67b85b129fc19ee8df23dffdcc40167b3d9833fa3fb0";

/// SHA-512/256 of `mno`.
pub const MNO: &str = "6b3443850ca9b33d2f554e50266c9316740a1488d1a8b2bc9c99f5a0e56da303";

/// SHA-512/256 of `pqr`.
pub const PQR: &str = "5edab707759604f989d55b6fb4aaac8de1192b30b7f07d1a6afa442d2e058c8f";

/// The id that has these digits.
pub fn id_of(rt: &impl Abort, text: &str) -> ChunkId {
    ok(rt, ChunkId::from_hex(text))
}

// The same index, whose chunks are named by SHA-512/256.
fn by_sha512(rt: &impl Abort, index: Index) -> Index
    ensures { kind_of result ≡ kinds.Sha512T256 }
{
    let by = match index.kind() {
        DigestKind::Sha512T256 => Some(index),
        DigestKind::Sha256 => None,
    };
    by.expect(rt, "an index by SHA-512/256")
}

/// The index of chunks of three bytes with these names.
pub fn index_of(rt: &impl Abort, alloc: Global, names: &[&str]) -> Index
    ensures { kind_of result ≡ kinds.Sha512T256 }
{
    let mut entries = Vec::new(alloc);
    let mut end = 0u64;
    for name in names {
        end = end.saturating_add(3);
        let id = id_of(rt, name);
        ok(rt, entries.push(Entry { end, id }));
    }
    let index = ok(
        rt,
        Index::new(0xa000_0000_0000_0000, 16_384, 65_536, 262_144, entries),
    );
    by_sha512(rt, index)
}
