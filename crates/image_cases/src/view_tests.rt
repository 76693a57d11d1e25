//! Images indexed with any number of views. Their ends are from `cut_points` of tests/formats.py. Offsets and sizes are
//! in bytes.

ghost use Rattle.std.specs.Prelude.{◌<◌};

use crate::compare::{ok, same};
use crate::images::{ENDS, gated, mixed, sizes_of, views_of};
use crate::indexes::{ABC, id_of};
use buzhash_cut::image::{index_view, index_view_as};
use caibx_codec::index::Index;
use chunk_ends::sizes::CutSizes;
use chunk_store::id::DigestKind;
use std::alloc::Global;
use std::process::Abort;
use std::thread::Threads;

/// SHA-256 of `abc`, from FIPS 180-4's examples.
const ABC_BY_SHA256: &str = "ba7816bf8f01cfea414140de5dae2223b00361a396177a9cb410ff61f20015ad";

// The index lists these ends, each with the digest of its chunk.
fn lists(rt: &impl Abort, kind: DigestKind, index: &Index, image: &[u8], ends: &[u64]) {
    same(rt, index.count(), ends.len());
    let mut start = 0;
    for i in 0..ends.len() {
        assert!(rt; i < index.count());
        same(rt, index.end(i), ends[i]);
        let end = ends[i] as usize;
        assert!(rt; start <= end && end <= image.len());
        let bytes = &image[start..end];
        same(rt, index.id(i).is_of(kind, bytes), true);
        start = end;
    }
}

// The index by this many views of the image, which are handed back.
fn indexed<R: Abort + Threads + Sync>(
    rt: &R,
    alloc: Global,
    sizes: &CutSizes,
    kind: DigestKind,
    image: &[u8],
    count: usize,
) -> Index
    requires { 0 < count }
{
    let views = views_of(rt, alloc, image, count);
    let (views, answer) = index_view_as(rt, alloc, views, sizes, kind);
    same(rt, views.len(), count);
    ok(rt, answer)
}

// The index by this many views has these flags, sizes and ends.
fn indexed_as<R: Abort + Threads + Sync>(
    rt: &R,
    alloc: Global,
    sizes: &CutSizes,
    by: (DigestKind, u64),
    image: &[u8],
    ends: &[u64],
    count: usize,
)
    requires { 0 < count }
{
    let (kind, flags) = by;
    let index = indexed(rt, alloc, sizes, kind, image, count);
    same(rt, index.flags(), flags);
    same(rt, index.min(), sizes.min());
    same(rt, index.avg(), sizes.avg());
    same(rt, index.max(), sizes.max());
    lists(rt, kind, &index, image, ends);
}

// The index of the image by SHA-512/256 is the same by any number of views.
fn indexed_alike<R: Abort + Threads + Sync>(
    rt: &R,
    alloc: Global,
    sizes: &CutSizes,
    image: &[u8],
    ends: &[u64],
) {
    let by = (DigestKind::Sha512T256, 0xa000_0000_0000_0000);
    for count in [1, 2, 3, 32] {
        assert!(rt; 0 < count);
        indexed_as(rt, alloc, sizes, by, image, ends, count);
    }
}

// And so is that by SHA-256.
fn indexed_alike_by_sha256<R: Abort + Threads + Sync>(
    rt: &R,
    alloc: Global,
    sizes: &CutSizes,
    image: &[u8],
    ends: &[u64],
) {
    let by = (DigestKind::Sha256, 0x8000_0000_0000_0000);
    for count in [1, 2, 3, 32] {
        assert!(rt; 0 < count);
        indexed_as(rt, alloc, sizes, by, image, ends, count);
    }
}

// The index of "abc" by this digest has these flags, and its only chunk this id.
fn abc_is_indexed<R: Abort + Threads + Sync>(
    rt: &R,
    alloc: Global,
    kind: DigestKind,
    flags: u64,
    id: &str,
) {
    let index = indexed(rt, alloc, &sizes_of(rt, 48, 63, 100), kind, b"abc", 1);
    same(rt, index.flags(), flags);
    same(rt, index.kind(), kind);
    same(rt, index.count(), 1);
    assert!(rt; index.count() == 1);
    same(rt, index.end(0), 3);
    same(rt, index.id(0), id_of(rt, id));
}

#[test]
fn chunks_are_named_by_the_digest_that_is_said(rt: HostRuntime) {
    let alloc = rt.alloc();
    abc_is_indexed(
        &rt,
        alloc,
        DigestKind::Sha512T256,
        0xa000_0000_0000_0000,
        ABC,
    );
    abc_is_indexed(
        &rt,
        alloc,
        DigestKind::Sha256,
        0x8000_0000_0000_0000,
        ABC_BY_SHA256,
    );
}

// Where no digest is said it is SHA-512/256.
fn abc_is_indexed_as_usual<R: Abort + Threads + Sync>(rt: &R, alloc: Global) {
    let views = views_of(rt, alloc, b"abc", 1);
    let (_views, answer) = index_view(rt, alloc, views, &sizes_of(rt, 48, 63, 100));
    let index = ok(rt, answer);
    same(rt, index.flags(), 0xa000_0000_0000_0000);
    assert!(rt; index.count() == 1);
    same(rt, index.id(0), id_of(rt, ABC));
}

#[test]
fn chunks_are_named_by_sha_512_256_where_no_digest_is_said(rt: HostRuntime) {
    abc_is_indexed_as_usual(&rt, rt.alloc());
}

// Ones close at the least size, zeros at the greatest alone.
#[test]
fn an_index_is_the_same_by_any_number_of_views(rt: HostRuntime) {
    let alloc = rt.alloc();
    let small = sizes_of(&rt, 48, 63, 100);
    let ones = [0xff; 100];
    indexed_alike(&rt, alloc, &small, &ones, &[48, 96, 100]);
    indexed_alike(&rt, alloc, &small, &ones[..7], &[7]);
    indexed_alike(&rt, alloc, &small, &[], &[]);
    indexed_alike(&rt, alloc, &small, &[0; 200], &[100, 200]);
    let image = mixed(&rt, alloc, 3000);
    indexed_alike(&rt, alloc, &sizes_of(&rt, 64, 128, 512), &image, &ENDS);
}

#[test]
fn an_index_by_sha256_is_the_same_by_any_number_of_views(rt: HostRuntime) {
    let alloc = rt.alloc();
    let small = sizes_of(&rt, 48, 63, 100);
    indexed_alike_by_sha256(&rt, alloc, &small, &[0; 200], &[100, 200]);
    let image = mixed(&rt, alloc, 3000);
    indexed_alike_by_sha256(&rt, alloc, &sizes_of(&rt, 64, 128, 512), &image, &ENDS);
}

#[test]
fn many_zeros_are_indexed_by_any_number_of_views(rt: HostRuntime) {
    let alloc = rt.alloc();
    let usual = sizes_of(&rt, 16_384, 65_536, 262_144);
    let zeros = ok(&rt, vec![in alloc; 0u8; 600_000]);
    indexed_alike(&rt, alloc, &usual, &zeros, &[262_144, 524_288, 600_000]);
}

// Two views of zeros, which both are read before either has read anything.
fn read_at_once<R: Abort + Threads + Sync>(rt: &R, alloc: Global) {
    let zeros = ok(rt, vec![in alloc; 0u8; 600_000]);
    let views = gated(rt, alloc, &zeros);
    let (views, answer) = index_view(rt, alloc, views, &sizes_of(rt, 16_384, 65_536, 262_144));
    lists(
        rt,
        DigestKind::Sha512T256,
        &ok(rt, answer),
        &zeros,
        &[262_144, 524_288, 600_000],
    );
    same(rt, views.len(), 2);
    for view in &views {
        same(rt, view.has_passed(), true);
    }
}

#[test]
fn two_views_are_read_at_once(rt: HostRuntime) {
    read_at_once(&rt, rt.alloc());
}
