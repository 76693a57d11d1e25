//! Cutting by vectors, which are from `cut_points` and `window_hash` of tests/formats.py, written from the format's
//! description. Offsets and sizes are in bytes.

use crate::compare::{ok, same};
use crate::images::{ENDS, mixed, sizes_of};
use chunk_ends::cutter::Cutter;
use chunk_ends::sizes::{CutSizes, SizeFault};
use chunk_ends::window::window_hash;
use std::alloc::Global;
use std::process::Abort;

// Where 3000 mixed bytes are cut by the sizes 64, 128 and 67,108,864.
const FREE_ENDS: [u64; 21] = [
    109, 220, 360, 483, 602, 724, 1399, 1631, 1715, 1850, 1946, 2031, 2154, 2243, 2392, 2496, 2652,
    2775, 2872, 2945, 3000,
];

// By 128, 128 and 512.
const EVEN_ENDS: [u64; 15] = [
    132, 360, 529, 724, 1236, 1399, 1631, 1850, 1991, 2154, 2286, 2496, 2652, 2872, 3000,
];

// By 256, 256 and 300.
const NEAR_ENDS: [u64; 10] = [300, 600, 900, 1200, 1500, 1800, 2100, 2400, 2700, 3000];

#[test]
fn windows_have_their_hashes(rt: HostRuntime) {
    same(&rt, window_hash(&[0; 48]), 0x9e48_9e48);
    same(&rt, window_hash(&[0xff; 48]), 0xfdc4_023b);
    let mut rising = [0; 48];
    for i in 0..48u8 {
        rising[i as usize] = i;
    }
    same(&rt, window_hash(&rising), 0x6b67_dec6);
}

// The discriminator of these sizes, or their fault.
fn sizes_give(rt: &impl Abort, sizes: [u64; 3], want: Result<u32, SizeFault>) {
    let [min, avg, max] = sizes;
    let got = match CutSizes::new(min, avg, max) {
        Ok(sizes) => Ok(sizes.discriminator()),
        Err(fault) => Err(fault),
    };
    same(rt, got, want);
}

#[test]
fn sizes_have_their_faults_and_discriminators(rt: HostRuntime) {
    sizes_give(&rt, [47, 40, 30], Err(SizeFault::MinTooSmall));
    sizes_give(&rt, [48, 47, 100], Err(SizeFault::Order));
    sizes_give(&rt, [48, 101, 100], Err(SizeFault::Order));
    sizes_give(
        &rt,
        [48, 4_194_305, 67_108_865],
        Err(SizeFault::AvgTooLarge),
    );
    sizes_give(&rt, [48, 48, 67_108_865], Err(SizeFault::MaxTooLarge));
    sizes_give(&rt, [48, 48, 48], Ok(36));
    sizes_give(&rt, [48, 63, 100], Ok(47));
    sizes_give(&rt, [16_384, 65_536, 262_144], Ok(49_535));
    sizes_give(&rt, [4_194_304, 4_194_304, 67_108_864], Ok(5_721_670));
}

// The ends that a cutter gives of the bytes in pieces of one size.
fn ends_in_pieces(
    rt: &impl Abort,
    alloc: Global,
    sizes: CutSizes,
    image: &[u8],
    size: usize,
) -> Vec<u64> {
    assert!(rt; image.len() < 1_000_000 && 0 < size);
    let mut cutter = ok(rt, Cutter::new(alloc, sizes));
    let mut ends = Vec::new(alloc);
    let mut at = 0usize;
    for piece in image.chunks(size) {
        let mut from = 0usize;
        while from < piece.len() {
            assert!(rt; at < 1_000_000);
            let fed = cutter.feed(&piece[from..]);
            assert!(rt; 0 < fed.taken && fed.taken <= piece.len() - from);
            from += fed.taken;
            at += fed.taken;
            if let Some(end) = fed.end {
                ok(rt, ends.push(end));
            }
        }
    }
    if let Some(end) = cutter.finish() {
        ok(rt, ends.push(end));
    }
    ends
}

// Cuts the image in pieces of each of these sizes and whole.
fn cut_alike(rt: &impl Abort, alloc: Global, sizes: CutSizes, image: &[u8], want: &[u64]) {
    for size in [1, 47, 48, 49, 64, 1000, 600_000] {
        let ends = ends_in_pieces(rt, alloc, sizes, image, size);
        same(rt, ends.as_slice(), want);
    }
}

// Ones and zeros are the specification's examples.
#[test]
fn pieces_do_not_matter(rt: HostRuntime) {
    let alloc = rt.alloc();
    let small = sizes_of(&rt, 48, 63, 100);
    let ones = [0xff; 100];
    cut_alike(&rt, alloc, small, &ones, &[48, 96, 100]);
    cut_alike(&rt, alloc, small, &ones[..48], &[48]);
    cut_alike(&rt, alloc, small, &ones[..47], &[47]);
    cut_alike(&rt, alloc, small, &[0; 200], &[100, 200]);
    cut_alike(&rt, alloc, small, &[], &[]);
}

#[test]
fn many_zeros_are_cut_at_the_greatest_size(rt: HostRuntime) {
    let alloc = rt.alloc();
    let usual = sizes_of(&rt, 16_384, 65_536, 262_144);
    let zeros = ok(&rt, vec![in alloc; 0u8; 600_000]);
    let ends = ends_in_pieces(&rt, alloc, usual, zeros.as_slice(), 65_536);
    same(&rt, ends.as_slice(), [262_144, 524_288, 600_000].as_slice());
}

#[test]
fn images_are_cut_by_their_bytes(rt: HostRuntime) {
    let alloc = rt.alloc();
    let image = mixed(&rt, alloc, 3000);
    cut_alike(&rt, alloc, sizes_of(&rt, 64, 128, 512), &image, &ENDS);
    // The greatest size is never met.
    cut_alike(
        &rt,
        alloc,
        sizes_of(&rt, 64, 128, 67_108_864),
        &image,
        &FREE_ENDS,
    );
    // The least size is the average, and near the greatest.
    cut_alike(&rt, alloc, sizes_of(&rt, 128, 128, 512), &image, &EVEN_ENDS);
    cut_alike(&rt, alloc, sizes_of(&rt, 256, 256, 300), &image, &NEAR_ENDS);
}
