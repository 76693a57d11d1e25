//! Ranges of images all of whose chunks are stored.

use crate::compare::{ok, same};
use crate::images::{ABC, AGAIN, ALL, DEF, GHI, Listed, THREE, open_over};
use std::alloc::Global;
use std::process::Abort;

#[test]
fn a_range_across_chunks_is_read(rt: HostRuntime) {
    let alloc = rt.alloc();
    let mut opened = open_over(&rt, alloc, THREE, ALL, 8);
    opened.gives(&rt, alloc, 2, b"cdefg", 3);
    opened.gives(&rt, alloc, 9, b"", 3);
    opened.gives(&rt, alloc, 4, b"efghi", 3);
    opened.gives(&rt, alloc, 0, b"abcdefghi", 3);
}

#[test]
fn covered_chunks_alone_are_asked_for(rt: HostRuntime) {
    let alloc = rt.alloc();
    let mut opened = open_over(&rt, alloc, THREE, ALL, 1);
    opened.gives(&rt, alloc, 9, b"", 0);
    opened.gives(&rt, alloc, 0, b"", 0);
    opened.gives(&rt, alloc, 3, b"def", 1);
    opened.gives(&rt, alloc, 5, b"f", 1);
    opened.gives(&rt, alloc, 6, b"g", 2);
    opened.gives(&rt, alloc, 2, b"cd", 4);
}

// A chunk that is listed twice is asked for once more where it was dropped meanwhile.
#[test]
fn so_many_chunks_are_kept(rt: HostRuntime) {
    let alloc = rt.alloc();
    open_over(&rt, alloc, AGAIN, ALL, 1).gives(&rt, alloc, 0, b"abcdefabc", 3);
    open_over(&rt, alloc, AGAIN, ALL, 2).gives(&rt, alloc, 0, b"abcdefabc", 2);
}

#[test]
fn the_chunk_whose_use_was_longest_ago_is_dropped(rt: HostRuntime) {
    let alloc = rt.alloc();
    let mut opened = open_over(&rt, alloc, THREE, ALL, 2);
    opened.gives(&rt, alloc, 0, b"abc", 1);
    opened.gives(&rt, alloc, 3, b"def", 2);
    opened.gives(&rt, alloc, 0, b"abc", 2);
    opened.gives(&rt, alloc, 6, b"ghi", 3);
    opened.gives(&rt, alloc, 0, b"abc", 3);
    opened.gives(&rt, alloc, 3, b"def", 4);
}

// Seven chunks, of which some are listed more than once.
const SEVEN: &[Listed] = &[
    (ABC, 3),
    (DEF, 3),
    (ABC, 3),
    (GHI, 3),
    (GHI, 3),
    (DEF, 3),
    (ABC, 3),
];

fn reads_each_range(rt: &impl Abort, alloc: Global, image: &[u8]) {
    let mut opened = open_over(rt, alloc, SEVEN, ALL, 2);
    for from in 0..=image.len() {
        for to in from..=image.len() {
            let want = &image[from..to];
            let mut out = ok(rt, vec![in alloc; 0u8; want.len()]);
            same(rt, opened.read(rt, from as u64, out.as_mut_slice()), Ok(()));
            same(rt, out.as_slice(), want);
        }
    }
}

#[test]
fn each_range_is_read_from_its_first_byte_to_its_last(rt: HostRuntime) {
    reads_each_range(&rt, rt.alloc(), b"abcdefabcghighidefabc");
}
