//! Tests of what two workers leave of a target whose shards stand behind locks.

ghost use Rattle.std.specs.Prelude.{◌≡◌};

use crate::filling::{Done, filled};
use byte_forms::mem_target::MemTarget;
use byte_forms::ranges::RangeFails;
use caibx_codec::index::{Entry, Index};
use chunk_store::id::{ChunkId, DigestKind};
use dsy_base::view::{Part, View};
use extract_plan::plan::Plan;
use std::alloc::Global;
use std::marker::Brand;
use std::process::Abort;
use std::sync::Wait;
use std::thread::Threads;

const PIECES: [&[u8]; 9] = [
    b"ab", b"cd", b"ef", b"gh", b"ij", b"kl", b"mn", b"op", b"qr",
];

// The index of an image in these pieces.
fn index_of(rt: &impl Abort, alloc: Global, pieces: &[&[u8]]) -> Index {
    let mut entries = Vec::new(alloc);
    let mut end = 0u64;
    for piece in pieces {
        end = end.saturating_add(piece.len() as u64);
        let id = ChunkId::of(DigestKind::Sha512T256, piece);
        entries.push(Entry { end, id }).expect(rt, "memory");
    }
    Index::new(0xa000_0000_0000_0000, 1, 2, 64, entries).expect(rt, "an index")
}

// What a worker has done that put this many chunks, and read all of them back.
fn all_put(count: usize) -> Done {
    Done {
        put: count,
        settled: 0,
        failed: 0,
        read: count,
    }
}

// Two workers fill a target that holds `old`, and leave `new`.
fn fill<H: Abort + Threads + Wait + Sync>(
    rt: &H,
    alloc: Global,
    old: &[u8],
    fails: RangeFails,
    new: &[u8],
) -> (Done, Done) {
    let index = index_of(rt, alloc, &PIECES);
    let plan = Plan::of(alloc, &index, 2).expect(rt, "a plan");
    let bytes = Vec::from_slice(alloc, old).expect(rt, "memory");
    let target = MemTarget::new(alloc, bytes, fails);
    let (target, first, second) = filled::<H, Brand, MemTarget>(
        rt, alloc, &index, &plan, target, &PIECES,
    );
    assert_eq!(rt; target.bytes(), new);
    (first, second)
}

#[test]
fn two_workers_fill_a_target(rt: HostRuntime) {
    let none = RangeFails::none(rt.alloc());
    let (first, second) = fill(&rt, rt.alloc(), b"", none, b"abcdefghijklmnopqr");
    assert_eq!(rt; first, all_put(5));
    assert_eq!(rt; second, all_put(4));
}

#[test]
fn entries_that_the_survey_found_right_are_skipped(rt: HostRuntime) {
    let none = RangeFails::none(rt.alloc());
    let (first, second) = fill(
        &rt,
        rt.alloc(),
        b"ab..efgh..........",
        none,
        b"abcdefghijklmnopqr",
    );
    assert_eq!(rt;
        first,
        Done {
            put: 3,
            settled: 2,
            failed: 0,
            read: 5
        }
    );
    assert_eq!(rt;
        second,
        Done {
            put: 3,
            settled: 1,
            failed: 0,
            read: 4
        }
    );
}

#[test]
fn a_failed_write_leaves_its_entry_open(rt: HostRuntime) {
    let mut fails = RangeFails::none(rt.alloc());
    fails.writes.push((4, 1)).expect(&rt, "memory");
    let (first, second) = fill(&rt, rt.alloc(), b"", fails, b"abcd\xee\xeeghijklmnopqr");
    assert_eq!(rt;
        first,
        Done {
            put: 4,
            settled: 0,
            failed: 1,
            read: 4
        }
    );
    assert_eq!(rt; second, all_put(4));
}

#[test]
fn a_failed_read_gives_no_chunk(rt: HostRuntime) {
    let mut fails = RangeFails::none(rt.alloc());
    fails.reads.push((6, 1)).expect(&rt, "memory");
    let (first, second) = fill(&rt, rt.alloc(), b"", fails, b"abcdefghijklmnopqr");
    assert_eq!(rt; first, all_put(5));
    assert_eq!(rt;
        second,
        Done {
            put: 4,
            settled: 0,
            failed: 0,
            read: 3
        }
    );
}
