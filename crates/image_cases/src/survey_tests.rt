//! Targets in memory that are surveyed. Offsets are bytes from 0.

ghost use Rattle.std.specs.Prelude.{◌≡◌};
ghost use Rattle.owned_shards.specs.Wholes.{IsRunOver};

use crate::compare::{ok, same};
use crate::indexes::{id_of, index_of_pieces};
use byte_forms::mem_target::MemTarget;
use byte_forms::ranges::RangeFails;
use caibx_codec::index::Index;
use dsy_base::view::{Part, Target, View};
use extract_plan::plan::Plan;
use owned_shards::shards::Shards;
use owned_shards::survey::survey_shards;
use range_ledger::ledger::Ledger;
use range_ledger::run::RunName;
use range_survey::fate::Fate;
use range_survey::zeros::ZeroDigests;
use std::alloc::Global;
use std::marker::Brand;
use std::process::Abort;
use std::thread::Threads;

// The index of an image in four pieces, of which two are one.
fn index(rt: &impl Abort, alloc: Global) -> Index {
    index_of_pieces(rt, alloc, &[b"abc", b"\0\0\0\0", b"gh", b"abc"])
}

// These of the four entries are kept, and the others are open.
fn has_kept<R: RunName, T: Target>(
    rt: &impl Abort,
    index: &Index,
    shards: &Shards<R, T>,
    kept: [bool; 4],
)
    requires dealt { R.run.listing ≡ index.now }
{
    for entry in 0..4 {
        assert!(rt; entry < index.count());
        let fate = if kept[entry] { Fate::Kept } else { Fate::Open };
        same(rt, shards.fate(entry), fate);
    }
}

// Surveys the shards of a target, and compares which of its four entries were kept.
fn surveys<H: Abort + Threads + Sync, R: RunName + Send + Sync, T: Target>(
    rt: &H,
    alloc: Global,
    index: &Index,
    plan: &Plan,
    target: T,
    kept: [bool; 4],
) -> T
where
    T::Piece: Send,
    requires over { IsRunOver R.run index.now plan.now T.tells (T.held target) }
{
    let mut buffers = Vec::new(alloc);
    ok(rt, buffers.push(ok(rt, index.room(alloc))));
    let surveyed = survey_shards::<H, R, T>(rt, alloc, index, plan, target, &mut buffers);
    let Ok(shards) = surveyed else {
        panic!(rt; "not surveyed");
    };
    has_kept(rt, index, &shards, kept);
    shards.into_target()
}

// Surveys these bytes, of which the read of this offset fails once, and compares which entries were kept. The others
// are open. Each entry is a shard.
fn keeps<H: Abort + Threads + Sync>(
    rt: &H,
    alloc: Global,
    old: &[u8],
    fails_at: u64,
    kept: [bool; 4],
) {
    let index = index(rt, alloc);
    let plan = ok(rt, Plan::of(alloc, &index, 1));
    let mut fails = RangeFails::none(alloc);
    ok(rt, fails.reads.push((fails_at, 1)));
    let target = MemTarget::new(alloc, ok(rt, Vec::from_slice(alloc, old)), fails);
    let target = surveys::<H, Brand, MemTarget>(rt, alloc, &index, &plan, target, kept);
    same(rt, target.bytes().len(), 12);
}

#[test]
fn ranges_past_the_old_length_are_not_read(rt: HostRuntime) {
    let alloc = rt.alloc();
    // Entry 1 lies past the old length, and its read would fail.
    keeps(&rt, alloc, b"abc", 4, [true, true, false, false]);
    // It begins before the old length, is read, and the read fails.
    keeps(&rt, alloc, b"abc\0", 4, [true, false, false, false]);
    keeps(&rt, alloc, b"abc\0", 100, [true, true, false, false]);
    keeps(&rt, alloc, b"abc", 1, [false, true, false, false]);
    keeps(
        &rt,
        alloc,
        b"abc\0\0\0\0ghabcdef",
        100,
        [true, true, true, true],
    );
}

// The table for a target of the old length has this digest for this many zeros.
fn names(rt: &impl Abort, alloc: Global, old: u64, size: usize, digits: Option<&str>) {
    let index = index(rt, alloc);
    let mut buf = ok(rt, index.room(alloc));
    let zeros = ok(rt, ZeroDigests::of(alloc, &index, old, &mut buf));
    let name = match digits {
        Some(digits) => Some(id_of(rt, digits)),
        None => None,
    };
    same(rt, zeros.digest(index.kind(), size), name);
}

// The digests are those that OpenSSL tells of zeros.
#[test]
fn only_sizes_past_the_old_length_are_named(rt: HostRuntime) {
    let alloc = rt.alloc();
    let three = "57635d1312569b5a4c4c26fd7b5df0ed403045e9608e9b14eae870588848e4d9";
    let four = "b5e076ab7609c7f8c763b5c571d07aea80b06b41452231b1437370f4964ed66e";
    names(&rt, alloc, 3, 3, Some(three));
    names(&rt, alloc, 3, 4, Some(four));
    names(&rt, alloc, 3, 5, None);
    names(&rt, alloc, 4, 4, None);
    names(&rt, alloc, 9, 3, Some(three));
    names(&rt, alloc, 12, 3, None);
}
