//! Tests of the survey of a target by several workers. Entries are chunks of two bytes.

ghost use Rattle.std.specs.Prelude.{◌≡◌, ◌<◌, All, IfOk, length, vec_len};
ghost use Rattle.caibx_codec.specs.Listing.{count_of};
ghost use Rattle.owned_shards.specs.Shares.{TakesEach};
ghost use Rattle.owned_shards.specs.Wholes.{IsRunOver};

use crate::meeting::{Meeting, Met};
use byte_forms::mem_target::MemTarget;
use byte_forms::ranges::RangeFails;
use caibx_codec::index::{Entry, Index};
use chunk_store::id::{ChunkId, DigestKind};
use dsy_base::view::{Part, Target, View};
use extract_plan::plan::Plan;
use owned_shards::survey::survey_shards;
use range_ledger::ledger::Ledger;
use range_ledger::run::RunName;
use range_survey::fate::Fate;
use std::alloc::Global;
use std::marker::Brand;
use std::process::Abort;
use std::sync::Arc;
use std::thread::Threads;

// How many turns a part waits for another one.
const TURNS: u64 = 10_000_000;

// The chunk of an entry.
fn chunk(entry: usize) -> [u8; 2] {
    [(entry % 251) as u8, (entry / 251 % 251) as u8]
}

// The index of an image with `count` chunks.
fn index_of(rt: &impl Abort, alloc: Global, count: usize) -> Index {
    let mut entries = Vec::new(alloc);
    let mut end = 0u64;
    for entry in 0..count {
        end = end.saturating_add(2);
        let id = ChunkId::of(DigestKind::Sha512T256, &chunk(entry));
        entries.push(Entry { end, id }).expect(rt, "memory");
    }
    Index::new(0xa000_0000_0000_0000, 1, 2, 64, entries).expect(rt, "an index")
}

// The first `length` bytes of that image, in which each third chunk is another one.
fn old_bytes(rt: &impl Abort, alloc: Global, length: usize) -> Vec<u8> {
    let mut bytes = Vec::new(alloc);
    for at in 0..length {
        let entry = at / 2;
        let byte = if entry % 3 == 2 {
            0xee
        } else {
            chunk(entry)[at % 2]
        };
        bytes.push(byte).expect(rt, "memory");
    }
    bytes
}

// `count` buffers, each with room for the largest entry.
fn buffers_of(rt: &impl Abort, alloc: Global, index: &Index, count: usize) -> Vec<Vec<u8>>
    ensures size { vec_len result ≡ count }
    ensures room { All (λ b. TakesEach index.now (vec_len b)) result.items }
{
    let mut buffers = Vec::new(alloc);
    for _ in 0..count {
        let buffer = index.room(alloc).expect(rt, "memory");
        buffers.push(buffer).expect(rt, "memory");
    }
    buffers
}

// What became of each entry in the survey of a target.
fn fates<H: Abort + Threads + Sync, R: RunName + Send + Sync, T: Target>(
    rt: &H,
    alloc: Global,
    index: &Index,
    plan: &Plan,
    target: T,
    workers: usize,
) -> Vec<Fate>
where
    T::Piece: Send,
    requires some { 0 < workers }
    requires over { IsRunOver R.run index.now plan.now T.tells (T.held target) }
{
    let mut buffers = buffers_of(rt, alloc, index, workers);
    let surveyed = survey_shards::<H, R, T>(rt, alloc, index, plan, target, &mut buffers);
    let Ok(shards) = surveyed else {
        panic!(rt; "the survey was refused");
    };
    shards.rules();
    let mut fates = Vec::new(alloc);
    for entry in 0..index.count() {
        fates.push(shards.fate(entry)).expect(rt, "memory");
    }
    fates
}

// Workers find which entries of an image with `count` chunks are kept in its first `length` bytes.
fn finds<H: Abort + Threads + Sync>(
    rt: &H,
    alloc: Global,
    count: usize,
    length: usize,
    workers: usize,
) {
    let index = index_of(rt, alloc, count);
    for planned in 1..3usize {
        let plan = Plan::of(alloc, &index, planned).expect(rt, "a plan");
        let old = old_bytes(rt, alloc, length);
        let target = MemTarget::new(alloc, old, RangeFails::none(alloc));
        let found = fates::<H, Brand, MemTarget>(rt, alloc, &index, &plan, target, workers.max(1));
        assert_eq!(rt; found.len(), count);
        for entry in 0..found.len() {
            let kept = entry % 3 != 2 && entry < length / 2 || chunk(entry) == [0, 0];
            let fate = if kept { Fate::Kept } else { Fate::Open };
            assert_eq!(rt; found[entry], fate);
        }
    }
}

#[test]
fn any_number_of_workers_finds_the_same(rt: HostRuntime) {
    for workers in [1usize, 2, 4, 32] {
        for count in [0usize, 1, 5, 70] {
            finds(&rt, rt.alloc(), count, count * 2, workers);
            finds(&rt, rt.alloc(), count, count, workers);
            finds(&rt, rt.alloc(), count, 0, workers);
        }
    }
}

// How many parts were read at first, and how many of them alone, in a survey by `workers` workers.
fn meets<H: Abort + Threads + Sync>(
    rt: &H,
    alloc: Global,
    workers: usize,
    turns: u64,
) -> (u64, u64) {
    let index = index_of(rt, alloc, 4);
    let plan = Plan::of(alloc, &index, 1).expect(rt, "a plan");
    let meeting = Arc::new(alloc, Meeting::new(turns)).expect(rt, "memory");
    let theirs = Arc::try_clone(&meeting).expect(rt, "memory");
    let target = Met::new(old_bytes(rt, alloc, 8), theirs);
    fates::<H, Brand, Met>(rt, alloc, &index, &plan, target, workers.max(1));
    (meeting.came(), meeting.alone())
}

#[test]
fn two_workers_read_side_by_side(rt: HostRuntime) {
    assert_eq!(rt; meets(&rt, rt.alloc(), 2, TURNS), (4, 0));
}

#[test]
fn one_worker_reads_a_part_after_the_other(rt: HostRuntime) {
    assert_eq!(rt; meets(&rt, rt.alloc(), 1, 10), (4, 1));
}
