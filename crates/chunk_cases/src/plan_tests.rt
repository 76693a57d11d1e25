//! Plans of small indexes, and where seeds list their chunks. Entries are named by one letter each.

use crate::compare::{ok, same};
use byte_forms::mem_view::MemView;
use caibx_codec::index::{Entry, Index};
use chunk_store::id::{ChunkId, DigestKind};
use extract_plan::plan::Plan;
use extract_plan::seed::{Seed, SeedAnswer, SeedPlace, seed_gives};
use extract_plan::seeds::SeedIndex;
use std::alloc::Global;
use std::process::Abort;

/// The index of chunks with these bytes.
pub(crate) fn index(rt: &impl Abort, alloc: Global, chunks: &[&[u8]]) -> Index {
    let mut entries = Vec::new(alloc);
    let mut end = 0u64;
    for chunk in chunks {
        end = end.saturating_add(chunk.len() as u64);
        let id = ChunkId::of(DigestKind::Sha512T256, chunk);
        ok(rt, entries.push(Entry { end, id }));
    }
    ok(rt, Index::new(0xa000_0000_0000_0000, 1, 4, 16, entries))
}

// Six chunks, of which three are alike and two.
fn six(rt: &impl Abort, alloc: Global) -> Index {
    index(rt, alloc, &[b"abc", b"def", b"abc", b"g", b"def", b"abc"])
}

#[test]
fn alike_entries_are_one_want(rt: HostRuntime) {
    let alloc = rt.alloc();
    let index = six(&rt, alloc);
    let plan = ok(&rt, Plan::of(alloc, &index, 2));
    assert!(rt; plan.wants() == 3);
    same(&rt, plan.entries(0), [0u32, 2, 5].as_slice());
    same(&rt, plan.entries(1), [1u32, 4].as_slice());
    same(&rt, plan.entries(2), [3u32].as_slice());
    for (entry, want) in [0, 1, 0, 2, 1, 0].iter().enumerate() {
        assert!(rt; entry < index.count());
        same(&rt, plan.want_of(entry), *want);
        same(&rt, plan.worker_of(*want), *want % 2);
    }
}

#[test]
fn shards_end_with_entries(rt: HostRuntime) {
    let alloc = rt.alloc();
    let index = six(&rt, alloc);
    let plan = ok(&rt, Plan::of(alloc, &index, 1));
    same(&rt, plan.shards(), 4);
    same(&rt, plan.cuts(), [3u64, 9, 10, 16].as_slice());
    let shards = [0, 1, 1, 2, 3, 3];
    for (entry, shard) in shards.iter().enumerate() {
        assert!(rt; entry < index.count());
        same(&rt, plan.shard_of(entry), *shard);
    }
}

#[test]
fn nothing_is_wanted_for_an_empty_image(rt: HostRuntime) {
    let alloc = rt.alloc();
    let plan = ok(&rt, Plan::of(alloc, &index(&rt, alloc, &[]), 32));
    same(&rt, plan.wants(), 0);
    same(&rt, plan.shards(), 0);
    same(&rt, plan.cuts().len(), 0);
}

fn place(seed: u32, start: u64, size: u32) -> SeedPlace {
    SeedPlace {
        seed,
        start,
        size,
        kind: DigestKind::Sha512T256,
    }
}

// Four seeds, of which one is empty.
fn seeds_of(rt: &impl Abort, alloc: Global) -> [Index; 4] {
    [
        index(rt, alloc, &[b"g", b"abc", b"abc"]),
        index(rt, alloc, &[b"hi", b"def"]),
        index(rt, alloc, &[]),
        index(rt, alloc, &[b"abc"]),
    ]
}

#[test]
fn places_of_wants_are_listed_by_seed(rt: HostRuntime) {
    let alloc = rt.alloc();
    let wanted = index(&rt, alloc, &[b"abc", b"def", b"abc", b"g"]);
    let plan = ok(&rt, Plan::of(alloc, &wanted, 1));
    assert!(rt; plan.wants() == 3);
    let seeds = seeds_of(&rt, alloc);
    let placed = ok(&rt, SeedIndex::of(alloc, &plan, &wanted, &seeds));
    let abc = [place(0, 1, 3), place(0, 4, 3), place(3, 0, 3)];
    same(&rt, placed.places(0), abc.as_slice());
    same(&rt, placed.places(1), [place(1, 2, 3)].as_slice());
    same(&rt, placed.places(2), [place(0, 0, 1)].as_slice());
}

// What a seed answers for "def", named by this kind, at this place.
fn gives_by(
    rt: &impl Abort,
    kind: DigestKind,
    seed: &mut Seed<MemView>,
    start: u64,
    want: SeedAnswer,
) {
    let id = ChunkId::of(kind, b"def");
    let place = SeedPlace {
        seed: 0,
        start,
        size: 3,
        kind,
    };
    let mut out = [0; 3];
    same(rt, seed_gives(seed, &place, &id, &mut out), want);
    if want == SeedAnswer::Given {
        same(rt, out, *b"def");
    }
}

// What it answers for "def" named by SHA-512/256.
fn gives(rt: &impl Abort, seed: &mut Seed<MemView>, start: u64, want: SeedAnswer) {
    gives_by(rt, DigestKind::Sha512T256, seed, start, want);
}

#[test]
fn a_seed_names_bytes_by_the_kind_of_the_place(rt: HostRuntime) {
    let alloc = rt.alloc();
    let bytes = ok(&rt, Vec::from_slice(alloc, b"abcdef"));
    let view = MemView::new(alloc, bytes, Vec::new(alloc));
    let mut seed = Seed { view: Some(view) };
    gives_by(&rt, DigestKind::Sha256, &mut seed, 3, SeedAnswer::Given);
    gives_by(&rt, DigestKind::Sha256, &mut seed, 2, SeedAnswer::Wrong);
}

#[test]
fn a_seed_gives_the_bytes_of_an_id(rt: HostRuntime) {
    let alloc = rt.alloc();
    let bytes = ok(&rt, Vec::from_slice(alloc, b"abcdef"));
    let view = MemView::new(alloc, bytes, Vec::new(alloc));
    let mut seed = Seed { view: Some(view) };
    gives(&rt, &mut seed, 3, SeedAnswer::Given);
    gives(&rt, &mut seed, 2, SeedAnswer::Wrong);
    gives(&rt, &mut seed, 4, SeedAnswer::Wrong);
    gives(&rt, &mut seed, 7, SeedAnswer::Wrong);
    gives(&rt, &mut seed, u64::MAX, SeedAnswer::Wrong);
    let mut absent: Seed<MemView> = Seed { view: None };
    gives(&rt, &mut absent, 3, SeedAnswer::Wrong);
}
