//! Tests of shards, which know which of their entries are right. Entries are chunks of one byte.

ghost use Rattle.std.specs.Prelude.{◌≡◌, ◌<◌, ℕ, false, true};
ghost use Rattle.caibx_codec.specs.Listing.{count_of};
ghost use Rattle.range_ledger.specs.Runs.{Has, IsDealt, has_settled};

use crate::compare::{ok, same};
use crate::indexes::index_of_pieces;
use byte_forms::mem_target::MemTarget;
use byte_forms::ranges::RangeFails;
use caibx_codec::index::Index;
use dsy_base::view::{Part, View};
use extract_plan::plan::Plan;
use range_ledger::run::RunName;
use range_ledger::shard::Shard;
use range_ledger::unread::{Surveyed, Unread, open_fates, shard_size};
use range_survey::fate::Fate;
use range_survey::zeros::ZeroDigests;
use std::alloc::Global;
use std::marker::Brand;
use std::process::Abort;

// Whether the entry's chunk is put.
fn puts<P: Part, R: RunName>(
    rt: &impl Abort,
    index: &Index,
    plan: &Plan,
    shard: &mut Shard<P, R>,
    entry: usize,
    chunk: &[u8],
) -> bool
    requires dealt { IsDealt R.run index.now plan.now }
    requires may { (e : ℕ) → R.run.may e ≡ true }
    requires untold { R.run.tells ≡ false }
{
    assert!(rt; entry < index.count() && plan.shard_of(entry) == shard.number());
    assert!(rt; index.entry(entry).size == chunk.len());
    shard.put(entry, chunk, Fate::Fetched).is_ok()
}

// The entry is settled, and reads as these bytes.
fn reads<P: Part, R: RunName>(
    rt: &impl Abort,
    index: &Index,
    plan: &Plan,
    shard: &mut Shard<P, R>,
    entry: usize,
    chunk: &[u8],
)
    requires dealt { IsDealt R.run index.now plan.now }
{
    let mut out = [0u8; 1];
    assert!(rt; entry < index.count() && plan.shard_of(entry) == shard.number());
    assert!(rt; shard.settled(entry) && index.entry(entry).size == 1);
    same(rt, shard.read_settled(entry, &mut out).is_ok(), true);
    same(rt, out.as_slice(), chunk);
}

// Surveys the shard, in which no range is past the old end.
fn surveys<R: RunName>(
    rt: &impl Abort,
    alloc: Global,
    index: &Index,
    unread: &mut Unread<MemTarget, R>,
    found: Surveyed,
)
    requires listing { R.run.listing ≡ index.now }
    requires none { (e : ℕ) → has_settled R.run unread.old e ≡ false }
    requires inside { (e : ℕ) → Has R.run unread.old e → e < count_of R.run.listing }
{
    index.rules();
    let old = index.length();
    let mut room = ok(rt, index.room(alloc));
    let zeros = ok(rt, ZeroDigests::of(alloc, index, old, &mut room));
    let Ok(mut buf) = index.room(alloc) else {
        panic!(rt; "no memory");
    };
    same(rt, unread.survey(&zeros, old, &mut buf), found);
}

// The first shard of the plan over this part, after its survey.
fn surveyed<'a, R: RunName>(
    rt: &impl Abort,
    alloc: Global,
    index: &'a Index,
    plan: &Plan,
    part: MemTarget,
    found: Surveyed,
) -> Shard<'a, MemTarget, R>
    requires dealt { IsDealt R.run index.now plan.now }
    requires untold { R.run.tells ≡ false }
{
    assert!(rt; 0 < plan.shards());
    let fates = ok(rt, open_fates::<R>(alloc, index, plan, 0));
    assert!(rt; part.size() == shard_size::<R>(index, plan, 0));
    let mut unread = Unread::<MemTarget, R>::new(index, plan, 0, part, fates);
    surveys(rt, alloc, index, &mut unread, found);
    unread.begin()
}

// Entries 0 and 2 are right at first. The first put into entry 1 fails.
fn settles_reads_skips_and_tears<R: RunName>(
    rt: &impl Abort,
    alloc: Global,
    index: &Index,
    plan: &Plan,
    part: MemTarget,
)
    requires dealt { IsDealt R.run index.now plan.now }
    requires may { (e : ℕ) → R.run.may e ≡ true }
    requires untold { R.run.tells ≡ false }
{
    let found = Surveyed {
        settled: 2,
        failed: false,
    };
    let mut shard = surveyed::<R>(rt, alloc, index, plan, part, found);
    reads(rt, index, plan, &mut shard, 2, b"c");
    same(rt, puts(rt, index, plan, &mut shard, 0, b"-"), true);
    same(rt, puts(rt, index, plan, &mut shard, 1, b"b"), false);
    same(rt, puts(rt, index, plan, &mut shard, 1, b"b"), true);
    reads(rt, index, plan, &mut shard, 1, b"b");
    same(rt, shard.into_part().bytes(), b"abcx".as_slice());
}

#[test]
fn a_shard_settles_reads_skips_and_tears(rt: HostRuntime) {
    let alloc = rt.alloc();
    let chunks: [&[u8]; 16] = [
        b"a", b"b", b"c", b"d", b"e", b"f", b"g", b"h", b"i", b"j", b"k", b"l", b"m", b"n", b"o",
        b"p",
    ];
    let index = index_of_pieces(&rt, alloc, &chunks);
    let plan = ok(&rt, Plan::of(alloc, &index, 1));
    let mut fails = RangeFails::none(alloc);
    fails.writes = ok(&rt, vec![in alloc; (1u64, 1u32)]);
    let part = MemTarget::new(alloc, ok(&rt, b"axcx".to_vec(alloc)), fails);
    settles_reads_skips_and_tears::<Brand>(&rt, alloc, &index, &plan, part);
}
