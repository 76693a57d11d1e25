//! Targets in memory that are made what an index lists, from folders and seeds in memory.

ghost use Rattle.std.specs.Prelude.{◌≡◌, length, IfSome};
ghost use Rattle.chunk_store.specs.declared.id.DigestKind.TheVariants as kinds;

use crate::compare::{ok, same};
use crate::indexes::{id_of_piece, index_of_pieces};
use assembler::fault::ExtractFault;
use byte_forms::mem_target::MemTarget;
use byte_forms::mem_view::MemView;
use byte_forms::ranges::RangeFails;
use cache_store::shelf::CacheShelf;
use chunk_sources::kit::Kit;
use chunk_store::shows::Shows;
use chunk_store::store::Giver;
use dir_store::store::DirStore;
use dsy_base::folder::Folder;
use dsy_base::look::Look;
use dsy_forms::mem_folder::MemFolder;
use extract_plan::plan::Plan;
use extract_plan::seed::Seed;
use extract_plan::seeds::SeedIndex;
use image_assembly::assemble::assemble;
use image_workers::assembled::Assembled;
use range_survey::report::Report;
use std::alloc::Global;
use std::process::Abort;
use std::sync::Wait;
use std::thread::Threads;
use store_chain::chain::Chain;

const FIRST: Giver = Giver {
    number: 0,
    member: 0,
};

// A store that holds the second of each pair under the id of the first.
fn store_of(rt: &impl Abort, alloc: Global, chunks: &[(&[u8], &[u8])]) -> DirStore<MemFolder> {
    let mut folder = MemFolder::new(alloc, Vec::new(alloc));
    for (named, held) in chunks {
        ok(rt, folder.put(id_of_piece(named).path().as_str(), held));
    }
    DirStore::new(folder)
}

// A seed that lists "abc", and has these bytes.
fn seed_of(rt: &impl Abort, alloc: Global, bytes: Option<&[u8]>) -> Seed<MemView> {
    match bytes {
        Some(bytes) => {
            let bytes = ok(rt, Vec::from_slice(alloc, bytes));
            let view = MemView::new(alloc, bytes, Vec::new(alloc));
            Seed { view: Some(view) }
        }
        None => Seed { view: None },
    }
}

// A kit of a seed and of two stores, in which each pair's second lies under the id of the first.
pub(crate) fn kit_of(
    rt: &impl Abort,
    alloc: Global,
    seed: Option<&[u8]>,
    first: &[(&[u8], &[u8])],
    second: &[(&[u8], &[u8])],
) -> Kit<DirStore<MemFolder>, MemView>
    ensures kind { result.chain.kind ≡ kinds.Sha512T256 }
    ensures one { length result.seeds.items ≡ 1 }
{
    let mut stores = Vec::new(alloc);
    ok(rt, stores.push(store_of(rt, alloc, first)));
    ok(rt, stores.push(store_of(rt, alloc, second)));
    let mut seeds = Vec::new(alloc);
    ok(rt, seeds.push(seed_of(rt, alloc, seed)));
    Kit::new(alloc, Chain::new(stores), seeds)
}

// Assembles these pieces over these bytes, from a seed, a cache and two stores. Compares how it ended, what the target
// then holds, and how often the stores were asked, and answers the cache.
fn assembles_with<H: Abort + Threads + Wait + Sync>(
    rt: &H,
    alloc: Global,
    pieces: &[&[u8]],
    old: MemTarget,
    kit: Kit<DirStore<MemFolder>, MemView>,
    cache: Option<CacheShelf<MemFolder>>,
    ended: Result<Report, ExtractFault>,
    new: &[u8],
    asks: u64,
) -> Option<CacheShelf<MemFolder>>
    requires kind { kit.chain.kind ≡ kinds.Sha512T256 }
    requires one { length kit.seeds.items ≡ 1 }
    requires cache { IfSome cache (λ s. s.kind ≡ kinds.Sha512T256) }
{
    let index = index_of_pieces(rt, alloc, pieces);
    let plan = ok(rt, Plan::of(alloc, &index, 1));
    let seeds = [index_of_pieces(rt, alloc, &[b"abc"])];
    let places = ok(rt, SeedIndex::of(alloc, &plan, &index, &seeds));
    let kits = ok(rt, vec![in alloc; kit]);
    let Assembled {
        target,
        kits,
        cache,
        answer,
    } = assemble(rt, alloc, &index, &places, old, kits, cache);
    same(rt, answer, ended);
    same(rt, target.bytes(), new);
    same(rt, kits[0].chain.asks(), asks);
    cache
}

// A target that holds these bytes.
pub(crate) fn target_of(
    rt: &impl Abort,
    alloc: Global,
    bytes: &[u8],
    fails: RangeFails,
) -> MemTarget {
    MemTarget::new(alloc, ok(rt, Vec::from_slice(alloc, bytes)), fails)
}

// The same without a cache, and over a target whose calls don't fail.
fn assembles<H: Abort + Threads + Wait + Sync>(
    rt: &H,
    alloc: Global,
    pieces: &[&[u8]],
    old: &[u8],
    kit: Kit<DirStore<MemFolder>, MemView>,
    ended: Result<Report, ExtractFault>,
    new: &[u8],
    asks: u64,
)
    requires kind { kit.chain.kind ≡ kinds.Sha512T256 }
    requires one { length kit.seeds.items ≡ 1 }
{
    let old = target_of(rt, alloc, old, RangeFails::none(alloc));
    assembles_with(rt, alloc, pieces, old, kit, None, ended, new, asks);
}

pub(crate) fn counts(
    kept: u64,
    copied: u64,
    seeded: u64,
    fetched: u64,
) -> Result<Report, ExtractFault> {
    Ok(Report {
        kept,
        copied,
        seeded,
        cached: 0,
        fetched,
    })
}

#[test]
fn what_is_right_is_kept(rt: HostRuntime) {
    let alloc = rt.alloc();
    let kept = counts(1, 0, 0, 0);
    let kit = kit_of(&rt, alloc, None, &[], &[]);
    assembles(&rt, alloc, &[b"abc"], b"abcdefghij", kit, kept, b"abc", 0);
    let kept = counts(2, 0, 0, 0);
    let kit = kit_of(&rt, alloc, None, &[], &[]);
    assembles(
        &rt,
        alloc,
        &[b"\0\0", b"\0\0\0"],
        b"",
        kit,
        kept,
        b"\0\0\0\0\0",
        0,
    );
}

#[test]
fn what_is_right_or_fetched_is_copied(rt: HostRuntime) {
    let alloc = rt.alloc();
    let pieces = [b"abc".as_slice(), b"def", b"abc"];
    let copied = counts(2, 1, 0, 0);
    let kit = kit_of(&rt, alloc, None, &[], &[]);
    assembles(
        &rt,
        alloc,
        &pieces,
        b"xyzdefabc",
        kit,
        copied,
        b"abcdefabc",
        0,
    );
    let copied = counts(0, 1, 0, 2);
    let kit = kit_of(&rt, alloc, None, &[(b"abc", b"abc")], &[(b"def", b"def")]);
    assembles(&rt, alloc, &pieces, b"", kit, copied, b"abcdefabc", 2);
}

#[test]
fn the_first_entry_that_cannot_be_had_is_named(rt: HostRuntime) {
    let alloc = rt.alloc();
    let pieces = [b"abc".as_slice(), b"def", b"ghi"];
    let id = id_of_piece(b"def");
    let missing = Err(ExtractFault::Missing { entry: 1, id });
    let kit = kit_of(&rt, alloc, None, &[(b"abc", b"abc")], &[(b"ghi", b"ghi")]);
    assembles(&rt, alloc, &pieces, b"", kit, missing, b"abc\0\0\0ghi", 4);
    let damaged = Err(ExtractFault::Damaged {
        entry: 1,
        id,
        store: FIRST,
        shows: Shows::Longer,
    });
    let kit = kit_of(&rt, alloc, None, &[(b"def", b"defg")], &[(b"def", b"de")]);
    assembles(
        &rt,
        alloc,
        &pieces,
        b"abcXXXghi and more",
        kit,
        damaged,
        b"abcXXXghi",
        2,
    );
}

#[test]
fn a_seed_gives_its_chunks_where_they_are_right(rt: HostRuntime) {
    let alloc = rt.alloc();
    let fetched = counts(0, 0, 0, 1);
    let kit = kit_of(&rt, alloc, Some(b"abX"), &[(b"abc", b"abc")], &[]);
    assembles(&rt, alloc, &[b"abc"], b"", kit, fetched, b"abc", 1);
    let kit = kit_of(&rt, alloc, None, &[(b"abc", b"abc")], &[]);
    assembles(&rt, alloc, &[b"abc"], b"", kit, fetched, b"abc", 1);
    let seeded = counts(0, 1, 1, 0);
    let kit = kit_of(&rt, alloc, Some(b"abc"), &[], &[]);
    assembles(
        &rt,
        alloc,
        &[b"abc", b"abc"],
        b"",
        kit,
        seeded,
        b"abcabc",
        0,
    );
}

// Assembles three pieces from a store over a target to which the write of the second fails this often.
fn assembles_after<H: Abort + Threads + Wait + Sync>(
    rt: &H,
    alloc: Global,
    times: u32,
    ended: Result<Report, ExtractFault>,
    new: &[u8],
) {
    let chunks = [
        (b"abc".as_slice(), b"abc".as_slice()),
        (b"def", b"def"),
        (b"ghi", b"ghi"),
    ];
    let kit = kit_of(rt, alloc, None, &chunks, &[]);
    let mut fails = RangeFails::none(alloc);
    ok(rt, fails.writes.push((3, times)));
    let old = target_of(rt, alloc, b"", fails);
    let pieces = [b"abc".as_slice(), b"def", b"ghi"];
    assembles_with(rt, alloc, &pieces, old, kit, None, ended, new, 4);
}

// A write that fails in memory leaves 0xee in all of its range.
#[test]
fn a_failed_write_is_tried_once_more(rt: HostRuntime) {
    let alloc = rt.alloc();
    assembles_after(&rt, alloc, 1, counts(0, 0, 0, 3), b"abcdefghi");
    let ended = Err(ExtractFault::TargetFault);
    assembles_after(&rt, alloc, 2, ended, b"abc\xee\xee\xeeghi");
}

// A cache that holds these bytes under the id of "abc".
fn cache_of(rt: &impl Abort, alloc: Global, held: Option<&[u8]>) -> CacheShelf<MemFolder>
    ensures { result.kind ≡ kinds.Sha512T256 }
{
    let mut folder = MemFolder::new(alloc, Vec::new(alloc));
    if let Some(held) = held {
        ok(rt, folder.put(id_of_piece(b"abc").path().as_str(), held));
    }
    CacheShelf::new(folder)
}

// The cache holds "abc" under its id.
fn holds_abc(rt: &impl Abort, cache: CacheShelf<MemFolder>) {
    let mut folder = cache.into_inner();
    let mut out = [0u8; 3];
    same(
        rt,
        folder.read(id_of_piece(b"abc").path().as_str(), &mut out),
        Ok(3),
    );
    same(rt, out, *b"abc");
}

// Assembles "abc" twice through a cache, in which it then stands.
fn goes_through_the_cache<H: Abort + Threads + Wait + Sync>(
    rt: &H,
    alloc: Global,
    kit: Kit<DirStore<MemFolder>, MemView>,
    held: Option<&[u8]>,
    cached: u64,
    fetched: u64,
)
    requires kind { kit.chain.kind ≡ kinds.Sha512T256 }
    requires one { length kit.seeds.items ≡ 1 }
{
    let ended = Ok(Report {
        kept: 0,
        copied: 1,
        seeded: 0,
        cached,
        fetched,
    });
    let pieces = [b"abc".as_slice(), b"abc"];
    let cache = Some(cache_of(rt, alloc, held));
    let old = target_of(rt, alloc, b"", RangeFails::none(alloc));
    let left = assembles_with(
        rt, alloc, &pieces, old, kit, cache, ended, b"abcabc", fetched,
    );
    holds_abc(rt, left.expect(rt, "the cache"));
}

#[test]
fn a_cache_gives_before_the_stores_and_is_filled_by_them(rt: HostRuntime) {
    let alloc = rt.alloc();
    let kit = kit_of(&rt, alloc, None, &[], &[]);
    goes_through_the_cache(&rt, alloc, kit, Some(b"abc"), 1, 0);
    let kit = kit_of(&rt, alloc, None, &[(b"abc", b"abc")], &[]);
    goes_through_the_cache(&rt, alloc, kit, None, 0, 1);
    let kit = kit_of(&rt, alloc, None, &[], &[(b"abc", b"abc")]);
    goes_through_the_cache(&rt, alloc, kit, Some(b"abX"), 0, 1);
}
