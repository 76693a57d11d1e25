//! Assemblies in memory that are prepared, and then run.

ghost use Rattle.std.specs.Prelude.{◌≡◌, length, vec_len};
ghost use Rattle.std.specs.List.{All};
ghost use Rattle.caibx_codec.specs.Listing.{kind_of};
ghost use Rattle.chunk_store.specs.declared.id.DigestKind.TheVariants as kinds;
ghost use Rattle.extract_plan.specs.Deal.{Deal, IsPlan};
ghost use Rattle.extract_plan.specs.Places.{PlacesKnown};
ghost use Rattle.image_assembly.specs.Readied.{IsRunFor};
ghost use Rattle.owned_shards.specs.Wholes.{MayFillAll};

use crate::assembly_tests::{counts, kit_of, target_of};
use crate::compare::{ok, same};
use crate::indexes::index_of_pieces;
use byte_forms::mem_target::MemTarget;
use byte_forms::mem_view::MemView;
use byte_forms::ranges::RangeFails;
use caibx_codec::index::Index;
use chunk_sources::kit::Kit;
use chunk_store::store::Store;
use dir_store::store::DirStore;
use dsy_base::view::{Part, Target, View};
use dsy_forms::mem_folder::MemFolder;
use extract_plan::plan::Plan;
use extract_plan::seeds::SeedIndex;
use image_assembly::fault::PrepareFault;
use image_assembly::prepare::prepare;
use image_workers::assembled::Assembled;
use range_ledger::run::RunName;
use std::alloc::Global;
use std::marker::Brand;
use std::process::Abort;
use std::sync::Wait;
use std::thread::Threads;

// Prepares an assembly with one kit, and runs it where that succeeded.
fn prepared<
    H: Threads + Wait + Sync,
    R: RunName + Send + Sync,
    T: Target,
    S: Store + Send,
    V: View + Send,
>(
    rt: &H,
    alloc: Global,
    index: &Index,
    places: &SeedIndex,
    target: T,
    kits: Vec<Kit<S, V>>,
) -> Result<Assembled<T, S, V, MemFolder>, (T, Vec<Kit<S, V>>, PrepareFault)>
where
    T::Piece: Send,
    requires size { vec_len kits ≡ 1 }
    requires over { IsRunFor R.run index.now (vec_len kits) T.tells (T.held target) }
    requires may { MayFillAll R.run }
    requires places { (d : Deal) × IsPlan index.now 1 d
        × All (λ k. PlacesKnown index.now d places.now (length k.seeds.items)) kits.items }
    requires kind { All (λ k. k.chain.kind ≡ kind_of index.now) kits.items }
{
    match prepare::<H, R, T, S, V>(rt, alloc, index, places, target, kits) {
        Ok(prepared) => Ok(prepared.run::<_, Brand, _>(rt, None)),
        Err(refused) => Err(refused),
    }
}

// Prepares the assembly of these pieces over this target, and runs it.
fn prepares<H: Abort + Threads + Wait + Sync>(
    rt: &H,
    alloc: Global,
    pieces: &[&[u8]],
    target: MemTarget,
    kit: Kit<DirStore<MemFolder>, MemView>,
) -> Result<
    Assembled<MemTarget, DirStore<MemFolder>, MemView, MemFolder>,
    (
        MemTarget,
        Vec<Kit<DirStore<MemFolder>, MemView>>,
        PrepareFault,
    ),
>
    requires kind { kit.chain.kind ≡ kinds.Sha512T256 }
    requires one { length kit.seeds.items ≡ 1 }
{
    let index = index_of_pieces(rt, alloc, pieces);
    let plan = ok(rt, Plan::of(alloc, &index, 1));
    let seeds = [index_of_pieces(rt, alloc, &[b"abc"])];
    let places = ok(rt, SeedIndex::of(alloc, &plan, &index, &seeds));
    let kits = ok(rt, vec![in alloc; kit]);
    prepared::<H, Brand, MemTarget, DirStore<MemFolder>, MemView>(
        rt, alloc, &index, &places, target, kits,
    )
}

// Prepares the assembly of "abcdef" over "abc". The target refuses it, and then holds these bytes; the kit has no room.
fn refuses<H: Abort + Threads + Wait + Sync>(rt: &H, alloc: Global, fails: RangeFails, new: &[u8]) {
    let target = target_of(rt, alloc, b"abc", fails);
    let kit = kit_of(rt, alloc, None, &[], &[]);
    let Err((target, kits, fault)) = prepares(rt, alloc, &[b"abc", b"def"], target, kit) else {
        panic!(rt; "prepared");
    };
    same(rt, fault, PrepareFault::TargetFault);
    same(rt, target.bytes(), new);
    assert!(rt; kits.len() == 1);
    same(rt, kits[0].buffer.len(), 0);
}

#[test]
fn what_was_prepared_runs(rt: HostRuntime) {
    let alloc = rt.alloc();
    let target = target_of(&rt, alloc, b"abc", RangeFails::none(alloc));
    let kit = kit_of(&rt, alloc, None, &[(b"defg", b"defg")], &[]);
    let Ok(assembled) = prepares(&rt, alloc, &[b"abc", b"defg"], target, kit) else {
        panic!(rt; "not prepared");
    };
    same(&rt, assembled.answer, counts(1, 0, 0, 1));
    same(&rt, assembled.target.bytes(), b"abcdefg".as_slice());
    assert!(rt; assembled.kits.len() == 1);
    same(&rt, assembled.kits[0].buffer.len(), 4);
    same(&rt, assembled.kits[0].chain.asks(), 1);
}

#[test]
fn a_target_whose_length_cannot_be_set_is_handed_back(rt: HostRuntime) {
    let alloc = rt.alloc();
    let mut fails = RangeFails::none(alloc);
    fails.set_len = 1;
    refuses(&rt, alloc, fails, b"abc");
}

#[test]
fn a_target_that_cannot_be_split_keeps_its_new_length(rt: HostRuntime) {
    let alloc = rt.alloc();
    let mut fails = RangeFails::none(alloc);
    fails.split = 1;
    refuses(&rt, alloc, fails, b"abc\0\0\0");
}
