//! An image made in an empty target by several workers, from a seed and a store. Entries count from 0.

ghost use Rattle.std.specs.Prelude.{◌≡◌, ◌≤◌, ◌+◌, ℕ, List, [], ◌∷◌, Some, None, IfOk, IfErr, IfSome, OnOk};
ghost use Rattle.std.specs.Prelude.{IsTrue, vec_len};
ghost use Rattle.std.specs.List.{All};
ghost use Rattle.assembler.specs.Assemblies.{IsObtainable, Verdict};
ghost use Rattle.assembler.specs.Economy.{ReportsExactly};
ghost use Rattle.caibx_fields.specs.Limits.{item_limit};
ghost use Rattle.range_survey.specs.Reports.{right_below};
ghost use Rattle.caibx_codec.specs.Listing.{count_of, image_length, kind_of};
ghost use Rattle.caibx_codec.specs.Right.{IsRight};
ghost use Rattle.chunk_sources.specs.Economy.{source_of};
ghost use Rattle.dsy_base.specs.Bytes.{resized};
ghost use Rattle.dsy_base.specs.Maps.{Map};
ghost use Rattle.extract_plan.specs.Deal.{IsPlan};
ghost use Rattle.extract_plan.specs.Places.{PlacesKnown};
ghost use Rattle.image_demo.specs.Figures.{IsDemoRefused, figures_of};
ghost use Rattle.image_demo.specs.SharedKits.{IsKitOf};
ghost use Rattle.image_demo.specs.Stocks.{IsNamed, IsStocked, demo_fault};
ghost use Rattle.image_demo.specs.Tasks.{task_of};

use crate::cut::Indexed;
use crate::fault::DemoFault;
use crate::figures::Figures;
use crate::kits::kits_of;
use crate::plan::Planned;
use assembler::fault::ExtractFault;
use cache_store::shelf::CacheShelf;
use caibx_codec::index::Index;
use chunk_sources::kit::Kit;
use chunk_store::store::Store;
use dsy_base::view::{Part, Target, View};
use dsy_sure::sure_folder::SureFolder;
use image_assembly::assemble::assemble;
use image_assembly::room::workers_with_room;
use range_survey::report::Report;
use std::alloc::Global;
use std::sync::Wait;
use std::thread::Threads;

// A target, and how its assembly ended.
#[derive(Drop)]
struct Ended<T: Target> {
    target: T,
    answer: Result<Report, ExtractFault>,
}

// Makes the target the image, without a cache, where nothing fails. Each kit has the same store and the same seed.
fn assemble_quietly<W: Threads + Wait + Sync, T: Target, S: Store + Send, V: View + Send>(
    rt: &W,
    alloc: Global,
    index: &Index,
    planned: &Planned,
    target: T,
    kits: Vec<Kit<S, V>>,
) -> Ended<T>
where
    T::Piece: Send,
    requires size { (1 ≤ vec_len kits) × (vec_len kits ≤ 32) }
    requires alike { (store : S) × (seed : V) × All (IsKitOf (kind_of index.now) store seed) kits.items }
    requires plan { IsPlan index.now 1 planned.now.plan }
    requires places { PlacesKnown index.now planned.now.plan planned.now.places 1 }
    requires tells { IsTrue V.tells }
    requires sure { (IsTrue T.never_fails) × (IsTrue S.never_fails) × (IsTrue V.never_fails) }
    ensures verdict { (store : S) (seed : V) (chunks : Map (List ℕ)) →
        All (IsKitOf (kind_of index.now) store seed) kits.items →
        S.holds store ≡ Some chunks → IfSome (T.held target).bytes (λ o. Verdict index.now (IsObtainable
        (task_of index.now planned.now.plan planned.now.places) (resized o (image_length index.now))
        (Some (V.held seed) ∷ []) (chunks ∷ [])) result.answer) }
    ensures reported { (store : S) (seed : V) (chunks : Map (List ℕ)) →
        All (IsKitOf (kind_of index.now) store seed) kits.items →
        S.holds store ≡ Some chunks → IfSome (T.held target).bytes (λ o. IfOk result.answer (ReportsExactly (source_of
        (task_of index.now planned.now.plan planned.now.places) (resized o (image_length index.now))
        (Some (V.held seed) ∷ []) [] (chunks ∷ [])) planned.now.plan.wants)) }
    ensures report { IfOk result.answer
        (λ r. r.kept + r.copied + r.seeded + r.cached + r.fetched ≡ count_of index.now) }
    ensures kept { IfOk result.answer (λ r. IfSome (T.held target).bytes
        (λ o. r.kept ≡ right_below index.now (resized o (image_length index.now)) (count_of index.now))) }
    ensures right { OnOk result.answer (IfSome (T.held target).bytes (λ _. IfSome (T.held result.target).bytes
        (λ t. IsRight t index.now))) }
    ensures named { IsNamed index.now result.answer }
{
    let cache: Option<CacheShelf<SureFolder>> = None;
    let ended = assemble(rt, alloc, index, &planned.places, target, kits, cache);
    Ended {
        target: ended.target,
        answer: ended.answer,
    }
}

// Why an image wasn't made.
fn fault_of(fault: ExtractFault) -> DemoFault
    ensures { result ≡ demo_fault fault }
{
    match fault {
        ExtractFault::Missing { entry, id } => DemoFault::Mismatch { entry, id },
        ExtractFault::Damaged { entry, id, .. } => DemoFault::Mismatch { entry, id },
        // Neither store nor target fails, so it is for want of memory.
        ExtractFault::StoreFault { .. } | ExtractFault::TargetFault | ExtractFault::Memory => {
            DemoFault::Memory
        }
    }
}

// The figures of an image that was made.
fn figures(index: &Index, planned: &Planned, report: &Report) -> Figures
    ensures { result ≡ record {
      bytes = image_length index.now;
      chunks = count_of index.now;
      distinct = planned.now.plan.wants;
      kept = report.now.kept;
      copied = report.now.copied;
      seeded = report.now.seeded;
      fetched = report.now.fetched;
    } }
{
    Figures {
        bytes: index.length(),
        chunks: index.count() as u64,
        distinct: planned.plan.wants() as u64,
        kept: report.kept,
        copied: report.copied,
        seeded: report.seeded,
        fetched: report.fetched,
    }
}

/// A target that was made an image, and what that took.
#[derive(Drop)]
pub struct Made<T: Target> {
    pub target: T,
    pub figures: Figures,
}

/// Makes an empty target the image that the index lists, from zeros, from the seed, and from the store, which has each
/// chunk of the image. There are as many workers, or as many as there is memory for.
pub fn make<W: Threads + Wait + Sync, T: Target, S: Store + Send + Copy, V: View + Send + Copy>(
    rt: &W,
    alloc: Global,
    index: &Index,
    target: T,
    store: S,
    seed: Indexed<V>,
    workers: usize,
) -> Result<Made<T>, DemoFault>
where
    T::Piece: Send,
    requires workers { (1 ≤ workers) × (workers ≤ 32) }
    requires none { (T.held target).bytes ≡ Some [] }
    requires stocked { (t : List ℕ) × IsRight t index.now × IsStocked index.now t (S.holds store) }
    requires kind { kind_of seed.index ≡ kind_of index.now }
    requires seeds { IfSome (V.held seed.view).bytes (λ t. IsRight t seed.index) }
    requires size { image_length seed.index ≡ (V.held seed.view).size }
    requires few { count_of seed.index ≤ item_limit }
    requires tells { IsTrue V.tells }
    requires sure { (IsTrue T.never_fails) × (IsTrue S.never_fails) × (IsTrue V.never_fails) }
    ensures value { IfOk result (λ m. m.figures ≡ figures_of index.now seed.index (image_length index.now)) }
    ensures right { IfOk result (λ m. IfSome (T.held m.target).bytes (λ t. IsRight t index.now)) }
    ensures err { IfErr result (IsDemoRefused (kind_of index.now) index.now.greatest) }
{
    index.rules();
    seed.index.rules();
    let Indexed {
        view,
        index: listed,
    } = seed;
    let planned = Planned::of(alloc, index, listed)?;
    let workers = workers_with_room(alloc, index, workers);
    let kits = kits_of(alloc, index.kind(), store, view, workers)?;
    let Ended { target, answer } = assemble_quietly(rt, alloc, index, &planned, target, kits);
    match answer {
        Ok(report) => Ok(Made {
            target,
            figures: figures(index, &planned, &report),
        }),
        Err(fault) => Err(fault_of(fault)),
    }
}
