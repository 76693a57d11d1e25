//! The assembly of an image: it is prepared, and then run.

ghost use Rattle.std.specs.Prelude.{◌≡◌, ℕ, ◌+◌, ◌≤◌, length, None, IfSome, IfOk, vec_len};
ghost use Rattle.std.specs.List.{All};
ghost use Rattle.assembler.specs.Assemblies.{Assembles, IsAssembled};
ghost use Rattle.assembler.specs.OneKit.{ByPlan, lent};
ghost use Rattle.caibx_codec.specs.Listing.{count_of, image_length, kind_of};
ghost use Rattle.chunk_sources.specs.Caches.{seen};
ghost use Rattle.chunk_store.specs.Kinds.{kind_named};
ghost use Rattle.dsy_base.specs.Bytes.{resized};
ghost use Rattle.dsy_base.specs.Counts.{Quiet};
ghost use Rattle.extract_plan.specs.Deal.{Deal, IsPlan};
ghost use Rattle.extract_plan.specs.Places.{PlacesKnown};
ghost use Rattle.image_assembly.specs.Endings.{ByPlanOfAll, HasAssembled, handed};
ghost use Rattle.image_workers.specs.Kits.{IsAssembledBy, NoneUsed};
ghost use Rattle.image_assembly.specs.Readied.{IsRunFor, Permits};
ghost use Rattle.owned_shards.specs.Wholes.{MayFillAll};
ghost use Rattle.range_ledger.specs.Fills.{WhereTold};
ghost use Rattle.range_survey.specs.Reports.{right_below};

use crate::prepare::prepare;
use cache_store::shelf::CacheShelf;
use caibx_codec::index::Index;
use chunk_sources::kit::Kit;
use chunk_store::store::Store;
use dsy_base::folder::Folder;
use dsy_base::look::Look;
use dsy_base::view::{Part, Target, View};
use extract_plan::seeds::SeedIndex;
use image_workers::assembled::Assembled;
use named_folders::named_folder::FolderName;
use range_ledger::run::RunName;
use std::alloc::Global;
use std::marker::Brand;
use std::sync::Wait;
use std::thread::Threads;

// Prepares the assembly, and runs it. `R` names the run, and `N` the folder of the cache.
fn assemble_named<
    R: RunName + Send + Sync,
    N: FolderName + Send + Sync,
    W: Threads + Wait + Sync,
    T: Target,
    S: Store + Send,
    V: View + Send,
    F: Folder + Send + Sync,
>(
    rt: &W,
    alloc: Global,
    index: &Index,
    places: &SeedIndex,
    target: T,
    kits: Vec<Kit<S, V>>,
    cache: Option<CacheShelf<F>>,
) -> Assembled<T, S, V, F>
where
    T::Piece: Send,
    requires size { (1 ≤ vec_len kits) × (vec_len kits ≤ 32) }
    requires over { IsRunFor R.run index.now (vec_len kits) T.tells (T.held target) }
    requires one { vec_len kits ≡ 1 → MayFillAll R.run }
    requires may { 2 ≤ vec_len kits → (d : Deal) → IsPlan index.now (vec_len kits) d → Permits S.Store V.View R.run
        (record { listing = index.now; plan = d; places = places.now }) kits.items (kind_named N.kind) N.opening N.place
        N.faults N.pairs N.stores (seen F.Look cache) }
    requires places { (d : Deal) × IsPlan index.now 1 d
        × All (λ k. PlacesKnown index.now d places.now (length k.seeds.items)) kits.items }
    requires kind { All (λ k. k.chain.kind ≡ kind_of index.now) kits.items }
    requires cache { IfSome (seen F.Look cache) (λ s. s.kind ≡ kind_of index.now) }
    requires unnamed { (F.pairs ≡ None) × (F.stores ≡ None) }
    ensures { HasAssembled S.Store V.View T.never_fails F.never_fails index.now places.now
        (handed (T.held target) (lent (T.faults target) kits.items (seen F.Look cache)))
        (handed (T.held result.target) (lent (T.faults result.target) result.kits.items (seen F.Look result.cache)))
        result.answer }
{
    match prepare::<W, R, T, S, V>(rt, alloc, index, places, target, kits) {
        Ok(prepared) => prepared.run::<W, N, F>(rt, cache),
        Err((target, kits, fault)) => Assembled {
            target,
            kits,
            cache,
            answer: Err(fault.fault()),
        },
    }
}

/// Makes the target the image that the index lists. What is right in it already stays. The chunk of each other want
/// comes from an alike entry that is right, or from a seed, or from the cache, or else from the stores; what a store
/// gives is added to the cache, whose faults are passed over. Each kit is that of a worker: the workers go side by
/// side, with the cache behind a lock, and then the first one goes through all entries that are still open. The places
/// are those in the seeds of each kit, by the plan of this index for one worker. Goes on past wants whose chunk no
/// source gives, and answers for the first entry of them. What was handed over comes back whatever the answer is. Where
/// there is no memory for the plan, it is as it was, and the answer is `Memory`.
pub fn assemble<
    W: Threads + Wait + Sync,
    T: Target,
    S: Store + Send,
    V: View + Send,
    F: Folder + Send + Sync,
>(
    rt: &W,
    alloc: Global,
    index: &Index,
    places: &SeedIndex,
    target: T,
    kits: Vec<Kit<S, V>>,
    cache: Option<CacheShelf<F>>,
) -> Assembled<T, S, V, F>
where
    T::Piece: Send,
    requires size { (1 ≤ vec_len kits) × (vec_len kits ≤ 32) }
    requires places { (d : Deal) × IsPlan index.now 1 d
        × All (λ k. PlacesKnown index.now d places.now (length k.seeds.items)) kits.items }
    requires kind { All (λ k. k.chain.kind ≡ kind_of index.now) kits.items }
    requires cache { IfSome (seen F.Look cache) (λ s. s.kind ≡ kind_of index.now) }
    requires unnamed { (F.pairs ≡ None) × (F.stores ≡ None) }
    ensures bytes { WhereTold (T.held target).bytes (T.held result.target).bytes (Assembles index.now
        (NoneUsed (lent (T.faults target) kits.items (seen F.Look cache))
        (lent (T.faults result.target) result.kits.items (seen F.Look result.cache)))
        (T.faults target) (T.faults result.target) result.answer) }

    // With one kit.
    ensures assembled { ByPlan index.now places.now (lent (T.faults target) kits.items (seen F.Look cache))
        (lent (T.faults result.target) result.kits.items (seen F.Look result.cache))
        (λ t a b. IsAssembled S.Store V.View t (T.held target).bytes (T.held result.target).bytes a b result.answer) }
    ensures kept { vec_len kits ≡ 1 → IfOk result.answer (λ r. Quiet (T.faults target) (T.faults result.target) →
        IfSome (T.held target).bytes (λ o. r.kept ≡ right_below index.now (resized o (image_length index.now))
        (count_of index.now))) }

    // With any number of kits.
    ensures kits { ByPlanOfAll index.now places.now kits.items (λ t. IsAssembledBy S.Store V.View t T.never_fails
        F.never_fails (T.held target).bytes (T.held result.target).bytes
        (lent (T.faults target) kits.items (seen F.Look cache))
        (lent (T.faults result.target) result.kits.items (seen F.Look result.cache)) result.answer) }
    ensures report { IfOk result.answer
        (λ r. r.kept + r.copied + r.seeded + r.cached + r.fetched ≡ count_of index.now) }
    ensures size { vec_len result.kits ≡ vec_len kits }
    ensures name { (T.held result.target).name ≡ (T.held target).name }
    ensures faults { T.faults target ≤ T.faults result.target }
{
    assemble_named::<Brand, Brand, W, T, S, V, F>(rt, alloc, index, places, target, kits, cache)
}
