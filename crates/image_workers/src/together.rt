//! An assembly by several workers, after its survey: a pass by all of them side by side, and a second pass by the first
//! one, which has the cache for itself. It takes no memory of its own.

ghost use Rattle.std.specs.Prelude.{◌≡◌, ◌+◌, ◌<◌, ◌≤◌, ℕ, Err, IfOk, IfSome, None, Some, [], false, length, map};
ghost use Rattle.std.specs.Prelude.{replicate, slice_index_or, vec_capacity, vec_len};
ghost use Rattle.std.specs.List.{All};
ghost use Rattle.assembler.specs.Assemblies.{Assembles};
ghost use Rattle.assembler.specs.OneKit.{lent};
ghost use Rattle.assembler.specs.Stages.{task};
ghost use Rattle.caibx_codec.specs.Listing.{count_of, image_length, kind_of};
ghost use Rattle.chunk_sources.specs.Caches.{seen};
ghost use Rattle.chunk_sources.specs.Losses.{MayLack};
ghost use Rattle.chunk_sources.specs.declared.kit.Kit.{Kit};
ghost use Rattle.chunk_store.specs.Kinds.{kind_named};
ghost use Rattle.chunk_store.specs.Members.{maps_of};
ghost use Rattle.dsy_base.specs.Bytes.{Held};
ghost use Rattle.image_workers.specs.Beside.{BegunBeside, PermitsKit};
ghost use Rattle.image_workers.specs.Kits.{IsAssembledBy, MayFillFrom};
ghost use Rattle.image_workers.specs.Lanes.{IsReadyFor};
ghost use Rattle.image_workers.specs.Shared.{NamesShelf, all_stores, door_shelf, pairs_of};
ghost use Rattle.range_ledger.specs.Fills.{WhereTold};

use crate::assembled::Assembled;
use crate::finish::finish;
use crate::lanes::{Lane, some_lacked};
use crate::workers::{kits_of, lanes_of, pass_all};
use assembler::fault::ExtractFault;
use assembler::run::Ended;
use assembler::work::Wants;
use cache_store::shelf::CacheShelf;
use caibx_codec::index::Index;
use chunk_sources::kit::Kit;
use chunk_store::store::Store;
use dsy_base::folder::Folder;
use dsy_base::look::Look;
use dsy_base::view::{Part, Target, View};
use named_folders::named_folder::FolderName;
use owned_shards::lock::ShardLock;
use owned_shards::shards::{Shards, put_back};
use range_ledger::run::RunName;
use range_survey::fate::Fate;
use std::alloc::{AllocError, Global};
use std::sync::Wait;
use std::thread::Threads;

/// Room for the workers: for the locks, and for a lane and a list of fates for each kit.
#[derive(Drop)]
pub struct Rooms<'a, P: Part, R: RunName, S: Store, V: View> {
    pub locks: Vec<ShardLock<'a, P, R>>,
    pub lanes: Vec<Lane<S, V>>,
    pub known: Vec<Vec<Fate>>,
}

impl<'a, P: Part, R: RunName, S: Store, V: View> Rooms<'a, P, R, S, V> {
    /// Takes the room for this many shards, workers and entries.
    pub fn of(
        alloc: Global,
        shards: usize,
        workers: usize,
        entries: usize,
    ) -> Result<Rooms<'a, P, R, S, V>, AllocError>
        ensures none { IfOk result (λ r. (r.locks.items ≡ []) × (r.lanes.items ≡ [])) }
        ensures locks { IfOk result (λ r. shards ≤ vec_capacity r.locks) }
        ensures lanes { IfOk result (λ r. workers ≤ vec_capacity r.lanes) }
        ensures size { IfOk result (λ r. vec_len r.known ≡ workers) }
        ensures known { IfOk result
            (λ r. All (λ v. (v.items ≡ []) × (entries ≤ vec_capacity v)) r.known.items) }
    {
        let locks = Vec::with_capacity(alloc, shards)?;
        let lanes = Vec::with_capacity(alloc, workers)?;
        let mut known = Vec::new(alloc);
        for _ in 0..workers {
            known.push(Vec::with_capacity(alloc, entries)?)?;
        }
        Ok(Rooms {
            locks,
            lanes,
            known,
        })
    }
}

/// The workers: a kit for each, and their room.
#[derive(Drop)]
pub struct Workers<'a, P: Part, R: RunName, S: Store, V: View> {
    pub kits: Vec<Kit<S, V>>,
    pub rooms: Rooms<'a, P, R, S, V>,
}

/// Both passes: all workers, each with its kit, and then the first one. The kits come back in their order. The cache is
/// behind a lock during the first pass; `N` names its kind, what its folder held before, and what may be added.
pub fn run_workers<
    'a,
    W: Threads + Wait + Sync,
    R: RunName + Send + Sync,
    N: FolderName + Send + Sync,
    T: Target,
    S: Store + Send,
    V: View + Send,
    F: Folder + Send + Sync,
>(
    rt: &W,
    index: &'a Index,
    wants: &Wants<'_>,
    tried: Vec<bool>,
    shards: Shards<'a, R, T>,
    workers: Workers<'a, T::Piece, R, S, V>,
    cache: Option<CacheShelf<F>>,
) -> Assembled<T, S, V, F>
where
    T::Piece: Send,
    requires dealt { index.now ≡ R.run.listing }
    requires listing { wants.now.index.now ≡ R.run.listing }
    requires fresh { tried.items ≡ replicate wants.now.plan.now.wants false }
    requires tells { T.tells ≡ R.run.tells }
    requires few { R.run.shards ≤ count_of R.run.listing }
    requires any { 0 < count_of R.run.listing → 0 < R.run.shards }
    requires unnamed { (F.pairs ≡ None) × (F.stores ≡ None) }
    requires named { IfSome (seen F.Look cache) (NamesShelf (kind_named N.kind) N.opening N.place N.faults) }
    requires kind { kind_named N.kind ≡ kind_of R.run.listing }
    requires pairs { N.pairs ≡ Some (pairs_of R.run.listing) }
    requires stores { N.stores ≡ maps_of S.members (all_stores workers.kits.items) }
    requires many { 2 ≤ vec_len workers.kits }
    requires workers { wants.now.plan.now.workers ≡ vec_len workers.kits }
    requires ready { (k : ℕ) (q : Kit S V) → k < length workers.kits.items → IsReadyFor S.Store V.View R.run
        (task R.run.listing wants.now) (door_shelf (kind_named N.kind) N.opening N.pairs N.stores 0 (seen F.Look cache))
        k (slice_index_or workers.kits.items k q) shards.fates }
    requires permits { (q : Kit S V) → PermitsKit S.Store V.View R.run (task R.run.listing wants.now)
        (door_shelf (kind_named N.kind) N.opening N.pairs N.stores 0 (seen F.Look cache))
        (slice_index_or workers.kits.items 0 q) }
    requires none { (workers.rooms.locks.items ≡ []) × (workers.rooms.lanes.items ≡ []) }
    requires locks { R.run.shards ≤ vec_capacity workers.rooms.locks }
    requires lanes { vec_len workers.kits ≤ vec_capacity workers.rooms.lanes }
    requires size { vec_len workers.rooms.known ≡ vec_len workers.kits }
    requires known { All (λ v. (v.items ≡ []) × (count_of R.run.listing ≤ vec_capacity v)) workers.rooms.known.items }
    ensures bytes { (old : Held) (f : ℕ) → BegunBeside R.run old f shards.entry → WhereTold old.bytes
        (T.held result.target).bytes (Assembles R.run.listing ⊥ f (T.faults result.target) result.answer) }
    ensures kits { (old : Held) (f : ℕ) → BegunBeside R.run old f shards.entry →
        MayFillFrom S.Store V.View (task R.run.listing wants.now) R.run.may old.bytes (seen F.Look cache)
        workers.entry.kits.items →
        IsAssembledBy S.Store V.View (task R.run.listing wants.now) T.never_fails F.never_fails old.bytes
        (T.held result.target).bytes (lent f workers.entry.kits.items (seen F.Look cache))
        (lent (T.faults result.target) result.kits.items (seen F.Look result.cache)) result.answer }
    ensures report { IfOk result.answer
        (λ r. r.kept + r.copied + r.seeded + r.cached + r.fetched ≡ count_of R.run.listing) }
    ensures memory { result.answer ≡ Err ExtractFault.Memory → MayLack S.Store (seen F.Look cache) }
    ensures size { (length result.kits.items ≡ length workers.entry.kits.items)
        × ((T.held result.target).size ≡ image_length R.run.listing) }
    ensures name { (T.held result.target).name ≡ shards.entry.held.name }
    ensures faults { shards.entry.faults_before ≤ T.faults result.target }
{
    let count = index.count();
    let Rooms {
        locks,
        lanes,
        known,
    } = workers.rooms;
    let (room, lists, mut lanes) = lanes_of(&shards, count, workers.kits, known, lanes);
    // Only for its contract, as below: what the survey left.
    shards.keeps();
    let (shards, cache) = pass_all::<W, R, N, T, S, V, F>(
        rt, index, wants, shards, &mut lanes, locks, cache,
    );
    shards.keeps();
    let lacked = some_lacked(&lanes);
    let (mut kits, known) = kits_of(lanes, room, lists);
    let Some(kit) = kits.pop() else {
        unreachable!();
    };
    let Ended {
        target,
        kit,
        cache,
        answer,
    } = finish(wants, tried, shards, kit, cache, &known, lacked);
    put_back(&mut kits, kit);
    kits.reverse();
    Assembled {
        target,
        kits,
        cache,
        answer,
    }
}
