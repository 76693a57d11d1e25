//! The first pass of an assembly by several workers, side by side, and how their kits go into lanes and come back.

ghost use Rattle.std.specs.Prelude.{◌≡◌, ◌<◌, ◌≤◌, ℕ, IfSome, IsSome, IsTrue, Some, [], length, map, reverse};
ghost use Rattle.std.specs.Prelude.{slice_index_or, vec_capacity, vec_len};
ghost use Rattle.std.specs.List.{All};
ghost use Rattle.assembler.specs.Stages.{task};
ghost use Rattle.cache_store.specs.Shelves.{MayAdd};
ghost use Rattle.caibx_codec.specs.Listing.{count_of};
ghost use Rattle.chunk_sources.specs.Caches.{Stocked, seen};
ghost use Rattle.chunk_sources.specs.declared.kit.Kit.{Kit};
ghost use Rattle.chunk_store.specs.Kinds.{kind_named};
ghost use Rattle.image_workers.specs.Lanes.{IsReadyLane, LaneWorks, kit_of, known_of, tools_of};
ghost use Rattle.image_workers.specs.Shared.{NamesShelf, door_shelf};
ghost use Rattle.image_workers.specs.declared.lanes.Lane.{Lane};

use crate::lanes::{Lane, Tools, go_all};
use crate::shared::{lock_cache, unlock_cache};
use assembler::work::Wants;
use cache_store::shelf::CacheShelf;
use caibx_codec::index::Index;
use chunk_sources::kit::Kit;
use chunk_store::store::Store;
use dsy_base::folder::Folder;
use dsy_base::look::Look;
use dsy_base::view::{Part, Target, View};
use locked_shards::locked::fates_of;
use named_folders::named_folder::FolderName;
use owned_shards::lock::ShardLock;
use owned_shards::shards::{Shards, put_back};
use range_ledger::ledger::Ledger;
use range_ledger::run::RunName;
use range_survey::fate::Fate;
use std::sync::Wait;
use std::thread::Threads;

/// The first pass: each shard stands behind a lock while the workers go their ways, and so does the cache. `room` is
/// for the locks of the shards. `N` names the folder of the cache.
pub(crate) fn pass_all<
    'a,
    W: Threads + Wait + Sync,
    R: RunName + Send + Sync,
    N: FolderName + Send + Sync,
    T: Target,
    S: Store + Send,
    V: View + Send,
    F: Folder + Send + Sync,
>(
    rt: &W,
    index: &'a Index,
    wants: &Wants<'_>,
    shards: Shards<'a, R, T>,
    lanes: &mut [Lane<S, V>],
    room: Vec<ShardLock<'a, T::Piece, R>>,
    cache: Option<CacheShelf<F>>,
) -> (Shards<'a, R, T>, Option<CacheShelf<F>>)
where
    T::Piece: Send,
    requires dealt { index.now ≡ R.run.listing }
    requires listing { wants.now.index.now ≡ R.run.listing }
    requires tells { T.tells ≡ R.run.tells }
    requires few { R.run.shards ≤ count_of R.run.listing }
    requires any { 0 < count_of R.run.listing → 0 < R.run.shards }
    requires named { IfSome (seen F.Look cache) (NamesShelf (kind_named N.kind) N.opening N.place N.faults) }
    requires some { 0 < length lanes.old }
    requires ready { (k : ℕ) (a : Lane S V) → k < length lanes.old → IsReadyLane S.Store V.View R.run
        (task R.run.listing wants.now) (door_shelf (kind_named N.kind) N.opening N.pairs N.stores 0 (seen F.Look cache))
        k (slice_index_or lanes.old k a) }
    requires none { room.items ≡ [] }
    requires room { R.run.shards ≤ vec_capacity room }
    ensures each { (k : ℕ) (a : Lane S V) → k < length lanes.old → LaneWorks S.Store V.View R.run
        (task R.run.listing wants.now) (door_shelf (kind_named N.kind) N.opening N.pairs N.stores 0 (seen F.Look cache))
        T.never_fails F.never_fails k (slice_index_or lanes.old k a) (slice_index_or lanes.new k a) }
    ensures stocked { Stocked (MayAdd (kind_named N.kind) N.pairs N.stores) (seen F.Look cache) (seen F.Look result.1) }
    ensures size { result.0.held.size ≡ shards.entry.held.size }
    ensures name { result.0.held.name ≡ shards.entry.held.name }
    ensures before { result.0.faults_before ≡ shards.entry.faults_before }
    ensures sure { IsTrue T.never_fails → shards.entry.faults ≡ shards.entry.faults_before }
    ensures lanes { length lanes.new ≡ length lanes.old }
{
    let cache = lock_cache::<F, N>(cache);
    let (frame, locks) = shards.lock(room);
    go_all::<W, T::Piece, R, N, S, V, F>(rt, index, wants, &locks, &cache, lanes);
    (frame.unlock(rt, locks), unlock_cache(cache))
}

/// A lane for each kit, in their order, whose worker knows what the ledger says of each entry, and the room of the kits
/// and of the lists.
pub(crate) fn lanes_of<L: Ledger, S: Store, V: View>(
    ledger: &L,
    count: usize,
    kits: Vec<Kit<S, V>>,
    known: Vec<Vec<Fate>>,
    lanes: Vec<Lane<S, V>>,
) -> (Vec<Kit<S, V>>, Vec<Vec<Fate>>, Vec<Lane<S, V>>)
    requires count { count ≡ count_of L.run.listing }
    requires none { lanes.items ≡ [] }
    requires room { vec_len kits ≤ vec_capacity lanes }
    requires size { vec_len known ≡ vec_len kits }
    requires known { All (λ v. (v.items ≡ []) × (count ≤ vec_capacity v)) known.items }
    ensures none { (result.0.items ≡ []) × (result.1.items ≡ []) }
    ensures room { vec_len kits ≤ vec_capacity result.0 }
    ensures lists { vec_len kits ≤ vec_capacity result.1 }
    ensures lanes { map tools_of result.2.items ≡ map (λ k. Some (k, L.fates ledger.now)) kits.items }
{
    let mut kits = kits;
    let mut known = known;
    let mut lanes = lanes;
    while let Some(kit) = kits.pop() {
        let Some(room) = known.pop() else {
            unreachable!();
        };
        let tools = Tools {
            kit,
            known: fates_of(ledger, count, room),
        };
        let lane = Lane {
            tools: Some(tools),
            lacked: false,
        };
        put_back(&mut lanes, lane);
    }
    lanes.reverse();
    (kits, known, lanes)
}

// The tools of a lane.
fn tools_from<S: Store, V: View>(lane: Lane<S, V>) -> Tools<S, V>
    requires there { IsSome (kit_of lane) }
    ensures kit { kit_of lane ≡ Some result.kit }
    ensures known { known_of lane ≡ Some result.known.items }
{
    let Some(tools) = lane.tools else {
        unreachable!();
    };
    tools
}

/// The kits of these lanes, the last first, and what their workers know, in their order. `room` and `lists` have the
/// room for them.
pub(crate) fn kits_of<S: Store, V: View>(
    lanes: Vec<Lane<S, V>>,
    room: Vec<Kit<S, V>>,
    lists: Vec<Vec<Fate>>,
) -> (Vec<Kit<S, V>>, Vec<Vec<Fate>>)
    requires none { (room.items ≡ []) × (lists.items ≡ []) }
    requires room { vec_len lanes ≤ vec_capacity room }
    requires lists { vec_len lanes ≤ vec_capacity lists }
    requires there { All (λ a. IsSome (kit_of a)) lanes.items }
    ensures kits { map (λ k. Some k) (reverse result.0.items) ≡ map kit_of lanes.items }
    ensures known { map (λ v. Some v.items) result.1.items ≡ map known_of lanes.items }
    ensures room { vec_capacity room ≤ vec_capacity result.0 }
{
    let mut lanes = lanes;
    let mut kits = room;
    let mut lists = lists;
    while let Some(lane) = lanes.pop() {
        let Tools { kit, known } = tools_from(lane);
        put_back(&mut kits, kit);
        put_back(&mut lists, known);
    }
    lists.reverse();
    (kits, lists)
}
