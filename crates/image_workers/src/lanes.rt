//! The workers of an assembly, each with a kit of its own. Workers and wants count from 0.

ghost use Rattle.std.specs.Prelude.{◌≡◌, ◌<◌, ◌≤◌, ℕ, IsSome, length, slice_index_or, true, false};
ghost use Rattle.assembler.specs.Stages.{task};
ghost use Rattle.chunk_store.specs.Kinds.{kind_named};
ghost use Rattle.image_workers.specs.Lanes.{IsReadyLane, IsSurveyedFor, LaneWorks};
ghost use Rattle.image_workers.specs.Shared.{door_shelf};
ghost use Rattle.image_workers.specs.declared.lanes.Lane.{Lane};

use crate::shared::{door_keeps, door_of};
use assembler::fill::fill;
use assembler::work::{Wants, Work};
use caibx_codec::index::Index;
use chunk_sources::kit::Kit;
use chunk_store::store::Store;
use dsy_base::folder::Folder;
use dsy_base::look::Look;
use dsy_base::view::{Part, View};
use locked_cache::door::LockedCache;
use locked_shards::locked::Locked;
use named_folders::named_folder::{FolderName, NamedFolder};
use owned_shards::lock::ShardLock;
use range_ledger::ledger::Ledger;
use range_ledger::run::RunName;
use range_survey::fate::Fate;
use std::sync::Wait;
use std::thread;
use std::thread::Threads;

/// What a worker goes its way with: where its chunks come from, and what it knows of each entry.
#[derive(Drop)]
pub struct Tools<S: Store, V: View> {
    pub kit: Kit<S, V>,
    pub known: Vec<Fate>,
}

/// A worker with its tools, which are there whenever it doesn't go its way. Whether it lacked memory on it.
#[derive(Drop)]
pub struct Lane<S: Store, V: View> {
    pub tools: Option<Tools<S, V>>,
    pub lacked: bool,
}

// The way of one worker: the wants that it is dealt, over shards behind locks, with a cache behind another. It never
// holds the lock of a shard and that of the cache at once: each is taken inside one call, on the ledger or on the door,
// and no call on the one is made within a call on the other.
fn go<'i, W: Wait, P: Part, R: RunName, N: FolderName, S: Store, V: View, F: Folder>(
    rt: &W,
    index: &'i Index,
    wants: &Wants<'_>,
    locks: &[ShardLock<'i, P, R>],
    cache: &Option<LockedCache<NamedFolder<F, N>>>,
    worker: usize,
    lane: &mut Lane<S, V>,
)
    requires surveyed { IsSurveyedFor R.run index.now P.tells (length locks.now) }
    requires listing { wants.now.index.now ≡ R.run.listing }
    requires ready { IsReadyLane S.Store V.View R.run (task R.run.listing wants.now)
        (door_shelf (kind_named N.kind) N.opening N.pairs N.stores 0 cache.now) worker lane.old }
    ensures worked { LaneWorks S.Store V.View R.run (task R.run.listing wants.now)
        (door_shelf (kind_named N.kind) N.opening N.pairs N.stores 0 cache.now) P.never_fails F.never_fails
        worker lane.old lane.new }
{
    let Some(Tools { kit, known }) = lane.tools.take() else {
        unreachable!();
    };
    let mut work = Work {
        ledger: Locked::new(rt, index, locks, known),
        kit,
        cache: door_of(rt, cache),
    };
    lane.lacked = fill(wants, worker, &mut work).is_err();
    let Work { ledger, kit, cache } = work;
    // Only for their contracts: where no call fails none is counted.
    ledger.rules();
    door_keeps(&cache);
    lane.tools = Some(Tools {
        kit,
        known: ledger.into_known(),
    });
}

/// All workers go their ways, side by side.
pub(crate) fn go_all<
    'i,
    W: Threads + Wait + Sync,
    P: Part + Send,
    R: RunName + Send + Sync,
    N: FolderName + Send + Sync,
    S: Store + Send,
    V: View + Send,
    F: Folder + Send + Sync,
>(
    rt: &W,
    index: &'i Index,
    wants: &Wants<'_>,
    locks: &[ShardLock<'i, P, R>],
    cache: &Option<LockedCache<NamedFolder<F, N>>>,
    lanes: &mut [Lane<S, V>],
)
    requires surveyed { IsSurveyedFor R.run index.now P.tells (length locks.now) }
    requires listing { wants.now.index.now ≡ R.run.listing }
    requires some { 0 < length lanes.old }
    requires ready { (k : ℕ) (a : Lane S V) → k < length lanes.old → IsReadyLane S.Store V.View R.run
        (task R.run.listing wants.now) (door_shelf (kind_named N.kind) N.opening N.pairs N.stores 0 cache.now) k
        (slice_index_or lanes.old k a) }
    ensures each { (k : ℕ) (a : Lane S V) → k < length lanes.old → LaneWorks S.Store V.View R.run
        (task R.run.listing wants.now) (door_shelf (kind_named N.kind) N.opening N.pairs N.stores 0 cache.now)
        P.never_fails F.never_fails k (slice_index_or lanes.old k a) (slice_index_or lanes.new k a) }
{
    let count = lanes.len();
    thread::for_each_mut(
        rt,
        lanes,
        count,
        &|worker, lane: &mut Lane<S, V>|
            requires surveyed { IsSurveyedFor R.run index.now P.tells (length locks.now) }
            requires listing { wants.now.index.now ≡ R.run.listing }
            requires ready { IsReadyLane S.Store V.View R.run (task R.run.listing wants.now)
                (door_shelf (kind_named N.kind) N.opening N.pairs N.stores 0 cache.now) worker lane.old }
            ensures worked { LaneWorks S.Store V.View R.run (task R.run.listing wants.entry.now)
                (door_shelf (kind_named N.kind) N.opening N.pairs N.stores 0 cache.entry.now) P.never_fails
                F.never_fails worker lane.old lane.new }
        {
            go::<W, P, R, N, S, V, F>(rt, index, wants, locks, cache, worker, lane);
        },
    );
}

/// Whether some worker lacked memory.
pub(crate) fn some_lacked<S: Store, V: View>(lanes: &[Lane<S, V>]) -> bool
    ensures yes { result ≡ true → (k : ℕ) × (k < length lanes.now)
        × ((a : Lane S V) → (slice_index_or lanes.now k a).lacked ≡ true) }
    ensures no { result ≡ false → (k : ℕ) (a : Lane S V) → k < length lanes.now →
        (slice_index_or lanes.now k a).lacked ≡ false }
{
    for lane in lanes {
        if lane.lacked {
            return true;
        }
    }
    false
}
