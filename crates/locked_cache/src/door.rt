//! A cache behind a lock, and the door by which a worker reaches it. Sizes are in bytes.

ghost use Rattle.std.specs.Prelude.{◌≡◌, ◌≤◌, Err, IfErr, IfOk, IfSome, IsTrue, Some, length, true};
ghost use Rattle.cache_store.specs.Shelves.{MayAdd, shelf_of};
ghost use Rattle.chunk_store.specs.Kinds.{kind_named};
ghost use Rattle.dsy_base.specs.Counts.{CountsFaults};
ghost use Rattle.locked_cache.specs.Additions.{FindsStocked, KeepsGiving, ReadsStocked, StocksSince};
ghost use Rattle.store_chain.specs.Queries.{FillsQuery, query_of};

use crate::stocked::StockedShelf;
use cache_store::cache::Cache;
use cache_store::shelf::{CacheMiss, CacheShelf, judge};
use chunk_store::id::{ChunkId, DigestKind};
use chunk_store::store::GetFault;
use dsy_base::fault::{IoFault, raise};
use dsy_base::folder::Folder;
use one_lock::hand::{Hand, HandLock};
use std::marker::Model;
use std::sync::Wait;
use store_chain::query::Query;

/// A cache that threads share. Its lock is held while a chunk's file is read or written, and no longer.
#[derive(Drop)]
pub struct LockedCache<F: Folder> {
    kind: DigestKind,
    shelf: HandLock<StockedShelf<F>>,
}

impl<F: Folder> Model for LockedCache<F> {
    ghost use Rattle.std.specs.Prelude.{◌≡◌};
    ghost use Rattle.chunk_store.specs.Kinds.{kind_named};
    ghost use Rattle.locked_cache.specs.Additions.{LockedKind};

    ghost Value = { LockedKind };

    ghost view = { λ c. record { kind = c.kind } };

    ghost invariant = { λ c. c.kind ≡ kind_named F.kind };
}

/// The cache as one worker sees it, who may find what others have added. Only failed calls of its own are counted. It
/// holds the lock in no call but its own, and has let it go when that ends.
#[derive(Drop)]
pub struct CacheDoor<'a, W: Wait, F: Folder> {
    rt: &'a W,
    cache: &'a LockedCache<F>,
    hand: Hand,
    faults: u64,
}

impl<'a, W: Wait, F: Folder> Model for CacheDoor<'a, W, F> {
    ghost use Rattle.std.specs.Prelude.{◌≡◌, IsTrue, true};
    ghost use Rattle.locked_cache.specs.Additions.{Doorway};

    ghost Value = { Doorway };

    ghost view = { λ s. record { faults = s.faults } };

    ghost invariant = { λ s. (IsTrue F.never_fails → s.faults ≡ 0) × (s.hand.is_free ≡ true) };
}

impl<F: Folder> LockedCache<F> {
    /// The shelf is of the kind that its folder's type names, and the folder holds what the type names, where that
    /// names something.
    pub fn new(shelf: CacheShelf<F>) -> LockedCache<F>
        requires kind { shelf.kind ≡ kind_named F.kind }
        requires opening { IfSome F.opening (λ first. F.files shelf.folder ≡ Some first) }
    {
        LockedCache {
            kind: shelf.kind(),
            shelf: HandLock::new(StockedShelf::new(shelf)),
        }
    }

    pub fn door<'a, W: Wait>(&'a self, rt: &'a W) -> CacheDoor<'a, W, F>
        ensures fresh { result.faults ≡ 0 }
    {
        CacheDoor {
            rt,
            cache: self,
            hand: Hand::new(),
            faults: 0,
        }
    }

    pub fn into_inner(self) -> CacheShelf<F>
        ensures kind { result.kind ≡ kind_named F.kind }
        ensures stocked { StocksSince (MayAdd (kind_named F.kind) F.pairs F.stores) F.opening
            (shelf_of F.files F.place F.faults result) }
    {
        self.shelf.into_inner().into_inner()
    }

    // The kind that the folder's type names.
    fn kind(&self) -> DigestKind
        ensures value { result ≡ kind_named F.kind }
    {
        self.kind
    }

    // Reads a chunk's file under the lock.
    fn read_behind<W: Wait>(
        &self,
        rt: &W,
        hand: &mut Hand,
        id: &ChunkId,
        lent: &mut [u8],
    ) -> Result<usize, GetFault>
        requires free { hand.old.is_free ≡ true }
        ensures bytes { ReadsStocked (MayAdd (kind_named F.kind) F.pairs F.stores) F.opening id.now.0 result lent.new }
        ensures inside { IfOk result (λ n. n ≤ length lent.new) }
        ensures only { result ≡ Err GetFault.Failed → IsTrue F.never_fails → ⊥ }
        ensures free { hand.new.is_free ≡ true }
    {
        let mut guard = self.shelf.take(rt, hand);
        let shelf = &mut *guard;
        let read = shelf.read(id, lent);
        hand.let_go(guard);
        read
    }

    // Adds a chunk under the lock.
    fn add_behind<W: Wait>(
        &self,
        rt: &W,
        hand: &mut Hand,
        id: &ChunkId,
        b: &[u8],
    ) -> Result<(), IoFault>
        requires free { hand.old.is_free ≡ true }
        requires may { MayAdd (kind_named F.kind) F.pairs F.stores id.now.0 b.now }
        ensures only { result ≡ Err IoFault.Failed → IsTrue F.never_fails → ⊥ }
        ensures free { hand.new.is_free ≡ true }
    {
        let mut guard = self.shelf.take(rt, hand);
        let shelf = &mut *guard;
        let added = shelf.add(id, b);
        hand.let_go(guard);
        added
    }
}

impl<'a, W: Wait, F: Folder> CacheDoor<'a, W, F> {
    /// What a door keeps: none of its calls has failed where no call on the folder does.
    pub fn keeps(&self)
        ensures sure { IsTrue F.never_fails → self.now.faults ≡ 0 }
    {
        let _ = &self.faults;
    }

    /// Fills the front of `out` with the chunk of this id, and of this size where one is given, and answers its size.
    /// It is one that the folder held at first, or one that was added. Its digest is computed once the lock is given
    /// back.
    pub fn find(
        &mut self,
        id: &ChunkId,
        size: Option<usize>,
        out: &mut [u8],
    ) -> Result<usize, CacheMiss>
        requires inside { IfSome size (λ n. n ≤ length out.old) }
        ensures ok { IfOk result
            (λ n. FillsQuery (query_of (kind_named F.kind) id.now size (length out.old)) n out.new) }
        ensures found { FindsStocked (MayAdd (kind_named F.kind) F.pairs F.stores) F.opening
            (query_of (kind_named F.kind) id.now size (length out.old)) result out.new }
        ensures absent { KeepsGiving (MayAdd (kind_named F.kind) F.pairs F.stores) F.opening
            (query_of (kind_named F.kind) id.now size (length out.old)) result }
        ensures sure { IsTrue F.never_fails → self.new.faults ≡ 0 }
        ensures faults { CountsFaults CacheMiss.Failed CacheMiss.Memory self.old.faults self.new.faults result }
    {
        let query = Query::of(self.cache.kind(), id, size, out.len());
        let (lent, _) = out.split_at_mut(query.lent);
        let answer = self.cache.read_behind(self.rt, &mut self.hand, id, lent);
        if let Err(GetFault::Failed) = answer {
            self.faults = raise(self.faults, 1);
        }
        judge(&query, answer, lent)
    }

    /// Adds the chunk of this id, in the place of what stood there. That other workers find it is only tested.
    pub fn add(&mut self, id: &ChunkId, b: &[u8]) -> Result<(), IoFault>
        requires may { MayAdd (kind_named F.kind) F.pairs F.stores id.now.0 b.now }
        ensures sure { IsTrue F.never_fails → self.new.faults ≡ 0 }
        ensures faults { CountsFaults IoFault.Failed IoFault.Memory self.old.faults self.new.faults result }
    {
        let added = self.cache.add_behind(self.rt, &mut self.hand, id, b);
        if let Err(IoFault::Failed) = added {
            self.faults = raise(self.faults, 1);
        }
        added
    }
}

impl<'a, W: Wait, F: Folder> Cache for CacheDoor<'a, W, F> {
    ghost use Rattle.std.specs.Prelude.{◌≤◌, refl};
    ghost use Rattle.chunk_store.specs.Kinds.{kind_named};
    ghost use Rattle.locked_cache.specs.Additions.{shared_shelf};

    ghost shelf = { λ d. shared_shelf (kind_named F.kind) F.opening F.pairs F.stores d.faults };

    ghost pairs = { F.pairs };

    ghost stores = { F.stores };

    ghost looks = { λ s t. s.faults ≤ t.faults };

    ghost adds = { λ _ _ _ s t. s.faults ≤ t.faults };

    fn look(
        &mut self,
        id: &ChunkId,
        size: Option<usize>,
        out: &mut [u8],
    ) -> Result<usize, CacheMiss> {
        self.find(id, size, out)
    }

    fn keep(&mut self, id: &ChunkId, b: &[u8]) -> Result<(), IoFault> {
        self.add(id, b)
    }

    ghost digest = { λ _. refl };
}
