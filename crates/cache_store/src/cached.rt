//! A cache before a chain of stores. Sizes are in bytes.

ghost use Rattle.std.specs.Prelude.{◌≡◌, ◌≢◌, ◌⊎◌, ℕ, List, ◌≤◌, length, None, take, true, Some, IfSome, IfOk};
ghost use Rattle.std.specs.Prelude.{Err, IfErr};
ghost use Rattle.std.specs.List.{Any};
ghost use Rattle.store_chain.specs.Giving.{SomeHolds};
ghost use Rattle.cache_store.specs.Shelves.{IsPair, KeepsShelf, MayHold, Stocks, held_on, shelf_of};
ghost use Rattle.cache_store.specs.Through.{AddedOnce, AddedTo, CacheGave, FromShelf, FromStores, StoresGave, Unfound};
ghost use Rattle.chunk_store.specs.Asks.{Get};
ghost use Rattle.chunk_store.specs.Digests.{digest_of};
ghost use Rattle.store_chain.specs.Chains.{KeepsStores};
ghost use Rattle.store_chain.specs.Queries.{FillsQuery, IsWanted, query_of};

use crate::cache::Cache;
use crate::shelf::{CacheMiss, CacheShelf};
use chunk_store::id::ChunkId;
use chunk_store::store::Store;
use dsy_base::fault::IoFault;
use dsy_base::folder::Folder;
use std::marker::Model;
use store_chain::chain::Chain;
use store_chain::refused::Refused;

/// Whether a cache holds a chunk that it was asked for.
#[derive(Clone, Copy, Debug, PartialEq, Eq)]
pub enum Kept {
    Yes,
    /// It failed when the chunk was added.
    Failed,
    /// There was no memory to add it.
    Memory,
}

/// A chunk that was obtained.
#[derive(Clone, Copy, Debug, PartialEq, Eq)]
pub struct Got {
    pub size: usize,
    /// Whether a store gave it, and not the cache.
    pub upstream: bool,
    pub kept: Kept,
}

// Looks for the chunk in the cache. A fault of the cache is as if it didn't have the chunk.
fn find_first<C: Cache>(
    cache: &mut C,
    id: &ChunkId,
    size: Option<usize>,
    out: &mut [u8],
) -> Result<Option<usize>, Refused>
    requires inside { IfSome size (λ n. n ≤ length out.old) }
    ensures ok { IfOk result (λ o. IfSome o (λ n. FillsQuery
        (query_of (C.shelf cache.old).kind id.now size (length out.old)) n out.new)) }
    ensures found { IfOk result (λ o. IfSome o (λ n. IfSome (held_on (C.shelf cache.old))
        (λ m. MayHold (C.shelf cache.old).others m id.now.0 (take n out.new)))) }
    ensures absent { result ≡ Ok None → Unfound
        (query_of (C.shelf cache.old).kind id.now size (length out.old)) (C.shelf cache.old) (C.shelf cache.new) }
    ensures only { IfErr result (λ r. r ≡ Refused.Memory) }
    ensures changed { C.looks cache.old cache.new }
    ensures kept { KeepsShelf (C.shelf cache.old) (C.shelf cache.new) }
{
    match cache.look(id, size, out) {
        Ok(n) => Ok(Some(n)),
        Err(CacheMiss::Memory) => Err(Refused::Memory),
        Err(CacheMiss::Absent) => Ok(None),
        Err(CacheMiss::Wrong(_)) => Ok(None),
        Err(CacheMiss::Failed) => Ok(None),
    }
}

// Adds what a store gave to the cache.
fn keep<C: Cache>(cache: &mut C, id: &ChunkId, b: &[u8]) -> Kept
    requires named { digest_of (C.shelf cache.old).kind b.now ≡ id.now.0 }
    requires listed { IfSome C.pairs (IsPair id.now.0 (length b.now)) }
    requires held { IfSome C.stores (Any (λ m. m id.now.0 ≡ Some b.now)) }
    ensures stocks { Stocks (λ q x. (q ≡ id.now.0) × (x ≡ b.now)) (C.shelf cache.old) (C.shelf cache.new) }
    ensures added { AddedTo id.now.0 b.now result (C.shelf cache.old) (C.shelf cache.new) }
    ensures changed { C.adds id.now.0 b.now result cache.old cache.new }
{
    match cache.keep(id, b) {
        Ok(()) => Kept::Yes,
        Err(IoFault::Failed) => Kept::Failed,
        Err(IoFault::Memory) => Kept::Memory,
    }
}

/// Fills the front of `out` with the chunk of this id, and of this size where one is given: from the cache where it is
/// right there, else from the stores, and then it is added to the cache. A fault of the cache makes no refusal. Where a
/// look into it finds no memory, the stores aren't asked.
pub fn obtain_through<C: Cache, S: Store>(
    cache: &mut C,
    chain: &mut Chain<S>,
    id: &ChunkId,
    size: Option<usize>,
    out: &mut [u8],
) -> Result<Got, Refused>
    requires inside { IfSome size (λ n. n ≤ length out.old) }
    requires kind { (C.shelf cache.old).kind ≡ chain.old.kind }
    // What the stores give may be added.
    requires listed { (b : List ℕ) → IsWanted (query_of chain.old.kind id.now size (length out.old)) b →
        SomeHolds S.members chain.old.stores id.now.0 b → IfSome C.pairs (IsPair id.now.0 (length b)) }
    requires held { (b : List ℕ) → IsWanted (query_of chain.old.kind id.now size (length out.old)) b →
        SomeHolds S.members chain.old.stores id.now.0 b → IfSome C.stores (Any (λ m. m id.now.0 ≡ Some b)) }
    ensures ok { IfOk result (λ got. FillsQuery (query_of chain.old.kind id.now size (length out.old)) got.size
        out.new) }
    ensures ends { CacheGave (query_of chain.old.kind id.now size (length out.old)) (C.shelf cache.old)
        (C.shelf cache.new) chain.old chain.new result out.new
        ⊎ StoresGave S.holds S.members S.said S.faults S.may_lack_memory S.asked S.queried
        (query_of chain.old.kind id.now size (length out.old)) (C.shelf cache.old) (C.shelf cache.new) chain.old
        chain.new result out.new }
    ensures added { IfOk result (λ got. got.upstream ≡ true → AddedOnce C.looks C.adds id.now.0
        (take got.size out.new) got.kept cache.old cache.new) }
    ensures stocks { Stocks (λ q b. (q ≡ id.now.0) × IsWanted (query_of chain.old.kind id.now size (length out.old)) b
        × SomeHolds S.members chain.old.stores q b) (C.shelf cache.old) (C.shelf cache.new) }
    ensures stores { KeepsStores S.Store (λ a. a ≡ Get id.now.0) chain.old.stores chain.new.stores }
    ensures kind { chain.new.kind ≡ chain.old.kind }
{
    if let Some(n) = find_first(cache, id, size, out)? {
        return Ok(Got {
            size: n,
            upstream: false,
            kept: Kept::Yes,
        });
    }
    let n = chain.obtain(id, size, out)?;
    let (bytes, _) = out.split_at(n);
    let kept = keep(cache, id, bytes);
    Ok(Got {
        size: n,
        upstream: true,
        kept,
    })
}

/// A shelf, and the stores that are asked where it doesn't give a chunk.
#[derive(Drop)]
pub struct Cached<F: Folder, S: Store> {
    shelf: CacheShelf<F>,
    chain: Chain<S>,
}

impl<F: Folder, S: Store> Model for Cached<F, S> {
    ghost use Rattle.std.specs.Prelude.{◌≡◌};
    ghost use Rattle.cache_store.specs.Through.{Behind};

    ghost Value = { Behind F S };

    ghost view = { λ c. record { shelf = c.shelf; chain = c.chain } };

    ghost invariant = { λ c. c.shelf.kind ≡ c.chain.kind };
}

impl<F: Folder, S: Store> Cached<F, S> {
    pub fn new(shelf: CacheShelf<F>, chain: Chain<S>) -> Cached<F, S>
        requires kind { shelf.kind ≡ chain.kind }
        ensures { result ≡ record { shelf = shelf; chain = chain } }
    {
        Cached { shelf, chain }
    }

    pub fn into_parts(self) -> (CacheShelf<F>, Chain<S>)
        ensures { result ≡ (self.shelf, self.chain) }
    {
        let Cached { shelf, chain } = self;
        (shelf, chain)
    }

    /// Fills the front of `out` with what the shelf alone gives. The stores aren't asked.
    pub fn look(
        &mut self,
        id: &ChunkId,
        size: Option<usize>,
        out: &mut [u8],
    ) -> Result<usize, CacheMiss>
        requires inside { IfSome size (λ n. n ≤ length out.old) }
        ensures ok { IfOk result (λ n. FillsQuery (query_of self.old.shelf.kind id.now size (length out.old)) n
            out.new) }
        ensures found { IfOk result (λ n. IfSome (held_on (shelf_of F.files F.place F.faults self.old.shelf))
            (λ m. m id.now.0 ≡ Some (take n out.new))) }
        ensures absent { IfErr result (λ m. m ≢ CacheMiss.Memory →
            Unfound (query_of self.old.shelf.kind id.now size (length out.old))
            (shelf_of F.files F.place F.faults self.old.shelf) (shelf_of F.files F.place F.faults self.new.shelf)) }
        ensures only { result ≡ Err CacheMiss.Absent →
            IfSome (held_on (shelf_of F.files F.place F.faults self.old.shelf)) (λ m. m id.now.0 ≡ None) }
        ensures kept { KeepsShelf (shelf_of F.files F.place F.faults self.old.shelf)
            (shelf_of F.files F.place F.faults self.new.shelf) }
        ensures kind { self.old.shelf.kind ≡ self.old.chain.kind }
        ensures chain { self.new.chain ≡ self.old.chain }
    {
        self.shelf.find(id, size, out)
    }

    /// Adds the chunk of this id to the shelf, in the place of what stood there. The stores aren't asked.
    pub fn keep(&mut self, id: &ChunkId, b: &[u8]) -> Kept
        requires named { digest_of self.old.shelf.kind b.now ≡ id.now.0 }
        requires unnamed { (F.pairs ≡ None) × (F.stores ≡ None) }
        ensures stocks { Stocks (λ q x. (q ≡ id.now.0) × (x ≡ b.now))
            (shelf_of F.files F.place F.faults self.old.shelf) (shelf_of F.files F.place F.faults self.new.shelf) }
        ensures added { AddedTo id.now.0 b.now result (shelf_of F.files F.place F.faults self.old.shelf)
            (shelf_of F.files F.place F.faults self.new.shelf) }
        ensures chain { self.new.chain ≡ self.old.chain }
    {
        keep(&mut self.shelf, id, b)
    }

    /// Fills the front of `out` as `obtain_through` does.
    pub fn obtain(
        &mut self,
        id: &ChunkId,
        size: Option<usize>,
        out: &mut [u8],
    ) -> Result<Got, Refused>
        requires inside { IfSome size (λ n. n ≤ length out.old) }
        requires unnamed { (F.pairs ≡ None) × (F.stores ≡ None) }
        ensures ok { IfOk result (λ got. FillsQuery (query_of self.old.chain.kind id.now size (length out.old)) got.size
            out.new) }
        ensures ends { FromShelf F.files F.place F.faults (query_of self.old.chain.kind id.now size (length out.old))
            self.old self.new result out.new
            ⊎ FromStores F.files F.place F.faults S.holds S.members S.said S.faults S.may_lack_memory S.asked S.queried
            (query_of self.old.chain.kind id.now size (length out.old)) self.old self.new result out.new }
        ensures stocks { Stocks (λ q b. (q ≡ id.now.0)
            × IsWanted (query_of self.old.chain.kind id.now size (length out.old)) b
            × SomeHolds S.members self.old.chain.stores q b) (shelf_of F.files F.place F.faults self.old.shelf)
            (shelf_of F.files F.place F.faults self.new.shelf) }
        ensures stores { KeepsStores S.Store (λ a. a ≡ Get id.now.0) self.old.chain.stores self.new.chain.stores }
        ensures kind { self.new.chain.kind ≡ self.old.chain.kind }
    {
        obtain_through(&mut self.shelf, &mut self.chain, id, size, out)
    }
}
