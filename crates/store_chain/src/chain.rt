//! Chains of stores, which are asked in order. Stores are numbered from 0, sizes are in bytes.

ghost use Rattle.std.specs.Prelude.{◌≡◌, ℕ, List, ◌<◌, ◌≤◌, ◌^◌, length, take, map, Option, Some, IfSome, IfOk, IfErr};
ghost use Rattle.std.specs.Prelude.{IsTrue, vec_len, slice_index, is_some, false};
ghost use Rattle.std.specs.List.{All, list_any};
ghost use Rattle.chunk_store.specs.Asks.{Get, Has};
ghost use Rattle.chunk_store.specs.declared.id.DigestKind.TheVariants as kinds;
ghost use Rattle.dsy_base.specs.Counts.{Rose};
ghost use Rattle.dsy_base.specs.Maps.{Map};
ghost use Rattle.store_chain.specs.Chains.{KeepsStores, AsksOnce, AsksNone, EachOnce};
ghost use Rattle.store_chain.specs.Faults.{EachQuiet};
ghost use Rattle.store_chain.specs.Giving.{LacksAll, LacksTogether, Obtains, SomeHolds};
ghost use Rattle.store_chain.specs.Refusals.{GivenBy, Refuses, HasFails};
ghost use Rattle.store_chain.specs.Queries.{FillsQuery, query_of};

use crate::ask::ask_each;
use crate::has::has_each;
use crate::query::Query;
use crate::refused::{HasFault, Refused};
use chunk_store::id::{ChunkId, DigestKind};
use chunk_store::store::Store;
use dsy_base::fault::raise;
use std::marker::Model;

/// Stores in order, 1 to 16 of them.
#[derive(Drop)]
pub struct Chain<S: Store> {
    stores: Vec<S>,
    asks: u64,
    kind: DigestKind,
}

impl<S: Store> Model for Chain<S> {
    ghost use Rattle.std.specs.Prelude.{◌≤◌, length};
    ghost use Rattle.store_chain.specs.Chains.{Chained};

    ghost Value = { Chained S };

    ghost view = { λ c. record { stores = c.stores.items; asks = c.asks; kind = c.kind } };

    ghost invariant = { λ c. (1 ≤ length c.stores.items) × (length c.stores.items ≤ 16) };
}

impl<S: Store> Chain<S> {
    /// Chunks are named by SHA-512/256.
    pub fn new(stores: Vec<S>) -> Chain<S>
        requires size { (1 ≤ vec_len stores) × (vec_len stores ≤ 16) }
        ensures value { result ≡ record { stores = stores.items; asks = 0; kind = kinds.Sha512T256 } }
    {
        Chain::with_kind(DigestKind::Sha512T256, stores)
    }

    /// Chunks are named by this digest.
    pub fn with_kind(kind: DigestKind, stores: Vec<S>) -> Chain<S>
        requires size { (1 ≤ vec_len stores) × (vec_len stores ≤ 16) }
        ensures value { result ≡ record { stores = stores.items; asks = 0; kind = kind } }
    {
        Chain {
            stores,
            asks: 0,
            kind,
        }
    }

    pub fn into_stores(self) -> Vec<S>
        ensures value { result.items ≡ self.stores }
    {
        let Chain { stores, .. } = self;
        stores
    }

    /// Which digest names the chunks.
    pub fn kind(&self) -> DigestKind
        ensures value { result ≡ self.now.kind }
    {
        self.kind
    }

    /// The number of calls of `obtain` so far. It stays at its greatest value.
    pub fn asks(&self) -> u64
        ensures value { result ≡ self.now.asks }
        ensures below { self.now.asks < 2 ^ 64 }
    {
        self.asks
    }

    /// Fills the front of `out` with the chunk of this id, and of this size where one is given, and answers its size.
    /// The stores are asked in order until one gives it. With a size, a store is lent only that much of `out`.
    pub fn obtain(
        &mut self,
        id: &ChunkId,
        size: Option<usize>,
        out: &mut [u8],
    ) -> Result<usize, Refused>
        requires inside { IfSome size (λ n. n ≤ length out.old) }
        ensures ok { IfOk result (λ n. FillsQuery (query_of self.old.kind id.now size (length out.old)) n out.new) }

        // What the stores have told: of the chunk, or of want of it.
        ensures found { IfOk result (λ n. GivenBy S.said S.faults S.may_lack_memory
            (query_of self.old.kind id.now size (length out.old)) (take n out.new) self.old.stores self.new.stores) }
        ensures absent { IfErr result (Refuses S.said S.faults S.may_lack_memory
            (query_of self.old.kind id.now size (length out.old)) self.old.stores self.new.stores) }

        // What stores hold that tell it, whatever fails.
        ensures had { IfOk result (λ n. SomeHolds S.members self.old.stores id.now.0 (take n out.new)) }
        ensures lacks { IfErr result (LacksTogether (query_of self.old.kind id.now size (length out.old))
            (map S.members self.old.stores)) }
        ensures first { (maps : List (Map (List ℕ))) → map S.holds self.old.stores ≡ map Some maps →
            IfErr result (LacksAll (query_of self.old.kind id.now size (length out.old)) maps) }
        ensures exactly { (maps : List (Map (List ℕ))) → map S.holds self.old.stores ≡ map Some maps →
            EachQuiet (map S.faults self.old.stores) (map S.faults self.new.stores) →
            Obtains S.may_lack_memory (query_of self.old.kind id.now size (length out.old)) maps result out.new }

        ensures only { result ≡ Err Refused.Memory → IsTrue S.may_lack_memory }
        ensures cause { (s : ℕ) → result ≡ Err (Refused.StoreFault s) →
            Rose (slice_index (map S.faults self.old.stores) s) (slice_index (map S.faults self.new.stores) s) }

        ensures kept { KeepsStores S.Store (λ a. a ≡ Get id.now.0) self.old.stores self.new.stores }
        ensures asks { AsksOnce S.asked S.queried id.now.0 self.old self.new }
    {
        let query = Query::of(self.kind, id, size, out.len());
        self.asks = raise(self.asks, 1);
        let (lent, _) = out.split_at_mut(query.lent);
        ask_each(self.stores.as_mut_slice(), 0, &query, lent)
    }

    /// Whether some store has something under the id. The stores are asked in order until one has.
    pub fn has(&mut self, id: &ChunkId) -> Result<bool, HasFault>
        ensures found { (maps : List (Map (List ℕ))) → map S.holds self.old.stores ≡ map Some maps →
            IfOk result (λ b. b ≡ list_any (λ m. is_some (m id.now.0)) maps) }
        ensures absent { result ≡ Ok false → All (λ s. (S.said s).denied id.now.0) self.new.stores }

        ensures first { IfErr result (HasFails S.said S.faults id.now.0 self.old.stores self.new.stores) }
        ensures only { result ≡ Err HasFault.Memory → IsTrue S.may_lack_memory }
        ensures cause { (s : ℕ) → result ≡ Err (HasFault.StoreFault s) →
            Rose (slice_index (map S.faults self.old.stores) s) (slice_index (map S.faults self.new.stores) s) }

        ensures kept { KeepsStores S.Store (λ a. a ≡ Has id.now.0) self.old.stores self.new.stores }
        ensures asks { AsksNone S.asked self.old self.new }
        ensures queries { EachOnce S.queried id.now.0 self.old.stores self.new.stores }
    {
        has_each(self.stores.as_mut_slice(), 0, id)
    }
}
