//! A cache as it is filled, with the stores of all workers.

ghost use Rattle.std.specs.Prelude.{◌≡◌, ◌≤◌, ◌∷◌, [], All, None, Result, length, map, vec_capacity};
ghost use Rattle.std.specs.List.{AllZip};
ghost use Rattle.cache_command.specs.Caching.{IndexFilled, answer_of_fill, listed_times, of_calls};
ghost use Rattle.cache_command.specs.Filling.{AsksListings, HoldAlike, each_stores};
ghost use Rattle.chunk_dealing.specs.Dealing.{AsksInShares};
ghost use Rattle.cache_fill.specs.declared.fill.FillFault.{FillFault};

use cache_fill::fill::{FillFault, fill};
use cache_store::cached::Cached;
use cache_store::shelf::CacheShelf;
use caibx_codec::index::Index;
use chunk_store::id::DigestKind;
use chunk_store::store::Store;
use command_outcome::outcome::Outcome;
use dsy_base::folder::Folder;
use std::alloc::Global;
use std::thread::Threads;
use store_chain::chain::Chain;

/// A cache, which asks the stores of the first worker, and the chains of the further workers. Cache and chains are made
/// anew for each index, of its kind. The stores of worker `refuser` refused a chunk, where some did: the first is 0.
#[derive(Drop)]
pub(crate) struct Filling<W: Folder, S: Store> {
    pub cached: Cached<W, S>,
    pub further: Vec<Chain<S>>,
    pub refuser: usize,
}

/// Before these stores, which are the first worker's, stands the cache.
pub(crate) fn filling_of<W: Folder, S: Store>(
    shelf: CacheShelf<W>,
    stores: Vec<S>,
    further: Vec<Chain<S>>,
) -> Filling<W, S>
    requires size { (1 ≤ length stores.items) × (length stores.items ≤ 16) }
    ensures stores { result.cached.chain.stores ≡ stores.items }
    ensures shelf { result.cached.shelf ≡ shelf }
    ensures further { result.further ≡ further }
    ensures refuser { result.refuser ≡ 0 }
{
    let chain = Chain::with_kind(shelf.kind(), stores);
    Filling {
        cached: Cached::new(shelf, chain),
        further,
        refuser: 0,
    }
}

// Makes each chain anew, of the same stores. Chunks are named by this digest.
fn remake_chains<S: Store>(kind: DigestKind, chains: &mut Vec<Chain<S>>)
    ensures kinds { All (λ c. c.kind ≡ kind) chains.new.items }
    ensures stores { map (λ c. c.stores) chains.new.items ≡ map (λ c. c.stores) chains.old.items }
    ensures capacity { vec_capacity chains.old ≤ vec_capacity chains.new }
{
    match chains.pop() {
        Some(chain) => {
            remake_chains(kind, chains);
            chains
                .push(Chain::with_kind(kind, chain.into_stores()))
                .unwrap()
        }
        None => (),
    }
}

// Makes the cache and the chains anew, of the same folder and stores. Chunks are named by this digest.
fn remake<W: Folder, S: Store>(kind: DigestKind, filling: Filling<W, S>) -> Filling<W, S>
    ensures kind { result.cached.chain.kind ≡ kind }
    ensures kinds { All (λ c. c.kind ≡ kind) result.further.items }
    ensures folder { result.cached.shelf.folder ≡ filling.cached.shelf.folder }
    ensures stores { result.cached.chain.stores ≡ filling.cached.chain.stores }
    ensures further { map (λ c. c.stores) result.further.items ≡ map (λ c. c.stores) filling.further.items }
{
    let Filling {
        cached,
        mut further,
        ..
    } = filling;
    let (shelf, chain) = cached.into_parts();
    remake_chains(kind, &mut further);
    let shelf = CacheShelf::with_kind(kind, shelf.into_inner());
    let chain = Chain::with_kind(kind, chain.into_stores());
    Filling {
        cached: Cached::new(shelf, chain),
        further,
        refuser: 0,
    }
}

// The answer of filling the cache by one index.
fn answer_of(filled: Result<(), FillFault>) -> Result<(), Outcome>
    ensures { result ≡ answer_of_fill filled }
{
    match filled {
        Ok(()) => Ok(()),
        Err(FillFault::Missing { entry, id }) => Err(Outcome::Missing { entry, id }),
        Err(
            FillFault::Damaged {
                entry,
                id,
                store,
                shows,
            },
        ) => Err(Outcome::Damaged {
            entry,
            id,
            store,
            shows,
        }),
        Err(FillFault::StoreFault { store }) => Err(Outcome::StoreFault { store }),
        Err(FillFault::CacheFault) => Err(Outcome::CacheFault),
        Err(FillFault::Memory) => Err(Outcome::Memory),
    }
}

/// Fills the cache by one index. Cache and chains are made anew, of its kind.
pub(crate) fn fill_by<R: Threads + Sync, W: Folder, S: Store + Send>(
    rt: &R,
    alloc: Global,
    index: &Index,
    filling: Filling<W, S>,
) -> (Filling<W, S>, Result<(), Outcome>)
    requires unnamed { (W.pairs ≡ None) × (W.stores ≡ None) }
    requires alike { HoldAlike S.Store filling.cached.chain filling.further.items }
    ensures filled { (r : Result Unit FillFault) × (result.1 ≡ answer_of_fill r)
        × IndexFilled (of_calls S.Store (each_stores (filling.cached.chain ∷ filling.further.items))
        (each_stores (result.0.cached.chain ∷ result.0.further.items)) result.0.refuser
        (W.faults filling.cached.shelf.folder) (W.faults result.0.cached.shelf.folder)) index.now
        (W.files filling.cached.shelf.folder) (W.files result.0.cached.shelf.folder) r }
    ensures refuser { result.0.refuser ≤ length result.0.further.items }
    ensures asks { AllZip (AsksListings S.Store (index.now ∷ []))
        (filling.cached.chain ∷ filling.further.items) (result.0.cached.chain ∷ result.0.further.items) }
    ensures shares { AsksInShares S.asked (listed_times (index.now ∷ []))
        (filling.cached.chain ∷ filling.further.items) (result.0.cached.chain ∷ result.0.further.items) }
    ensures alike { HoldAlike S.Store result.0.cached.chain result.0.further.items }
    ensures place { W.place result.0.cached.shelf.folder ≡ W.place filling.cached.shelf.folder }
    ensures never_falls { W.faults filling.cached.shelf.folder ≤ W.faults result.0.cached.shelf.folder }
{
    let mut filling = remake(index.kind(), filling);
    let filled = fill(rt, alloc, index, &mut filling.cached, &mut filling.further);
    filling.refuser = filled.worker;
    (filling, answer_of(filled.result))
}
