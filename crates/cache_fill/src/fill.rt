//! Filling a cache: each chunk that an index lists is got through it, and stands in it then.
//! Entries are numbered from 0.

ghost use Rattle.std.specs.Prelude.{◌≡◌, ℕ, List, ◌+◌, ◌<◌, ◌≤◌, ◌∷◌, All, IsTrue, None, length, map, vec_capacity};
ghost use Rattle.std.specs.List.{AllZip};
ghost use Rattle.chunk_dealing.specs.Dealing.{AsksInShares, DealsLacking, all_calls, owner_of};
ghost use Rattle.cache_fill.specs.Filling.{AreQuiet, AsksEntries, FetchesAhead, FillEnds, FillUnfailed, FillsBy};
ghost use Rattle.cache_fill.specs.Filling.{HoldsTo, MayFillCache, SparesHeld, SparesStores, filled_to};
ghost use Rattle.cache_fill.specs.Fetching.{SharesOut};
ghost use Rattle.cache_fill.specs.FillProgress.{RiseByOne, FillAnswers, IsHired, shelf_at};
ghost use Rattle.cache_store.specs.Shelves.{KeepsShelf, Stocks, held_on, shelf_of};
ghost use Rattle.caibx_codec.specs.Asks.{IsListedGet};
ghost use Rattle.caibx_codec.specs.Listing.{count_of, kind_of, size_of};
ghost use Rattle.dsy_base.specs.Maps.{Map};
ghost use Rattle.image_chop.specs.Chopping.{times_listed};
ghost use Rattle.store_chain.specs.Chains.{KeepsStores};

use crate::ending::ended;
use crate::filling::Filling;
use crate::hiring::{buffers, dismiss, hire};
use crate::lacking::{Dealt, deal_ahead, none_dealt};
use crate::want_reader::WantReader;
use cache_store::cached::Cached;
use caibx_codec::index::Index;
use chunk_store::id::ChunkId;
use chunk_store::shows::Shows;
use chunk_store::store::{Giver, Store};
use dsy_base::folder::Folder;
use image_slices::ahead::Ahead;
use read_ahead::claims::Sharing;
use read_ahead::rounds::{room_pairs, take_alone, take_by_rounds};
use std::alloc::Global;
use std::snapshot::Snapshot;
use std::thread::Threads;
use store_chain::chain::Chain;

/// Why a cache doesn't hold each chunk that an index lists. Stores are numbered from 0.
#[derive(Clone, Copy, Debug, PartialEq, Eq)]
pub enum FillFault {
    /// The cache doesn't give the chunk of this entry, and no store has something under its id.
    Missing {
        entry: u64,
        id: ChunkId,
    },
    /// The cache doesn't give the chunk of this entry, the first store that has something under its id has something
    /// else, and what that shows.
    Damaged {
        entry: u64,
        id: ChunkId,
        store: Giver,
        shows: Shows,
    },
    /// The first store that failed.
    StoreFault {
        store: u32,
    },
    /// A chunk couldn't be put into the cache.
    CacheFault,
    Memory,
}

/// How filling ended, and the number of the worker whose stores refused a chunk, where they did: the first worker is 0.
#[derive(Clone, Copy, Debug, PartialEq, Eq)]
pub struct FillEnded {
    pub result: Result<(), FillFault>,
    pub worker: usize,
}

// Fills all entries, while the readers get those ahead that they were dealt. The cache was only looked at since
// `first`.
fn fill_entries<R: Threads + Sync, F: Folder, S: Store + Send>(
    rt: &R,
    index: &Index,
    cached: &mut Cached<F, S>,
    first: Snapshot<Cached<F, S>>,
    room: &mut Vec<u8>,
    dealt: &Dealt,
    readers: &mut [WantReader<S>],
) -> FillEnded
    requires kind { cached.old.chain.kind ≡ kind_of index.now }
    requires unnamed { (F.pairs ≡ None) × (F.stores ≡ None) }
    requires inside { (i : ℕ) → i < count_of index.now → size_of index.now i ≤ length room.old.items }
    requires looked { KeepsShelf (shelf_at F.Look S.Store first.value) (shelf_at F.Look S.Store cached.old) }
    requires chain { cached.old.chain ≡ first.value.chain }
    requires lacking { DealsLacking index.now (held_on (shelf_at F.Look S.Store first.value))
        (owner_of dealt.now.owners.items) }
    requires hired { All (IsHired index.now dealt.now.owners.items) readers.old }
    requires numbered { RiseByOne 1 readers.old }
    requires kinds { All (λ r. r.chain.kind ≡ kind_of index.now) readers.old }
    requires alike { All (λ r. map S.holds r.chain.stores ≡ map S.holds cached.old.chain.stores) readers.old }
    requires members { All (λ r. map S.members r.chain.stores ≡ map S.members cached.old.chain.stores) readers.old }
    ensures answers { FillAnswers S.Store index.now (shelf_at F.Look S.Store first.value)
        (shelf_at F.Look S.Store cached.new) first.value.chain cached.new.chain
        (map (λ r. r.chain) readers.old) (map (λ r. r.chain) readers.new) result.worker result.result }
    ensures dealt { SharesOut S.Store index.now (held_on (shelf_at F.Look S.Store first.value)) first.value.chain
        cached.new.chain (map (λ r. r.chain) readers.old) (map (λ r. r.chain) readers.new) }
{
    let alloc = *room.allocator();
    let chunk = room.as_mut_slice();
    let none = none_dealt(alloc);
    let mut filling = Filling::new(cached, index, chunk, &none, first);
    let Ok((rooms, ready)) = room_pairs(alloc, &filling, readers.len()) else {
        let taken = take_alone::<Ahead, _>(&mut filling);
        let at = filling.at;
        filling.end();
        return ended(taken, at, readers);
    };
    filling.deal(dealt);
    let taken = take_by_rounds(rt, Sharing::Dealt, &mut filling, readers, rooms, ready);
    let at = filling.at;
    filling.end();
    ended(taken, at, readers)
}

// Whether some worker was dealt an entry, and there is memory for readers of this many chains.
fn may_hire<S: Store>(
    readers: &Vec<WantReader<S>>,
    buffers: &Vec<Vec<u8>>,
    chains: usize,
    dealt: &Dealt,
) -> bool
    ensures { IsTrue result → chains ≤ vec_capacity readers.now }
{
    chains <= readers.capacity() && chains <= buffers.len() && !dealt.owners.is_empty()
}

// Fills all entries, while readers with the further chains get chunks ahead, if there is memory for them.
fn fill_beside<'a, R: Threads + Sync, F: Folder, S: Store + Send>(
    rt: &R,
    index: &'a Index,
    cached: &mut Cached<F, S>,
    first: Snapshot<Cached<F, S>>,
    room: &mut Vec<u8>,
    dealt: &'a Dealt,
    further: &mut Vec<Chain<S>>,
) -> FillEnded
    requires kind { cached.old.chain.kind ≡ kind_of index.now }
    requires unnamed { (F.pairs ≡ None) × (F.stores ≡ None) }
    requires inside { (i : ℕ) → i < count_of index.now → size_of index.now i ≤ length room.old.items }
    requires looked { KeepsShelf (shelf_at F.Look S.Store first.value) (shelf_at F.Look S.Store cached.old) }
    requires chain { cached.old.chain ≡ first.value.chain }
    requires lacking { DealsLacking index.now (held_on (shelf_at F.Look S.Store first.value))
        (owner_of dealt.now.owners.items) }
    requires kinds { All (λ c. c.kind ≡ kind_of index.now) further.old.items }
    requires alike { All (λ c. map S.holds c.stores ≡ map S.holds cached.old.chain.stores) further.old.items }
    requires members { All (λ c. map S.members c.stores ≡ map S.members cached.old.chain.stores) further.old.items }
    ensures answers { FillAnswers S.Store index.now (shelf_at F.Look S.Store first.value)
        (shelf_at F.Look S.Store cached.new) first.value.chain cached.new.chain further.old.items further.new.items
        result.worker result.result }
    ensures dealt { SharesOut S.Store index.now (held_on (shelf_at F.Look S.Store first.value)) first.value.chain
        cached.new.chain further.old.items further.new.items }
{
    let alloc = *room.allocator();
    let mut readers: Vec<WantReader<'a, S>> = match Vec::with_capacity(alloc, further.len()) {
        Ok(readers) => readers,
        Err(_) => Vec::new(alloc),
    };
    let mut buffers = match buffers(alloc, further.len(), room.len()) {
        Ok(buffers) => buffers,
        Err(_) => Vec::new(alloc),
    };
    if !may_hire(&readers, &buffers, further.len(), dealt) {
        let none = none_dealt(alloc);
        let mut nobody: Vec<WantReader<'a, S>> = Vec::new(alloc);
        return fill_entries(rt, index, cached, first, room, &none, &mut nobody);
    }
    hire(further, index, &dealt.owners, &mut buffers, &mut readers);
    let filled = fill_entries(rt, index, cached, first, room, dealt, &mut readers);
    dismiss(&mut readers, further);
    filled
}

/// Sees to it that the cache holds each chunk that the index lists, entry by entry up to the first refusal: one that it
/// doesn't give is got from the stores and put into it. An id that is listed twice is filled twice. The entries whose
/// chunks the cache lacks are dealt to the further chains, which get these ahead of their turns, each in a thread of
/// its own, where there is memory for their rooms. No chain asks for an entry of another.
pub fn fill<R: Threads + Sync, F: Folder, S: Store + Send>(
    rt: &R,
    alloc: Global,
    index: &Index,
    cached: &mut Cached<F, S>,
    further: &mut Vec<Chain<S>>,
) -> FillEnded
    requires kind { cached.old.chain.kind ≡ kind_of index.now }
    requires unnamed { (F.pairs ≡ None) × (F.stores ≡ None) }
    // Further workers name chunks by the same digest, and their stores and the members of these hold the same.
    requires kinds { All (λ c. c.kind ≡ kind_of index.now) further.old.items }
    requires alike { All (λ c. map S.holds c.stores ≡ map S.holds cached.old.chain.stores) further.old.items }
    requires members { All (λ c. map S.members c.stores ≡ map S.members cached.old.chain.stores) further.old.items }
    ensures holds { HoldsTo index.now (filled_to index.now result.result)
        (shelf_of F.files F.place F.faults cached.new.shelf) }
    ensures order { FillEnds S.Store index.now
        (shelf_of F.files F.place F.faults cached.old.shelf) (shelf_of F.files F.place F.faults cached.new.shelf)
        cached.old.chain cached.new.chain further.old.items further.new.items result.worker result.result }
    // Where nothing fails.
    ensures exactly { (m : Map (List ℕ)) → (maps : List (Map (List ℕ))) → FillUnfailed S.holds S.faults index.now m maps
        (shelf_of F.files F.place F.faults cached.old.shelf) (shelf_of F.files F.place F.faults cached.new.shelf)
        cached.old.chain.stores cached.new.chain.stores →
        AreQuiet S.faults further.old.items further.new.items → FillsBy index.now m maps result.result }

    // How often the stores of all workers are asked together.
    ensures shares { AsksInShares S.asked (times_listed index.now (count_of index.now))
        (cached.old.chain ∷ further.old.items) (cached.new.chain ∷ further.new.items) }
    ensures calls { all_calls (cached.new.chain ∷ further.new.items)
        ≤ all_calls (cached.old.chain ∷ further.old.items) + count_of index.now }

    // How often those of each are, what the cache holds then, and what the stores keep.
    ensures asks { AsksEntries S.asked S.queried index.now (count_of index.now) cached.old.chain cached.new.chain }
    ensures spared { SparesStores index.now (shelf_of F.files F.place F.faults cached.old.shelf)
        (shelf_of F.files F.place F.faults cached.new.shelf) cached.old.chain cached.new.chain }
    ensures stocks { Stocks (MayFillCache S.members index.now cached.old.chain.stores)
        (shelf_of F.files F.place F.faults cached.old.shelf) (shelf_of F.files F.place F.faults cached.new.shelf) }
    ensures stores { KeepsStores S.Store (IsListedGet index.now) cached.old.chain.stores cached.new.chain.stores }
    ensures further { AllZip (FetchesAhead S.Store index.now) further.old.items further.new.items }
    ensures unasked { AllZip (SparesHeld S.asked (held_on (shelf_of F.files F.place F.faults cached.old.shelf)))
        further.old.items further.new.items }
{
    let Ok(mut room) = index.room(alloc) else {
        return FillEnded {
            result: Err(FillFault::Memory),
            worker: 0,
        };
    };
    let first = Snapshot::of(&*cached);
    let dealt = deal_ahead(alloc, index, cached, further.len(), room.len());
    fill_beside(rt, index, cached, first, &mut room, &dealt, further)
}
