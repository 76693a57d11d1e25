//! The filling of a cache, entry by entry. Entries are numbered from 0.

ghost use Rattle.std.specs.Prelude.{◌≡◌, ◌+◌, ◌<◌, ◌≤◌, ℕ, All, None, Ok, OnOk, length};
ghost use Rattle.chunk_dealing.specs.Dealing.{owner_of};
ghost use Rattle.cache_fill.specs.Fetching.{SomeHoldsEntry};
ghost use Rattle.cache_fill.specs.FillProgress.{FillsOn, IsFilling, shelf_at};
ghost use Rattle.cache_store.specs.Shelves.{KeepsShelf};
ghost use Rattle.caibx_codec.specs.Listing.{count_of, kind_of, size_of};
ghost use Rattle.image_slices.specs.Ahead.{IsAhead};

use crate::entry::{Stop, add_ahead, fill_entry};
use crate::lacking::Dealt;
use cache_store::cached::Cached;
use caibx_codec::index::Index;
use chunk_dealing::dealing::{Dealer, owner_of, room_size, round_end};
use chunk_store::store::Store;
use dsy_base::folder::Folder;
use image_slices::ahead::{Ahead, slice_among};
use read_ahead::consumer::Consumer;
use std::alloc::{AllocError, Global};
use std::snapshot::Snapshot;

/// How many bytes readers leave free for what the cache's folder takes.
const SPARE: usize = 262_144;

/// The cache with its stores, the index, a buffer of the size of the largest chunk, the worker of each entry, and the
/// dealer before it began: the entries before `at` are filled. `first` is the cache as it was.
#[derive(Drop)]
pub(crate) struct Filling<'a, F: Folder, S: Store> {
    pub cached: &'a mut Cached<F, S>,
    pub index: &'a Index,
    pub chunk: &'a mut [u8],
    pub owners: &'a [u8],
    pub dealer: Dealer,
    pub at: usize,
    pub first: Snapshot<Cached<F, S>>,
}

impl<'a, F: Folder, S: Store> Filling<'a, F, S> {
    /// No entry is filled yet. The cache was only looked at.
    pub(crate) fn new(
        cached: &'a mut Cached<F, S>,
        index: &'a Index,
        chunk: &'a mut [u8],
        dealt: &'a Dealt,
        first: Snapshot<Cached<F, S>>,
    ) -> Filling<'a, F, S>
        requires kind { cached.old.chain.kind ≡ kind_of index.now }
        requires unnamed { (F.pairs ≡ None) × (F.stores ≡ None) }
        requires inside { (i : ℕ) → i < count_of index.now → size_of index.now i ≤ length chunk.old }
        requires looked { KeepsShelf (shelf_at F.Look S.Store first.value) (shelf_at F.Look S.Store cached.old) }
        requires chain { cached.old.chain ≡ first.value.chain }
        ensures filling { IsFilling F.Look S.Store F.pairs F.stores result }
        ensures same { result.cached.ghost_name ≡ cached.entry.ghost_name }
        ensures cached { result.cached.now ≡ cached.old }
        ensures index { result.index.now ≡ index.now }
        ensures owners { result.owners.now ≡ dealt.now.owners.items }
        ensures first { result.first.value ≡ first.value }
        ensures at { result.at ≡ 0 }
    {
        Filling {
            cached,
            index,
            chunk,
            owners: dealt.owners.as_slice(),
            dealer: dealt.dealer,
            at: 0,
            first,
        }
    }

    /// Entries have other workers from now on. None was filled yet.
    pub(crate) fn deal(&mut self, dealt: &'a Dealt)
        requires none { self.old.at ≡ 0 }
        requires filling { IsFilling F.Look S.Store F.pairs F.stores self.old }
        ensures filling { IsFilling F.Look S.Store F.pairs F.stores self.new }
        ensures same { self.new.cached.ghost_name ≡ self.old.cached.ghost_name }
        ensures cached { self.new.cached.now ≡ self.old.cached.now }
        ensures index { self.new.index.now ≡ self.old.index.now }
        ensures owners { self.new.owners.now ≡ dealt.now.owners.items }
        ensures first { self.new.first.value ≡ self.old.first.value }
    {
        self.owners = dealt.owners.as_slice();
        self.dealer = dealt.dealer;
    }

    // Fills the next entry with what was read ahead.
    fn take_ahead(&mut self, ready: &[Ahead]) -> Result<(), Stop>
        requires more { self.old.at < count_of self.old.index.now }
        requires filling { IsFilling F.Look S.Store F.pairs F.stores self.old }
        requires ready { All (IsAhead self.old.index.now (SomeHoldsEntry S.members self.old.index.now
            self.old.first.value.chain.stores)) ready.now }
        ensures on { FillsOn F.Look S.Store F.pairs F.stores self.old self.new result }
        ensures next { OnOk result (self.new.at ≡ self.old.at + 1) }
    {
        let index = self.index;
        index.rules();
        let read = slice_among(ready, index, self.at);
        let cached = &mut *self.cached;
        let chunk = &mut *self.chunk;
        add_ahead(index, self.at, read, cached, chunk)?;
        self.at += 1;
        Ok(())
    }

    // Fills the next entry, which no further worker was dealt, through the cache.
    fn take_through(&mut self) -> Result<(), Stop>
        requires more { self.old.at < count_of self.old.index.now }
        requires own { owner_of self.old.owners.now self.old.at ≡ 0 }
        requires filling { IsFilling F.Look S.Store F.pairs F.stores self.old }
        ensures on { FillsOn F.Look S.Store F.pairs F.stores self.old self.new result }
        ensures next { OnOk result (self.new.at ≡ self.old.at + 1) }
    {
        let index = self.index;
        index.rules();
        let cached = &mut *self.cached;
        let chunk = &mut *self.chunk;
        match fill_entry(index, self.at, cached, chunk) {
            Ok(()) => {
                self.at += 1;
                Ok(())
            }
            Err(fault) => Err(Stop::Refused(fault)),
        }
    }

    /// Ends the filling.
    pub(crate) fn end(self)
        ensures kept { self.exit.0.now ≡ self.entry.cached.now }
    {
        let Filling { .. } = self;
    }
}

impl<'a, F: Folder, S: Store> Consumer<Ahead> for Filling<'a, F, S> {
    ghost use Rattle.cache_fill.specs.Fetching.{SomeHoldsEntry};
    ghost use Rattle.cache_fill.specs.FillProgress.{FillsOn, IsFilling};
    ghost use Rattle.caibx_codec.specs.Listing.{count_of};
    ghost use Rattle.image_slices.specs.Ahead.{IsAhead};

    type Fault = Stop;

    ghost count = { λ s. count_of s.index.now };

    ghost taken = { λ s. s.at };

    ghost can_go_on = { λ s. IsFilling F.Look S.Store F.pairs F.stores s };

    ghost accepts = { λ s a. IsAhead s.index.now (SomeHoldsEntry S.members s.index.now s.first.value.chain.stores) a };

    ghost goes = { λ a b r. FillsOn F.Look S.Store F.pairs F.stores a b r };

    fn count(&self) -> usize {
        self.index.count()
    }

    fn at(&self) -> usize {
        self.at
    }

    fn spare(&self) -> usize {
        SPARE
    }

    fn room(&self, alloc: Global) -> Result<Ahead, AllocError> {
        Ahead::new(alloc, room_size(self.chunk.len()))
    }

    fn round_end(&self, from: usize, readers: usize) -> usize {
        let _ = readers;
        round_end(self.index, self.owners, from, self.dealer)
    }

    fn take_next(&mut self, ready: &[Ahead]) -> Result<(), Stop> {
        if owner_of(self.owners, self.at) == 0 {
            return self.take_through();
        }
        self.take_ahead(ready)
    }
}
