//! The storing of an image's entries, one after another. Entries are numbered from 0.

ghost use Rattle.std.specs.Prelude.{◌≡◌, ℕ, List, Option, ◌+◌, ◌<◌, ◌≤◌, All, IfOk, IfSome, OnOk};
ghost use Rattle.caibx_codec.specs.Listing.{Listing, count_of, image_length};
ghost use Rattle.dsy_base.specs.Counts.{CountsFaults};
ghost use Rattle.image_store.specs.Putting.{HasPut, SeesTo};
ghost use Rattle.image_store.specs.Storing.{GoesOn, HasRoomFor, HasStored, IsStoring, storing_of};
ghost use Rattle.image_slices.specs.Ahead.{IsAhead, IsSlice, TellsSlice};

use crate::put_chunks::{MakeFault, is_new, put_entry};
use caibx_codec::index::Index;
use chunk_store::store::{Store, StoreWrite};
use dsy_base::view::View;
use image_slices::ahead::{Ahead, slice_among};
use image_slices::consumer::EntryConsumer;
use std::alloc::{AllocError, Global};
use std::collections::BTreeSet;
use std::snapshot::Snapshot;

/// Room for the slice of an entry, and for the bytes that the store holds in its place, each as long as the largest.
#[derive(Drop)]
pub struct Rooms {
    pub chunk: Vec<u8>,
    pub room: Vec<u8>,
}

impl Rooms {
    /// Room for the entries of the index.
    pub fn new(alloc: Global, index: &Index) -> Result<Rooms, AllocError>
        ensures { IfOk result (HasRoomFor index.now) }
    {
        Ok(Rooms {
            chunk: index.room(alloc)?,
            room: index.room(alloc)?,
        })
    }
}

/// How far a storing has come: the entries before `at` are stored, `seen` are their ids, and `first` is the store as
/// it was before.
#[derive(Drop)]
pub(crate) struct StoreProgress<S> {
    pub first: Snapshot<S>,
    pub at: usize,
    pub seen: BTreeSet<[u8; 32]>,
}

impl<S: StoreWrite> StoreProgress<S> {
    /// Nothing is stored yet.
    pub(crate) fn new(alloc: Global, store: &S) -> StoreProgress<S>
        ensures put { (l : Listing) (told : Option (List ℕ)) →
            HasPut S.Store l told result.at result.first.value store.now result.seen }
        ensures at { result.at ≡ 0 }
        ensures first { result.first.value ≡ store.now }
    {
        StoreProgress {
            first: Snapshot::of(store),
            at: 0,
            seen: BTreeSet::new(alloc),
        }
    }

    // Stores the next entry, unless its id is stored already. Its slice may have been read.
    fn see_next<V: View>(
        &mut self,
        index: &Index,
        image: &mut V,
        store: &mut S,
        rooms: &mut Rooms,
        read: Option<&[u8]>,
    ) -> Result<(), MakeFault>
        requires listed { self.old.at < count_of index.now }
        requires size { image_length index.now ≡ (V.held image.old).size }
        requires room { HasRoomFor index.now rooms.old }
        requires read { IfSome read (λ b. IsSlice index.now (V.held image.old).bytes self.old.at b.now) }
        requires put { HasPut S.Store index.now (V.held image.old).bytes self.old.at self.old.first.value store.old
            self.old.seen }
        ensures sees { SeesTo V.View S.Store index.now (self.old.at + 1) self.new.first.value image.old image.new
            store.new self.new.seen result }
        ensures at { self.new.at ≡ self.old.at }
        ensures first { self.new.first.value ≡ self.old.first.value }
        ensures room { HasRoomFor index.now rooms.new }
    {
        let id = index.id(self.at);
        if is_new(&mut self.seen, &id)? {
            return put_entry(
                index,
                self.at,
                image,
                store,
                &mut rooms.chunk,
                &mut rooms.room,
                read,
            );
        }
        Ok(())
    }

    // Stores the next entry, whose slice may be ready.
    fn put_next<V: View>(
        &mut self,
        index: &Index,
        image: &mut V,
        store: &mut S,
        rooms: &mut Rooms,
        ready: &[Ahead],
    ) -> Result<(), MakeFault>
        requires more { self.old.at < count_of index.now }
        requires storing { IsStoring V.View S.Store index.now (storing_of image.old store.old self.old rooms.old) }
        requires ready { All (IsAhead index.now (TellsSlice index.now (V.held image.old).bytes)) ready.now }
        ensures on { GoesOn V.View S.Store index.now (storing_of image.old store.old self.old rooms.old)
            (storing_of image.new store.new self.new rooms.new) result }
        ensures next { OnOk result (self.new.at ≡ self.old.at + 1) }
    {
        index.rules();
        let read = slice_among(ready, index, self.at);
        self.see_next(index, image, store, rooms, read)?;
        self.at += 1;
        Ok(())
    }

    // Stores the entries before `to`.
    fn put_to<V: View>(
        &mut self,
        index: &Index,
        to: usize,
        image: &mut V,
        store: &mut S,
        rooms: &mut Rooms,
        ready: &[Ahead],
    ) -> Result<(), MakeFault>
        requires inside { to ≤ count_of index.now }
        requires storing { IsStoring V.View S.Store index.now (storing_of image.old store.old self.old rooms.old) }
        requires ready { All (IsAhead index.now (TellsSlice index.now (V.held image.old).bytes)) ready.now }
        ensures on { GoesOn V.View S.Store index.now (storing_of image.old store.old self.old rooms.old)
            (storing_of image.new store.new self.new rooms.new) result }
        ensures to { OnOk result (to ≤ self.new.at) }
    {
        while self.at < to {
            self.put_next(index, image, store, rooms, ready)?;
        }
        Ok(())
    }
}

/// Stores all entries, with slices that it reads itself.
pub(crate) fn put_all<V: View, S: StoreWrite>(
    alloc: Global,
    index: &Index,
    image: &mut V,
    store: &mut S,
    rooms: &mut Rooms,
) -> Result<(), MakeFault>
    requires size { image_length index.now ≡ (V.held image.old).size }
    requires room { HasRoomFor index.now rooms.old }
    ensures stored { HasStored S.Store index.now (V.held image.old).bytes store.old store.new result }
    ensures kept { V.held image.new ≡ V.held image.old }
    ensures image_faults { CountsFaults MakeFault.ImageFault MakeFault.Memory
        (V.faults image.old) (V.faults image.new) result }
{
    let mut progress = StoreProgress::new(alloc, store);
    progress.put_to(index, index.count(), image, store, rooms, &[])
}

/// A view of the image, the store, and how far the storing has come.
#[derive(Drop)]
pub(crate) struct Storing<V, S> {
    pub image: V,
    pub store: S,
    pub progress: StoreProgress<S>,
    pub rooms: Rooms,
}

impl<V: View, S: StoreWrite> Storing<V, S> {
    /// Nothing is stored yet.
    pub(crate) fn new(alloc: Global, image: V, store: S, rooms: Rooms) -> Storing<V, S>
        ensures storing { (l : Listing) → image_length l ≡ (V.held image).size → HasRoomFor l rooms
            → IsStoring V.View S.Store l result }
        ensures image { result.image ≡ image }
        ensures first { result.progress.first.value ≡ store }
    {
        let progress = StoreProgress::new(alloc, &store);
        Storing {
            image,
            store,
            progress,
            rooms,
        }
    }

    /// Stores the next entry, whose slice may be ready.
    fn put_next(&mut self, index: &Index, ready: &[Ahead]) -> Result<(), MakeFault>
        requires more { self.old.progress.at < count_of index.now }
        requires storing { IsStoring V.View S.Store index.now self.old }
        requires ready { All (IsAhead index.now (TellsSlice index.now (V.held self.old.image).bytes)) ready.now }
        ensures on { GoesOn V.View S.Store index.now self.old self.new result }
        ensures next { OnOk result (self.new.progress.at ≡ self.old.progress.at + 1) }
    {
        self.progress.put_next(
            index,
            &mut self.image,
            &mut self.store,
            &mut self.rooms,
            ready,
        )
    }

    /// Hands the view and the store back.
    pub(crate) fn end(self) -> (V, S)
        ensures { (result.0 ≡ self.image) × (result.1 ≡ self.store) }
    {
        (self.image, self.store)
    }
}

impl<V: View, S: StoreWrite> EntryConsumer for Storing<V, S> {
    ghost use Rattle.image_store.specs.Storing.{GoesOn, IsStoring};

    type Fault = MakeFault;

    ghost image = { λ s. V.held s.image };

    ghost taken = { λ s. s.progress.at };

    ghost can_go_on = { λ l s. IsStoring V.View S.Store l s };

    ghost goes = { λ l a b r. GoesOn V.View S.Store l a b r };

    fn at(&self) -> usize {
        self.progress.at
    }

    fn take_next(&mut self, index: &Index, ready: &[Ahead]) -> Result<(), MakeFault> {
        self.put_next(index, ready)
    }
}
