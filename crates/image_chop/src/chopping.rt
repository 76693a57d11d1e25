//! The chopping of an image's entries, one after another. Entries are numbered from 0.

ghost use Rattle.std.specs.Prelude.{◌≡◌, ℕ, ◌+◌, ◌<◌, All, Err, IfErr, IfSome, OnOk, length};
ghost use Rattle.caibx_codec.specs.Listing.{Listing, count_of, id_of, image_length, kind_of};
ghost use Rattle.caibx_codec.specs.Right.{IsRightAt};
ghost use Rattle.chunk_store.specs.Causes.{CountsCause};
ghost use Rattle.dsy_base.specs.Counts.{CountsFaults};
ghost use Rattle.image_chop.specs.Chopping.{StopsAt};
ghost use Rattle.image_chop.specs.ChopProgress.{ChopsOn, IsChopping};
ghost use Rattle.image_store.specs.PutChunks.{HasChunk, TouchesChunk, told_slice};
ghost use Rattle.image_store.specs.Storing.{HasRoomFor};
ghost use Rattle.image_slices.specs.Ahead.{IsAhead, IsSlice, TellsSlice};

use crate::chop::ChopFault;
use caibx_codec::index::Index;
use chunk_store::id::ChunkId;
use chunk_store::store::{Store, StoreWrite};
use dsy_base::view::View;
use image_slices::ahead::{Ahead, slice_among};
use image_slices::consumer::EntryConsumer;
use image_store::put_chunks::{MakeFault, put_entry};
use image_store::storing::Rooms;
use std::snapshot::Snapshot;

// Stores entry i. Its slice may have been read.
fn chop_entry<V: View, S: StoreWrite>(
    index: &Index,
    i: usize,
    image: &mut V,
    store: &mut S,
    rooms: &mut Rooms,
    read: Option<&[u8]>,
) -> Result<(), ChopFault>
    requires listed { i < count_of index.now }
    requires size { image_length index.now ≡ (V.held image.old).size }
    requires room { HasRoomFor index.now rooms.old }
    requires read { IfSome read (λ b. IsSlice index.now (V.held image.old).bytes i b.now) }
    ensures ok { OnOk result (HasChunk S.Store (kind_of index.now) (id_of index.now i) store.new) }
    ensures right { OnOk result (IfSome (V.held image.old).bytes (λ t. IsRightAt t index.now i)) }
    ensures changed { TouchesChunk S.Store (kind_of index.now) (id_of index.now i)
        (told_slice index.now i (V.held image.old).bytes) store.old store.new }
    ensures err { IfErr result (StopsAt index.now i (V.held image.old).bytes) }
    ensures untouched { (k : ℕ) → (got : ChunkId) → result ≡ Err (ChopFault.Mismatch k got) → store.new ≡ store.old }
    ensures kept { V.held image.new ≡ V.held image.old }
    ensures room { HasRoomFor index.now rooms.new }
    ensures image_faults { CountsFaults ChopFault.ImageFault ChopFault.Memory
        (V.faults image.old) (V.faults image.new) result }
    ensures store_faults { CountsCause ChopFault.StoreFault (S.faults store.old) (S.faults store.new) result }
{
    let (chunk, room) = (&mut rooms.chunk, &mut rooms.room);
    match put_entry(index, i, image, store, chunk, room, read) {
        Ok(()) => Ok(()),
        Err(fault) => match fault {
            MakeFault::Changed { entry, got, .. } => Err(ChopFault::Mismatch { entry, got }),
            MakeFault::ImageFault => Err(ChopFault::ImageFault),
            MakeFault::StoreFault => Err(ChopFault::StoreFault),
            MakeFault::Memory => Err(ChopFault::Memory),
            MakeFault::TooManyItems => unreachable!(),
        },
    }
}

/// A view of the image, the store, and how far the chopping has come: the entries before `at` are stored, and `first`
/// is the store as it was before.
#[derive(Drop)]
pub(crate) struct Chopping<V, S> {
    pub image: V,
    pub store: S,
    pub first: Snapshot<S>,
    pub at: usize,
    pub rooms: Rooms,
}

impl<V: View, S: StoreWrite> Chopping<V, S> {
    /// Nothing is stored yet.
    pub(crate) fn new(image: V, store: S, rooms: Rooms) -> Chopping<V, S>
        ensures chopping { (l : Listing) → image_length l ≡ (V.held image).size → HasRoomFor l rooms
            → IsChopping V.View S.Store l result }
        ensures image { result.image ≡ image }
        ensures first { result.first.value ≡ store }
        ensures sized { IfSome (V.held result.image).bytes (λ t. length t ≡ (V.held result.image).size) }
    {
        let first = Snapshot::of(&store);
        Chopping {
            image,
            store,
            first,
            at: 0,
            rooms,
        }
    }

    // Stores the next entry, whose slice may be ready.
    fn chop_next(&mut self, index: &Index, ready: &[Ahead]) -> Result<(), ChopFault>
        requires more { self.old.at < count_of index.now }
        requires chopping { IsChopping V.View S.Store index.now self.old }
        requires ready { All (IsAhead index.now (TellsSlice index.now (V.held self.old.image).bytes)) ready.now }
        ensures on { ChopsOn V.View S.Store index.now self.old self.new result }
        ensures next { OnOk result (self.new.at ≡ self.old.at + 1) }
    {
        index.rules();
        let read = slice_among(ready, index, self.at);
        chop_entry(
            index,
            self.at,
            &mut self.image,
            &mut self.store,
            &mut self.rooms,
            read,
        )?;
        self.at += 1;
        Ok(())
    }

    /// Hands the view and the store back.
    pub(crate) fn end(self) -> (V, S)
        ensures { (result.0 ≡ self.image) × (result.1 ≡ self.store) }
    {
        (self.image, self.store)
    }
}

impl<V: View, S: StoreWrite> EntryConsumer for Chopping<V, S> {
    ghost use Rattle.image_chop.specs.ChopProgress.{ChopsOn, IsChopping};

    type Fault = ChopFault;

    ghost image = { λ s. V.held s.image };

    ghost taken = { λ s. s.at };

    ghost can_go_on = { λ l s. IsChopping V.View S.Store l s };

    ghost goes = { λ l a b r. ChopsOn V.View S.Store l a b r };

    fn at(&self) -> usize {
        self.at
    }

    fn take_next(&mut self, index: &Index, ready: &[Ahead]) -> Result<(), ChopFault> {
        self.chop_next(index, ready)
    }
}
