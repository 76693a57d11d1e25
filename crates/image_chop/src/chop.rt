//! Chopping an image: each chunk that an index lists is named in the image and put into a store. Offsets are bytes from
//! 0, entries are numbered from 0.

ghost use Rattle.std.specs.Prelude.{◌≡◌, ℕ, ◌<◌, All, Err, IfErr, IfSome, OnErr, OnOk, is_some, map};
ghost use Rattle.caibx_codec.specs.Listing.{count_of, image_length};
ghost use Rattle.caibx_codec.specs.Right.{IsRight};
ghost use Rattle.chunk_store.specs.Asks.{Sends};
ghost use Rattle.chunk_store.specs.Causes.{CountsCause};
ghost use Rattle.dsy_base.specs.Counts.{CountsFaults};
ghost use Rattle.image_chop.specs.ChopProgress.{ChoppingEnds};
ghost use Rattle.image_chop.specs.Chopping.{AsksListed, ChopStops, IsMismatch, TellsLength};
ghost use Rattle.image_chop.specs.Chopping.{most_seen, seen_to};
ghost use Rattle.image_store.specs.PutChunks.{HoldsAll, KeepsListed, PutsFiles, SaysAll, Stands};
ghost use Rattle.image_store.specs.Storing.{HasRoomFor};
ghost use Rattle.image_slices.specs.Consumers.{IsAlike, NoFaultCountFalls};

use crate::chopping::Chopping;
use caibx_codec::index::Index;
use chunk_store::id::ChunkId;
use chunk_store::store::{Store, StoreWrite};
use dsy_base::view::View;
use image_slices::consumer::take_slices;
use image_slices::subfolders::NoSubfolders;
use image_store::storing::Rooms;
use std::alloc::Global;
use std::thread::Threads;

/// Why an image wasn't chopped.
#[derive(Clone, Copy, Debug, PartialEq, Eq)]
pub enum ChopFault {
    /// The image has this many bytes, and the index lists another number.
    Length { size: u64 },
    /// The slice of this entry has the digest `got`, and the index lists another.
    Mismatch { entry: u64, got: ChunkId },
    /// The image couldn't be read.
    ImageFault,
    StoreFault,
    Memory,
}

// Stores all entries.
fn chop_beside<R: Threads + Sync, V: View + Send, S: StoreWrite>(
    rt: &R,
    index: &Index,
    image: V,
    others: &mut Vec<V>,
    store: S,
    rooms: Rooms,
) -> (V, S, Result<(), ChopFault>)
    requires size { image_length index.now ≡ (V.held image).size }
    requires alike { All (IsAlike (V.held image)) (map V.held others.old.items) }
    requires room { HasRoomFor index.now rooms }
    ensures ends { ChoppingEnds S.Store index.now (V.held image).bytes (V.held image).size store result.1 result.2 }
    ensures kept { V.held result.0 ≡ V.held image }
    ensures others { map V.held others.new.items ≡ map V.held others.old.items }
    ensures image_faults { CountsFaults ChopFault.ImageFault ChopFault.Memory
        (V.faults image) (V.faults result.0) result.2 }
    ensures other_faults { NoFaultCountFalls (map V.faults others.old.items) (map V.faults others.new.items) }
{
    let alloc = *rooms.chunk.allocator();
    let largest = rooms.chunk.len();
    let chopping = Chopping::new(image, store, rooms);
    let none: Option<NoSubfolders> = None;
    let (chopping, chopped) = take_slices(rt, alloc, index, largest, chopping, others, &none);
    let (image, store) = chopping.end();
    (image, store, chopped)
}

/// Stores each chunk that the index lists, entry by entry up to the first refusal: the image's slice is named, and put
/// where the store lacks it. An id that is listed twice is looked for twice. The other views of the image read and name
/// slices ahead, each in a thread of its own where there is memory for its rooms. View and store come back, whatever
/// the answer is.
pub fn chop<R: Threads + Sync, V: View + Send, S: StoreWrite>(
    rt: &R,
    alloc: Global,
    index: &Index,
    image: V,
    others: &mut Vec<V>,
    store: S,
) -> (V, S, Result<(), ChopFault>)
    requires alike { All (IsAlike (V.held image)) (map V.held others.old.items) }
    ensures right { OnOk result.2 (IfSome (V.held image).bytes (λ t. IsRight t index.now)) }
    ensures size { TellsLength index.now (V.held image).size result.2 }
    ensures first { IfErr result.2 (IsMismatch index.now (V.held image).bytes) }

    // What the store then holds, and what it has said.
    ensures holds { IfSome (S.holds result.1) (λ m. HoldsAll index.now (seen_to index.now result.2) m) }
    ensures told { SaysAll index.now (seen_to index.now result.2) (S.said result.1) }
    ensures changed { IfSome (V.held image).bytes (λ t. IfSome (S.holds store) (λ old.
        IfSome (S.holds result.1) (λ new. Stands index.now t (most_seen index.now result.2) old new))) }
    ensures files { PutsFiles index.now (V.held image).bytes (S.holds store) (most_seen index.now result.2)
        (S.folder store) (S.folder result.1) }
    ensures order { OnErr result.2 (ChopStops S.Store index.now (V.held image).bytes store result.1) }
    ensures untouched { (n : ℕ) → result.2 ≡ Err (ChopFault.Length n) →
        (result.0 ≡ image) × (result.1 ≡ store) }

    ensures tells { is_some (S.holds result.1) ≡ is_some (S.holds store) }
    ensures kept { V.held result.0 ≡ V.held image }
    ensures place { S.place result.1 ≡ S.place store }
    ensures sends { Sends (KeepsListed index.now) (S.sent store) (S.sent result.1) }
    ensures asks { AsksListed index.now (most_seen index.now result.2) (S.asked store) (S.asked result.1) }
    ensures queries { S.queried result.1 ≡ S.queried store }
    ensures image_faults { CountsFaults ChopFault.ImageFault ChopFault.Memory
        (V.faults image) (V.faults result.0) result.2 }
    ensures store_faults { CountsCause ChopFault.StoreFault (S.faults store) (S.faults result.1) result.2 }

    // The other views.
    ensures others { map V.held others.new.items ≡ map V.held others.old.items }
    ensures other_faults { NoFaultCountFalls (map V.faults others.old.items) (map V.faults others.new.items) }
{
    let size = image.size();
    if size != index.length() {
        return (image, store, Err(ChopFault::Length { size }));
    }
    let Ok(rooms) = Rooms::new(alloc, index) else {
        return (image, store, Err(ChopFault::Memory));
    };
    chop_beside(rt, index, image, others, store, rooms)
}
