//! Storing an image's entries with one view, while other views read and name slices ahead. Entries are numbered from 0.

ghost use Rattle.std.specs.Prelude.{◌≡◌, ◌<◌, All, IfSome, map, vec_len};
ghost use Rattle.buzhash_cut.specs.Image.{AreOfOneImage};
ghost use Rattle.caibx_codec.specs.Listing.{image_length};
ghost use Rattle.image_store.specs.Storing.{HasRoomFor, IsStoredBy};

use crate::put_chunks::MakeFault;
use crate::storing::{Rooms, Storing};
use caibx_codec::index::Index;
use chunk_store::store::{Store, StoreWrite};
use dsy_base::inner_folders::InnerFolders;
use dsy_base::view::View;
use image_slices::consumer::take_slices;
use std::alloc::Global;
use std::thread::Threads;

// Stores all entries with the first view, for which the others read ahead.
fn store_ahead<R: Threads + Sync, V: View + Send, S: StoreWrite, I: InnerFolders + Sync>(
    rt: &R,
    index: &Index,
    views: Vec<V>,
    store: S,
    inner: &Option<I>,
    rooms: Rooms,
) -> (Vec<V>, S, Result<(), MakeFault>)
    requires some { 0 < vec_len views }
    requires alike { AreOfOneImage (map V.held views.items) }
    requires size { All (λ v. image_length index.now ≡ (V.held v).size) views.items }
    requires room { HasRoomFor index.now rooms }
    ensures { IsStoredBy V.View S.Store index.now views.items result.0.items store result.1 result.2 }
{
    let mut views = views;
    let alloc = *rooms.chunk.allocator();
    let largest = rooms.chunk.len();
    let image = views.remove(0);
    let storing = Storing::new(alloc, image, store, rooms);
    let (storing, put) = take_slices(rt, alloc, index, largest, storing, &mut views, inner);
    let (image, store) = storing.end();
    let Ok(()) = views.insert(0, image) else {
        unreachable!();
    };
    (views, store, put)
}

/// Stores each chunk that the index lists and the store lacks, in order, each id once. The first view is read;
/// each other one reads and names slices ahead in a thread of its own, which makes the inner folders of their chunks'
/// files, where there is memory for its rooms. `inner` are the subfolders of the store's folder.
pub(crate) fn store_entries<
    R: Threads + Sync,
    V: View + Send,
    S: StoreWrite,
    I: InnerFolders + Sync,
>(
    rt: &R,
    alloc: Global,
    index: &Index,
    views: Vec<V>,
    store: S,
    inner: &Option<I>,
) -> (Vec<V>, S, Result<(), MakeFault>)
    requires some { 0 < vec_len views }
    requires alike { AreOfOneImage (map V.held views.items) }
    requires size { All (λ v. image_length index.now ≡ (V.held v).size) views.items }
    requires place { IfSome inner.now (λ i. I.place i ≡ S.place store) }
    ensures { IsStoredBy V.View S.Store index.now views.items result.0.items store result.1 result.2 }
{
    let Ok(rooms) = Rooms::new(alloc, index) else {
        return (views, store, Err(MakeFault::Memory));
    };
    store_ahead(rt, index, views, store, inner, rooms)
}
