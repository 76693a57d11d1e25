//! Storing an image: its index, and each of its chunks in a store.

ghost use Rattle.std.specs.Prelude.{◌≡◌, ◌≢◌, ◌<◌, ◌≤◌, map, vec_len, All, IfSome, IfOk, IfErr, is_some};
ghost use Rattle.std.specs.Prelude.{IsErrAnd, Err};
ghost use Rattle.buzhash_cut.specs.Image.{AreOfOneImage, CountsViews, HasTooManyCuts, IsIndexOfImage};
ghost use Rattle.caibx_codec.specs.Listing.{count_of, image_length, kind_of};
ghost use Rattle.caibx_fields.specs.Limits.{item_limit};
ghost use Rattle.chunk_store.specs.Causes.{CountsCause};
ghost use Rattle.image_store.specs.StoreImage.{Indexes, IsOfCutting, IsOfStoring, StoresImage, PutsFilesOf, AsksOf};
ghost use Rattle.image_store.specs.StoreImage.{IsOfImage, SaysOf, SendsOf};

use crate::put_chunks::MakeFault;
use crate::spell::spell;
use crate::store_entries::store_entries;
use buzhash_cut::image::{CutFault, index_view_as};
use buzhash_cut::laws::{image_is_right, many_cuts};
use buzhash_cut::sizes::CutSizes;
use caibx_codec::index::Index;
use chunk_store::id::DigestKind;
use chunk_store::store::{Store, StoreWrite};
use dsy_base::inner_folders::InnerFolders;
use dsy_base::view::View;
use std::alloc::Global;
use std::thread::Threads;

// Indexes the image behind the views, with the faults of `make`.
fn index_of<R: Threads + Sync, V: View + Send>(
    rt: &R,
    alloc: Global,
    views: Vec<V>,
    sizes: &CutSizes,
    kind: DigestKind,
) -> (Vec<V>, Result<Index, MakeFault>)
    requires some { 0 < vec_len views }
    requires alike { AreOfOneImage (map V.held views.items) }
    ensures exactly { All (λ v. IfSome (V.held v).bytes (λ t. Indexes kind sizes.now t result.1)) views.items }
    ensures size { IfOk result.1 (λ l. All (λ v. image_length l ≡ (V.held v).size) views.items) }
    ensures kind { IfOk result.1 (λ l. kind_of l ≡ kind) }
    ensures only { IfErr result.1 IsOfCutting }
    ensures kept { map V.held result.0.items ≡ map V.held views.items }
    ensures few { IfOk result.1 (λ l. count_of l ≤ item_limit) }
    ensures faults { CountsViews MakeFault.ImageFault MakeFault.Memory
        (map V.faults views.items) (map V.faults result.0.items) result.1 }
{
    let (views, made) = index_view_as(rt, alloc, views, sizes, kind);
    match made {
        Ok(index) => (views, Ok(index)),
        Err(CutFault::ImageFault) => (views, Err(MakeFault::ImageFault)),
        Err(CutFault::TooManyItems) => (views, Err(MakeFault::TooManyItems)),
        Err(CutFault::Memory) => (views, Err(MakeFault::Memory)),
    }
}

// Stores the image behind the views, whose index this is, in the store, and gives the bytes of the index file.
fn store_listed<R: Threads + Sync, V: View + Send, S: StoreWrite, I: InnerFolders + Sync>(
    rt: &R,
    alloc: Global,
    sizes: &CutSizes,
    index: &Index,
    views: Vec<V>,
    store: S,
    inner: &Option<I>,
) -> (Vec<V>, S, Result<Vec<u8>, MakeFault>)
    requires some { 0 < vec_len views }
    requires alike { AreOfOneImage (map V.held views.items) }
    requires index { All (λ v. IfSome (V.held v).bytes
        (λ t. IsIndexOfImage (kind_of index.now) sizes.now t index.now)) views.items }
    requires size { All (λ v. image_length index.now ≡ (V.held v).size) views.items }
    requires few { count_of index.now ≤ item_limit }
    requires place { IfSome inner.now (λ i. I.place i ≡ S.place store) }
    ensures exactly { All (λ v. IfSome (V.held v).bytes (λ t. IfSome (S.holds store) (λ old.
        IfSome (S.holds result.1) (λ new.
        StoresImage (kind_of index.now) sizes.now (λ b. b.items) t old new result.2)))) views.items }
    ensures files { All (λ v. PutsFilesOf (kind_of index.now) sizes.now (V.held v).bytes (S.holds store)
        (S.folder store) (S.folder result.1)) views.items }
    ensures said { IfOk result.2 (λ b.
        All (λ v. SaysOf (kind_of index.now) sizes.now (V.held v).bytes b.items (S.said result.1)) views.items) }
    ensures few { result.2 ≢ Err MakeFault.TooManyItems }
    ensures only { IfErr result.2 IsOfStoring }
    ensures cause { IfErr result.2 (λ e. All (λ v. IsOfImage sizes.now (V.held v).bytes e) views.items) }
    ensures tells { is_some (S.holds result.1) ≡ is_some (S.holds store) }
    ensures kept { map V.held result.0.items ≡ map V.held views.items }
    ensures place { S.place result.1 ≡ S.place store }
    ensures sends { All (λ v. SendsOf (kind_of index.now) sizes.now (V.held v).bytes (S.asked store) (S.asked result.1)
        (S.sent store) (S.sent result.1)) views.items }
    ensures asks { All (λ v. AsksOf (kind_of index.now) sizes.now (V.held v).bytes
        (S.asked store) (S.asked result.1)) views.items }
    ensures queries { S.queried result.1 ≡ S.queried store }
    ensures image_faults { CountsViews MakeFault.ImageFault MakeFault.Memory
        (map V.faults views.items) (map V.faults result.0.items) result.2 }
    ensures store_faults { CountsCause MakeFault.StoreFault (S.faults store) (S.faults result.1) result.2 }
{
    image_is_right();
    let (views, store, put) = store_entries(rt, alloc, index, views, store, inner);
    if let Err(fault) = put {
        return (views, store, Err(fault));
    }
    match spell(alloc, index) {
        Ok(bytes) => (views, store, Ok(bytes)),
        Err(_) => (views, store, Err(MakeFault::Memory)),
    }
}

/// Stores the image behind the views, cut by these sizes and its chunks named by this digest, in the store, and gives
/// the bytes of its index file. Each view is cut in a thread of its own. The first is read again, and each other one
/// reads slices ahead of it, into twice 512 KiB and the size of the largest chunk, and makes the subfolders of their
/// chunks' files in the store's folder, whose subfolders `inner` are. Views and store come back, whatever the answer
/// is.
pub fn store_image<R: Threads + Sync, V: View + Send, S: StoreWrite, I: InnerFolders + Sync>(
    rt: &R,
    alloc: Global,
    sizes: &CutSizes,
    kind: DigestKind,
    views: Vec<V>,
    store: S,
    inner: &Option<I>,
) -> (Vec<V>, S, Result<Vec<u8>, MakeFault>)
    requires some { 0 < vec_len views }
    requires alike { AreOfOneImage (map V.held views.items) }
    requires place { IfSome inner.now (λ i. I.place i ≡ S.place store) }

    // What the store then holds under each id, what lies in its folder, and what it has said.
    ensures exactly { All (λ v. IfSome (V.held v).bytes (λ t. IfSome (S.holds store) (λ old.
        IfSome (S.holds result.1) (λ new. StoresImage kind sizes.now (λ b. b.items) t old new result.2)))) views.items }
    ensures files { All (λ v. PutsFilesOf kind sizes.now (V.held v).bytes (S.holds store)
        (S.folder store) (S.folder result.1)) views.items }
    ensures said { IfOk result.2 (λ b.
        All (λ v. SaysOf kind sizes.now (V.held v).bytes b.items (S.said result.1)) views.items) }

    // An image with too many cuts leaves the store as it is.
    ensures many { All (λ v. IfSome (V.held v).bytes (λ t. HasTooManyCuts sizes.now t →
        IsErrAnd result.2 IsOfCutting × (result.1 ≡ store))) views.items }
    ensures untouched { result.2 ≡ Err MakeFault.TooManyItems → result.1 ≡ store }

    // Too many items are told exactly of such an image, and a change never of one that is told.
    ensures cause { IfErr result.2 (λ e. All (λ v. IsOfImage sizes.now (V.held v).bytes e) views.items) }
    ensures only { IfErr result.2 IsOfStoring }

    ensures tells { is_some (S.holds result.1) ≡ is_some (S.holds store) }
    ensures kept { map V.held result.0.items ≡ map V.held views.items }
    ensures place { S.place result.1 ≡ S.place store }
    ensures sends { All (λ v. SendsOf kind sizes.now (V.held v).bytes (S.asked store) (S.asked result.1)
        (S.sent store) (S.sent result.1)) views.items }
    ensures asks { All (λ v. AsksOf kind sizes.now (V.held v).bytes (S.asked store) (S.asked result.1)) views.items }
    ensures queries { S.queried result.1 ≡ S.queried store }
    ensures image_faults { CountsViews MakeFault.ImageFault MakeFault.Memory
        (map V.faults views.items) (map V.faults result.0.items) result.2 }
    ensures store_faults { CountsCause MakeFault.StoreFault (S.faults store) (S.faults result.1) result.2 }
{
    many_cuts();
    let (views, made) = index_of(rt, alloc, views, sizes, kind);
    let index = match made {
        Ok(index) => index,
        Err(fault) => return (views, store, Err(fault)),
    };
    store_listed(rt, alloc, sizes, &index, views, store, inner)
}
