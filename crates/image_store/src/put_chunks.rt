//! Storing each chunk of an image that a store lacks. Offsets are bytes from 0.

ghost use Rattle.std.specs.Prelude.{◌≡◌, ◌≢◌, ◌⊎◌, ℕ, List, ◌+◌, ◌<◌, ◌≤◌, ◌||◌, length, not, Option, Some, Ok, Err};
ghost use Rattle.std.specs.Prelude.{IfSome, IfOk, IfErr, OnOk, slice_range, is_some, true, false};
ghost use Rattle.std.specs.BTreeSet.{contains};
ghost use Rattle.std.specs.Cmp.Lexicographic.{slice_cmp};
ghost use Rattle.std.specs.Ordering.{nat_cmp};
ghost use Rattle.std.specs.Str.{bytes_eq};
ghost use Rattle.caibx_codec.specs.Listing.{count_of, id_of, kind_of, size_of, image_length};
ghost use Rattle.caibx_codec.specs.Right.{IsRightAt};
ghost use Rattle.chunk_store.specs.Asks.{Get, Put, Sends};
ghost use Rattle.chunk_store.specs.Causes.{CountsCause};
ghost use Rattle.chunk_store.specs.Digests.{digest_of};
ghost use Rattle.chunk_store.specs.Said.{KeepsOf, AskedOnce};
ghost use Rattle.dsy_base.specs.Counts.{CountsFaults};
ghost use Rattle.image_slices.specs.Ahead.{IsSlice};
ghost use Rattle.image_store.specs.PutChunks.{told_range, told_slice, PutsUnder, PutsLacked};
ghost use Rattle.image_store.specs.PutChunks.{HasChunk, TouchesChunk, HoldsAll, SaysAll, Stands, PutsFiles, AsksEach};
ghost use Rattle.image_store.specs.PutChunks.{EndsAt, KeepsListed, RereadsTo, PutsEnd};

use crate::storing::{Rooms, put_all};
use caibx_codec::index::Index;
use chunk_store::id::{ChunkId, DigestKind};
use chunk_store::range::name_range;
use chunk_store::store::{GetFault, Store, StoreWrite};
use dsy_base::fault::{Failed, IoFault};
use dsy_base::view::View;
use std::alloc::Global;
use std::collections::BTreeSet;

/// Why an image wasn't stored.
#[derive(Clone, Copy, Debug, PartialEq, Eq)]
pub enum MakeFault {
    /// The image couldn't be read.
    ImageFault,
    /// The image has more chunks than an index may list.
    TooManyItems,
    /// The slice of this entry had another name when it was read again.
    Changed {
        entry: u64,
        was: ChunkId,
        got: ChunkId,
    },
    StoreFault,
    Memory,
}

// Whether the id is new. Now it is seen.
pub(crate) fn is_new(seen: &mut BTreeSet<[u8; 32]>, id: &ChunkId) -> Result<bool, MakeFault>
    ensures found { IfOk result (λ new. new ≡ not (contains (slice_cmp nat_cmp) seen.old id.now.0)) }
    ensures changed { OnOk result ((q : List ℕ) → contains (slice_cmp nat_cmp) seen.new q
        ≡ (bytes_eq id.now.0 q || contains (slice_cmp nat_cmp) seen.old q)) }
    ensures only { IfErr result (λ e. e ≡ MakeFault.Memory) }
{
    match seen.insert(id.0) {
        Ok(new) => Ok(new),
        Err(_) => Err(MakeFault::Memory),
    }
}

// Reads the slice of the entry again. It has the listed name, or the image has changed.
fn read_again<V: View>(
    image: &mut V,
    kind: DigestKind,
    entry: u64,
    id: &ChunkId,
    start: u64,
    chunk: &mut [u8],
) -> Result<(), MakeFault>
    requires inside { start + length chunk.old ≤ (V.held image.old).size }
    ensures ok { OnOk result (digest_of kind chunk.new ≡ id.now.0) }
    ensures bytes { OnOk result (IfSome (V.held image.old).bytes
        (λ t. chunk.new ≡ slice_range t start (start + length chunk.old))) }
    ensures err { IfErr result (RereadsTo kind entry id.now.0
        (told_range (V.held image.old).bytes start (start + length chunk.old))) }
    ensures kept { V.held image.new ≡ V.held image.old }
    ensures faults { CountsFaults MakeFault.ImageFault MakeFault.Memory
        (V.faults image.old) (V.faults image.new) result }
{
    let got = match name_range(image, kind, start, chunk) {
        Ok(got) => got,
        Err(Failed) => return Err(MakeFault::ImageFault),
    };
    if !got.is(id) {
        let was = *id;
        return Err(MakeFault::Changed { entry, was, got });
    }
    Ok(())
}

// Whether the store holds this chunk under the id. `room` is as long as the chunk.
fn is_held<S: Store>(
    store: &mut S,
    id: &ChunkId,
    chunk: &[u8],
    room: &mut [u8],
) -> Result<bool, IoFault>
    requires room { length room.old ≡ length chunk.now }
    ensures found { result ≡ Ok true → IfSome (S.holds store.old) (λ m. m id.now.0 ≡ Some chunk.now) }
    ensures lacked { result ≡ Ok false → IfSome (S.holds store.old) (λ m. m id.now.0 ≢ Some chunk.now) }
    ensures shown { result ≡ Ok true → (S.said store.new).shown id.now.0 chunk.now }
    ensures kept { S.holds store.new ≡ S.holds store.old }
    ensures files { S.folder store.new ≡ S.folder store.old }
    ensures place { S.place store.new ≡ S.place store.old }
    ensures said { (q : List ℕ) → KeepsOf (S.said store.old) (S.said store.new) q }
    ensures sends { Sends (λ a. a ≡ Get id.now.0) (S.sent store.old) (S.sent store.new) }
    ensures asks { AskedOnce (S.asked store.old) (S.asked store.new) id.now.0 }
    ensures queries { S.queried store.new ≡ S.queried store.old }
    ensures faults { CountsCause IoFault.Failed (S.faults store.old) (S.faults store.new) result }
    ensures unfailed { result ≡ Err IoFault.Memory → S.faults store.new ≡ S.faults store.old }
{
    match store.get(id, room) {
        Ok(n) => {
            let (bytes, _) = room.split_at(n);
            Ok(bytes == chunk)
        }
        Err(GetFault::Missing | GetFault::Longer) => Ok(false),
        Err(GetFault::Failed) => Err(IoFault::Failed),
        Err(GetFault::Memory) => Err(IoFault::Memory),
    }
}

// Stores the chunk under the id, where the store lacks it.
#[tactic(auto, using(crate::proofs::Putting::sends_get))]
fn keep<S: StoreWrite>(
    store: &mut S,
    id: &ChunkId,
    chunk: &[u8],
    room: &mut [u8],
) -> Result<(), IoFault>
    requires room { length room.old ≡ length chunk.now }
    ensures ok { OnOk result (IfSome (S.holds store.new) (λ m. m id.now.0 ≡ Some chunk.now)) }
    ensures told { OnOk result ((S.said store.new).shown id.now.0 chunk.now
        ⊎ (S.said store.new).taken id.now.0 chunk.now) }
    ensures changed { (S.holds store.new ≡ S.holds store.old)
        ⊎ PutsUnder id.now.0 chunk.now (S.holds store.old) (S.holds store.new) }
    ensures files { PutsLacked id.now.0 (Some chunk.now) (S.holds store.old) (S.folder store.old) (S.folder store.new) }
    ensures place { S.place store.new ≡ S.place store.old }
    ensures said { (q : List ℕ) → q ≢ id.now.0 → KeepsOf (S.said store.old) (S.said store.new) q }
    ensures sends { Sends (λ a. (a ≡ Get id.now.0) ⊎ (a ≡ Put id.now.0 chunk.now))
        (S.sent store.old) (S.sent store.new) }
    ensures asks { AskedOnce (S.asked store.old) (S.asked store.new) id.now.0 }
    ensures queries { S.queried store.new ≡ S.queried store.old }
    ensures faults { CountsCause IoFault.Failed (S.faults store.old) (S.faults store.new) result }
{
    if is_held(store, id, chunk, room)? {
        return Ok(());
    }
    store.put(id, chunk)
}

// Stores this chunk, whose name is the id, where the store lacks it. `room` is as long as the chunk.
#[tactic(auto, using(crate::proofs::Putting::sends_named))]
fn put_named<S: StoreWrite>(
    store: &mut S,
    kind: DigestKind,
    id: &ChunkId,
    chunk: &[u8],
    room: &mut [u8],
) -> Result<(), MakeFault>
    requires named { digest_of kind chunk.now ≡ id.now.0 }
    requires room { length room.old ≡ length chunk.now }
    ensures ok { OnOk result (HasChunk S.Store kind id.now.0 store.new) }
    ensures changed { TouchesChunk S.Store kind id.now.0 (Some chunk.now) store.old store.new }
    ensures only { IfErr result (λ e. (e ≡ MakeFault.StoreFault) ⊎ (e ≡ MakeFault.Memory)) }
    ensures faults { CountsCause MakeFault.StoreFault (S.faults store.old) (S.faults store.new) result }
{
    match keep(store, id, chunk, room) {
        Ok(()) => Ok(()),
        Err(IoFault::Failed) => Err(MakeFault::StoreFault),
        Err(IoFault::Memory) => Err(MakeFault::Memory),
    }
}

/// Stores entry i. Its slice may have been read, and then it isn't read again.
pub fn put_entry<V: View, S: StoreWrite>(
    index: &Index,
    i: usize,
    image: &mut V,
    store: &mut S,
    chunk: &mut [u8],
    room: &mut [u8],
    read: Option<&[u8]>,
) -> Result<(), MakeFault>
    requires listed { i < count_of index.now }
    requires size { image_length index.now ≡ (V.held image.old).size }
    requires inside { size_of index.now i ≤ length chunk.old }
    requires room { size_of index.now i ≤ length room.old }
    requires read { IfSome read (λ b. IsSlice index.now (V.held image.old).bytes i b.now) }
    ensures ok { OnOk result (HasChunk S.Store (kind_of index.now) (id_of index.now i) store.new) }
    ensures right { OnOk result (IfSome (V.held image.old).bytes (λ t. IsRightAt t index.now i)) }
    ensures changed { TouchesChunk S.Store (kind_of index.now) (id_of index.now i)
        (told_slice index.now i (V.held image.old).bytes) store.old store.new }
    ensures err { IfErr result (EndsAt (kind_of index.now) i (id_of index.now i)
        (told_slice index.now i (V.held image.old).bytes)) }
    ensures untouched { (k : ℕ) → (was got : ChunkId) → result ≡ Err (MakeFault.Changed k was got) →
        store.new ≡ store.old }
    ensures kept { V.held image.new ≡ V.held image.old }
    ensures image_faults { CountsFaults MakeFault.ImageFault MakeFault.Memory
        (V.faults image.old) (V.faults image.new) result }
    ensures store_faults { CountsCause MakeFault.StoreFault (S.faults store.old) (S.faults store.new) result }
{
    let kind = index.kind();
    let listed = index.entry(i);
    let (held, _) = room.split_at_mut(listed.size);
    if let Some(bytes) = read {
        return put_named(store, kind, &listed.id, bytes, held);
    }
    let (bytes, _) = chunk.split_at_mut(listed.size);
    read_again(image, kind, i as u64, &listed.id, listed.start, bytes)?;
    put_named(store, kind, &listed.id, bytes, held)
}

/// Stores each chunk that the index lists and the store lacks, in order, each id once.
pub fn put_chunks<V: View, S: StoreWrite>(
    alloc: Global,
    index: &Index,
    image: &mut V,
    store: &mut S,
) -> Result<(), MakeFault>
    requires size { image_length index.now ≡ (V.held image.old).size }

    // What the store then holds, and what it has said.
    ensures ok { OnOk result (IfSome (S.holds store.new) (λ m. HoldsAll index.now (count_of index.now) m)) }
    ensures told { OnOk result (SaysAll index.now (count_of index.now) (S.said store.new)) }
    ensures changed { IfSome (V.held image.old).bytes (λ t. IfSome (S.holds store.old) (λ old.
        IfSome (S.holds store.new) (λ new. Stands index.now t (count_of index.now) old new))) }
    ensures files { PutsFiles index.now (V.held image.old).bytes (S.holds store.old) (count_of index.now)
        (S.folder store.old) (S.folder store.new) }
    ensures err { IfErr result (PutsEnd index.now (V.held image.old).bytes) }

    ensures tells { is_some (S.holds store.new) ≡ is_some (S.holds store.old) }
    ensures kept { V.held image.new ≡ V.held image.old }
    ensures place { S.place store.new ≡ S.place store.old }
    ensures sends { Sends (KeepsListed index.now) (S.sent store.old) (S.sent store.new) }
    ensures asks { AsksEach index.now (count_of index.now) (S.asked store.old) (S.asked store.new) }
    ensures queries { S.queried store.new ≡ S.queried store.old }
    ensures image_faults { CountsFaults MakeFault.ImageFault MakeFault.Memory
        (V.faults image.old) (V.faults image.new) result }
    ensures store_faults { CountsCause MakeFault.StoreFault (S.faults store.old) (S.faults store.new) result }
{
    let Ok(mut rooms) = Rooms::new(alloc, index) else {
        return Err(MakeFault::Memory);
    };
    put_all(alloc, index, image, store, &mut rooms)
}
