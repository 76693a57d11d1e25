//! Slices of an image that are read and checked before they are used. Entries are numbered from 0, sizes are in bytes.

ghost use Rattle.std.specs.Prelude.{◌≡◌, ℕ, ◌+◌, ◌<◌, ◌≤◌, ◌++◌, ◌∷◌, [], All, Contains, IsTrue, List, Option};
ghost use Rattle.std.specs.Prelude.{IfOk, IfSome, length, None, nat_lt, slice_index_or, slice_range, take};
ghost use Rattle.std.specs.Prelude.{vec_capacity, vec_len};
ghost use Rattle.caibx_codec.specs.Listing.{Listing, count_of, image_length, size_of};
ghost use Rattle.chunk_store.specs.Digests.{digest_of};
ghost use Rattle.image_slices.specs.Ahead.{AddsSlice, EntriesFall, FitsItsRoom, HasBytes, HasSlice, HasSpace};
ghost use Rattle.image_slices.specs.Ahead.{HasSpaceAbove, IsAhead, IsSlice, TellsSlice};

use crate::plan::PIECES;
use caibx_codec::index::{Index, Listed};
use chunk_store::id::DigestKind;
use chunk_store::range::name_range;
use dsy_base::fault::Failed;
use dsy_base::view::View;
use std::alloc::{AllocError, Global};

/// Where in a room the slice of an entry stands.
#[derive(Clone, Copy)]
pub struct Piece {
    pub entry: usize,
    pub at: usize,
}

/// A room of bytes. Slices stand in it one after another, up to `filled`. Entries fall from piece to piece, in
/// whichever order the slices were put there.
#[derive(Drop)]
pub struct Ahead {
    pub room: Vec<u8>,
    pub pieces: Vec<Piece>,
    pub filled: usize,
}

// Reads the slice to place `at` of the room, and answers whether it has the listed digest.
fn read_named<V: View>(
    view: &mut V,
    kind: DigestKind,
    listed: &Listed,
    at: usize,
    room: &mut [u8],
) -> bool
    requires inside { listed.now.start + listed.now.size ≤ (V.held view.old).size }
    requires room { at + listed.now.size ≤ length room.old }
    ensures before { take at room.new ≡ take at room.old }
    ensures named { IsTrue result → digest_of kind (slice_range room.new at (at + listed.now.size)) ≡ listed.now.id.0 }
    ensures bytes { IsTrue result → IfSome (V.held view.old).bytes (λ t.
        slice_range room.new at (at + listed.now.size)
        ≡ slice_range t listed.now.start (listed.now.start + listed.now.size)) }
    ensures kept { V.held view.new ≡ V.held view.old }
    ensures faults { V.faults view.old ≤ V.faults view.new }
{
    let (_, rest) = room.split_at_mut(at);
    let (slice, _) = rest.split_at_mut(listed.size);
    match name_range(view, kind, listed.start, slice) {
        Ok(got) => got.is(&listed.id),
        Err(Failed) => false,
    }
}

// Copies the bytes to place `at` of the room.
fn copy_to(room: &mut [u8], at: usize, bytes: &[u8])
    requires { at + length bytes.now ≤ length room.old }
    ensures before { take at room.new ≡ take at room.old }
    ensures bytes { slice_range room.new at (at + length bytes.now) ≡ bytes.now }
{
    let (_, rest) = room.split_at_mut(at);
    let (slice, _) = rest.split_at_mut(bytes.len());
    slice.copy_from_slice(bytes);
}

impl Ahead {
    /// A room of `size` bytes, in which nothing stands.
    pub fn new(alloc: Global, size: usize) -> Result<Ahead, AllocError>
        ensures right { IfOk result (λ a. (l : Listing) (told : Option (List ℕ)) → IsAhead l (TellsSlice l told) a) }
        ensures none { IfOk result (λ a. (l : Listing) (i : ℕ) (b : List ℕ) → HasSlice l a i b → ⊥) }
        ensures bytes { IfOk result (HasBytes size) }
    {
        Ok(Ahead {
            room: vec![in alloc; 0u8; size]?,
            pieces: Vec::with_capacity(alloc, PIECES)?,
            filled: 0,
        })
    }

    /// Empties the room.
    pub fn clear(&mut self)
        ensures right { (l : Listing) (told : Option (List ℕ)) → IsAhead l (TellsSlice l told) self.new }
        ensures none { (l : Listing) (i : ℕ) (b : List ℕ) → HasSlice l self.new i b → ⊥ }
        ensures bytes { length self.new.room.items ≡ length self.old.room.items }
    {
        self.pieces.clear();
        self.filled = 0;
    }

    /// Whether the slice of entry i would fit if nothing stood in the room.
    pub fn could_take(&self, index: &Index, i: usize) -> bool
        requires { i < count_of index.now }
    {
        index.entry(i).size <= self.room.len()
    }

    // Whether all entries that stand in the room are above entry i.
    fn falls_to(&self, i: usize) -> bool
        requires { EntriesFall self.now.pieces.items }
        ensures { IsTrue result → All (λ p. i < p.entry) self.now.pieces.items }
    {
        match self.pieces.last() {
            Some(piece) => i < piece.entry,
            None => true,
        }
    }

    // Whether all entries that stand in the room are below entry i.
    fn rises_to(&self, i: usize) -> bool
        requires { EntriesFall self.now.pieces.items }
        ensures { IsTrue result → All (λ p. p.entry < i) self.now.pieces.items }
    {
        match self.pieces.first() {
            Some(piece) => piece.entry < i,
            None => true,
        }
    }

    // Whether a slice of `size` bytes fits behind the others, and its piece into the list.
    fn takes(&self, size: usize) -> bool
        requires { self.now.filled ≤ length self.now.room.items }
        ensures bytes { IsTrue result → self.now.filled + size ≤ length self.now.room.items }
        ensures place { IsTrue result → vec_len self.now.pieces < vec_capacity self.now.pieces }
    {
        self.pieces.len() < self.pieces.capacity() && size <= self.room.len() - self.filled
    }

    /// Whether the slice of entry i can be put behind those that stand in the room: their entries are above it, and it
    /// fits.
    pub fn fits(&self, index: &Index, i: usize) -> bool
        requires listed { i < count_of index.now }
        requires right { FitsItsRoom index.now self.now }
        ensures { IsTrue result → HasSpace index.now i self.now }
    {
        self.falls_to(i) && self.takes(index.entry(i).size)
    }

    /// Whether the slice of entry i can be put behind those that stand in the room: their entries are below it, and it
    /// fits.
    pub fn fits_above(&self, index: &Index, i: usize) -> bool
        requires listed { i < count_of index.now }
        requires right { FitsItsRoom index.now self.now }
        ensures { IsTrue result → HasSpaceAbove index.now i self.now }
    {
        self.rises_to(i) && self.takes(index.entry(i).size)
    }

    // The slice of entry i, which is below the others, stands behind them now.
    fn add_piece(&mut self, i: usize, size: usize)
        requires fits { self.old.filled + size ≤ length self.old.room.items }
        requires place { vec_len self.old.pieces < vec_capacity self.old.pieces }
        ensures pieces { self.new.pieces.items
            ≡ self.old.pieces.items ++ record { entry = i; at = self.old.filled } ∷ [] }
        ensures filled { self.new.filled ≡ self.old.filled + size }
        ensures kept { self.new.room.items ≡ self.old.room.items }
    {
        let at = self.filled;
        let Ok(()) = self.pieces.push(Piece { entry: i, at }) else {
            unreachable!();
        };
        self.filled += size;
    }

    // The slice of entry i, which is above the others, stands behind them now. Its piece stands before theirs.
    fn add_first_piece(&mut self, i: usize, size: usize)
        requires fits { self.old.filled + size ≤ length self.old.room.items }
        requires place { vec_len self.old.pieces < vec_capacity self.old.pieces }
        ensures pieces { self.new.pieces.items
            ≡ record { entry = i; at = self.old.filled } ∷ self.old.pieces.items }
        ensures filled { self.new.filled ≡ self.old.filled + size }
        ensures kept { self.new.room.items ≡ self.old.room.items }
    {
        let at = self.filled;
        let Ok(()) = self.pieces.insert(0, Piece { entry: i, at }) else {
            unreachable!();
        };
        self.filled = at + size;
    }

    /// Puts the slice of entry i behind those that stand in the room.
    pub fn push(&mut self, index: &Index, i: usize, bytes: &[u8])
        requires listed { i < count_of index.now }
        requires right { FitsItsRoom index.now self.old }
        requires fits { HasSpaceAbove index.now i self.old }
        requires size { length bytes.now ≡ size_of index.now i }
        ensures { AddsSlice index.now i bytes.now self.old self.new }
    {
        let at = self.filled;
        copy_to(&mut self.room, at, bytes);
        self.add_first_piece(i, bytes.len());
    }

    /// Reads the slice of entry i behind those that stand in the room, and keeps it if it has its digest. Answers
    /// whether it is kept.
    pub fn read<V: View>(&mut self, index: &Index, i: usize, view: &mut V) -> bool
        requires listed { i < count_of index.now }
        requires size { image_length index.now ≡ (V.held view.old).size }
        requires right { IsAhead index.now (TellsSlice index.now (V.held view.old).bytes) self.old }
        requires fits { HasSpace index.now i self.old }
        ensures right { IsAhead index.now (TellsSlice index.now (V.held view.old).bytes) self.new }
        ensures kept { V.held view.new ≡ V.held view.old }
        ensures faults { V.faults view.old ≤ V.faults view.new }
    {
        let listed = index.entry(i);
        let at = self.filled;
        if !read_named(view, index.kind(), &listed, at, &mut self.room) {
            return false;
        }
        self.add_piece(i, listed.size);
        true
    }

    // The place of the first piece whose entry isn't above i.
    fn place_of(&self, i: usize) -> usize
        requires { EntriesFall self.now.pieces.items }
        ensures inside { result ≤ length self.now.pieces.items }
        ensures above { (k : ℕ) → (d : Piece) → k < result → i < (slice_index_or self.now.pieces.items k d).entry }
        ensures others { (k : ℕ) → (d : Piece) → result ≤ k → k < length self.now.pieces.items →
            (slice_index_or self.now.pieces.items k d).entry ≤ i }
    {
        self.pieces.as_slice().partition_point(
            |piece: &Piece| -> bool
                ensures { result ≡ nat_lt i piece.now.entry }
            { i < piece.entry },
        )
    }

    /// The slice of entry i, if it stands in the room.
    pub fn slice(&self, index: &Index, i: usize) -> Option<&[u8]>
        requires { FitsItsRoom index.now self.now }
        ensures has { IfSome result (λ b. HasSlice index.now self.now i b.now) }
        ensures absent { result ≡ None → (b : List ℕ) → HasSlice index.now self.now i b → ⊥ }
    {
        let piece = self.pieces.get(self.place_of(i))?;
        if piece.entry != i {
            return None;
        }
        Some(&self.room[piece.at..piece.at + index.entry(i).size])
    }
}

/// The slice of entry i, if it stands in one of the rooms.
pub fn slice_among<'a>(rooms: &'a [Ahead], index: &Index, i: usize) -> Option<&'a [u8]>
    requires { All (FitsItsRoom index.now) rooms.now }
    ensures has { IfSome result (λ b. (a : Ahead) × Contains rooms.now a × HasSlice index.now a i b.now) }
    ensures absent { result ≡ None → All (λ a. (b : List ℕ) → HasSlice index.now a i b → ⊥) rooms.now }
    ensures told { IfSome result (λ b. (told : Option (List ℕ)) →
        All (IsAhead index.now (TellsSlice index.now told)) rooms.now → IsSlice index.now told i b.now) }
{
    for ahead in rooms {
        if let Some(slice) = ahead.slice(index, i) {
            return Some(slice);
        }
    }
    None
}
