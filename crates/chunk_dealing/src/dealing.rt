//! Entries that are dealt to further workers, in rounds. Entries are numbered from 0, sizes are in bytes. A further
//! worker's number is its place among the workers, of which the first one is 0.

ghost use Rattle.std.specs.Prelude.{◌≡◌, ℕ, ◌<◌, ◌≤◌, IfOk, false, slice_index_or, true};
ghost use Rattle.chunk_dealing.specs.Dealing.{owner_of};
ghost use Rattle.caibx_codec.specs.Listing.{count_of};

use caibx_codec::index::Index;
use std::alloc::{AllocError, Global};

/// How many bytes a worker reads ahead into each of its two rooms, with the lists of what stands in them, unless the
/// largest chunk has more.
const READ_AHEAD: usize = 524_288;

/// How many bytes the list of a room takes.
const LIST: usize = 16_384;

/// How many chunks stand in a room at most.
const PIECES: usize = 1_024;

/// The size of a room beside its list, where the largest chunk has `largest` bytes.
pub fn room_size(largest: usize) -> usize {
    largest.max(READ_AHEAD - LIST)
}

/// Deals chunks to further workers: in each round, to one after the other, until it has `part` bytes, or its room is
/// full.
#[derive(Clone, Copy)]
pub struct Dealer {
    workers: u8,
    part: usize,
    room: usize,
    worker: u8,
    rounds: usize,
    bytes: usize,
    pieces: usize,
    seen: u8,
}

impl Dealer {
    /// No round has begun. So many bytes are dealt, to this many workers, whose rooms have this size. Where the rooms
    /// hold all of them there is one round, in which each worker has as much as another.
    pub fn new(workers: usize, bytes: usize, room: usize) -> Dealer {
        let many = workers.max(1);
        Dealer {
            workers: u8::try_from(workers).unwrap_or(u8::MAX),
            part: bytes.saturating_add(many - 1) / many,
            room,
            worker: 0,
            rounds: 0,
            bytes: 0,
            pieces: 0,
            seen: 0,
        }
    }

    // Whether the first worker keeps the next chunk. It adds what others read: beside a single one it has time to read
    // a fourth.
    fn keeps(&mut self) -> bool {
        self.seen = self.seen.wrapping_add(1);
        self.workers == 1 && self.seen % 4 == 0
    }

    // Goes on to the next worker, or begins a round with the first one.
    fn turn(&mut self) {
        if self.worker < self.workers {
            self.worker += 1;
        } else {
            self.worker = 1;
        }
        if self.worker == 1 {
            self.rounds = self.rounds.saturating_add(1);
        }
        self.bytes = 0;
        self.pieces = PIECES;
    }

    // The number of the worker that gets a chunk of this size.
    fn deal(&mut self, size: usize) -> u8 {
        if self.pieces == 0
            || self.part <= self.bytes
            || self.room < self.bytes.saturating_add(size)
        {
            self.turn();
        }
        self.pieces = self.pieces.saturating_sub(1);
        self.bytes = self.bytes.saturating_add(size);
        self.worker
    }
}

/// The number of the worker that was dealt entry i, or 0 where none was.
pub fn owner_of(owners: &[u8], i: usize) -> usize
    ensures { result ≡ owner_of owners.now i }
{
    match owners.get(i) {
        Some(owner) => usize::from(*owner),
        None => 0,
    }
}

/// The entry after those of the round that begins with entry `from`, by a dealer that hasn't begun.
pub fn round_end(index: &Index, owners: &[u8], from: usize, dealer: Dealer) -> usize
    requires { from < count_of index.now }
    ensures { (from < result) × (result ≤ count_of index.now) }
{
    let mut dealer = dealer;
    for i in from..index.count() {
        if owner_of(owners, i) != 0 {
            let _ = dealer.deal(index.entry(i).size);
            if from < i && 1 < dealer.rounds {
                return i;
            }
        }
    }
    index.count()
}

/// Whether entry i is marked.
pub fn is_marked(marks: &[bool], i: usize) -> bool
    ensures { result ≡ slice_index_or marks.now i false }
{
    match marks.get(i) {
        Some(is) => *is,
        None => false,
    }
}

/// How many bytes the marked entries have.
pub fn marked_bytes(index: &Index, marks: &[bool]) -> usize {
    let mut bytes = 0usize;
    for i in 0..index.count() {
        if is_marked(marks, i) {
            bytes = bytes.saturating_add(index.entry(i).size);
        }
    }
    bytes
}

// The number of the further worker that gets the chunk of entry i, if it is marked and the first one doesn't keep it.
fn deal_entry(index: &Index, marks: &[bool], i: usize, dealer: &mut Dealer) -> u8
    requires { i < count_of index.now }
    ensures { 0 < result → slice_index_or marks.now i false ≡ true }
{
    if !is_marked(marks, i) {
        return 0;
    }
    if dealer.keeps() {
        return 0;
    }
    dealer.deal(index.entry(i).size)
}

/// For each entry the number of the worker that is dealt it: only marked ones are dealt, by a dealer that hasn't begun.
pub fn deal(
    alloc: Global,
    index: &Index,
    marks: &[bool],
    dealer: Dealer,
) -> Result<Vec<u8>, AllocError>
    ensures only { IfOk result
        (λ v. (i : ℕ) → 0 < owner_of v.items i → slice_index_or marks.now i false ≡ true) }
{
    let mut dealer = dealer;
    let mut owners = Vec::with_capacity(alloc, index.count())?;
    for i in 0..index.count() {
        owners.push(deal_entry(index, marks, i, &mut dealer))?;
    }
    Ok(owners)
}
