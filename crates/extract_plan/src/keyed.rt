//! Entries of an index by the ids and the sizes of their chunks, sorted and searched. Sizes are in bytes, and entries
//! count from 0.

ghost use Rattle.std.specs.Prelude.{◌≡◌, ◌<◌, ◌≤◌, ℕ, true, false, length, slice_index_or};
ghost use Rattle.std.specs.List.Sorted.{IsSorted};
ghost use Rattle.std.specs.Ordering.{is_lt};
ghost use Rattle.caibx_codec.specs.Listing.{count_of, id_of, size_of};
ghost use Rattle.extract_plan.specs.Keys.{key_cmp, keyed_cmp, number_of};

use caibx_codec::index::Index;
use chunk_store::id::ChunkId;

// How many steps of a search look where an id stands if ids are spread evenly.
const GUESSES: u32 = 8;

/// What alike entries have in common.
#[derive(Clone, Copy, Debug, PartialEq, Eq, PartialOrd, Ord)]
pub(crate) struct ChunkKey {
    pub(crate) id: ChunkId,
    pub(crate) size: usize,
}

/// A number of an entry, by the entry's key. The key is first, so that in a sorted list alike entries stand side by
/// side.
#[derive(Clone, Copy, Debug, PartialEq, Eq, PartialOrd, Ord)]
pub(crate) struct Keyed {
    pub(crate) key: ChunkKey,
    pub(crate) number: u32,
}

impl Keyed {
    /// Entry i of the index, with this number.
    pub(crate) fn of(index: &Index, i: usize, number: u32) -> Keyed
        requires { i < count_of index.now }
        ensures id { result.key.id.0 ≡ id_of index.now i }
        ensures size { result.key.size ≡ size_of index.now i }
        ensures number { result.number ≡ number }
    {
        let listed = index.entry(i);
        let key = ChunkKey {
            id: listed.id,
            size: listed.size,
        };
        Keyed { key, number }
    }
}

// The places that are left of a search, and what the ids on both sides of them begin with.
#[derive(Clone, Copy, Debug)]
struct Rest {
    low: usize,
    high: usize,
    from: u32,
    to: u32,
}

impl Rest {
    // The place where an id that begins so stands if the ids between are spread evenly.
    fn guess(&self, sought: u32) -> usize
        requires { self.now.low < self.now.high }
        ensures from { self.now.low ≤ result }
        ensures to { result < self.now.high }
    {
        let places = self.high - self.low;
        let past = sought.saturating_sub(self.from) as u64;
        let span = (self.to.saturating_sub(self.from) as u64).max(1);
        let far = past.saturating_mul(places as u64) / span;
        self.low + (far as usize).min(places - 1)
    }

    // The place in the middle.
    fn middle(&self) -> usize
        requires { self.now.low < self.now.high }
        ensures from { self.now.low ≤ result }
        ensures to { result < self.now.high }
    {
        self.low + (self.high - self.low) / 2
    }
}

// What an id begins with.
fn beginning(id: &ChunkId) -> u32 {
    u32::from_be_bytes([id.0[0], id.0[1], id.0[2], id.0[3]])
}

// The first place whose key isn't before this one, or the end.
fn place_of(sorted: &[Keyed], key: &ChunkKey) -> usize
    requires { IsSorted keyed_cmp sorted.now }
    ensures inside { result ≤ length sorted.now }
    ensures below { (j : ℕ) (d : Keyed) → j < result →
        is_lt (key_cmp (slice_index_or sorted.now j d).key key.now) ≡ true }
    ensures above { (d : Keyed) → result < length sorted.now →
        is_lt (key_cmp (slice_index_or sorted.now result d).key key.now) ≡ false }
{
    let sought = beginning(&key.id);
    let mut rest = Rest {
        low: 0,
        high: sorted.len(),
        from: 0,
        to: u32::MAX,
    };
    let mut steps = 0u32;
    while rest.low < rest.high {
        // Digests are spread evenly, so that a few guesses come close. Whatever else is listed is halved.
        let place = if steps < GUESSES {
            rest.guess(sought)
        } else {
            rest.middle()
        };
        steps = steps.saturating_add(1);
        let found = &sorted[place].key;
        if *found < *key {
            rest.low = place + 1;
            rest.from = beginning(&found.id);
        } else {
            rest.high = place;
            rest.to = beginning(&found.id);
        }
    }
    rest.low
}

/// The number of the first of these with this id and size.
pub(crate) fn number_in(sorted: &[Keyed], id: &ChunkId, size: usize) -> Option<u32>
    requires { IsSorted keyed_cmp sorted.now }
    ensures { result ≡ number_of sorted.now id.now.0 size }
{
    let key = ChunkKey { id: *id, size };
    match sorted.get(place_of(sorted, &key)) {
        Some(found) if found.key == key => Some(found.number),
        _ => None,
    }
}
