//! How much is read ahead. Entries are numbered from 0, sizes are in bytes.

ghost use Rattle.std.specs.Prelude.{◌≡◌, ◌-◌, ◌<◌, ◌≤◌, IsTrue};
ghost use Rattle.caibx_codec.specs.Listing.{count_of, id_of};
ghost use Rattle.image_slices.specs.Ahead.{room_for};

use caibx_codec::index::Index;

/// How many bytes are read ahead into a piece of room and its list, besides half a buffer of the largest chunk.
const READ_AHEAD: usize = 524_288;

/// How many slices stand in a piece of room at most.
pub(crate) const PIECES: usize = 1_024;

/// How many bytes such a list takes, at 16 bytes a slice.
const LIST: usize = 16_384;

/// How many bytes storing takes beside its buffers, whatever the index lists.
const STORING: usize = 262_144;

/// How many bytes it takes for each chunk: in the index file, and in the set of the ids that are stored.
const STORED: usize = 128;

/// How many bytes the readers leave free for storing an image whose index lists `items` chunks.
pub fn spare_size(items: usize) -> usize {
    items.saturating_mul(STORED).saturating_add(STORING)
}

/// The size of a piece of room beside its list, where the largest chunk has `largest` bytes.
pub fn room_size(largest: usize) -> usize
    ensures { result ≡ room_for largest }
{
    READ_AHEAD - LIST + largest / 2
}

/// Whether entry i has the id of the entry before it. Then its slice isn't read.
pub fn repeats(index: &Index, i: usize) -> bool
    requires { i < count_of index.now }
    ensures { IsTrue result → id_of index.now i ≡ id_of index.now (i - 1) }
{
    0 < i && index.id(i).is(&index.id(i - 1))
}

/// The entry after those of the round that begins with entry `at`: what the thread in front and the readers are to
/// read, where the largest chunk has `largest` bytes. There are no more slices than the readers' lists hold.
pub fn round_end(index: &Index, at: usize, readers: usize, largest: usize) -> usize
    requires { at < count_of index.now }
    ensures { (at < result) × (result ≤ count_of index.now) }
{
    let share = READ_AHEAD.max(largest / 2);
    let mut bytes = readers.saturating_add(1).saturating_mul(share);
    let mut pieces = readers.saturating_mul(PIECES);
    for i in at..index.count() {
        if !repeats(index, i) {
            let size = index.entry(i).size;
            if at < i && (bytes < size || pieces == 0) {
                return i;
            }
            bytes = bytes.saturating_sub(size);
            pieces = pieces.saturating_sub(1);
        }
    }
    index.count()
}
