//! Laws of index files, for the crates above. Nothing is done: each function's contract is the law.

ghost use Rattle.std.specs.Prelude.{◌≡◌, ◌+◌, ◌*◌, ◌++◌, ℕ, List, Some, None, ◌<◌, length, slice_index};
ghost use Rattle.caibx_fields.specs.declared.fault.IndexFault.{IndexFault};
ghost use Rattle.caibx_codec.specs.Listing.{Listing, count_of};
ghost use Rattle.caibx_codec.specs.Reading.{first_fault};
ghost use Rattle.caibx_codec.specs.Spelling.{BeginsFile, IsIndexFile, file_of};

use crate::index::Index;

/// Bytes are the file of one index at most.
pub fn one_index()
    ensures only { (b : List ℕ) (l m : Listing) → IsIndexFile b l → IsIndexFile b m → l ≡ m }
{}

/// Every index file has 104 bytes, and 40 for each chunk.
pub fn file_size()
    ensures size { (b : List ℕ) (l : Listing) → IsIndexFile b l → length b ≡ 104 + 40 * count_of l }
{}

/// A first fault stays the first whatever follows, and no index file begins with such bytes.
pub fn fault_stays()
    ensures first { (b c : List ℕ) (f : IndexFault) → first_fault b ≡ Some f
        → first_fault (b ++ c) ≡ Some f }
    ensures only { (b c : List ℕ) (f : IndexFault) (l : Listing) → first_fault b ≡ Some f
        → IsIndexFile (b ++ c) l → ⊥ }
{}

/// Bytes in whole words that show no fault begin some index file: a fault is told with the word that shows it, and not
/// with a later one.
pub fn fault_is_told_at_once()
    ensures exactly { (b : List ℕ) (n : ℕ) → ((i : ℕ) → slice_index b i < 256) → length b ≡ 8 * n
        → first_fault b ≡ None → BeginsFile b }
{}

/// What is written is the file of the index, so it is read as that index again.
pub fn file_is_read(index: &Index)
    ensures bytes { IsIndexFile (file_of index.now) index.now }
{
    index.valid();
}
