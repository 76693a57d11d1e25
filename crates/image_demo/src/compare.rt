//! Whether an image was made.

ghost use Rattle.std.specs.Prelude.{◌≡◌, ◌≢◌, ◌<◌, ℕ, true, false, IfErr, OnOk};
ghost use Rattle.caibx_codec.specs.Listing.{count_of, kind_of, slice_of};
ghost use Rattle.caibx_codec.specs.Right.{IsRight};
ghost use Rattle.image_demo.specs.Figures.{IsDemoRefused};

use crate::fault::DemoFault;
use caibx_codec::index::Index;

// Whether both have the same bytes in the range of an entry.
fn is_same(index: &Index, i: usize, made: &[u8], image: &[u8]) -> bool
    requires listed { i < count_of index.now }
    requires right { (IsRight made.now index.now) × (IsRight image.now index.now) }
    ensures same { result ≡ true → slice_of index.now made.now i ≡ slice_of index.now image.now i }
    ensures only { result ≡ false → slice_of index.now made.now i ≢ slice_of index.now image.now i }
{
    let listed = index.entry(i);
    let start = listed.start as usize;
    let end = start + listed.size;
    made[start..end] == image[start..end]
}

// Two unequal slices of an entry have the digest that it lists.
fn mismatch(index: &Index, i: usize, made: &[u8], image: &[u8]) -> DemoFault
    requires listed { i < count_of index.now }
    requires right { (IsRight made.now index.now) × (IsRight image.now index.now) }
    requires differ { slice_of index.now made.now i ≢ slice_of index.now image.now i }
    ensures { IsDemoRefused (kind_of index.now) index.now.greatest result }
{
    index.rules();
    DemoFault::Mismatch {
        entry: i as u64,
        id: index.id(i),
    }
}

/// Whether both have the same bytes, where both are what the index lists.
pub fn compare(index: &Index, made: &[u8], image: &[u8]) -> Result<(), DemoFault>
    requires right { (IsRight made.now index.now) × (IsRight image.now index.now) }
    ensures same { OnOk result ((i : ℕ) → i < count_of index.now →
        slice_of index.now made.now i ≡ slice_of index.now image.now i) }
    ensures err { IfErr result (IsDemoRefused (kind_of index.now) index.now.greatest) }
{
    for i in 0..index.count() {
        if !is_same(index, i, made, image) {
            return Err(mismatch(index, i, made, image));
        }
    }
    Ok(())
}
