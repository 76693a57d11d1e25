//! Whether the range of an entry has its listed digest. Offsets are bytes from 0, ends are exclusive, and entries count
//! from 0.

ghost use Rattle.std.specs.Prelude.{◌≡◌, ◌+◌, ◌<◌, ◌≤◌, length, replicate, slice_range, IfSome, IsSome};
ghost use Rattle.std.specs.Prelude.{Ok, OnSome, true, false};
ghost use Rattle.caibx_codec.specs.Listing.{count_of, id_of, kind_of, size_of, start_of};
ghost use Rattle.chunk_store.specs.Digests.{digest_of};
ghost use Rattle.dsy_base.specs.Counts.{CountsRefusals};
ghost use Rattle.range_survey.specs.Zeros.{IsTabled};

use crate::zeros::ZeroDigests;
use caibx_codec::index::{Index, Listed};
use chunk_store::id::ChunkId;
use chunk_store::range::name_range;
use dsy_base::fault::Failed;
use dsy_base::view::View;

// The digest of an all-zero entry, where it begins at or past `old` and the table, of the index's kind, has its size.
fn tabled_digest(zeros: &ZeroDigests, index: &Index, old: u64, i: usize) -> Option<ChunkId>
    requires listed { i < count_of index.now }
    ensures found { OnSome result (IsTabled zeros.now index.now old i) }
    ensures known { IsTabled zeros.now index.now old i → IsSome result }
    ensures value { IfSome result (λ id. id.0 ≡ digest_of (kind_of index.now)
        (replicate (size_of index.now i) 0)) }
{
    let listed = index.entry(i);
    if listed.start < old {
        return None;
    }
    zeros.digest(index.kind(), listed.size)
}

/// Whether the bytes from `at` on have the digest that is listed for entry i. Where that entry begins at or past `old`
/// these bytes are zeros, and aren't read where the table has their number. `buf` has room for the entry.
pub fn has_digest<T: View>(
    zeros: &ZeroDigests,
    index: &Index,
    old: u64,
    i: usize,
    bytes: &mut T,
    at: u64,
    buf: &mut [u8],
) -> Result<bool, Failed>
    requires listed { i < count_of index.now }
    requires inside { at + size_of index.now i ≤ (T.held bytes.old).size }
    requires room { size_of index.now i ≤ length buf.old }
    requires zeros { old ≤ start_of index.now i → IfSome (T.held bytes.old).bytes
        (λ t. slice_range t at (at + size_of index.now i) ≡ replicate (size_of index.now i) 0) }
    ensures yes { result ≡ Ok true → IfSome (T.held bytes.old).bytes (λ t.
        digest_of (kind_of index.now) (slice_range t at (at + size_of index.now i)) ≡ id_of index.now i) }
    ensures no { result ≡ Ok false → IfSome (T.held bytes.old).bytes (λ t.
        digest_of (kind_of index.now) (slice_range t at (at + size_of index.now i)) ≡ id_of index.now i → ⊥) }
    ensures unread { IsTabled zeros.now index.now old i → bytes.new ≡ bytes.old }
    ensures kept { T.held bytes.new ≡ T.held bytes.old }
    ensures faults { CountsRefusals (T.faults bytes.old) (T.faults bytes.new) result }
    ensures room { length buf.new ≡ length buf.old }
{
    let Listed { size, id, .. } = index.entry(i);
    match tabled_digest(zeros, index, old, i) {
        Some(name) => Ok(name.is(&id)),
        None => {
            let (chunk, _) = buf.split_at_mut(size);
            let name = name_range(bytes, index.kind(), at, chunk)?;
            Ok(name.is(&id))
        }
    }
}
