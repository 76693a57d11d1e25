//! Chunks from entries of the target that are right already.

ghost use Rattle.std.specs.Prelude.{◌≡◌, ℕ, ◌<◌, ◌≤◌, length, slice_index, IfSome, IsTrue, true, false};
ghost use Rattle.caibx_codec.specs.Listing.{count_of, id_of, kind_of, size_of, slice_of};
ghost use Rattle.chunk_sources.specs.Wants.{IsAmong};
ghost use Rattle.chunk_store.specs.Digests.{digest_of};
ghost use Rattle.dsy_base.specs.Counts.{Rose};
ghost use Rattle.range_survey.specs.Fates.{settled};

use range_ledger::ledger::Ledger;

/// Reads the range of the first of these entries that is settled and can be read into `chunk`. Whether there was one.
/// The digest isn't computed again.
pub(crate) fn copy<E: Ledger>(entries: &[u32], ledger: &mut E, chunk: &mut [u8]) -> bool
    requires entries { (k : ℕ) → k < length entries.now → slice_index entries.now k < count_of E.run.listing }
    requires chunk { (k : ℕ) → k < length entries.now →
        size_of E.run.listing (slice_index entries.now k) ≡ length chunk.old }
    ensures found { result ≡ true → (i : ℕ) × IsAmong entries.now i × (settled (E.fates ledger.old) i ≡ true)
        × IfSome (E.held ledger.old).bytes (λ t. chunk.new ≡ slice_of E.run.listing t i) }
    ensures named { result ≡ true → IsTrue E.tells → (i : ℕ) × IsAmong entries.now i
        × (digest_of (kind_of E.run.listing) chunk.new ≡ id_of E.run.listing i) }
    ensures absent { result ≡ false → (i : ℕ) → IsAmong entries.now i → settled (E.fates ledger.old) i ≡ true →
        Rose (E.faults ledger.old) (E.faults ledger.new) }
    ensures kept { E.held ledger.new ≡ E.held ledger.old }
    ensures fates { E.fates ledger.new ≡ E.fates ledger.old }
    ensures faults { E.faults ledger.old ≤ E.faults ledger.new }
{
    for entry in entries {
        if ledger.read(*entry as usize, chunk) {
            return true;
        }
    }
    false
}
