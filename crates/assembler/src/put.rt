//! Writing a chunk into the ranges of a want's entries.

ghost use Rattle.std.specs.Prelude.{◌≡◌, ◌⊎◌, ℕ, ◌<◌, ◌≤◌, length, slice_index};
ghost use Rattle.std.specs.Prelude.{true, false, IsTrue, OnOk, OnErr, is_some};
ghost use Rattle.assembler.specs.Economy.{Tallied};
ghost use Rattle.caibx_codec.specs.Listing.{count_of, id_of, kind_of, size_of};
ghost use Rattle.chunk_sources.specs.Wants.{IsAmong};
ghost use Rattle.chunk_store.specs.Digests.{digest_of};
ghost use Rattle.dsy_base.specs.Counts.{Rose};
ghost use Rattle.range_ledger.specs.Fills.{Fills, FillsTorn, Grows, WhereTold};
ghost use Rattle.range_survey.specs.Fates.{fate_at, is_made, is_settled, settled};
ghost use Rattle.range_survey.specs.Reports.{one_if};

use dsy_base::fault::Failed;
use range_ledger::ledger::Ledger;
use range_survey::fate::Fate;

/// Writes the chunk into the range of each of these entries that is open. The first that is written has this origin,
/// and the others are copies. Goes on past a write that failed.
pub(crate) fn put<E: Ledger>(
    entries: &[u32],
    chunk: &[u8],
    origin: Fate,
    ledger: &mut E,
) -> Result<(), Failed>
    requires entries { (k : ℕ) → k < length entries.now → slice_index entries.now k < count_of E.run.listing }
    requires chunk { (k : ℕ) → k < length entries.now →
        size_of E.run.listing (slice_index entries.now k) ≡ length chunk.now }
    requires fate { is_settled origin ≡ true }
    requires made { is_made origin ≡ true }
    requires may { (k : ℕ) → k < length entries.now → E.run.may (slice_index entries.now k) ≡ true }
    requires right { IsTrue E.tells → (k : ℕ) → k < length entries.now →
        digest_of (kind_of E.run.listing) chunk.now ≡ id_of E.run.listing (slice_index entries.now k) }
    ensures ok { OnOk result ((i : ℕ) → IsAmong entries.now i → settled (E.fates ledger.new) i ≡ true) }
    ensures origin { (i : ℕ) → settled (E.fates ledger.old) i ≡ false → settled (E.fates ledger.new) i ≡ true →
        (fate_at (E.fates ledger.new) i ≡ origin) ⊎ (fate_at (E.fates ledger.new) i ≡ Fate.Copied) }
    ensures only { (i : ℕ) → settled (E.fates ledger.old) i ≡ false → settled (E.fates ledger.new) i ≡ true →
        IsAmong entries.now i }
    ensures tallied { OnOk result ((i : ℕ) → IsAmong entries.now i → settled (E.fates ledger.old) i ≡ false →
        Tallied (one_if Fate.Seeded origin) (one_if Fate.Cached origin) (one_if Fate.Fetched origin)
        (count_of E.run.listing) (E.fates ledger.old) (E.fates ledger.new)) }
    ensures grows { Grows (E.fates ledger.old) (E.fates ledger.new) }
    ensures bytes { WhereTold (E.held ledger.old).bytes (E.held ledger.new).bytes (Fills E.run.listing
        (E.fates ledger.old) (E.fates ledger.new) (E.faults ledger.old) (E.faults ledger.new)) }
    ensures tells { is_some (E.held ledger.new).bytes ≡ is_some (E.held ledger.old).bytes }
    ensures name { (E.held ledger.new).name ≡ (E.held ledger.old).name }
    ensures size { (E.held ledger.new).size ≡ (E.held ledger.old).size }
    ensures faults { E.faults ledger.old ≤ E.faults ledger.new }
    ensures cause { OnErr result (Rose (E.faults ledger.old) (E.faults ledger.new)) }
    ensures failed { OnErr result ((i : ℕ) × IsAmong entries.now i × WhereTold (E.held ledger.old).bytes
        (E.held ledger.new).bytes (FillsTorn E.run.listing (E.fates ledger.old) (E.fates ledger.new)
        (E.faults ledger.old) (E.faults ledger.new) i)) }
{
    // Only for its contract: there is one fate for each entry.
    ledger.rules();
    let mut fate = origin;
    let mut ended = Ok(());
    for entry in entries {
        match ledger.put(*entry as usize, chunk, fate) {
            Ok(true) => fate = Fate::Copied,
            Ok(false) => {}
            Err(Failed) => ended = Err(Failed),
        }
    }
    ended
}
