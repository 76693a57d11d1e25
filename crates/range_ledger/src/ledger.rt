//! The entries of an index in a target, as one worker sees them. Entries count from 0.

ghost use Rattle.std.specs.Prelude.{◌≡◌, ◌≢◌, ℕ, List, ◌<◌, ◌≤◌, length, set, true, false, Ok, IfSome, OnOk, OnErr};
ghost use Rattle.std.specs.Prelude.{Bool, IsTrue, is_some};
ghost use Rattle.caibx_codec.specs.Listing.{count_of, id_of, image_length, kind_of, size_of, slice_of};
ghost use Rattle.chunk_store.specs.Digests.{digest_of};
ghost use Rattle.dsy_base.specs.Bytes.{Held};
ghost use Rattle.dsy_base.specs.Counts.{Rose};
ghost use Rattle.range_ledger.specs.Fills.{Fills, FillsTorn, Grows, WhereTold};
ghost use Rattle.range_ledger.specs.Runs.{Run};
ghost use Rattle.range_survey.specs.Fates.{SettledRight, fate_at, is_made, is_settled, settled};
ghost use Rattle.range_survey.specs.declared.fate.Fate.{Fate};

use dsy_base::fault::Failed;
use range_survey::fate::Fate;

/// The entries of an index in a target: their ranges, and what became of each.
pub trait Ledger: Drop {
    /// What the run is over: its index and its base.
    ghost run: { Run };

    /// What the target holds.
    ghost held: { Self → Held };

    /// What became of each entry.
    ghost fates: { Self → List Fate };

    /// How often a call on the target has failed.
    ghost faults: { Self → ℕ };

    /// Whether the type tells that what is settled is right.
    ghost tells: { Bool };

    /// Whether the type never counts a failed call.
    ghost never_fails: { Bool };

    /// What every ledger keeps. Nothing is done.
    fn rules(&self)
        ensures counted { length (fates self.now) ≡ count_of run.listing }
        ensures size { (held self.now).size ≡ image_length run.listing }
        ensures bytes { IfSome (held self.now).bytes (λ t. length t ≡ (held self.now).size) }
        ensures right { IfSome (held self.now).bytes
            (λ t. SettledRight run.listing t (fates self.now) (count_of run.listing)) }
        ensures sure { IsTrue never_fails → faults self.now ≡ 0 };

    /// What became of an entry.
    fn fate(&self, entry: usize) -> Fate
        requires listed { entry < count_of run.listing }
        ensures value { result ≡ fate_at (fates self.now) entry };

    /// Reads the range of an entry where it is settled. Whether it was, and could be read. Its digest isn't computed
    /// again.
    fn read(&mut self, entry: usize, out: &mut [u8]) -> bool
        requires listed { entry < count_of run.listing }
        requires size { length out.old ≡ size_of run.listing entry }
        ensures found { result ≡ true → (settled (fates self.old) entry ≡ true)
            × IfSome (held self.old).bytes (λ t. out.new ≡ slice_of run.listing t entry) }
        ensures named { result ≡ true → IsTrue tells →
            digest_of (kind_of run.listing) out.new ≡ id_of run.listing entry }
        ensures absent { result ≡ false → settled (fates self.old) entry ≡ true →
            Rose (faults self.old) (faults self.new) }
        ensures kept { held self.new ≡ held self.old }
        ensures fates { fates self.new ≡ fates self.old }
        ensures faults { faults self.old ≤ faults self.new };

    /// Writes the chunk into the range of an entry, which then has this fate, unless it is settled. Whether it was
    /// written. After a refusal the range holds any bytes.
    fn put(&mut self, entry: usize, chunk: &[u8], fate: Fate) -> Result<bool, Failed>
        requires listed { entry < count_of run.listing }
        requires chunk { length chunk.now ≡ size_of run.listing entry }
        requires fate { is_settled fate ≡ true }
        requires made { is_made fate ≡ true }
        requires may { run.may entry ≡ true }
        requires right { IsTrue tells → digest_of (kind_of run.listing) chunk.now ≡ id_of run.listing entry }
        ensures ok { OnOk result (settled (fates self.new) entry ≡ true) }
        ensures origin { settled (fates self.old) entry ≡ false → settled (fates self.new) entry ≡ true →
            fate_at (fates self.new) entry ≡ fate }
        ensures changed { result ≡ Ok true → (settled (fates self.old) entry ≡ false)
            × (fates self.new ≡ set (fates self.old) entry fate) }
        ensures err { OnErr result (fates self.new ≡ fates self.old) }
        ensures kept { result ≡ Ok false → (settled (fates self.old) entry ≡ true)
            × (fates self.new ≡ fates self.old) }
        ensures others { (j : ℕ) → j ≢ entry → fate_at (fates self.new) j ≡ fate_at (fates self.old) j }
        ensures grows { Grows (fates self.old) (fates self.new) }
        ensures bytes { WhereTold (held self.old).bytes (held self.new).bytes
            (Fills run.listing (fates self.old) (fates self.new) (faults self.old) (faults self.new)) }
        ensures tells { is_some (held self.new).bytes ≡ is_some (held self.old).bytes }
        ensures name { (held self.new).name ≡ (held self.old).name }
        ensures size { (held self.new).size ≡ (held self.old).size }
        ensures faults { faults self.old ≤ faults self.new }
        ensures cause { OnErr result (Rose (faults self.old) (faults self.new)) }
        ensures failed { OnErr result (WhereTold (held self.old).bytes (held self.new).bytes
            (FillsTorn run.listing (fates self.old) (fates self.new) (faults self.old) (faults self.new) entry)) };
}
