//! What an assembly did, in numbers of entries.

ghost use Rattle.std.specs.Prelude.{◌≡◌, ℕ, ◌+◌, ◌^◌, ◌<◌, length, true};
ghost use Rattle.range_survey.specs.Reports.{one_if, tally};
ghost use Rattle.range_survey.specs.Fates.{settled};
ghost use Rattle.range_survey.specs.declared.fate.Fate.TheVariants as fate;

use crate::fate::Fate;

/// How many entries of an index were made right in which way.
#[derive(Clone, Copy, Debug, PartialEq, Eq)]
pub struct Report {
    /// Entries that were right before the first write.
    pub kept: u64,
    /// Entries whose bytes were copied from an alike entry.
    pub copied: u64,
    /// Wants whose chunk a seed gave.
    pub seeded: u64,
    /// Wants whose chunk a cache gave.
    pub cached: u64,
    /// Wants whose chunk a store gave.
    pub fetched: u64,
}

impl Report {
    /// No entries yet.
    pub fn new() -> Report
        ensures { result ≡ record { kept = 0; copied = 0; seeded = 0; cached = 0; fetched = 0 } }
    {
        Report {
            kept: 0,
            copied: 0,
            seeded: 0,
            cached: 0,
            fetched: 0,
        }
    }

    /// Counts one entry more, which has this fate.
    pub fn count(&mut self, one: Fate)
        requires few { self.old.kept + self.old.copied + self.old.seeded + self.old.cached + self.old.fetched + 1
            < 2 ^ 64 }
        ensures kept { self.new.kept ≡ self.old.kept + one_if fate.Kept one }
        ensures copied { self.new.copied ≡ self.old.copied + one_if fate.Copied one }
        ensures seeded { self.new.seeded ≡ self.old.seeded + one_if fate.Seeded one }
        ensures cached { self.new.cached ≡ self.old.cached + one_if fate.Cached one }
        ensures fetched { self.new.fetched ≡ self.old.fetched + one_if fate.Fetched one }
    {
        match one {
            Fate::Open => {}
            Fate::Kept => self.kept += 1,
            Fate::Copied => self.copied += 1,
            Fate::Seeded => self.seeded += 1,
            Fate::Cached => self.cached += 1,
            Fate::Fetched => self.fetched += 1,
        }
    }

    /// The numbers of entries with each fate.
    pub fn of(fates: &[Fate]) -> Report
        ensures kept { result.kept ≡ tally fate.Kept fates.now (length fates.now) }
        ensures copied { result.copied ≡ tally fate.Copied fates.now (length fates.now) }
        ensures seeded { result.seeded ≡ tally fate.Seeded fates.now (length fates.now) }
        ensures cached { result.cached ≡ tally fate.Cached fates.now (length fates.now) }
        ensures fetched { result.fetched ≡ tally fate.Fetched fates.now (length fates.now) }
        ensures all { ((i : ℕ) → i < length fates.now → settled fates.now i ≡ true) →
            result.kept + result.copied + result.seeded + result.cached + result.fetched ≡ length fates.now }
    {
        let mut report = Report::new();
        for i in 0..fates.len() {
            report.count(fates[i]);
        }
        report
    }
}
