//! A target in shards, all of which one worker owns. Offsets are bytes from 0; entries and shards count from 0.

ghost use Rattle.std.specs.Prelude.{◌≡◌, ◌+◌, ◌++◌, ◌<◌, ◌≤◌, ◌∷◌, [], ℕ, length};
ghost use Rattle.std.specs.Prelude.{IfSome, false, is_some, map, true, vec_capacity, vec_len};
ghost use Rattle.caibx_codec.specs.Listing.{count_of};
ghost use Rattle.range_ledger.specs.Runs.{first_in};
ghost use Rattle.owned_shards.specs.Wholes.{IsWhole, KeptWhole, whole_of};
ghost use Rattle.range_survey.specs.Fates.{settled};
ghost use Rattle.range_survey.specs.Reports.{tally};
ghost use Rattle.range_survey.specs.declared.fate.Fate.TheVariants as fate;

use caibx_codec::index::Index;
use dsy_base::fault::Failed;
use dsy_base::view::{Part, Target, View};
use extract_plan::shard::shard_of;
use range_ledger::ledger::Ledger;
use range_ledger::run::RunName;
use range_ledger::shard::Shard;
use range_survey::fate::Fate;
use range_survey::report::Report;
use std::marker::Model;

/// A target in shards. `parts` has the room that joining them takes.
#[derive(Drop)]
pub struct Shards<'a, R: RunName, T: Target> {
    pub(crate) index: &'a Index,
    pub(crate) rest: T::Rest,
    pub(crate) shards: Vec<Shard<'a, T::Piece, R>>,
    pub(crate) parts: Vec<T::Piece>,
}

impl<'a, R: RunName, T: Target> Model for Shards<'a, R, T> {
    ghost use Rattle.std.specs.Prelude.{◌≡◌, ◌≤◌, [], vec_capacity, vec_len};
    ghost use Rattle.owned_shards.specs.Wholes.{IsWhole, Whole, whole_of};

    ghost Value = { Whole };

    ghost view = { λ s. whole_of (T.left s.rest) T.tells s.shards.items };

    ghost invariant = { λ s. (s.index.now ≡ R.run.listing) × IsWhole R.run T.tells (T.left s.rest) s.shards.items
        × (s.parts.items ≡ []) × (vec_len s.shards ≤ vec_capacity s.parts) };
}

/// Puts a value into a list that has room for it.
pub fn put_back<X: Drop>(values: &mut Vec<X>, value: X)
    requires room { vec_len values.old < vec_capacity values.old }
    ensures items { values.new.items ≡ values.old.items ++ value ∷ [] }
    ensures size { vec_len values.new ≡ vec_len values.old + 1 }
    ensures kept { vec_capacity values.old ≤ vec_capacity values.new }
{
    let _ = values.push(value);
}

/// Which of the shards of a run has an entry.
pub fn shard_with<R: RunName>(index: &Index, shards: usize, entry: usize) -> usize
    requires dealt { index.now ≡ R.run.listing }
    requires size { shards ≡ R.run.shards }
    requires few { R.run.shards ≤ count_of R.run.listing }
    requires some { 0 < R.run.shards }
    requires listed { entry < count_of R.run.listing }
    ensures from { first_in R.run result ≤ entry }
    ensures to { entry < first_in R.run (result + 1) }
    ensures inside { result < R.run.shards }
{
    index.rules();
    shard_of(index.count(), shards, entry)
}

// The parts of the shards, in their order. `parts` has the room for them.
fn parts_of<'a, P: Part, R: RunName>(shards: Vec<Shard<'a, P, R>>, parts: Vec<P>) -> Vec<P>
    requires none { parts.items ≡ [] }
    requires room { vec_len shards ≤ vec_capacity parts }
    ensures held { map (λ p. P.held p) result.items ≡ map (λ s. s.held) shards.entry.items }
    ensures faults { map (λ p. P.faults p) result.items ≡ map (λ s. s.faults) shards.entry.items }
{
    let mut shards = shards;
    let mut parts = parts;
    while let Some(shard) = shards.pop() {
        put_back(&mut parts, shard.into_part());
    }
    parts.reverse();
    parts
}

impl<'a, R: RunName, T: Target> Shards<'a, R, T> {
    /// The target that is left so beside these shards. `parts` has the room that joining them takes.
    pub(crate) fn new(
        index: &'a Index,
        rest: T::Rest,
        shards: Vec<Shard<'a, T::Piece, R>>,
        parts: Vec<T::Piece>,
    ) -> Shards<'a, R, T>
        requires dealt { index.now ≡ R.run.listing }
        requires whole { IsWhole R.run T.tells (T.left rest) shards.items }
        requires none { parts.items ≡ [] }
        requires room { vec_len shards ≤ vec_capacity parts }
        ensures { result ≡ whole_of (T.left rest) T.tells shards.entry.items }
    {
        Shards {
            index,
            rest,
            shards,
            parts,
        }
    }

    /// The target, whose parts are joined. It takes no memory.
    pub fn into_target(self) -> T
        ensures held { T.held result ≡ self.entry.held }
        ensures faults { T.faults result ≡ self.entry.faults }
    {
        let parts = parts_of(self.shards, self.parts);
        T::rejoin(self.rest, parts)
    }

    /// What a target in shards keeps, whichever workers had them. Nothing is done.
    pub fn keeps(&self)
        ensures kept { IfSome self.now.held.bytes (KeptWhole R.run self.now) }
        ensures faults { self.now.faults_before ≤ self.now.faults }
        ensures tells { is_some self.now.held.bytes ≡ T.tells }
    {
        let _ = &self.shards;
    }

    /// The numbers of entries with each fate.
    pub fn report(&self) -> Report
        ensures kept { result.kept ≡ tally fate.Kept self.now.fates (length self.now.fates) }
        ensures copied { result.copied ≡ tally fate.Copied self.now.fates (length self.now.fates) }
        ensures seeded { result.seeded ≡ tally fate.Seeded self.now.fates (length self.now.fates) }
        ensures cached { result.cached ≡ tally fate.Cached self.now.fates (length self.now.fates) }
        ensures fetched { result.fetched ≡ tally fate.Fetched self.now.fates (length self.now.fates) }
        ensures all { ((i : ℕ) → i < length self.now.fates → settled self.now.fates i ≡ true) →
            result.kept + result.copied + result.seeded + result.cached + result.fetched ≡ length self.now.fates }
    {
        self.rules();
        self.index.rules();
        let mut report = Report::new();
        for entry in 0..self.index.count() {
            report.count(self.fate(entry));
        }
        report
    }
}

impl<'a, R: RunName, T: Target> Ledger for Shards<'a, R, T> {
    ghost run = { R.run };

    ghost held = { λ s. s.held };

    ghost fates = { λ s. s.fates };

    ghost faults = { λ s. s.faults };

    ghost tells = { T.tells };

    ghost never_fails = { false };

    fn rules(&self) {
        let _ = &self.shards;
    }

    fn fate(&self, entry: usize) -> Fate {
        let k = shard_with::<R>(self.index, self.shards.len(), entry);
        self.shards[k].fate(entry)
    }

    fn read(&mut self, entry: usize, out: &mut [u8]) -> bool {
        let k = shard_with::<R>(self.index, self.shards.len(), entry);
        let read = self.shards[k].read(entry, out);
        self.shards[k].rules();
        read
    }

    fn put(&mut self, entry: usize, chunk: &[u8], fate: Fate) -> Result<bool, Failed> {
        let k = shard_with::<R>(self.index, self.shards.len(), entry);
        let put = self.shards[k].put(entry, chunk, fate);
        self.shards[k].rules();
        put
    }
}
