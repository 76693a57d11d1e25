//! Parts of a target before their survey is over. Entries and shards count from 0.

ghost use Rattle.std.specs.Prelude.{◌≡◌, ◌+◌, ◌^◌, ◌<◌, ◌≤◌, ℕ, IfOk, IfSome, IsTrue, Ok, OnErr, false, length, true};
ghost use Rattle.caibx_codec.specs.Listing.{count_of, size_of};
ghost use Rattle.dsy_base.specs.Counts.{CountsRefusals, Rose};
ghost use Rattle.extract_plan.specs.Deal.{deal_shards};
ghost use Rattle.range_ledger.specs.Extents.{IsRightIn, length_in};
ghost use Rattle.range_ledger.specs.Runs.{Has, HasZeros, HasZerosFrom, IsDealt, IsDealtShard, IsUnread};
ghost use Rattle.range_ledger.specs.Runs.{SettlesOne, WasSurveyed, WhereTells, base_in};
ghost use Rattle.range_ledger.specs.Runs.{extent_of, has_settled, open_in, settled_below};
ghost use Rattle.range_ledger.specs.Steps.{Surveys};
ghost use Rattle.range_survey.specs.Fates.{FirstFates};
ghost use Rattle.range_survey.specs.Zeros.{IsTabled};

use crate::entries::Entries;
use crate::run::RunName;
use crate::shard::Shard;
use caibx_codec::index::Index;
use dsy_base::fault::Failed;
use dsy_base::view::{Part, View};
use extract_plan::plan::Plan;
use range_survey::fate::Fate;
use range_survey::zeros::ZeroDigests;
use std::alloc::{AllocError, Global};
use std::marker::Model;

/// A part of a target, and which of its entries a survey has found to be right so far.
#[derive(Drop)]
pub struct Unread<'a, P: Part, R: RunName> {
    entries: Entries<'a, P, R>,
}

impl<'a, P: Part, R: RunName> Model for Unread<'a, P, R> {
    ghost use Rattle.range_ledger.specs.Runs.{IsUnread, Seen};

    ghost Value = { Seen };

    ghost view = { λ u. u.entries };

    ghost invariant = { λ u. IsUnread R.run u.entries };
}

/// The number of bytes of a shard of the plan.
pub fn shard_size<R: RunName>(index: &Index, plan: &Plan, number: usize) -> u64
    requires dealt { IsDealt R.run index.now plan.now }
    requires inside { number < deal_shards plan.now }
    ensures { result ≡ length_in (extent_of R.run number) }
{
    index.rules();
    let first = plan.first_of(number);
    let past = plan.first_of(number + 1);
    index.end(past - 1) - index.entry(first).start
}

/// The fates of the entries of shard `number` of the plan, of which none is settled.
pub fn open_fates<R: RunName>(
    alloc: Global,
    index: &Index,
    plan: &Plan,
    number: usize,
) -> Result<Vec<Fate>, AllocError>
    requires dealt { IsDealt R.run index.now plan.now }
    requires inside { number < deal_shards plan.now }
    ensures value { IfOk result (λ v. v.items ≡ open_in R.run number) }
{
    index.rules();
    let first = plan.first_of(number);
    let past = plan.first_of(number + 1);
    vec![in alloc; Fate::Open; past - first]
}

/// What a survey found: how many entries it settled, and whether a read failed.
#[derive(Clone, Copy, Debug, PartialEq, Eq)]
pub struct Surveyed {
    pub settled: usize,
    pub failed: bool,
}

impl Surveyed {
    // Adds what was found of one entry.
    fn add(&mut self, found: Result<bool, Failed>)
        requires few { self.old.settled < 2 ^ 32 }
        ensures yes { found ≡ Ok true → (self.new.settled ≡ self.old.settled + 1)
            × (self.new.failed ≡ self.old.failed) }
        ensures no { found ≡ Ok false → self.new ≡ self.old }
        ensures err { OnErr found ((self.new.settled ≡ self.old.settled) × (self.new.failed ≡ true)) }
    {
        match found {
            Ok(true) => self.settled += 1,
            Ok(false) => {}
            Err(Failed) => self.failed = true,
        }
    }
}

impl<'a, P: Part, R: RunName> Unread<'a, P, R> {
    /// Shard `number` of the plan, of which nothing is settled yet.
    pub fn new(
        index: &'a Index,
        plan: &Plan,
        number: usize,
        part: P,
        fates: Vec<Fate>,
    ) -> Unread<'a, P, R>
        requires dealt { IsDealt R.run index.now plan.now }
        requires inside { number < deal_shards plan.now }
        requires size { (P.held part).size ≡ length_in (extent_of R.run number) }
        requires open { fates.items ≡ open_in R.run number }
        requires bytes { IsTrue R.run.tells → IfSome (P.held part).bytes (λ t. t ≡ base_in R.run number) }
        ensures number { result.number ≡ number }
        ensures none { (e : ℕ) → has_settled R.run result e ≡ false }
        ensures inside { (e : ℕ) → Has R.run result e → e < count_of R.run.listing }
        ensures held { result.held ≡ P.held part }
        ensures faults { result.faults ≡ P.faults part }
        ensures dealt { IsDealtShard R.run result }
    {
        let entries = Entries::new(index, plan, number, part, fates);
        entries.rules();
        Unread { entries }
    }

    /// Whether an entry is settled.
    pub fn settled(&self, entry: usize) -> bool
        requires inside { Has R.run self.now entry }
        ensures value { result ≡ has_settled R.run self.now entry }
    {
        self.entries.settled(entry)
    }

    // Settles an entry where its range has its digest. Whether it has.
    fn look_at(
        &mut self,
        zeros: &ZeroDigests,
        old: u64,
        entry: usize,
        buf: &mut [u8],
    ) -> Result<bool, Failed>
        requires inside { Has R.run self.old entry }
        requires room { size_of R.run.listing entry ≤ length buf.old }
        requires none { has_settled R.run self.old entry ≡ false }
        requires zeros { HasZeros R.run old self.old entry }
        ensures yes { result ≡ Ok true → SettlesOne R.run self.old self.new entry }
        ensures no { result ≡ Ok false → (self.new.fates ≡ self.old.fates) × WhereTells R.run self.old self.new
            (λ t _. IsRightIn (extent_of R.run self.old.number) t entry → ⊥) }
        ensures err { OnErr result (self.new.fates ≡ self.old.fates) }
        ensures first { (k : ℕ) → FirstFates self.old.fates k → FirstFates self.new.fates k }
        ensures unread { IsTabled zeros.now R.run.listing old entry → self.new.faults ≡ self.old.faults }
        ensures number { self.new.number ≡ self.old.number }
        ensures held { self.new.held ≡ self.old.held }
        ensures faults { CountsRefusals self.old.faults self.new.faults result }
        ensures room { length buf.new ≡ length buf.old }
        ensures kept { IsUnread R.run self.new }
    {
        match self.entries.has_digest(zeros, old, entry, buf) {
            Ok(true) => {
                self.entries.settle(entry, Fate::Kept);
                Ok(true)
            }
            Ok(false) => Ok(false),
            Err(Failed) => Err(Failed),
        }
    }

    /// Settles exactly those entries whose bytes have the listed digest. An entry whose read failed stays unsettled.
    /// The target's bytes from `old` on are zeros, and a range there isn't read where the table has its size. `buf` has
    /// room for the largest entry.
    pub fn survey(&mut self, zeros: &ZeroDigests, old: u64, buf: &mut [u8]) -> Surveyed
        requires none { (e : ℕ) → has_settled R.run self.old e ≡ false }
        requires room { (e : ℕ) → Has R.run self.old e → size_of R.run.listing e ≤ length buf.old }
        requires zeros { HasZerosFrom R.run old self.old }
        ensures ok { WasSurveyed R.run self.new }
        ensures exactly { WhereTells R.run self.old self.new (Surveys R.run self.old self.new) }
        ensures no { result.failed ≡ false → WhereTells R.run self.old self.new (λ t _. (e : ℕ) → Has R.run self.new e →
            has_settled R.run self.new e ≡ false → IsRightIn (extent_of R.run self.new.number) t e → ⊥) }
        ensures first { (k : ℕ) → FirstFates self.new.fates k }
        ensures size { result.settled ≡ settled_below R.run self.new (length self.new.fates) }
        ensures unread { ((e : ℕ) → Has R.run self.old e → IsTabled zeros.now R.run.listing old e) →
            self.new.faults ≡ self.old.faults }
        ensures number { self.new.number ≡ self.old.number }
        ensures held { self.new.held ≡ self.old.held }
        ensures failed { result.failed ≡ true → Rose self.old.faults self.new.faults }
        ensures quiet { result.failed ≡ false → self.new.faults ≡ self.old.faults }
        ensures faults { self.old.faults ≤ self.new.faults }
        ensures room { length buf.new ≡ length buf.old }
    {
        let mut found = Surveyed {
            settled: 0,
            failed: false,
        };
        for k in 0..self.entries.count() {
            let entry = self.entries.entry(k);
            found.add(self.look_at(zeros, old, entry, buf));
        }
        found
    }

    /// The shard of the part, once its survey was made.
    pub fn begin(self) -> Shard<'a, P, R>
        requires { WasSurveyed R.run self }
        ensures { result ≡ self.entry }
    {
        Shard::begin(self.entries)
    }

    /// The part. What was settled isn't known of it any more.
    pub fn into_part(self) -> P
        ensures held { P.held result ≡ self.entry.held }
        ensures count { P.faults result ≡ self.entry.faults }
    {
        self.entries.into_part()
    }
}
