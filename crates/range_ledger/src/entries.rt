//! A part of a target with the entries that lie in it, and what became of each. Entries and shards count from 0.

ghost use Rattle.std.specs.Prelude.{◌≡◌, ◌+◌, ◌-◌, ◌<◌, ◌≤◌, ℕ, List, IfOk, IfSome, IsTrue, OnErr, OnOk, Ok, false};
ghost use Rattle.std.specs.Prelude.{is_some, length, set, true};
ghost use Rattle.caibx_codec.specs.Listing.{count_of, size_of};
ghost use Rattle.caibx_fields.specs.Limits.{item_limit};
ghost use Rattle.dsy_base.specs.Bytes.{held_written};
ghost use Rattle.dsy_base.specs.Counts.{CountsRefusals};
ghost use Rattle.extract_plan.specs.Deal.{deal_shards};
ghost use Rattle.range_ledger.specs.Extents.{IsRightIn, begin_in, length_in};
ghost use Rattle.range_ledger.specs.Runs.{Has, HasZeros, IsDealt, IsDealtShard, SettlesOne, extent_of, first_in};
ghost use Rattle.range_ledger.specs.Runs.{has_settled, open_in, slice_at};
ghost use Rattle.range_survey.specs.Fates.{fate_at, is_settled};
ghost use Rattle.range_survey.specs.Zeros.{IsTabled};

use crate::run::RunName;
use caibx_codec::index::Index;
use dsy_base::fault::Failed;
use dsy_base::view::{Part, View};
use extract_plan::plan::Plan;
use range_survey::fate::Fate;
use range_survey::look::has_digest;
use range_survey::zeros::ZeroDigests;
use std::marker::{Model, PhantomData};

/// A part of a target, its entries, and what became of each.
#[derive(Drop)]
pub(crate) struct Entries<'a, P: Part, R: RunName> {
    index: &'a Index,
    number: usize,
    first: usize,
    fates: Vec<Fate>,
    part: P,
    of: PhantomData<R>,
}

impl<'a, P: Part, R: RunName> Model for Entries<'a, P, R> {
    ghost use Rattle.std.specs.Prelude.{◌≡◌};
    ghost use Rattle.range_ledger.specs.Runs.{IsDealtShard, Seen, first_in};

    ghost Value = { Seen };

    ghost view = { λ s. record {
      number = s.number;
      fates = s.fates.items;
      faults = P.faults s.part;
      held = P.held s.part;
    } };

    ghost invariant = { λ s. (s.index.now ≡ R.run.listing) × (s.first ≡ first_in R.run s.number)
        × IsDealtShard R.run (record {
          number = s.number;
          fates = s.fates.items;
          faults = P.faults s.part;
          held = P.held s.part;
        }) };
}

impl<'a, P: Part, R: RunName> Entries<'a, P, R> {
    /// The entries of shard `number` of the plan, of which none is settled.
    pub(crate) fn new(
        index: &'a Index,
        plan: &Plan,
        number: usize,
        part: P,
        fates: Vec<Fate>,
    ) -> Entries<'a, P, R>
        requires dealt { IsDealt R.run index.now plan.now }
        requires inside { number < deal_shards plan.now }
        requires size { (P.held part).size ≡ length_in (extent_of R.run number) }
        requires open { fates.items ≡ open_in R.run number }
        ensures number { result.number ≡ number }
        ensures fates { result.fates ≡ open_in R.run number }
        ensures none { (e : ℕ) → has_settled R.run result e ≡ false }
        ensures inside { (e : ℕ) → Has R.run result e → e < count_of R.run.listing }
        ensures held { result.held ≡ P.held part }
        ensures faults { result.faults ≡ P.faults part }
    {
        index.rules();
        let first = plan.first_of(number);
        Entries {
            index,
            number,
            first,
            fates,
            part,
            of: PhantomData,
        }
    }

    /// What the type keeps. Nothing is done.
    pub(crate) fn rules(&self)
        ensures inside { IsDealtShard R.run self.now }
        ensures tells { is_some self.now.held.bytes ≡ P.tells }
        ensures sized { IfSome self.now.held.bytes (λ t. length t ≡ self.now.held.size) }
        ensures sure { IsTrue P.never_fails → self.now.faults ≡ 0 }
    {
        let _ = &self.fates;
    }

    pub(crate) fn number(&self) -> usize
        ensures { result ≡ self.now.number }
    {
        self.number
    }

    /// The number of its entries.
    pub(crate) fn count(&self) -> usize
        ensures value { result ≡ length self.now.fates }
        ensures few { result ≤ item_limit }
        ensures inside { IsDealtShard R.run self.now }
    {
        self.fates.len()
    }

    /// Its k-th entry, by its number in the index.
    pub(crate) fn entry(&self, k: usize) -> usize
        requires listed { k < length self.now.fates }
        ensures value { result ≡ first_in R.run self.now.number + k }
        ensures inside { Has R.run self.now result }
    {
        self.first + k
    }

    pub(crate) fn settled(&self, entry: usize) -> bool
        requires inside { Has R.run self.now entry }
        ensures value { result ≡ has_settled R.run self.now entry }
    {
        self.fate(entry).is_settled()
    }

    /// What became of an entry.
    pub(crate) fn fate(&self, entry: usize) -> Fate
        requires inside { Has R.run self.now entry }
        ensures value { result ≡ fate_at self.now.fates (entry - first_in R.run self.now.number) }
    {
        self.fates[entry - self.first]
    }

    // Where the range of an entry begins in the part.
    fn offset(&self, entry: usize) -> u64
        requires inside { Has R.run self.now entry }
        ensures value { result ≡ begin_in (extent_of R.run self.now.number) entry }
        ensures fits { result + size_of R.run.listing entry ≤ self.now.held.size }
    {
        self.index.entry(entry).start - self.index.entry(self.first).start
    }

    /// Whether an entry has its listed digest. Where it begins at or past `old` in the target its range is zeros, and
    /// isn't read where the table has its size.
    pub(crate) fn has_digest(
        &mut self,
        zeros: &ZeroDigests,
        old: u64,
        entry: usize,
        buf: &mut [u8],
    ) -> Result<bool, Failed>
        requires inside { Has R.run self.old entry }
        requires room { size_of R.run.listing entry ≤ length buf.old }
        requires zeros { HasZeros R.run old self.old entry }
        ensures yes { result ≡ Ok true → IfSome self.old.held.bytes
            (λ t. IsRightIn (extent_of R.run self.old.number) t entry) }
        ensures no { result ≡ Ok false → IfSome self.old.held.bytes
            (λ t. IsRightIn (extent_of R.run self.old.number) t entry → ⊥) }
        ensures unread { IsTabled zeros.now R.run.listing old entry → self.new ≡ self.old }
        ensures number { self.new.number ≡ self.old.number }
        ensures kept { self.new.fates ≡ self.old.fates }
        ensures held { self.new.held ≡ self.old.held }
        ensures faults { CountsRefusals self.old.faults self.new.faults result }
        ensures room { length buf.new ≡ length buf.old }
    {
        let at = self.offset(entry);
        has_digest(zeros, self.index, old, entry, &mut self.part, at, buf)
    }

    /// Reads the range of an entry. After a refusal `out` holds any bytes.
    pub(crate) fn read(&mut self, entry: usize, out: &mut [u8]) -> Result<(), Failed>
        requires inside { Has R.run self.old entry }
        requires size { length out.old ≡ size_of R.run.listing entry }
        ensures bytes { OnOk result (IfSome self.old.held.bytes (λ t. out.new ≡ slice_at R.run self.old t entry)) }
        ensures number { self.new.number ≡ self.old.number }
        ensures kept { self.new.fates ≡ self.old.fates }
        ensures held { self.new.held ≡ self.old.held }
        ensures faults { CountsRefusals self.old.faults self.new.faults result }
    {
        let at = self.offset(entry);
        self.part.read_at(at, out)
    }

    /// Writes the range of an entry. After a refusal it holds any bytes.
    pub(crate) fn write(&mut self, entry: usize, b: &[u8]) -> Result<(), Failed>
        requires inside { Has R.run self.old entry }
        requires size { length b.now ≡ size_of R.run.listing entry }
        ensures ok { OnOk result (self.new.held
            ≡ held_written self.old.held (begin_in (extent_of R.run self.old.number) entry) b.now) }
        ensures err { OnErr result ((x : List ℕ) × (length x ≡ length b.now) × (self.new.held
            ≡ held_written self.old.held (begin_in (extent_of R.run self.old.number) entry) x)) }
        ensures number { self.new.number ≡ self.old.number }
        ensures kept { self.new.fates ≡ self.old.fates }
        ensures sized { IfSome self.old.held.bytes (λ t. length t ≡ self.old.held.size) }
        ensures inside { IsDealtShard R.run self.old }
        ensures faults { CountsRefusals self.old.faults self.new.faults result }
    {
        let at = self.offset(entry);
        self.part.write_at(at, b)
    }

    /// Gives an entry a fate that settles it.
    pub(crate) fn settle(&mut self, entry: usize, fate: Fate)
        requires inside { Has R.run self.old entry }
        requires fate { is_settled fate ≡ true }
        ensures fates { self.new.fates ≡ set self.old.fates (entry - first_in R.run self.old.number) fate }
        ensures only { SettlesOne R.run self.old self.new entry }
        ensures number { self.new.number ≡ self.old.number }
        ensures held { self.new.held ≡ self.old.held }
        ensures faults { self.new.faults ≡ self.old.faults }
    {
        self.fates[entry - self.first] = fate;
    }

    pub(crate) fn into_part(self) -> P
        ensures held { P.held result ≡ self.entry.held }
        ensures count { P.faults result ≡ self.entry.faults }
        ensures inside { IsDealtShard R.run self.entry }
    {
        self.part
    }
}
