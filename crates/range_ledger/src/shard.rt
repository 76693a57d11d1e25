//! Shards: parts of a target that know what became of their entries. Entries and shards count from 0.

ghost use Rattle.std.specs.Prelude.{◌≡◌, ◌∷◌, ◌-◌, ◌≤◌, ℕ, List, [], length, set, true, false};
ghost use Rattle.std.specs.Prelude.{is_some, IfSome, IsTrue, Ok, OnErr, OnOk};
ghost use Rattle.caibx_codec.specs.Listing.{id_of, kind_of, size_of};
ghost use Rattle.chunk_store.specs.Digests.{digest_of};
ghost use Rattle.dsy_base.specs.Bytes.{held_written};
ghost use Rattle.dsy_base.specs.Counts.{CountsRefusals, Rose};
ghost use Rattle.range_ledger.specs.Extents.{begin_in};
ghost use Rattle.range_ledger.specs.Machine.{Read};
ghost use Rattle.range_ledger.specs.Runs.{Has, IsShard, MayFill, SettlesOne, WasSurveyed, WhereTells};
ghost use Rattle.range_ledger.specs.Runs.{extent_of, first_in, has_settled, slice_at};
ghost use Rattle.range_ledger.specs.Steps.{Leads, PutLeads};
ghost use Rattle.range_survey.specs.Fates.{fate_at, is_settled};

use crate::entries::Entries;
use crate::run::RunName;
use dsy_base::fault::Failed;
use dsy_base::view::{Part, View};
use range_survey::fate::Fate;
use std::marker::Model;

/// A part of a target, and what became of its entries.
#[derive(Drop)]
pub struct Shard<'a, P: Part, R: RunName> {
    entries: Entries<'a, P, R>,
}

impl<'a, P: Part, R: RunName> Model for Shard<'a, P, R> {
    ghost use Rattle.range_ledger.specs.Runs.{Seen, WasSurveyed};

    ghost Value = { Seen };

    ghost view = { λ s. s.entries };

    ghost invariant = { λ s. WasSurveyed R.run s.entries };
}

impl<'a, P: Part, R: RunName> Shard<'a, P, R> {
    /// The shard of a part whose survey was made.
    pub(crate) fn begin(entries: Entries<'a, P, R>) -> Shard<'a, P, R>
        requires { WasSurveyed R.run entries }
        ensures { result ≡ entries.entry }
    {
        Shard { entries }
    }

    /// What a shard keeps. Nothing is done.
    pub fn rules(&self)
        ensures kept { IsShard R.run self.now }
        ensures tells { is_some self.now.held.bytes ≡ P.tells }
        ensures sized { IfSome self.now.held.bytes (λ t. length t ≡ self.now.held.size) }
        ensures sure { IsTrue P.never_fails → self.now.faults ≡ 0 }
    {
        self.entries.rules();
    }

    /// Which shard of the target it is.
    pub fn number(&self) -> usize
        ensures { result ≡ self.now.number }
    {
        self.entries.number()
    }

    /// Whether an entry is settled.
    pub fn settled(&self, entry: usize) -> bool
        requires inside { Has R.run self.now entry }
        ensures value { result ≡ has_settled R.run self.now entry }
    {
        self.entries.settled(entry)
    }

    /// What became of an entry.
    pub fn fate(&self, entry: usize) -> Fate
        requires inside { Has R.run self.now entry }
        ensures value { result ≡ fate_at self.now.fates (entry - first_in R.run self.now.number) }
    {
        self.entries.fate(entry)
    }

    /// Reads the range of a settled entry, whose digest isn't computed again. After a refusal `out` holds any bytes.
    pub fn read_settled(&mut self, entry: usize, out: &mut [u8]) -> Result<(), Failed>
        requires inside { Has R.run self.old entry }
        requires settled { has_settled R.run self.old entry ≡ true }
        requires size { length out.old ≡ size_of R.run.listing entry }
        ensures exactly { OnOk result (WhereTells R.run self.old self.new
            (Leads R.run (Read entry out.new ∷ []) self.old self.new)) }
        ensures right { OnOk result (WhereTells R.run self.old self.new
            (λ _ _. digest_of (kind_of R.run.listing) out.new ≡ id_of R.run.listing entry)) }
        ensures bytes { OnOk result (IfSome self.old.held.bytes (λ t. out.new ≡ slice_at R.run self.old t entry)) }
        ensures number { self.new.number ≡ self.old.number }
        ensures kept { self.new.fates ≡ self.old.fates }
        ensures held { self.new.held ≡ self.old.held }
        ensures faults { CountsRefusals self.old.faults self.new.faults result }
    {
        self.entries.read(entry, out)
    }

    /// Reads the range of an entry where it is settled. Whether it was, and could be read.
    pub fn read(&mut self, entry: usize, out: &mut [u8]) -> bool
        requires inside { Has R.run self.old entry }
        requires size { length out.old ≡ size_of R.run.listing entry }
        ensures found { result ≡ true → (has_settled R.run self.old entry ≡ true)
            × IfSome self.old.held.bytes (λ t. out.new ≡ slice_at R.run self.old t entry) }
        ensures absent { result ≡ false → has_settled R.run self.old entry ≡ true →
            Rose self.old.faults self.new.faults }
        ensures number { self.new.number ≡ self.old.number }
        ensures kept { self.new.fates ≡ self.old.fates }
        ensures held { self.new.held ≡ self.old.held }
        ensures faults { self.old.faults ≤ self.new.faults }
    {
        if !self.settled(entry) {
            return false;
        }
        match self.read_settled(entry, out) {
            Ok(()) => true,
            Err(Failed) => false,
        }
    }

    /// Puts its chunk into an entry, which then has this fate. A settled entry is left as it is. Whether it was put.
    /// After a refusal the range holds any bytes.
    pub fn put(&mut self, entry: usize, b: &[u8], fate: Fate) -> Result<bool, Failed>
        requires inside { Has R.run self.old entry }
        requires may { MayFill R.run entry b.now }
        requires fate { is_settled fate ≡ true }
        ensures ok { OnOk result (SettlesOne R.run self.old self.new entry) }
        ensures changed { result ≡ Ok true → (has_settled R.run self.old entry ≡ false)
            × (self.new.fates ≡ set self.old.fates (entry - first_in R.run self.old.number) fate) }
        ensures bytes { result ≡ Ok true → self.new.held
            ≡ held_written self.old.held (begin_in (extent_of R.run self.old.number) entry) b.now }
        ensures left { result ≡ Ok false → has_settled R.run self.old entry ≡ true }
        ensures failed { OnErr result ((x : List ℕ) × (length x ≡ length b.now) × (self.new.held
            ≡ held_written self.old.held (begin_in (extent_of R.run self.old.number) entry) x)) }
        ensures only { OnErr result (has_settled R.run self.old entry ≡ false) }
        ensures err { OnErr result (self.new.fates ≡ self.old.fates) }
        ensures kept { has_settled R.run self.old entry ≡ true → self.new ≡ self.old }
        ensures exactly { WhereTells R.run self.old self.new
            (PutLeads R.run entry b.now (has_settled R.run self.old entry) result self.old self.new) }
        ensures number { self.new.number ≡ self.old.number }
        ensures faults { CountsRefusals self.old.faults self.new.faults result }
    {
        if self.settled(entry) {
            return Ok(false);
        }
        match self.entries.write(entry, b) {
            Ok(()) => {
                self.entries.settle(entry, fate);
                Ok(true)
            }
            Err(Failed) => Err(Failed),
        }
    }

    /// The part. What was settled isn't known of it any more.
    pub fn into_part(self) -> P
        ensures held { P.held result ≡ self.entry.held }
        ensures count { P.faults result ≡ self.entry.faults }
        ensures kept { IsShard R.run self.entry }
    {
        self.entries.into_part()
    }
}
