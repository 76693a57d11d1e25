//! A target whose shards stand behind locks, as one of several workers sees it. Entries and shards count from 0.

ghost use Rattle.std.specs.Prelude.{◌≡◌, ◌<◌, ◌≤◌, [], IsTrue, length, vec_capacity};
ghost use Rattle.caibx_codec.specs.Listing.{count_of};
ghost use Rattle.range_survey.specs.Fates.{FirstFates, SettledRight};

use caibx_codec::index::Index;
use dsy_base::fault::{Failed, raise};
use dsy_base::view::{Part, View};
use one_lock::hand::Hand;
use owned_shards::lock::ShardLock;
use owned_shards::shards::shard_with;
use range_ledger::ledger::Ledger;
use range_ledger::run::RunName;
use range_survey::fate::Fate;
use std::marker::Model;
use std::sync::Wait;

/// The locks of a target's shards, and what one worker knows of each entry: what the survey found, and what the worker
/// itself has put since. What others have put it doesn't know. It holds one lock at a time, for one read or write.
#[derive(Drop)]
pub struct Locked<'l, 'i, W: Wait, P: Part, R: RunName> {
    rt: &'l W,
    index: &'i Index,
    locks: &'l [ShardLock<'i, P, R>],
    hand: Hand,
    known: Vec<Fate>,
    faults: u64,
}

impl<'l, 'i, W: Wait, P: Part, R: RunName> Model for Locked<'l, 'i, W, P, R> {
    ghost use Rattle.std.specs.Prelude.{◌≡◌, ◌&&◌, IsTrue, length, true};
    ghost use Rattle.locked_shards.specs.Known.{KnowsEntries, Knowledge};

    ghost Value = { Knowledge };

    ghost view = { λ s. record { fates = s.known.items; faults = s.faults } };

    ghost invariant = { λ s. (s.index.now ≡ R.run.listing) × (P.tells ≡ R.run.tells)
        × KnowsEntries R.run (length s.locks.now) s.known.items
        × (IsTrue (P.never_fails && R.run.tells) → s.faults ≡ 0) × (s.hand.is_free ≡ true) };
}

/// What a ledger says of each entry, for a worker to begin with. `room` has the room for it.
pub fn fates_of<L: Ledger>(ledger: &L, count: usize, room: Vec<Fate>) -> Vec<Fate>
    requires count { count ≡ count_of L.run.listing }
    requires none { room.items ≡ [] }
    requires room { count ≤ vec_capacity room }
    ensures fates { result.items ≡ L.fates ledger.now }
{
    ledger.rules();
    let mut fates = room;
    for entry in 0..count {
        let Ok(()) = fates.push(ledger.fate(entry)) else {
            unreachable!();
        };
    }
    fates
}

impl<'l, 'i, W: Wait, P: Part, R: RunName> Locked<'l, 'i, W, P, R> {
    /// The shards behind these locks, of which a worker knows what the survey found of each entry.
    pub fn new(
        rt: &'l W,
        index: &'i Index,
        locks: &'l [ShardLock<'i, P, R>],
        known: Vec<Fate>,
    ) -> Locked<'l, 'i, W, P, R>
        requires dealt { index.now ≡ R.run.listing }
        requires tells { P.tells ≡ R.run.tells }
        requires count { length locks.now ≡ R.run.shards }
        requires few { R.run.shards ≤ count_of R.run.listing }
        requires some { 0 < count_of R.run.listing → 0 < R.run.shards }
        requires size { length known.items ≡ count_of R.run.listing }
        requires first { FirstFates known.items (count_of R.run.listing) }
        requires right { IsTrue R.run.tells →
            SettledRight R.run.listing R.run.base known.items (count_of R.run.listing) }
        ensures fates { result.fates ≡ known.items }
        ensures faults { result.faults ≡ 0 }
    {
        Locked {
            rt,
            index,
            locks,
            hand: Hand::new(),
            known,
            faults: 0,
        }
    }

    /// What the worker knows of each entry.
    pub fn into_known(self) -> Vec<Fate>
        ensures fates { result.items ≡ self.entry.fates }
    {
        self.known
    }
}

impl<'l, 'i, W: Wait, P: Part, R: RunName> Ledger for Locked<'l, 'i, W, P, R> {
    ghost use Rattle.std.specs.Prelude.{◌&&◌, None, []};
    ghost use Rattle.caibx_codec.specs.Listing.{image_length};

    ghost run = { R.run };

    ghost held = { λ _. record { bytes = None; size = image_length R.run.listing; name = [] } };

    ghost fates = { λ s. s.fates };

    ghost faults = { λ s. s.faults };

    ghost tells = { R.run.tells };

    ghost never_fails = { P.never_fails && R.run.tells };

    fn rules(&self) {
        let _ = &self.known;
    }

    fn fate(&self, entry: usize) -> Fate {
        self.known[entry]
    }

    fn read(&mut self, entry: usize, out: &mut [u8]) -> bool {
        let known = self.known[entry];
        if !known.is_settled() {
            return false;
        }
        let locks = self.locks;
        let number = shard_with::<R>(self.index, locks.len(), entry);
        let read = locks[number].read(self.rt, &mut self.hand, number, entry, known, out);
        if !read {
            self.faults = raise(self.faults, 1);
        }
        read
    }

    fn put(&mut self, entry: usize, chunk: &[u8], fate: Fate) -> Result<bool, Failed> {
        if self.known[entry].is_settled() {
            return Ok(false);
        }
        let locks = self.locks;
        let number = shard_with::<R>(self.index, locks.len(), entry);
        match locks[number].put(self.rt, &mut self.hand, number, entry, chunk, fate) {
            Ok(()) => {
                self.known[entry] = fate;
                Ok(true)
            }
            Err(Failed) => {
                self.faults = raise(self.faults, 1);
                Err(Failed)
            }
        }
    }
}
