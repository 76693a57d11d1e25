//! A further worker, which gets the chunks that it was dealt from stores of its own, ahead of their entries' turns.
//! Entries are numbered from 0.

ghost use Rattle.std.specs.Prelude.{◌≡◌, ◌+◌, ◌<◌, ◌≤◌, IfSome, None, map};
ghost use Rattle.chunk_dealing.specs.Dealing.{owner_of};
ghost use Rattle.cache_fill.specs.Fetching.{Fetches, SomeHoldsEntry};
ghost use Rattle.cache_fill.specs.Filling.{RefusedAhead};
ghost use Rattle.caibx_codec.specs.Listing.{count_of, kind_of};
ghost use Rattle.image_slices.specs.Ahead.{HasSpaceAbove, IsAhead};
ghost use Rattle.store_chain.specs.Chains.{Chained};

use crate::entry::fault_at;
use crate::fill::FillFault;
use caibx_codec::index::Index;
use chunk_dealing::dealing::owner_of;
use chunk_store::store::Store;
use image_slices::ahead::Ahead;
use read_ahead::reader::Reader;
use store_chain::chain::Chain;

/// An entry whose chunk stores refused, and how.
#[derive(Clone, Copy)]
pub(crate) struct Lost {
    pub entry: usize,
    pub fault: FillFault,
}

/// A chain of stores, the index, the worker of each entry, the number of this one, and a buffer of the size of the
/// largest chunk. No entry from `next` on was asked for. The last that was asked for is `lost` if it was refused.
#[derive(Drop)]
pub(crate) struct WantReader<'a, S: Store> {
    pub chain: Chain<S>,
    pub index: &'a Index,
    pub owners: &'a [u8],
    pub number: usize,
    pub buf: Vec<u8>,
    pub next: usize,
    pub lost: Option<Lost>,
}

impl<'a, S: Store> WantReader<'a, S> {
    // Gets the chunk of entry i into the room. Answers whether there is more to be read.
    fn fetch(&mut self, i: usize, room: &mut Ahead) -> bool
        requires listed { i < count_of self.old.index.now }
        requires own { owner_of self.old.owners.now i ≡ self.old.number }
        requires order { self.old.next ≤ i }
        requires unlost { self.old.lost ≡ None }
        requires kind { self.old.chain.kind ≡ kind_of self.old.index.now }
        requires right { IsAhead self.old.index.now (SomeHoldsEntry S.members self.old.index.now
            self.old.chain.stores) room.old }
        requires space { HasSpaceAbove self.old.index.now i room.old }
        ensures right { IsAhead self.new.index.now (SomeHoldsEntry S.members self.new.index.now
            self.new.chain.stores) room.new }
        ensures order { self.new.next ≤ count_of self.new.index.now }
        ensures kind { self.new.chain.kind ≡ kind_of self.new.index.now }
        ensures index { self.new.index.now ≡ self.old.index.now }
        ensures owners { self.new.owners.now ≡ self.old.owners.now }
        ensures number { self.new.number ≡ self.old.number }
        ensures members { map S.members self.new.chain.stores ≡ map S.members self.old.chain.stores }
        ensures on { (c : Chained S) → Fetches S.Store self.old.index.now (owner_of self.old.owners.now)
            self.old.number self.old.next c self.old.chain →
            Fetches S.Store self.new.index.now (owner_of self.new.owners.now) self.new.number self.new.next c
            self.new.chain }
        ensures lost { (c : Chained S) → Fetches S.Store self.old.index.now (owner_of self.old.owners.now)
            self.old.number self.old.next c self.old.chain →
            IfSome self.new.lost (λ p. RefusedAhead S.Store self.new.index.now p.entry p.fault c self.new.chain) }
    {
        let index = self.index;
        index.rules();
        let entry = index.entry(i);
        if self.buf.len() < entry.size {
            return false;
        }
        self.next = i + 1;
        let (out, _) = self.buf.split_at_mut(entry.size);
        match self.chain.obtain(&entry.id, Some(entry.size), out) {
            Ok(n) => {
                let (bytes, _) = out.split_at(n);
                room.push(index, i, bytes);
                true
            }
            Err(refused) => {
                let fault = fault_at(i as u64, entry.id, refused);
                self.lost = Some(Lost { entry: i, fault });
                false
            }
        }
    }
}

impl<'a, S: Store> Reader<Ahead> for WantReader<'a, S> {
    ghost use Rattle.std.specs.Prelude.{◌≡◌, ◌≤◌, IfSome};
    ghost use Rattle.chunk_dealing.specs.Dealing.{owner_of};
    ghost use Rattle.cache_fill.specs.Fetching.{Fetches, SomeHoldsEntry};
    ghost use Rattle.cache_fill.specs.Filling.{RefusedAhead};
    ghost use Rattle.caibx_codec.specs.Listing.{count_of, kind_of};
    ghost use Rattle.image_slices.specs.Ahead.{IsAhead};

    ghost count = { λ r. count_of r.index.now };

    ghost can_read = { λ r. (r.next ≤ count_of r.index.now) × (r.chain.kind ≡ kind_of r.index.now) };

    ghost is_right = { λ r a. IsAhead r.index.now (SomeHoldsEntry S.members r.index.now r.chain.stores) a };

    ghost went = { λ r s. (s.index.now ≡ r.index.now) × (s.owners.now ≡ r.owners.now) × (s.number ≡ r.number)
        × (s.next ≤ count_of s.index.now)
        × Fetches S.Store s.index.now (owner_of s.owners.now) s.number s.next r.chain s.chain
        × IfSome s.lost (λ p. RefusedAhead S.Store s.index.now p.entry p.fault r.chain s.chain) };

    fn begin(&self, room: &mut Ahead) {
        room.clear();
    }

    // What others were dealt is left out. Where the room is full, or the stores refuse, nothing more is read.
    fn read_item(&mut self, i: usize, room: &mut Ahead) -> bool {
        let index = self.index;
        if self.lost.is_some() {
            return false;
        }
        if owner_of(self.owners, i) != self.number || i < self.next {
            return true;
        }
        if !room.fits_above(index, i) {
            return false;
        }
        self.fetch(i, room)
    }
}
