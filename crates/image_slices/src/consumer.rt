//! What goes through the entries of an index in order, beside views that read slices ahead. Entries are numbered from
//! 0, sizes are in bytes.

ghost use Rattle.std.specs.Prelude.{◌≡◌, ℕ, ◌+◌, ◌<◌, ◌≤◌, All, Ok, OnOk, Result, map, vec_capacity};
ghost use Rattle.caibx_codec.specs.Listing.{Listing, count_of, image_length};
ghost use Rattle.dsy_base.specs.Bytes.{Held};
ghost use Rattle.image_slices.specs.Ahead.{IsAhead, TellsSlice};
ghost use Rattle.image_slices.specs.Consumers.{IsAlike, NoFaultCountFalls};

use crate::ahead::Ahead;
use crate::entries::take_entries;
use crate::plan::{room_size, round_end, spare_size};
use caibx_codec::index::Index;
use dsy_base::inner_folders::InnerFolders;
use dsy_base::view::View;
use read_ahead::consumer::Consumer;
use std::alloc::{AllocError, Global};
use std::thread::Threads;

/// Takes the entries of an index in order, each exactly once, up to the first that ends it. What it does is the same
/// whether a slice was read ahead or not.
pub trait EntryConsumer: Drop {
    /// Why it ended early.
    type Fault;

    /// What its view of the image holds.
    ghost image: { Self → Held };

    /// How many entries it has taken.
    ghost taken: { Self → ℕ };

    /// The entries before `taken` are done, and it can go on.
    ghost can_go_on: { Listing → Self → Type 0 };

    /// It went from the first state to the second, and ended with this result.
    ghost goes: { Listing → Self → Self → Result Unit Self.Fault → Type 0 };

    /// The next entry.
    fn at(&self) -> usize
        ensures { result ≡ taken self.now };

    /// Takes the next entry, whose slice may stand in one of the rooms. What has come to this state goes on from it.
    fn take_next(&mut self, index: &Index, ready: &[Ahead]) -> Result<(), Self::Fault>
        requires more { taken self.old < count_of index.now }
        requires going { can_go_on index.now self.old }
        requires ready { All (IsAhead index.now (TellsSlice index.now (image self.old).bytes)) ready.now }
        ensures on { (first : Self) → goes index.now first self.old (Ok tt) → goes index.now first self.new result }
        ensures going { OnOk result (can_go_on index.now self.new) }
        ensures next { OnOk result (taken self.new ≡ taken self.old + 1) }
        ensures kept { image self.new ≡ image self.old };
}

/// The entries of an index, the largest chunk's size, and who takes them.
#[derive(Drop)]
struct Entries<'a, C> {
    index: &'a Index,
    largest: usize,
    taker: C,
}

impl<C: EntryConsumer> Consumer<Ahead> for Entries<'_, C> {
    ghost use Rattle.std.specs.Prelude.{◌≡◌, Ok};
    ghost use Rattle.caibx_codec.specs.Listing.{count_of};
    ghost use Rattle.image_slices.specs.Ahead.{IsAhead, TellsSlice};

    type Fault = C::Fault;

    ghost count = { λ e. count_of e.index.now };

    ghost taken = { λ e. C.taken e.taker };

    ghost can_go_on = { λ e. C.can_go_on e.index.now e.taker };

    ghost accepts = { λ e a. IsAhead e.index.now (TellsSlice e.index.now (C.image e.taker).bytes) a };

    ghost goes = { λ a b r. (b.index.now ≡ a.index.now) × (C.image b.taker ≡ C.image a.taker)
        × ((first : C) → C.goes a.index.now first a.taker (Ok tt) → C.goes a.index.now first b.taker r) };

    fn count(&self) -> usize {
        self.index.count()
    }

    fn at(&self) -> usize {
        self.taker.at()
    }

    fn spare(&self) -> usize {
        spare_size(self.index.count())
    }

    fn room(&self, alloc: Global) -> Result<Ahead, AllocError> {
        let room = Ahead::new(alloc, room_size(self.largest))?;
        Ok(room)
    }

    fn round_end(&self, from: usize, readers: usize) -> usize {
        round_end(self.index, from, readers, self.largest)
    }

    fn take_next(&mut self, ready: &[Ahead]) -> Result<(), C::Fault> {
        self.taker.take_next(self.index, ready)
    }
}

/// Lets the consumer take all entries, the largest of `largest` bytes, while each of the views reads slices ahead in a
/// thread of its own, and creates the subfolders of their chunks' files. Where there is no memory for the views' rooms
/// the consumer is alone. It comes back, whatever the answer is.
pub fn take_slices<R: Threads + Sync, C: EntryConsumer, V: View + Send, I: InnerFolders + Sync>(
    rt: &R,
    alloc: Global,
    index: &Index,
    largest: usize,
    taker: C,
    views: &mut Vec<V>,
    inner: &Option<I>,
) -> (C, Result<(), C::Fault>)
    requires size { image_length index.now ≡ (C.image taker).size }
    requires going { C.can_go_on index.now taker }
    requires alike { All (IsAlike (C.image taker)) (map V.held views.old.items) }
    ensures on { (first : C) → C.goes index.now first taker (Ok tt) → C.goes index.now first result.0 result.1 }
    ensures going { OnOk result.1 (C.can_go_on index.now result.0) }
    ensures image { C.image result.0 ≡ C.image taker }
    ensures all { OnOk result.1 (count_of index.now ≤ C.taken result.0) }
    ensures kept { map V.held views.new.items ≡ map V.held views.old.items }
    ensures faults { NoFaultCountFalls (map V.faults views.old.items) (map V.faults views.new.items) }
    ensures capacity { vec_capacity views.old ≤ vec_capacity views.new }
{
    let mut entries = Entries {
        index,
        largest,
        taker,
    };
    let taken = take_entries(rt, alloc, index, inner, &mut entries, views);
    (entries.taker, taken)
}
