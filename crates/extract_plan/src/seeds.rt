//! Where seeds list the chunks of an index. Seeds, entries and wants count from 0; offsets are bytes from 0.

ghost use Rattle.std.specs.Prelude.{◌≡◌, ◌<◌, ◌≤◌, ◌+◌, ◌^◌, ◌↔◌, ℕ, Err, Some, [], length, slice_index, IfOk, OnOk};
ghost use Rattle.std.specs.List.{slice_get};
ghost use Rattle.std.specs.List.Sorted.{IsSorted};
ghost use Rattle.caibx_codec.specs.Listing.{Listing, count_of};
ghost use Rattle.extract_plan.specs.Deal.{AreWants};
ghost use Rattle.extract_plan.specs.Found.{AreFound, AreNumbered};
ghost use Rattle.extract_plan.specs.Keys.{keyed_cmp, number_of};
ghost use Rattle.extract_plan.specs.Places.{ArePlaced, IsSeedIndex, PlacesKnown};
ghost use Rattle.extract_plan.specs.Places.{items_of, nth_place, places_at, seed_item_limit};
ghost use Rattle.extract_plan.specs.declared.seeds.SeedFault.TheVariants.{TooManyItems};

use crate::keyed::{Keyed, number_in};
use crate::link::{Sorted, sort};
use crate::plan::Plan;
use crate::seed::SeedPlace;
use caibx_codec::index::Index;
use chunk_store::id::DigestKind;
use std::alloc::{AllocError, Global};
use std::marker::Model;

/// The greatest number of items that all seeds may list together.
pub const SEED_ITEM_LIMIT: usize = 8388608;

/// Why places can't be listed.
#[derive(Clone, Copy, Debug, PartialEq, Eq)]
pub enum SeedFault {
    /// The seeds list more than 2^23 items together.
    TooManyItems,
    Memory,
}

/// For each want of an index the places of the seeds that list its chunk.
#[derive(Debug, Drop)]
pub struct SeedIndex {
    starts: Vec<usize>,
    items: Vec<SeedPlace>,
}

impl Model for SeedIndex {
    ghost use Rattle.extract_plan.specs.Places.{ArePlaced, Placed, placed_of};

    ghost Value = { Placed };

    ghost view = { λ x. placed_of x };

    ghost invariant = { λ x. ArePlaced (placed_of x) };
}

// Places in the order in which seeds list them, and for each the want whose chunk it has.
#[derive(Debug, Drop)]
struct Found {
    wants: Vec<u32>,
    places: Vec<SeedPlace>,
}

// How many items the seeds list together.
fn items(seeds: &[Index]) -> usize
    requires few { length seeds.now < 2 ^ 32 }
    ensures { result ≡ items_of seeds.now }
{
    let mut items = 0usize;
    for s in 0..seeds.len() {
        seeds[s].rules();
        items += seeds[s].count();
    }
    items
}

// The want of each id and size that the index lists.
fn numbers(alloc: Global, plan: &Plan, index: &Index) -> Result<Vec<Keyed>, AllocError>
    requires plan { AreWants index.now plan.now.wants plan.now.want_of }
    ensures sorted { IfOk result (λ m. IsSorted keyed_cmp m.items) }
    ensures value { IfOk result (λ m. AreNumbered index.now (count_of index.now) (number_of m.items) plan.now.want_of) }
{
    index.rules();
    let mut numbers = Vec::with_capacity(alloc, index.count())?;
    for i in 0..index.count() {
        let want = plan.want_of(i) as u32;
        numbers.push(Keyed::of(index, i, want))?;
    }
    numbers.sort_unstable();
    Ok(numbers)
}

// Entry i of seed s: its place, of this kind, is added where it has a number.
fn add_entry(
    kind: DigestKind,
    numbers: &[Keyed],
    seeds: &[Index],
    s: usize,
    i: usize,
    found: &mut Found,
) -> Result<(), AllocError>
    requires sorted { IsSorted keyed_cmp numbers.now }
    requires few { length seeds.now < 2 ^ 32 }
    requires seed { s < length seeds.now }
    requires entry { (l : Listing) → slice_get seeds.now s ≡ Some l → i < count_of l }
    requires before { AreFound kind (number_of numbers.now) seeds.now s i found.old.wants.items found.old.places.items }
    ensures { OnOk result (AreFound kind (number_of numbers.now) seeds.now s (i + 1)
        found.new.wants.items found.new.places.items) }
{
    let seed = &seeds[s];
    seed.rules();
    let listed = seed.entry(i);
    if let Some(want) = number_in(numbers, &listed.id, listed.size) {
        found.wants.push(want)?;
        found.places.push(SeedPlace {
            seed: s as u32,
            start: listed.start,
            size: listed.size as u32,
            kind,
        })?;
    }
    Ok(())
}

// The entries of seed s.
fn add_seed(
    kind: DigestKind,
    numbers: &[Keyed],
    seeds: &[Index],
    s: usize,
    found: &mut Found,
) -> Result<(), AllocError>
    requires sorted { IsSorted keyed_cmp numbers.now }
    requires few { length seeds.now < 2 ^ 32 }
    requires seed { s < length seeds.now }
    requires before { AreFound kind (number_of numbers.now) seeds.now s 0 found.old.wants.items found.old.places.items }
    ensures { OnOk result (AreFound kind (number_of numbers.now) seeds.now (s + 1) 0
        found.new.wants.items found.new.places.items) }
{
    for i in 0..seeds[s].count() {
        add_entry(kind, numbers, seeds, s, i, found)?;
    }
    Ok(())
}

// The places of all seeds.
fn find(
    kind: DigestKind,
    numbers: &[Keyed],
    seeds: &[Index],
    found: &mut Found,
) -> Result<(), AllocError>
    requires sorted { IsSorted keyed_cmp numbers.now }
    requires few { length seeds.now < 2 ^ 32 }
    requires wants { found.old.wants.items ≡ [] }
    requires places { found.old.places.items ≡ [] }
    ensures { OnOk result (AreFound kind (number_of numbers.now) seeds.now (length seeds.now) 0
        found.new.wants.items found.new.places.items) }
{
    for s in 0..seeds.len() {
        add_seed(kind, numbers, seeds, s, found)?;
    }
    Ok(())
}

// The places in this order.
fn ordered(alloc: Global, places: &[SeedPlace], order: &[u32]) -> Result<Vec<SeedPlace>, AllocError>
    requires inside { (k : ℕ) → k < length order.now → slice_index order.now k < length places.now }
    ensures size { IfOk result (λ v. length v.items ≡ length order.now) }
    ensures value { IfOk result (λ v. (k : ℕ) → k < length order.now →
        nth_place v.items k ≡ nth_place places.now (slice_index order.now k)) }
{
    let mut all = Vec::with_capacity(alloc, order.len())?;
    for k in 0..order.len() {
        all.push(places[order[k] as usize])?;
    }
    Ok(all)
}

fn place(
    alloc: Global,
    plan: &Plan,
    index: &Index,
    seeds: &[Index],
) -> Result<SeedIndex, AllocError>
    requires plan { AreWants index.now plan.now.wants plan.now.want_of }
    requires few { length seeds.now < 2 ^ 32 }
    requires items { items_of seeds.now ≤ seed_item_limit }
    ensures placed { IfOk result (λ x. IsSeedIndex index.now plan.now seeds.now x) }
    ensures known { IfOk result (λ x. PlacesKnown index.now plan.now x (length seeds.now)) }
{
    // All room at once: a list that grows is there twice.
    let mut found = Found::with_room(alloc, items(seeds))?;
    {
        let numbers = numbers(alloc, plan, index)?;
        find(index.kind(), &numbers, seeds, &mut found)?;
    }
    let Found { wants, places } = found;
    let Sorted { starts, order } = sort(alloc, &wants, plan.wants())?;
    drop(wants);
    let items = ordered(alloc, &places, &order)?;
    Ok(SeedIndex { starts, items })
}

impl Found {
    // Nothing, with room for this many places.
    fn with_room(alloc: Global, items: usize) -> Result<Found, AllocError>
        ensures wants { IfOk result (λ f. f.wants.items ≡ []) }
        ensures places { IfOk result (λ f. f.places.items ≡ []) }
    {
        let wants = Vec::with_capacity(alloc, items)?;
        let places = Vec::with_capacity(alloc, items)?;
        Ok(Found { wants, places })
    }
}

impl SeedIndex {
    /// The places in these seeds of the wants of an index, whose plan this is.
    pub fn of(
        alloc: Global,
        plan: &Plan,
        index: &Index,
        seeds: &[Index],
    ) -> Result<SeedIndex, SeedFault>
        requires plan { AreWants index.now plan.now.wants plan.now.want_of }
        requires few { length seeds.now < 2 ^ 32 }
        ensures ok { IfOk result (λ x. IsSeedIndex index.now plan.now seeds.now x) }
        ensures known { IfOk result (λ x. PlacesKnown index.now plan.now x (length seeds.now)) }
        ensures exactly { (result ≡ Err TooManyItems) ↔ (seed_item_limit < items_of seeds.now) }
    {
        if SEED_ITEM_LIMIT < items(seeds) {
            return Err(SeedFault::TooManyItems);
        }
        match place(alloc, plan, index, seeds) {
            Ok(placed) => Ok(placed),
            Err(_) => Err(SeedFault::Memory),
        }
    }

    /// The places of a want's chunk, by seed and then by offset.
    pub fn places(&self, want: usize) -> &[SeedPlace]
        requires { want + 1 < length self.now.starts }
        ensures { result.now ≡ places_at self.now want }
    {
        &self.items[self.starts[want]..self.starts[want + 1]]
    }
}
