//! Entries of an index grouped by id and size. Entries and wants count from 0.

ghost use Rattle.std.specs.Prelude.{◌≡◌, ◌<◌, ◌-◌, Some, true, false, length, slice_index_or, IfOk};
ghost use Rattle.std.specs.List.Sorted.{IsSorted};
ghost use Rattle.extract_plan.specs.Deal.{AreWants};
ghost use Rattle.extract_plan.specs.Keys.{AreFirsts, AreKeyed, keyed_cmp, number_with};

use crate::keyed::Keyed;
use caibx_codec::index::Index;
use std::alloc::{AllocError, Global};

/// How many wants an index has, and for each entry the number of its want.
#[derive(Debug, Drop)]
pub(crate) struct Wants {
    pub(crate) count: usize,
    pub(crate) want_of: Vec<u32>,
}

// All entries by their keys, each with its own number: alike ones stand in rising order.
fn sorted_entries(alloc: Global, index: &Index) -> Result<Vec<Keyed>, AllocError>
    ensures { IfOk result (λ v. AreKeyed index.now (λ i. i) v.items) }
{
    index.rules();
    let mut entries = Vec::with_capacity(alloc, index.count())?;
    for i in 0..index.count() {
        entries.push(Keyed::of(index, i, i as u32))?;
    }
    entries.sort_unstable();
    Ok(entries)
}

// Whether none before that at place k has its key.
fn begins(entries: &[Keyed], k: usize) -> bool
    requires sorted { IsSorted keyed_cmp entries.now }
    requires inside { k < length entries.now }
    ensures first { result ≡ true → (d : Keyed) → number_with entries.now (slice_index_or entries.now k d)
        ≡ Some (slice_index_or entries.now k d).number }
    ensures again { result ≡ false → (0 < k) × ((d : Keyed) →
        (slice_index_or entries.now k d).key ≡ (slice_index_or entries.now (k - 1) d).key) }
{
    k == 0 || entries[k].key != entries[k - 1].key
}

// For each entry the first that is alike.
fn firsts(alloc: Global, index: &Index) -> Result<Vec<u32>, AllocError>
    ensures { IfOk result (λ v. AreFirsts index.now v.items) }
{
    let entries = sorted_entries(alloc, index)?;
    let mut firsts = vec![in alloc; 0u32; index.count()]?;
    for k in 0..entries.len() {
        let entry = entries[k].number;
        let first = if begins(&entries, k) {
            entry
        } else {
            firsts[entries[k - 1].number as usize]
        };
        firsts[entry as usize] = first;
    }
    Ok(firsts)
}

/// The wants of an index.
pub(crate) fn group(alloc: Global, index: &Index) -> Result<Wants, AllocError>
    ensures { IfOk result (λ g. AreWants index.now g.count g.want_of.items) }
{
    index.rules();
    let firsts = firsts(alloc, index)?;
    let mut want_of = Vec::with_capacity(alloc, index.count())?;
    let mut count = 0u32;
    for i in 0..index.count() {
        let first = firsts[i] as usize;
        let want = if first < i { want_of[first] } else { count };
        want_of.push(want)?;
        if first == i {
            count += 1;
        }
    }
    let count = count as usize;
    Ok(Wants { count, want_of })
}
