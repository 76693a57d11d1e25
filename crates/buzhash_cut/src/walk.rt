//! The runs of several workers joined to the chunks of the image. Offsets are in bytes.

ghost use Rattle.std.specs.Prelude.{◌≡◌, ℕ, ◌<◌, ◌≤◌, length, All, IfOk, IfErr, IfSome, OnOk};
ghost use Rattle.buzhash_cut.specs.Entries.{AreAll, AreEntries, AreTooMany, IsEntryRun};
ghost use Rattle.buzhash_cut.specs.Runs.{AreRuns, EntriesBy, Slices};
ghost use Rattle.caibx_fields.specs.Limits.{item_limit};
ghost use Rattle.chunk_ends.specs.Sizes.{Sizes};
ghost use Rattle.buzhash_cut.specs.Slicing.{CutsAlike, IsWithin};
ghost use Rattle.caibx_codec.specs.Seen.{pairs};
ghost use Rattle.dsy_base.specs.Bytes.{Held};
ghost use Rattle.dsy_base.specs.Counts.{CountsFaults};

use crate::entries::{add_run, cut_on};
use crate::image::CutFault;
use crate::run::Run;
use crate::slicer::Slicer;
use crate::worker::Worker;
use caibx_codec::index::Entry;
use chunk_ends::sizes::CutSizes;
use chunk_store::id::DigestKind;
use dsy_base::view::View;
use std::alloc::Global;
use std::mem;

// The entries of the chunks from `at` on, where one of these runs has such.
fn run_among(runs: &[Run], at: u64) -> Option<&[Entry]>
    ensures some { IfSome result (λ r. 0 < length r.now) }
    ensures chunks { IfSome result (λ r. (kind : DigestKind) (s : Sizes) (h : Held) → AreRuns kind s h runs.now
        → IsEntryRun kind s h at (pairs r.now)) }
{
    for run in runs {
        let entries = run.from(at);
        if !entries.is_empty() {
            return Some(entries);
        }
    }
    None
}

// The entries of the chunks from `at` on, where some worker cut such.
fn run_from<V: View>(others: &[Worker<V>], at: u64) -> Option<&[Entry]>
    ensures some { IfSome result (λ r. 0 < length r.now) }
    ensures chunks { IfSome result (λ r. (kind : DigestKind) (s : Sizes) (h : Held) →
        All (λ w. AreRuns kind s h w.runs.items) others.now → IsEntryRun kind s h at (pairs r.now)) }
{
    for worker in others {
        if let Some(entries) = run_among(&worker.runs, at) {
            return Some(entries);
        }
    }
    None
}

// The first place after `at` at which a chunk of one of these runs begins, where it is before `next`, or else `next`.
fn place_before(runs: &[Run], at: u64, next: u64) -> u64
    requires more { at < next }
    ensures after { (at < result) × (result ≤ next) }
{
    let mut first = next;
    for run in runs {
        if let Some(place) = run.place_after(at) {
            if at < place && place < first {
                first = place;
            }
        }
    }
    first
}

// The first place after `at` at which a chunk of some worker begins, or else where the image ends.
fn next_place<V: View>(others: &[Worker<V>], at: u64, size: u64) -> u64
    requires more { at < size }
    ensures after { (at < result) × (result ≤ size) }
{
    let mut next = size;
    for worker in others {
        next = place_before(&worker.runs, at, next);
    }
    next
}

// Goes on from a true end: by what a worker cut from there, or by cutting to where some worker's chunk begins.
fn walk_on<V: View>(
    view: &mut V,
    slicer: &mut Slicer,
    others: &[Worker<V>],
    at: u64,
    entries: &mut Vec<Entry>,
) -> Result<u64, CutFault>
    requires within { IsWithin slicer.old (V.held view.old).size }
    requires more { at < (V.held view.old).size }
    requires runs { All (λ w. AreRuns slicer.old.kind slicer.old.cutter.sizes (V.held view.old) w.runs.items)
        others.now }
    requires few { length (pairs entries.old.items) ≤ item_limit }
    requires chunks { EntriesBy slicer.old (V.held view.old) 0 (pairs entries.old.items) at }
    ensures end { IfOk result (λ e. (at < e) × (e ≤ (V.held view.old).size)) }
    ensures chunks { IfOk result (λ e. EntriesBy slicer.old (V.held view.old) 0 (pairs entries.new.items) e) }
    ensures few { OnOk result (length (pairs entries.new.items) ≤ item_limit) }
    ensures many { IfErr result (λ f. f ≡ CutFault.TooManyItems →
        AreTooMany slicer.old.cutter.sizes (V.held view.old)) }
    ensures within { OnOk result (IsWithin slicer.new (V.held view.old).size) }
    ensures way { CutsAlike slicer.old slicer.new }
    ensures kept { V.held view.new ≡ V.held view.old }
    ensures faults { CountsFaults CutFault.ImageFault CutFault.Memory (V.faults view.old) (V.faults view.new) result }
{
    if let Some(run) = run_from(others, at) {
        return add_run(entries, run);
    }
    slicer.restart(at);
    let next = next_place(others, at, view.size());
    cut_on(view, slicer, at, next, entries)
}

// Goes on to the end of the image.
fn walk<V: View>(
    view: &mut V,
    slicer: &mut Slicer,
    others: &[Worker<V>],
    begun: u64,
    entries: &mut Vec<Entry>,
) -> Result<(), CutFault>
    requires within { IsWithin slicer.old (V.held view.old).size }
    requires inside { begun ≤ (V.held view.old).size }
    requires runs { All (λ w. AreRuns slicer.old.kind slicer.old.cutter.sizes (V.held view.old) w.runs.items)
        others.now }
    requires few { length (pairs entries.old.items) ≤ item_limit }
    requires chunks { EntriesBy slicer.old (V.held view.old) 0 (pairs entries.old.items) begun }
    ensures all { OnOk result
        (AreAll slicer.old.kind slicer.old.cutter.sizes (V.held view.old) (pairs entries.new.items)) }
    ensures many { IfErr result (λ f. f ≡ CutFault.TooManyItems →
        AreTooMany slicer.old.cutter.sizes (V.held view.old)) }
    ensures kept { V.held view.new ≡ V.held view.old }
    ensures faults { CountsFaults CutFault.ImageFault CutFault.Memory (V.faults view.old) (V.faults view.new) result }
{
    let size = view.size();
    let mut at = begun;
    while at < size {
        at = match walk_on(view, slicer, others, at, entries) {
            Ok(end) => end,
            Err(fault) => return Err(fault),
        };
    }
    Ok(())
}

/// The entries of the index of the image, of which the first worker has cut the first part and the others blocks.
pub(crate) fn joined<V: View>(
    alloc: Global,
    first: &mut Worker<V>,
    others: &[Worker<V>],
    kind: DigestKind,
    sizes: &CutSizes,
) -> Result<Vec<Entry>, CutFault>
    requires runs { All (λ w. AreRuns kind sizes.now (V.held first.old.view) w.runs.items) others.now }
    requires few { length (pairs first.old.entries.items) ≤ item_limit }
    requires slices { OnOk first.old.end (Slices kind sizes.now (V.held first.old.view).size first.old.slicer) }
    requires end { IfOk first.old.end (λ e. (e ≤ (V.held first.old.view).size)
        × AreEntries kind sizes.now (V.held first.old.view).bytes 0 (pairs first.old.entries.items) e) }
    requires many { IfErr first.old.end (λ f. f ≡ CutFault.TooManyItems
        → AreTooMany sizes.now (V.held first.old.view)) }
    ensures all { IfOk result (λ v. AreAll kind sizes.now (V.held first.old.view) (pairs v.items)) }
    ensures many { IfErr result (λ f. f ≡ CutFault.TooManyItems → AreTooMany sizes.now (V.held first.old.view)) }
    ensures kept { V.held first.new.view ≡ V.held first.old.view }
    // Over cutting the first part and this call.
    ensures faults { (old : ℕ) → CountsFaults CutFault.ImageFault CutFault.Memory
        old (V.faults first.old.view) first.old.end
        → CountsFaults CutFault.ImageFault CutFault.Memory old (V.faults first.new.view) result }
{
    let begun = match first.end {
        Ok(begun) => begun,
        Err(fault) => return Err(fault),
    };
    let Ok(mut slicer) = first.take_slicer(alloc, kind, sizes) else {
        return Err(CutFault::Memory);
    };
    let mut entries = mem::replace(&mut first.entries, Vec::new(alloc));
    match walk(&mut first.view, &mut slicer, others, begun, &mut entries) {
        Ok(()) => {
            entries.shrink_to_fit();
            Ok(entries)
        }
        Err(fault) => Err(fault),
    }
}
