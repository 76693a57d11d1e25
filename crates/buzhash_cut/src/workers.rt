//! The workers that cut an image, beside one another.

ghost use Rattle.std.specs.Prelude.{◌≡◌, ℕ, ◌+◌, ◌-◌, ◌<◌, ◌≤◌, [], false, is_some, length, map, min, reverse, true};
ghost use Rattle.std.specs.Prelude.{vec_capacity, vec_len, slice_index_or, All, IfOk, IfErr, IfSome};
ghost use Rattle.buzhash_cut.specs.Entries.{AreAll, AreTooMany};
ghost use Rattle.buzhash_cut.specs.Image.{AreOfOneImage, CountsViews};
ghost use Rattle.buzhash_cut.specs.Runs.{HasCut, HasCutFirst, IsReady, Slices};
ghost use Rattle.caibx_codec.specs.Seen.{pairs};

use crate::blocks::Blocks;
use crate::image::CutFault;
use crate::slicer::Slicer;
use crate::walk::joined;
use crate::worker::Worker;
use caibx_codec::index::Entry;
use chunk_ends::sizes::CutSizes;
use chunk_store::id::DigestKind;
use dsy_base::view::View;
use std::alloc::Global;
use std::thread;
use std::thread::Threads;

/// How many bytes storing takes beside its buffers, whatever the image is.
const STORING: u64 = 262_144;

/// How many bytes it takes for each chunk: in the index file, and in the set of the ids that are stored.
const STORED: u64 = 128;

// How many chunks an image of `size` bytes rarely has more than: a quarter, and 64, above what the average gives.
fn likely_count(sizes: &CutSizes, size: u64) -> u64 {
    let even = size / sizes.avg().max(1);
    even.saturating_add(even / 4).saturating_add(64)
}

// Memory that the workers leave free for storing the image: two buffers of the largest chunk, and what else storing
// takes. None where there isn't as much.
fn spare_memory(alloc: Global, sizes: &CutSizes, size: u64) -> Option<Vec<u8>>
    ensures buffers { IfSome result (λ v. min size sizes.now.greatest + min size sizes.now.greatest ≤ vec_capacity v) }
{
    sizes.rules();
    let chunk = size.min(sizes.max());
    let stored = likely_count(sizes, size).saturating_mul(STORED);
    let bytes = (chunk + chunk)
        .saturating_add(STORING)
        .saturating_add(stored);
    Vec::with_capacity(alloc, bytes as usize).ok()
}

// How many threads cut: as many as there are workers, or one where no memory is spared.
fn thread_count(workers: usize, spare: &Option<Vec<u8>>) -> usize
    requires some { 0 < workers }
    ensures some { 0 < result }
    ensures all { is_some spare.now ≡ true → result ≡ workers }
    ensures one { is_some spare.now ≡ false → result ≡ 1 }
{
    if spare.is_some() { workers } else { 1 }
}

// The slicer of the first worker, if there is room for it; another worker gets none yet.
fn slicer_ahead(
    alloc: Global,
    kind: DigestKind,
    sizes: &CutSizes,
    size: u64,
    is_first: bool,
) -> Option<Slicer>
    ensures { Slices kind sizes.now size result }
{
    if !is_first {
        return None;
    }
    Slicer::new(alloc, kind, sizes, size, 0).ok()
}

// The list of entries of the first worker, with room for those of the image, if there is as much; another worker's has
// none yet.
fn entries_ahead(alloc: Global, sizes: &CutSizes, size: u64, is_first: bool) -> Vec<Entry>
    ensures { result.items ≡ [] }
{
    if !is_first {
        return Vec::new(alloc);
    }
    match Vec::with_capacity(alloc, likely_count(sizes, size) as usize) {
        Ok(entries) => entries,
        Err(_) => Vec::new(alloc),
    }
}

/// Gives each view to a worker. The first one comes last.
pub(crate) fn hire<V: View>(
    alloc: Global,
    kind: DigestKind,
    sizes: &CutSizes,
    views: &mut Vec<V>,
    workers: &mut Vec<Worker<V>>,
)
    requires none { workers.old.items ≡ [] }
    requires room { vec_len views.old ≤ vec_capacity workers.old }
    ensures views { views.old.items ≡ reverse (map (λ w. w.view) workers.new.items) }
    ensures ready { All (IsReady V.held kind sizes.now) workers.new.items }
    ensures none { views.new.items ≡ [] }
    ensures room { vec_len workers.new ≤ vec_capacity views.new }
{
    while let Some(view) = views.pop() {
        let is_first = views.is_empty();
        let slicer = slicer_ahead(alloc, kind, sizes, view.size(), is_first);
        let entries = entries_ahead(alloc, sizes, view.size(), is_first);
        let Ok(()) = workers.push(Worker::new(alloc, view, slicer, entries)) else {
            unreachable!();
        };
    }
}

/// Takes the views back, in their order.
pub(crate) fn dismiss<V: View>(workers: &mut Vec<Worker<V>>, views: &mut Vec<V>)
    requires none { views.old.items ≡ [] }
    requires room { vec_len workers.old ≤ vec_capacity views.old }
    ensures views { views.new.items ≡ reverse (map (λ w. w.view) workers.old.items) }
{
    while let Some(worker) = workers.pop() {
        let Ok(()) = views.push(worker.view) else {
            unreachable!();
        };
    }
}

// The workers cut the image, one beside the other; in this thread alone where there is no spare memory.
fn cut_all<R: Threads + Sync, V: View + Send>(
    rt: &R,
    alloc: Global,
    workers: &mut [Worker<V>],
    kind: DigestKind,
    sizes: &CutSizes,
)
    requires some { 0 < length workers.old }
    requires alike { AreOfOneImage (map (λ w. V.held w.view) workers.old) }
    requires none { All (IsReady V.held kind sizes.now) workers.old }
    ensures cut { (k : ℕ) (d : Worker V) → k < length workers.old →
        HasCut V.held V.faults kind sizes.now (slice_index_or workers.old k d) (slice_index_or workers.new k d) }
    ensures first { (d : Worker V) → HasCutFirst V.held V.faults kind sizes.now
        (slice_index_or workers.old (length workers.old - 1) d)
        (slice_index_or workers.new (length workers.old - 1) d) }
    ensures kept { map (λ w. V.held w.view) workers.new ≡ map (λ w. V.held w.view) workers.old }
{
    let count = workers.len();
    let last = count - 1;
    let size = workers[last].view.size();
    let blocks = Blocks::new(size, count as u64, sizes);
    let shared = &blocks;
    let spare = spare_memory(alloc, sizes, size);
    let threads = thread_count(count, &spare);
    thread::for_each_mut(
        rt,
        workers,
        threads,
        &|number, worker: &mut Worker<V>|
            requires alike { shared.now.size ≡ (V.held worker.old.view).size }
            requires none { IsReady V.held kind sizes.now worker.old }
            ensures cut { HasCut V.held V.faults kind sizes.entry.now worker.old worker.new }
            ensures first { number ≡ last → HasCutFirst V.held V.faults kind sizes.entry.now worker.old worker.new }
        {
            if number == last {
                worker.cut_first(alloc, kind, sizes, shared);
            } else {
                worker.cut_blocks(alloc, kind, sizes, shared);
            }
        },
    );
}

/// The entries of the index of the image that the workers cut.
pub(crate) fn entries_by<R: Threads + Sync, V: View + Send>(
    rt: &R,
    alloc: Global,
    workers: &mut Vec<Worker<V>>,
    kind: DigestKind,
    sizes: &CutSizes,
) -> Result<Vec<Entry>, CutFault>
    requires some { 0 < vec_len workers.old }
    requires alike { AreOfOneImage (map (λ w. V.held w.view) workers.old.items) }
    requires none { All (IsReady V.held kind sizes.now) workers.old.items }
    ensures all { IfOk result (λ v. All (λ h. AreAll kind sizes.now h (pairs v.items))
        (map (λ w. V.held w.view) workers.old.items)) }
    ensures many { IfErr result (λ f. f ≡ CutFault.TooManyItems →
        All (AreTooMany sizes.now) (map (λ w. V.held w.view) workers.old.items)) }
    ensures kept { map (λ w. V.held w.view) workers.new.items ≡ map (λ w. V.held w.view) workers.old.items }
    ensures len { vec_len workers.new ≡ vec_len workers.old }
    ensures faults { CountsViews CutFault.ImageFault CutFault.Memory
        (reverse (map (λ w. V.faults w.view) workers.old.items))
        (reverse (map (λ w. V.faults w.view) workers.new.items)) result }
{
    cut_all(rt, alloc, workers, kind, sizes);
    let Some(mut first) = workers.pop() else {
        unreachable!();
    };
    let made = joined(alloc, &mut first, workers, kind, sizes);
    let Ok(()) = workers.push(first) else {
        unreachable!();
    };
    made
}
