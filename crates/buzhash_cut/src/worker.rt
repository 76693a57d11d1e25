//! A worker that cuts an image beside others. Offsets are in bytes.

ghost use Rattle.std.specs.Prelude.{◌≡◌, ◌<◌, ◌≤◌, [], length, IfOk, IfErr, IfSome, OnOk};
ghost use Rattle.buzhash_cut.specs.Entries.{AreTooMany, IsEntryRun};
ghost use Rattle.buzhash_cut.specs.Runs.{AreRuns, EntriesBy, HasCut, HasCutFirst, IsReady, Slices};
ghost use Rattle.buzhash_cut.specs.Slicing.{CutsAlike, HasRead, IsWithin, begun_by};
ghost use Rattle.caibx_codec.specs.Seen.{pairs};
ghost use Rattle.caibx_fields.specs.Limits.{item_limit};
ghost use Rattle.chunk_ends.specs.Sizes.{Sizes};
ghost use Rattle.dsy_base.specs.Counts.{CountsFaults};

use crate::blocks::Blocks;
use crate::entries::cut_on;
use crate::image::CutFault;
use crate::run::Run;
use crate::slicer::Slicer;
use caibx_codec::index::Entry;
use chunk_ends::sizes::CutSizes;
use chunk_store::id::DigestKind;
use dsy_base::view::View;
use std::alloc::{AllocError, Global};

/// A view of the image, and what is cut with it: by the first worker the chunks from 0 on, of which the last one ends
/// at `end`, and by each other one a run for each of its blocks. The first one has its slicer from the beginning, since
/// the stacks of threads may leave no room for it; the others take theirs when they begin.
#[derive(Drop)]
pub(crate) struct Worker<V: View> {
    pub view: V,
    pub slicer: Option<Slicer>,
    pub entries: Vec<Entry>,
    pub end: Result<u64, CutFault>,
    pub runs: Vec<Run>,
}

// Whether the last chunks are alike, as in a long run of zeros, and cutting began before them, or else at 0. Who begins
// among them mostly cuts all of them elsewhere.
fn repeats(start: u64, entries: &[Entry]) -> bool {
    match entries {
        [.., before, last] if before.id == last.id => start == 0 || entries[0].id != last.id,
        _ => false,
    }
}

// Goes on from `begun`, past what was cut from `start` on, and further as long as chunks repeat. Answers where the last
// chunk ends. After a refusal the entries are those of the chunks before.
fn cut_past<V: View>(
    view: &mut V,
    slicer: &mut Slicer,
    blocks: &Blocks,
    start: u64,
    begun: u64,
    entries: &mut Vec<Entry>,
) -> Result<u64, CutFault>
    requires alike { blocks.now.size ≡ (V.held view.old).size }
    requires within { IsWithin slicer.old (V.held view.old).size }
    requires begun { begun < (V.held view.old).size → begun_by slicer.old ≡ begun }
    requires inside { begun ≤ (V.held view.old).size }
    requires read { IfSome (V.held view.old).bytes (HasRead slicer.old) }
    requires few { length (pairs entries.old.items) ≤ item_limit }
    requires chunks { EntriesBy slicer.old (V.held view.old) start (pairs entries.old.items) begun }
    ensures end { IfOk result (λ e. (e ≤ (V.held view.old).size)
        × EntriesBy slicer.old (V.held view.old) start (pairs entries.new.items) e) }
    ensures run { IsEntryRun slicer.old.kind slicer.old.cutter.sizes (V.held view.old) start (pairs entries.new.items) }
    ensures few { length (pairs entries.new.items) ≤ item_limit }
    ensures many { IfErr result (λ f. f ≡ CutFault.TooManyItems → start ≡ 0
        → AreTooMany slicer.old.cutter.sizes (V.held view.old)) }
    ensures within { OnOk result (IsWithin slicer.new (V.held view.old).size) }
    ensures way { CutsAlike slicer.old slicer.new }
    ensures kept { V.held view.new ≡ V.held view.old }
    ensures faults { CountsFaults CutFault.ImageFault CutFault.Memory (V.faults view.old) (V.faults view.new) result }
{
    let mut at = begun;
    let mut stop = blocks.past(at);
    while at < stop {
        at = cut_on(view, slicer, at, stop, entries)?;
        if repeats(start, entries) {
            stop = blocks.past(at);
        }
    }
    Ok(at)
}

// Cuts a block and past it as a run, as far as the view gives its bytes.
fn cut_run<V: View>(
    view: &mut V,
    slicer: &mut Slicer,
    blocks: &Blocks,
    stop: u64,
    run: &mut Run,
) -> Result<(), CutFault>
    requires alike { blocks.now.size ≡ (V.held view.old).size }
    requires within { IsWithin slicer.old (V.held view.old).size }
    requires inside { (run.old.start ≤ (V.held view.old).size) × (stop ≤ (V.held view.old).size) }
    requires none { run.old.entries.items ≡ [] }
    ensures start { run.new.start ≡ run.old.start }
    ensures run { IsEntryRun slicer.old.kind slicer.old.cutter.sizes (V.held view.old) run.old.start
        (pairs run.new.entries.items) }
    ensures within { OnOk result (IsWithin slicer.new (V.held view.old).size) }
    ensures way { CutsAlike slicer.old slicer.new }
    ensures kept { V.held view.new ≡ V.held view.old }
    ensures faults { V.faults view.old ≤ V.faults view.new }
{
    slicer.restart(run.start);
    let end = cut_on(view, slicer, run.start, stop, &mut run.entries)?;
    cut_past(view, slicer, blocks, run.start, end, &mut run.entries)?;
    Ok(())
}

// Cuts from 0 up, a step at a time, until the first worker has met the others, and past that. Answers where the last
// chunk ends.
fn cut_steps<V: View>(
    view: &mut V,
    slicer: &mut Slicer,
    blocks: &Blocks,
    entries: &mut Vec<Entry>,
) -> Result<u64, CutFault>
    requires alike { blocks.now.size ≡ (V.held view.old).size }
    requires within { IsWithin slicer.old (V.held view.old).size }
    requires none { pairs entries.old.items ≡ [] }
    ensures end { IfOk result (λ e. (e ≤ (V.held view.old).size)
        × EntriesBy slicer.old (V.held view.old) 0 (pairs entries.new.items) e) }
    ensures few { length (pairs entries.new.items) ≤ item_limit }
    ensures many { IfErr result (λ f. f ≡ CutFault.TooManyItems
        → AreTooMany slicer.old.cutter.sizes (V.held view.old)) }
    ensures within { OnOk result (IsWithin slicer.new (V.held view.old).size) }
    ensures way { CutsAlike slicer.old slicer.new }
    ensures kept { V.held view.new ≡ V.held view.old }
    ensures faults { CountsFaults CutFault.ImageFault CutFault.Memory (V.faults view.old) (V.faults view.new) result }
{
    slicer.restart(0);
    let mut at = 0;
    let mut stop = blocks.reach(at);
    while at < stop {
        at = cut_on(view, slicer, at, stop, entries)?;
        stop = blocks.reach(at);
    }
    cut_past(view, slicer, blocks, 0, at, entries)
}

impl<V: View> Worker<V> {
    /// A worker that has cut nothing, and has this slicer, and this list for its entries.
    pub(crate) fn new(
        alloc: Global,
        view: V,
        slicer: Option<Slicer>,
        entries: Vec<Entry>,
    ) -> Worker<V>
        requires none { entries.items ≡ [] }
        ensures view { result.view ≡ view }
        ensures none { (kind : DigestKind) (s : Sizes) → Slices kind s (V.held view).size slicer
            → IsReady V.held kind s result }
    {
        Worker {
            view,
            slicer,
            entries,
            end: Ok(0),
            runs: Vec::new(alloc),
        }
    }

    /// The slicer that it has, or else a new one.
    pub(crate) fn take_slicer(
        &mut self,
        alloc: Global,
        kind: DigestKind,
        sizes: &CutSizes,
    ) -> Result<Slicer, AllocError>
        requires slices { Slices kind sizes.now (V.held self.old.view).size self.old.slicer }
        ensures ok { IfOk result (λ c. (c.kind ≡ kind) × (c.cutter.sizes ≡ sizes.now)
            × IsWithin c (V.held self.old.view).size) }
        ensures kept { (self.new.view ≡ self.old.view) × (self.new.entries ≡ self.old.entries)
            × (self.new.end ≡ self.old.end) × (self.new.runs ≡ self.old.runs) }
    {
        match self.slicer.take() {
            Some(slicer) => Ok(slicer),
            None => Slicer::new(alloc, kind, sizes, self.view.size(), 0),
        }
    }

    /// Cuts as the first worker does, and keeps its slicer.
    pub(crate) fn cut_first(
        &mut self,
        alloc: Global,
        kind: DigestKind,
        sizes: &CutSizes,
        blocks: &Blocks,
    )
        requires alike { blocks.now.size ≡ (V.held self.old.view).size }
        requires none { IsReady V.held kind sizes.now self.old }
        ensures cut { HasCut V.held V.faults kind sizes.now self.old self.new }
        ensures first { HasCutFirst V.held V.faults kind sizes.now self.old self.new }
    {
        let Ok(mut slicer) = self.take_slicer(alloc, kind, sizes) else {
            self.end = Err(CutFault::Memory);
            blocks.close();
            return;
        };
        self.end = cut_steps(&mut self.view, &mut slicer, blocks, &mut self.entries);
        self.slicer = Some(slicer);
        if self.end.is_err() {
            blocks.close();
        }
    }

    // Cuts a block, and keeps its run whatever came of it.
    fn cut_block(
        &mut self,
        alloc: Global,
        slicer: &mut Slicer,
        blocks: &Blocks,
        start: u64,
        stop: u64,
    ) -> Result<(), CutFault>
        requires alike { blocks.now.size ≡ (V.held self.old.view).size }
        requires within { IsWithin slicer.old (V.held self.old.view).size }
        requires inside { (start ≤ (V.held self.old.view).size) × (stop ≤ (V.held self.old.view).size) }
        requires runs { AreRuns slicer.old.kind slicer.old.cutter.sizes (V.held self.old.view) self.old.runs.items }
        ensures runs { AreRuns slicer.old.kind slicer.old.cutter.sizes (V.held self.old.view) self.new.runs.items }
        ensures within { OnOk result (IsWithin slicer.new (V.held self.old.view).size) }
        ensures way { CutsAlike slicer.old slicer.new }
        ensures kept { V.held self.new.view ≡ V.held self.old.view }
        ensures faults { V.faults self.old.view ≤ V.faults self.new.view }
    {
        let mut run = Run::new(alloc, start);
        let cut = cut_run(&mut self.view, slicer, blocks, stop, &mut run);
        if self.runs.push(run).is_err() {
            return Err(CutFault::Memory);
        }
        cut
    }

    /// Cuts blocks as long as there are any, each to its end and past it.
    pub(crate) fn cut_blocks(
        &mut self,
        alloc: Global,
        kind: DigestKind,
        sizes: &CutSizes,
        blocks: &Blocks,
    )
        requires alike { blocks.now.size ≡ (V.held self.old.view).size }
        requires none { IsReady V.held kind sizes.now self.old }
        ensures cut { HasCut V.held V.faults kind sizes.now self.old self.new }
    {
        let Ok(mut slicer) = self.take_slicer(alloc, kind, sizes) else {
            return;
        };
        // There are no more blocks than bytes.
        for _ in 0..self.view.size() {
            let Some((start, stop)) = blocks.take() else {
                return;
            };
            if self
                .cut_block(alloc, &mut slicer, blocks, start, stop)
                .is_err()
            {
                return;
            }
        }
    }
}
