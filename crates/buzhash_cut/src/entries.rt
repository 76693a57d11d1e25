//! The entries of an index, as an image is cut.

ghost use Rattle.std.specs.Prelude.{◌≡◌, ◌≢◌, ℕ, ◌+◌, ◌<◌, ◌≤◌, [], ◌∷◌, ◌++◌, length, IfOk, IfErr, IfSome, OnOk};
ghost use Rattle.std.specs.Prelude.{OnErr};
ghost use Rattle.buzhash_cut.specs.Entries.{AreLinked, AreTooMany, IsEntryRun, IsStep};
ghost use Rattle.buzhash_cut.specs.Runs.{EntriesBy};
ghost use Rattle.buzhash_cut.specs.Slicing.{CutsAlike, HasRead, IsWithin, begun_by};
ghost use Rattle.caibx_codec.specs.Seen.{pair, pairs};
ghost use Rattle.caibx_fields.specs.Limits.{item_limit};
ghost use Rattle.dsy_base.specs.Counts.{CountsFaults};

use crate::image::CutFault;
use crate::slicer::Slicer;
use caibx_codec::index::Entry;
use caibx_fields::format::ITEM_LIMIT;
use dsy_base::view::View;

// Adds an entry, where there may be one more.
fn add_entry(entries: &mut Vec<Entry>, entry: Entry) -> Result<(), CutFault>
    ensures added { OnOk result (pairs entries.new.items ≡ pairs entries.old.items ++ pair entry ∷ []) }
    ensures kept { OnErr result (pairs entries.new.items ≡ pairs entries.old.items) }
    ensures few { OnOk result (length (pairs entries.new.items) ≤ item_limit) }
    ensures many { IfErr result (λ f. f ≡ CutFault.TooManyItems → item_limit ≤ length (pairs entries.old.items)) }
    ensures read { IfErr result (λ f. f ≢ CutFault.ImageFault) }
{
    if ITEM_LIMIT <= entries.len() {
        return Err(CutFault::TooManyItems);
    }
    if entries.push(entry).is_err() {
        return Err(CutFault::Memory);
    }
    Ok(())
}

/// Adds the entries of a run, where an index may list as many more. Answers where the last one ends.
pub(crate) fn add_run(entries: &mut Vec<Entry>, run: &[Entry]) -> Result<u64, CutFault>
    requires some { 0 < length run.now }
    requires few { length (pairs entries.old.items) ≤ item_limit }
    ensures added { OnOk result (pairs entries.new.items ≡ pairs entries.old.items ++ pairs run.now) }
    ensures end { IfOk result (λ e. (greatest start end : ℕ) → AreLinked (IsStep greatest) start (pairs run.now) end
        → e ≡ end) }
    ensures few { OnOk result (length (pairs entries.new.items) ≤ item_limit) }
    ensures many { IfErr result (λ f. f ≡ CutFault.TooManyItems →
        item_limit < length (pairs entries.old.items) + length (pairs run.now)) }
    ensures read { IfErr result (λ f. f ≢ CutFault.ImageFault) }
{
    if ITEM_LIMIT - entries.len() < run.len() {
        return Err(CutFault::TooManyItems);
    }
    if entries.extend_from_slice(run).is_err() {
        return Err(CutFault::Memory);
    }
    Ok(run[run.len() - 1].end)
}

/// Cuts from `begun` on, until a chunk ends at `stop` or after it, and adds the chunks' entries. Answers where the last
/// one ends. After a refusal the entries are those of the chunks before.
pub(crate) fn cut_on<V: View>(
    view: &mut V,
    slicer: &mut Slicer,
    begun: u64,
    stop: u64,
    entries: &mut Vec<Entry>,
) -> Result<u64, CutFault>
    requires within { IsWithin slicer.old (V.held view.old).size }
    requires begun { (begun_by slicer.old ≡ begun) × (begun ≤ (V.held view.old).size) }
    requires read { IfSome (V.held view.old).bytes (HasRead slicer.old) }
    requires stop { stop ≤ (V.held view.old).size }
    requires few { length (pairs entries.old.items) ≤ item_limit }
    ensures end { IfOk result (λ e. (begun ≤ e) × (stop ≤ e) × (e ≤ (V.held view.old).size)) }
    ensures chunks { IfOk result (λ e. (base : ℕ) →
        EntriesBy slicer.old (V.held view.old) base (pairs entries.old.items) begun →
        EntriesBy slicer.old (V.held view.old) base (pairs entries.new.items) e) }
    ensures before { OnErr result ((base : ℕ) →
        EntriesBy slicer.old (V.held view.old) base (pairs entries.old.items) begun
        → IsEntryRun slicer.old.kind slicer.old.cutter.sizes (V.held view.old) base (pairs entries.new.items)) }
    ensures few { length (pairs entries.new.items) ≤ item_limit }
    ensures many { IfErr result (λ f. f ≡ CutFault.TooManyItems →
        EntriesBy slicer.old (V.held view.old) 0 (pairs entries.old.items) begun
        → AreTooMany slicer.old.cutter.sizes (V.held view.old)) }
    ensures within { OnOk result (IsWithin slicer.new (V.held view.old).size) }
    ensures on { IfOk result (λ e. e < (V.held view.old).size → begun_by slicer.new ≡ e) }
    ensures read { OnOk result (IfSome (V.held view.old).bytes (HasRead slicer.new)) }
    ensures way { CutsAlike slicer.old slicer.new }
    ensures kept { V.held view.new ≡ V.held view.old }
    ensures faults { CountsFaults CutFault.ImageFault CutFault.Memory (V.faults view.old) (V.faults view.new) result }
{
    let mut at = begun;
    while at < stop {
        let Ok(entry) = slicer.next(view, at) else {
            return Err(CutFault::ImageFault);
        };
        if let Err(fault) = add_entry(entries, entry) {
            return Err(fault);
        }
        at = entry.end;
    }
    Ok(at)
}
