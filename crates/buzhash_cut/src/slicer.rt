//! An image cut from a place on, as a view gives it in pieces, and its chunks named. Offsets are bytes from 0, ends are
//! exclusive.

ghost use Rattle.std.specs.Prelude.{◌≡◌, ℕ, ◌+◌, ◌-◌, ◌^◌, ◌<◌, ◌≤◌, ◌++◌, length, min, slice_range, IfOk};
ghost use Rattle.std.specs.Prelude.{IfSome, OnOk, MatchOption, List, drop, vec_len};
ghost use Rattle.chunk_ends.specs.Cuts.{IsCut};
ghost use Rattle.buzhash_cut.specs.Entries.{IsCutEntry};
ghost use Rattle.buzhash_cut.specs.Slicing.{CutsAlike, HasChunkOf, HasRead, IsWithin, begun_by, piece_size};
ghost use Rattle.caibx_codec.specs.Seen.{pair};
ghost use Rattle.dsy_base.specs.Counts.{CountsRefusals};

use caibx_codec::index::Entry;
use chunk_ends::cutter::Cutter;
use chunk_ends::sizes::CutSizes;
use chunk_store::id::{ChunkId, DigestKind};
use dsy_base::fault::Failed;
use dsy_base::view::View;
use std::alloc::{AllocError, Global};

/// How many bytes of an image are read at once.
const PIECE: usize = 65_536;

/// What is kept of an image that is cut from `start` on. The cutter was given the bytes up to `at`, and those that
/// follow lie in the piece, between two places. The `kept` bytes of the open chunk stand at the front of `chunk`.
#[derive(Drop)]
pub(crate) struct Slicer {
    kind: DigestKind,
    cutter: Cutter,
    start: u64,
    at: u64,
    piece: Vec<u8>,
    from: usize,
    upto: usize,
    chunk: Vec<u8>,
    kept: usize,
}

// Writes the bytes at this place.
fn put(out: &mut [u8], at: usize, bytes: &[u8])
    requires inside { at + length bytes.now ≤ length out.old }
    ensures put { slice_range out.new 0 (at + length bytes.now) ≡ slice_range out.old 0 at ++ bytes.now }
    ensures whole { length out.new ≡ length out.old }
{
    out[at..at + bytes.len()].copy_from_slice(bytes);
}

// Fills the beginning of the piece with the bytes from `at` on, and says how many they are.
fn fill<V: View>(view: &mut V, piece: &mut [u8], at: u64) -> Result<usize, Failed>
    requires more { (at < (V.held view.old).size) × (0 < length piece.old) }
    ensures some { IfOk result (λ n. (0 < n) × (n ≤ length piece.old) × (at + n ≤ (V.held view.old).size)) }
    ensures bytes { IfOk result (λ n. IfSome (V.held view.old).bytes (λ t.
        slice_range piece.new 0 n ≡ slice_range t at (at + n))) }
    ensures kept { V.held view.new ≡ V.held view.old }
    ensures faults { CountsRefusals (V.faults view.old) (V.faults view.new) result }
{
    let n = (view.size() - at).min(piece.len() as u64) as usize;
    view.read_at(at, &mut piece[..n])?;
    Ok(n)
}

impl Slicer {
    /// To cut an image of `size` bytes from `start` on, and to name its chunks by this digest.
    pub(crate) fn new(
        alloc: Global,
        kind: DigestKind,
        sizes: &CutSizes,
        size: u64,
        start: u64,
    ) -> Result<Slicer, AllocError>
        requires inside { start ≤ size }
        ensures way { IfOk result (λ c. (c.kind ≡ kind) × (c.cutter.sizes ≡ sizes.now)) }
        ensures within { IfOk result (λ c. IsWithin c size) }
        ensures begun { IfOk result (λ c. begun_by c ≡ start) }
        ensures read { IfOk result (λ c. (t : List ℕ) → HasRead c t) }
        ensures bytes { IfOk result (λ c. (vec_len c.piece ≡ piece_size)
            × (vec_len c.chunk ≡ min size sizes.now.greatest)) }
    {
        let cutter = Cutter::new(alloc, *sizes)?;
        let piece = vec![in alloc; 0u8; PIECE]?;
        let chunk = vec![in alloc; 0u8; size.min(sizes.max()) as usize]?;
        Ok(Slicer {
            kind,
            cutter,
            start,
            at: start,
            piece,
            from: 0,
            upto: 0,
            chunk,
            kept: 0,
        })
    }

    /// Begins anew, as if a chunk began at `start`.
    pub(crate) fn restart(&mut self, start: u64)
        ensures way { CutsAlike self.old self.new }
        ensures within { (size : ℕ) → IsWithin self.old size → start ≤ size → IsWithin self.new size }
        ensures begun { begun_by self.new ≡ start }
        ensures read { (t : List ℕ) → HasRead self.new t }
    {
        self.cutter.restart();
        self.start = start;
        self.at = start;
        self.from = 0;
        self.upto = 0;
        self.kept = 0;
    }

    // Reads a piece, where all of the last one was given to the cutter.
    fn refill<V: View>(&mut self, view: &mut V) -> Result<(), Failed>
        requires within { IsWithin self.old (V.held view.old).size }
        requires more { self.old.at < (V.held view.old).size }
        ensures within { OnOk result (IsWithin self.new (V.held view.old).size) }
        ensures some { OnOk result (self.new.from < self.new.upto) }
        ensures same { (self.new.cutter ≡ self.old.cutter) × (self.new.start ≡ self.old.start)
            × (self.new.at ≡ self.old.at) × (self.new.kind ≡ self.old.kind) }
        ensures read { OnOk result (IfSome (V.held view.old).bytes (λ t. HasRead self.old t → HasRead self.new t)) }
        ensures kept { V.held view.new ≡ V.held view.old }
        ensures faults { CountsRefusals (V.faults view.old) (V.faults view.new) result }
    {
        if self.from < self.upto {
            return Ok(());
        }
        let n = fill(view, &mut self.piece, self.at)?;
        self.from = 0;
        self.upto = n;
        Ok(())
    }

    // Gives the cutter what follows, up to and with the end of a chunk.
    fn give<V: View>(&mut self, view: &mut V) -> Result<Option<u64>, Failed>
        requires fits { (V.held view.old).size < 2 ^ 64 }
        requires within { IsWithin self.old (V.held view.old).size }
        requires more { self.old.at < (V.held view.old).size }
        ensures within { OnOk result (IsWithin self.new (V.held view.old).size) }
        ensures kind { self.new.kind ≡ self.old.kind }
        ensures same { (self.new.cutter.sizes ≡ self.old.cutter.sizes) × (self.new.start ≡ self.old.start) }
        ensures on { OnOk result (self.old.at < self.new.at) }
        ensures end { IfOk result (λ o. MatchOption o (begun_by self.new ≡ begun_by self.old)
            (λ e. (e ≡ begun_by self.new) × (e ≡ self.new.at) × (begun_by self.old < e)
            × (e ≤ begun_by self.old + self.old.cutter.sizes.greatest))) }
        ensures read { OnOk result (IfSome (V.held view.old).bytes (λ t. HasRead self.old t → HasRead self.new t)) }
        ensures cut { IfOk result (λ o. IfSome o (λ e. IfSome (V.held view.old).bytes (λ t. HasRead self.old t
            → IsCut self.old.cutter.sizes (drop (begun_by self.old) t) (e - begun_by self.old)))) }
        ensures chunk { IfOk result (λ o. IfSome o (λ e. IfSome (V.held view.old).bytes (λ t. HasRead self.old t
            → HasChunkOf self.new t (begun_by self.old) e))) }
        ensures kept { V.held view.new ≡ V.held view.old }
        ensures faults { CountsRefusals (V.faults view.old) (V.faults view.new) result }
    {
        self.refill(view)?;
        let fed = self.cutter.feed(&self.piece[self.from..self.upto]);
        let taken = &self.piece[self.from..self.from + fed.taken];
        put(&mut self.chunk, self.kept, taken);
        self.from += fed.taken;
        self.at += fed.taken as u64;
        self.kept += fed.taken;
        match fed.end {
            Some(end) => {
                self.kept = 0;
                Ok(Some(self.start + end))
            }
            None => Ok(None),
        }
    }

    // Where the next chunk ends.
    fn next_end<V: View>(&mut self, view: &mut V) -> Result<u64, Failed>
        requires within { IsWithin self.old (V.held view.old).size }
        requires more { begun_by self.old < (V.held view.old).size }
        ensures within { OnOk result (IsWithin self.new (V.held view.old).size) }
        ensures way { CutsAlike self.old self.new }
        ensures end { IfOk result (λ e. (begun_by self.old < e) × (e ≤ (V.held view.old).size)
            × (e ≤ begun_by self.old + self.old.cutter.sizes.greatest)) }
        ensures on { IfOk result (λ e. e < (V.held view.old).size → begun_by self.new ≡ e) }
        ensures read { OnOk result (IfSome (V.held view.old).bytes (λ t. HasRead self.old t → HasRead self.new t)) }
        ensures cut { IfOk result (λ e. IfSome (V.held view.old).bytes (λ t. HasRead self.old t
            → IsCut self.old.cutter.sizes (drop (begun_by self.old) t) (e - begun_by self.old))) }
        ensures chunk { IfOk result (λ e. IfSome (V.held view.old).bytes (λ t. HasRead self.old t
            → HasChunkOf self.new t (begun_by self.old) e)) }
        ensures kept { V.held view.new ≡ V.held view.old }
        ensures faults { CountsRefusals (V.faults view.old) (V.faults view.new) result }
    {
        let size = view.size();
        while self.at < size {
            if let Some(end) = self.give(view)? {
                return Ok(end);
            }
        }
        let Some(end) = self.cutter.finish() else {
            unreachable!();
        };
        Ok(self.start + end)
    }

    /// The next chunk, which begins there.
    pub(crate) fn next<V: View>(&mut self, view: &mut V, begun: u64) -> Result<Entry, Failed>
        requires begun { begun_by self.old ≡ begun }
        requires within { IsWithin self.old (V.held view.old).size }
        requires more { begun < (V.held view.old).size }
        ensures within { OnOk result (IsWithin self.new (V.held view.old).size) }
        ensures way { CutsAlike self.old self.new }
        ensures end { IfOk result (λ e. (begun < e.end) × (e.end ≤ (V.held view.old).size)
            × (e.end ≤ begun + self.old.cutter.sizes.greatest)) }
        ensures on { IfOk result (λ e. e.end < (V.held view.old).size → begun_by self.new ≡ e.end) }
        ensures read { OnOk result (IfSome (V.held view.old).bytes (λ t. HasRead self.old t → HasRead self.new t)) }
        ensures chunk { IfOk result (λ e. IfSome (V.held view.old).bytes (λ t. HasRead self.old t
            → IsCutEntry self.old.kind self.old.cutter.sizes t begun (pair e))) }
        ensures kept { V.held view.new ≡ V.held view.old }
        ensures faults { CountsRefusals (V.faults view.old) (V.faults view.new) result }
    {
        let end = self.next_end(view)?;
        let id = ChunkId::of(self.kind, &self.chunk[..(end - begun) as usize]);
        Ok(Entry { end, id })
    }
}
