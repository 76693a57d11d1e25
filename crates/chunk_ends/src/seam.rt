//! Where a chunk ends in a piece of an image, when its beginning was in the pieces before.

ghost use Rattle.std.specs.Prelude.{◌≡◌, ℕ, ◌+◌, ◌-◌, ◌<◌, ◌≤◌, List, ◌++◌, length, take, min, MatchOption};
ghost use Rattle.chunk_ends.specs.Cuts.{window_of};
ghost use Rattle.chunk_ends.specs.Feeding.{EndIn};
ghost use Rattle.chunk_ends.specs.Sizes.{discriminator_of};

use crate::closing::Closing;
use crate::rolling::first_closing;
use crate::sizes::CutSizes;
use circular_buffer::HeapCircularBuffer;

// Writes the bytes at this place.
fn put(out: &mut [u8], at: usize, bytes: &[u8])
    requires inside { at + length bytes.now ≤ length out.old }
    ensures put { take (at + length bytes.now) out.new ≡ take at out.old ++ bytes.now }
    ensures whole { length out.new ≡ length out.old }
{
    out[at..at + bytes.len()].copy_from_slice(bytes);
}

/// Writes the kept bytes and the first 48 of the piece side by side, and says how many they are.
pub(crate) fn put_seam(out: &mut [u8; 96], last: &HeapCircularBuffer<u8>, piece: &[u8]) -> usize
    requires few { length last.now.items ≤ 48 }
    ensures put { take result out.new ≡ last.now.items ++ take 48 piece.now }
    ensures whole { result ≡ length last.now.items + min 48 (length piece.now) }
{
    let (front, back) = last.as_slices();
    let kept = front.len() + back.len();
    let more = &piece[..piece.len().min(48)];
    put(out, 0, front);
    put(out, front.len(), back);
    put(out, kept, more);
    kept + more.len()
}

/// Where the chunk ends in the piece. `size` of its bytes came before the piece, and `seam` has the last 48 of them
/// and the first 48 of the piece, or as many as there are.
pub(crate) fn end_in(
    sizes: &CutSizes,
    closing: &Closing,
    size: u64,
    seam: &[u8],
    piece: &[u8],
) -> Option<usize>
    requires test { closing.now ≡ discriminator_of sizes.now.average }
    requires unended { size < sizes.now.greatest }
    requires seam { length seam.now ≡ min 48 size + min 48 (length piece.now) }
    ensures room { MatchOption result (size + length piece.now < sizes.now.greatest)
        (λ n. (1 ≤ n) × (n ≤ length piece.now) × (size + n ≤ sizes.now.greatest)) }
    ensures end { (chunk : List ℕ) → size ≡ length chunk → seam.now ≡ window_of chunk ++ take 48 piece.now
        → EndIn sizes.now chunk piece.now result }
{
    sizes.rules();
    let kept = size.min(48) as usize;
    let room = sizes.max() - size;
    let to = room.min(piece.len() as u64) as usize;
    let from = sizes.min().saturating_sub(size).max(1) as usize;
    if let Some(n) = first_closing(closing, seam, kept + from, kept + to.min(47)) {
        return Some(n - kept);
    }
    if let Some(n) = first_closing(closing, piece, from.max(48), to) {
        return Some(n);
    }
    if to as u64 == room { Some(to) } else { None }
}
