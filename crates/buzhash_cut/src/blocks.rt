//! An image shared out among workers while they cut it: the first one comes up from 0, and the others take blocks down
//! from the image's end. Offsets and sizes are in bytes.

ghost use Rattle.std.specs.Prelude.{◌≡◌, ◌<◌, ◌≤◌, IfSome};

use chunk_ends::sizes::CutSizes;
use std::sync::atomic::{AtomicU64, Ordering};

/// The least size of a block, where the image has as much for each worker. It costs little beside a block of this size
/// that each worker goes on past its blocks.
const LEAST: u64 = 4_194_304;

/// How many chunks of the average size a worker goes on past a block. Those that begin at a block's start mostly end
/// where the image's do after two or three. At the usual sizes these are two of the greatest size, so that it is seen
/// where they repeat.
const OVERLAP: u64 = 8;

/// How far an image is shared out. What nobody takes, or takes and doesn't cut, is cut in the end by the first worker.
#[derive(Drop)]
pub(crate) struct Blocks {
    size: u64,
    workers: u64,
    least: u64,
    overlap: u64,
    // How many bytes are taken, counted from the image's end.
    taken: AtomicU64,
    // Up to where the first worker has cut, or is cutting.
    begun: AtomicU64,
    ghost some: { 0 < workers },
}

impl Blocks {
    /// An image of which nothing is taken.
    pub(crate) fn new(size: u64, workers: u64, sizes: &CutSizes) -> Blocks
        requires some { 0 < workers }
        ensures size { result.size ≡ size }
    {
        let least = LEAST.min(size / workers).max(1);
        Blocks {
            size,
            workers,
            least,
            overlap: sizes.avg().saturating_mul(OVERLAP),
            taken: AtomicU64::new(0),
            begun: AtomicU64::new(least.min(size)),
        }
    }

    /// The next block, from its start to its stop, where some bytes are left. It has half of an equal share of them, so
    /// that blocks are the smaller the nearer the end is, and the workers come to it at about the same time.
    pub(crate) fn take(&self) -> Option<(u64, u64)>
        ensures inside { IfSome result (λ b. (b.0 < b.1) × (b.1 ≤ self.now.size)) }
    {
        let begun = self.begun.load(Ordering::SeqCst);
        let open = self.size.saturating_sub(self.taken.load(Ordering::SeqCst));
        let share = open.saturating_sub(begun) / self.workers / 2;
        let block = share.max(self.least);
        let taken = self.taken.fetch_add(block, Ordering::SeqCst);
        let stop = self.size.saturating_sub(taken);
        let start = stop.saturating_sub(block).max(begun);
        if start < stop {
            Some((start, stop))
        } else {
            None
        }
    }

    /// Up to where the first worker, which has come to `at`, cuts next: no further where it has met the others.
    pub(crate) fn reach(&self, at: u64) -> u64
        ensures inside { result ≤ self.now.size }
    {
        let open = self.size.saturating_sub(self.taken.load(Ordering::SeqCst));
        let stop = at.saturating_add(self.least).min(open);
        self.begun.store(stop, Ordering::SeqCst);
        stop
    }

    /// Up to where a worker that has come to `at` goes on past its block, so that its last chunks end where some of the
    /// block above do.
    pub(crate) fn past(&self, at: u64) -> u64
        ensures inside { result ≤ self.now.size }
    {
        at.saturating_add(self.overlap).min(self.size)
    }

    /// Gives no further block, since nothing comes of the image.
    pub(crate) fn close(&self) {
        self.begun.store(self.size, Ordering::SeqCst);
    }
}
