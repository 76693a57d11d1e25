//! Images in memory, and sizes by which they are cut. Offsets and sizes are in bytes.

ghost use Rattle.std.specs.Prelude.{◌≡◌, vec_len, All};

use crate::compare::ok;
use chunk_ends::sizes::CutSizes;
use dsy_base::fault::Failed;
use dsy_base::view::View;
use std::alloc::Global;
use std::process::Abort;
use std::sync::Arc;
use std::sync::atomic::{AtomicU64, Ordering};
use std::thread;

// How many turns a view waits for the other one.
const TURNS: u64 = 10_000_000;

/// Where 3000 mixed bytes are cut by the sizes 64, 128 and 512, from `cut_points` of tests/formats.py.
pub const ENDS: [u64; 22] = [
    109, 220, 360, 483, 602, 724, 1236, 1399, 1631, 1715, 1850, 1946, 2031, 2154, 2243, 2392, 2496,
    2652, 2775, 2872, 2945, 3000,
];

/// These sizes, which are in order.
pub fn sizes_of(rt: &impl Abort, min: u64, avg: u64, max: u64) -> CutSizes {
    ok(rt, CutSizes::new(min, avg, max))
}

/// Bytes without a pattern, from a linear congruence.
pub fn mixed(rt: &impl Abort, alloc: Global, length: usize) -> Vec<u8> {
    let mut bytes = Vec::new(alloc);
    let mut state = 1u64;
    for _ in 0..length {
        state = state.wrapping_mul(1_103_515_245).wrapping_add(12_345) % 0x8000_0000;
        ok(rt, bytes.push((state >> 16 & 0xff) as u8));
    }
    bytes
}

/// Where the view of an image waits in its first read, for this many turns at most, until the other one is read.
#[derive(Drop)]
pub struct Gate {
    here: Arc<AtomicU64, Global>,
    there: Arc<AtomicU64, Global>,
    passed: bool,
}

impl Gate {
    fn wait(&mut self) {
        self.here.store(1, Ordering::SeqCst);
        for _ in 0..TURNS {
            if self.there.load(Ordering::SeqCst) == 1 {
                self.passed = true;
                return;
            }
            thread::yield_now();
        }
    }
}

/// An image in memory, which is always read, and where it has a gate at first through that.
#[derive(Drop)]
pub struct Image {
    pub bytes: Vec<u8>,
    gate: Option<Gate>,
}

impl Image {
    /// Whether it has a gate, which it has passed.
    pub fn has_passed(&self) -> bool {
        match &self.gate {
            Some(gate) => gate.passed,
            None => false,
        }
    }
}

impl View for Image {
    ghost use Rattle.std.specs.Prelude.{length, Some, true, [], refl};
    ghost use Rattle.dsy_base.specs.Bytes.{Held};

    ghost held = { λ v. record { bytes = Some v.bytes.items; size = length v.bytes.items; name = [] } };

    ghost faults = { λ _. 0 };

    ghost tells = { true };

    ghost never_fails = { true };

    fn size(&self) -> u64 {
        self.bytes.len() as u64
    }

    fn read_at(&mut self, at: u64, out: &mut [u8]) -> Result<(), Failed> {
        if let Some(gate) = &mut self.gate {
            if !gate.passed {
                gate.wait();
            }
        }
        let at = at as usize;
        out.copy_from_slice(&self.bytes[at..at + out.len()]);
        Ok(())
    }

    ghost told = { λ _. refl };

    ghost sized = { λ _. refl };

    ghost sure = { λ _ _. refl };
}

fn image_of(rt: &impl Abort, alloc: Global, bytes: &[u8], gate: Option<Gate>) -> Image
    ensures { result.bytes.items ≡ bytes.now }
{
    let bytes = ok(rt, Vec::from_slice(alloc, bytes));
    Image { bytes, gate }
}

/// So many views of the same bytes.
pub fn views_of(rt: &impl Abort, alloc: Global, bytes: &[u8], count: usize) -> Vec<Image>
    ensures size { vec_len result ≡ count }
    ensures bytes { All (λ i. i.bytes.items ≡ bytes.now) result.items }
{
    let mut views = Vec::new(alloc);
    while views.len() < count {
        ok(rt, views.push(image_of(rt, alloc, bytes, None)));
    }
    views
}

// A gate of the view that tells by `here` that it is read, where the other one tells it by `there`.
fn gate_of(
    rt: &impl Abort,
    here: &Arc<AtomicU64, Global>,
    there: &Arc<AtomicU64, Global>,
) -> Option<Gate> {
    Some(Gate {
        here: ok(rt, Arc::try_clone(here)),
        there: ok(rt, Arc::try_clone(there)),
        passed: false,
    })
}

/// Two views of the same bytes, each with a gate until the other one is read.
pub fn gated(rt: &impl Abort, alloc: Global, bytes: &[u8]) -> Vec<Image>
    ensures size { vec_len result ≡ 2 }
    ensures bytes { All (λ i. i.bytes.items ≡ bytes.now) result.items }
{
    let one = ok(rt, Arc::new(alloc, AtomicU64::new(0)));
    let two = ok(rt, Arc::new(alloc, AtomicU64::new(0)));
    let mut views = Vec::new(alloc);
    ok(
        rt,
        views.push(image_of(rt, alloc, bytes, gate_of(rt, &one, &two))),
    );
    ok(
        rt,
        views.push(image_of(rt, alloc, bytes, gate_of(rt, &two, &one))),
    );
    views
}
