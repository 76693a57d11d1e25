//! A view in memory that waits for another one when it is first read. Offsets are bytes from 0.

ghost use Rattle.std.specs.Prelude.{◌≡◌, ℕ, List, length, Some};

use byte_forms::mem_view::MemView;
use dsy_base::fault::Failed;
use dsy_base::view::View;
use std::alloc::Global;
use std::sync::Arc;
use std::sync::atomic::{AtomicU64, Ordering};
use std::thread;

// How many turns a view waits for another one.
const TURNS: u64 = 10_000_000;

/// How many views have come to their first read, and how many of them have met another one there.
#[derive(Drop)]
pub struct Gate {
    came: AtomicU64,
    passed: AtomicU64,
}

impl Gate {
    /// No view has come.
    pub fn new() -> Gate {
        Gate {
            came: AtomicU64::new(0),
            passed: AtomicU64::new(0),
        }
    }

    /// How many views have met another one.
    pub fn passed(&self) -> u64 {
        self.passed.load(Ordering::SeqCst)
    }

    // Waits until another view has come, too.
    fn wait(&self) {
        let _ = self.came.fetch_add(1, Ordering::SeqCst);
        for _ in 0..TURNS {
            if 2 <= self.came.load(Ordering::SeqCst) {
                let _ = self.passed.fetch_add(1, Ordering::SeqCst);
                return;
            }
            thread::yield_now();
        }
    }
}

/// A view in memory, which is first read through the gate, where it has one.
#[derive(Drop)]
pub struct GatedView {
    view: MemView,
    gate: Option<Arc<Gate, Global>>,
}

impl GatedView {
    /// A view that passes the gate first.
    pub fn new(view: MemView, gate: Option<Arc<Gate, Global>>) -> GatedView
        ensures kept { result.view ≡ view }
    {
        GatedView { view, gate }
    }
}

impl View for GatedView {
    ghost use Rattle.std.specs.Prelude.{false, true, refl};
    ghost use Rattle.std.proofs.Common.{rules};

    ghost held = { λ v. ⟦<MemView as View>⟧.held v.view };

    ghost faults = { λ v. ⟦<MemView as View>⟧.faults v.view };

    ghost tells = { true };

    ghost never_fails = { false };

    fn size(&self) -> u64 {
        self.view.size()
    }

    fn read_at(&mut self, at: u64, out: &mut [u8]) -> Result<(), Failed> {
        if let Some(gate) = self.gate.take() {
            gate.wait();
        }
        self.view.read_at(at, out)
    }

    ghost told = { λ _. refl };

    ghost sized = { Prim.search rules };

    ghost sure = { Prim.search rules };
}
