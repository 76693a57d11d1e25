//! Folders in memory whose first reads wait for one another.

use dsy_base::fault::{FileFault, IoFault};
use dsy_base::folder::Folder;
use dsy_base::look::Look;
use dsy_base::name::Name;
use dsy_forms::mem_folder::MemFolder;
use std::alloc::Global;
use std::sync::Arc;
use std::sync::atomic::{AtomicU64, Ordering};
use std::thread;

/// How often a reader lets others run before it gives up.
const TURNS: u64 = 10_000_000;

/// How many folders were read, and how many of these then saw that another one was.
#[derive(Drop)]
pub struct Gate {
    read: AtomicU64,
    passed: AtomicU64,
}

impl Gate {
    pub fn new() -> Gate {
        Gate {
            read: AtomicU64::new(0),
            passed: AtomicU64::new(0),
        }
    }

    /// How many have passed.
    pub fn passed(&self) -> u64 {
        self.passed.load(Ordering::SeqCst)
    }

    // Waits for another folder to be read.
    fn wait(&self) {
        let _ = self.read.fetch_add(1, Ordering::SeqCst);
        for _ in 0..TURNS {
            if 2 <= self.read.load(Ordering::SeqCst) {
                let _ = self.passed.fetch_add(1, Ordering::SeqCst);
                return;
            }
            thread::yield_now();
        }
    }
}

/// A folder in memory that tells contracts nothing, and is first read through a gate, where it has one.
#[derive(Drop)]
pub struct GatedFolder {
    pub folder: MemFolder,
    pub gate: Option<Arc<Gate, Global>>,
}

impl Look for GatedFolder {
    ghost use Rattle.std.specs.Prelude.{None, false, refl};
    ghost use Rattle.std.proofs.Common.{rules};

    ghost files = { λ _. None };

    ghost faults = { λ f. ⟦<MemFolder as Look>⟧.faults f.folder };

    ghost place = { λ f. ⟦<MemFolder as Look>⟧.place f.folder };

    ghost tells = { false };

    ghost never_fails = { false };

    fn read(&mut self, name: &str, out: &mut [u8]) -> Result<usize, FileFault> {
        if let Some(gate) = self.gate.take() {
            gate.wait();
        }
        self.folder.read(name, out)
    }

    fn has(&mut self, name: &str) -> Result<bool, IoFault> {
        self.folder.has(name)
    }

    fn names(&mut self) -> Result<Vec<Name>, IoFault> {
        self.folder.names()
    }

    ghost told = { λ _. refl };

    ghost sure = { Prim.search rules };
}

impl Folder for GatedFolder {
    fn put(&mut self, name: &str, b: &[u8]) -> Result<(), IoFault> {
        self.folder.put(name, b)
    }

    fn remove(&mut self, name: &str) -> Result<bool, IoFault> {
        self.folder.remove(name)
    }
}
