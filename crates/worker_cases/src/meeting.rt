//! A target in memory whose parts wait for one another when they are first read. Offsets are bytes from 0.

ghost use Rattle.std.specs.Prelude.{◌≡◌, true};
ghost use Rattle.std.specs.List.{sum_by};
ghost use Rattle.dsy_base.specs.Counts.{raised};
ghost use Rattle.dsy_base.specs.Splits.{held_joined, joined};
ghost use Rattle.worker_cases.specs.Meetings.{meeting_held, meeting_left};

use byte_forms::mem_part::{MemoryPart, join_parts, parts_of};
use byte_forms::mem_target::{resize, write_over};
use dsy_base::fault::{Failed, IoFault, SplitFault};
use dsy_base::view::{Part, Target, View};
use std::alloc::{AllocError, Global};
use std::sync::Arc;
use std::sync::atomic::{AtomicU64, Ordering};
use std::thread;

/// How many parts have come to their first read, and how many were alone there.
#[derive(Drop)]
pub struct Meeting {
    came: AtomicU64,
    alone: AtomicU64,
    turns: u64,
}

impl Meeting {
    /// Each part waits for at most `turns` turns.
    pub fn new(turns: u64) -> Meeting {
        Meeting {
            came: AtomicU64::new(0),
            alone: AtomicU64::new(0),
            turns,
        }
    }

    pub fn came(&self) -> u64 {
        self.came.load(Ordering::SeqCst)
    }

    pub fn alone(&self) -> u64 {
        self.alone.load(Ordering::SeqCst)
    }

    // Waits until another part has come, too.
    fn wait(&self) {
        self.came.fetch_add(1, Ordering::SeqCst);
        for _ in 0..self.turns {
            if 1 < self.came.load(Ordering::SeqCst) {
                return;
            }
            thread::yield_now();
        }
        self.alone.fetch_add(1, Ordering::SeqCst);
    }
}

/// A target or a part of one, which is always read and written.
#[derive(Drop)]
pub struct Met {
    bytes: Vec<u8>,
    waits: bool,
    meeting: Arc<Meeting, Global>,
}

impl Met {
    pub fn new(bytes: Vec<u8>, meeting: Arc<Meeting, Global>) -> Met
        ensures bytes { result.bytes ≡ bytes }
    {
        Met {
            bytes,
            waits: true,
            meeting,
        }
    }
}

impl MemoryPart for Met {
    type Said = Arc<Meeting, Global>;

    fn of(
        _alloc: Global,
        bytes: Vec<u8>,
        _from: u64,
        said: &Arc<Meeting, Global>,
    ) -> Result<Met, AllocError> {
        let meeting = Arc::try_clone(said)?;
        Ok(Met::new(bytes, meeting))
    }

    fn bytes(&self) -> &[u8] {
        self.bytes.as_slice()
    }
}

impl View for Met {
    ghost use Rattle.std.specs.Prelude.{true, refl};
    ghost use Rattle.std.proofs.Common.{rules};
    ghost use Rattle.worker_cases.specs.Meetings.{meeting_held};

    ghost held = { meeting_held };

    ghost faults = { λ _. 0 };

    ghost tells = { true };

    ghost never_fails = { true };

    fn size(&self) -> u64 {
        self.bytes.len() as u64
    }

    fn read_at(&mut self, at: u64, out: &mut [u8]) -> Result<(), Failed> {
        if self.waits {
            self.waits = false;
            self.meeting.wait();
        }
        let start = at as usize;
        out.copy_from_slice(&self.bytes[start..start + out.len()]);
        Ok(())
    }

    ghost told = { λ _. refl };

    ghost sized = { Prim.search rules };

    ghost sure = { λ _ _. refl };
}

impl Part for Met {
    fn write_at(&mut self, at: u64, b: &[u8]) -> Result<(), Failed> {
        write_over(&mut self.bytes, at as usize, b);
        Ok(())
    }
}

impl Target for Met {
    ghost use Rattle.std.specs.Prelude.{refl};
    ghost use Rattle.worker_cases.specs.Meetings.{meeting_left};

    type Piece = Met;

    // The bytes stay, as room for those of the parts.
    type Rest = Met;

    ghost left = { meeting_left };

    fn set_len(&mut self, n: u64) -> Result<(), IoFault> {
        match resize(&mut self.bytes, n as usize) {
            Ok(()) => Ok(()),
            Err(_) => Err(IoFault::Memory),
        }
    }

    fn split(self, cuts: &[u64]) -> Result<(Met, Vec<Met>), (Met, SplitFault)> {
        let alloc = *self.bytes.allocator();
        match parts_of(alloc, self.bytes.as_slice(), cuts, &self.meeting) {
            Ok(parts) => Ok((self, parts)),
            Err(_) => Err((self, SplitFault::Memory)),
        }
    }

    fn rejoin(rest: Met, parts: Vec<Met>) -> Met
        requires { sum_by (λ p. (meeting_held p).size) parts.items ≡ (meeting_left rest).size }
        ensures bytes { meeting_held result ≡ held_joined (meeting_left rest) true (joined meeting_held parts.items) }
        ensures faults { 0 ≡ raised (meeting_left rest).faults (sum_by (λ _. 0) parts.items) }
    {
        let mut target = rest;
        join_parts(&mut target.bytes, &parts);
        target
    }

    ghost parts_tell = { refl };

    ghost parts_fail = { refl };
}
