//! Parts of a file of the operating system that was split. Offsets are bytes from 0, ends are exclusive.

ghost use Rattle.std.specs.Prelude.{◌≡◌, IfOk, None, map};
ghost use Rattle.std.specs.List.{sum_by, All};
ghost use Rattle.dsy_base.specs.Counts.{raised};
ghost use Rattle.dsy_base.specs.Splits.{IsCuts, extents};
ghost use Rattle.dsy_real.specs.FileParts.{part_extent};

use dsy_base::fault::{Failed, SplitFault, raise};
use dsy_base::name::Name;
use dsy_base::view::{Part, View};
use std::alloc::Global;
use std::fs::{File, OpenOptions};
use std::io;
use std::marker::Model;
use std::os::unix::fs::FileExt;
use std::rt::Files;

/// A part of a file, through a handle of its own.
#[derive(Drop)]
pub struct RealPart {
    file: File,
    /// The part lies in the file from here up to `to`.
    from: u64,
    to: u64,
    faults: u64,
    name: Name,
}

impl Model for RealPart {
    ghost use Rattle.std.specs.Prelude.{◌-◌, ◌≤◌};
    ghost use Rattle.dsy_real.specs.FileParts.{FilePart};

    ghost Value = { FilePart };

    ghost view = { λ p. record { size = p.to - p.from; name = p.name; faults = p.faults } };

    ghost invariant = { λ p. p.from ≤ p.to };
}

// A file that may not be read is opened for writing alone: what is read of it then fails.
fn open<R: Files<File = File>>(rt: &R, name: &str) -> io::Result<File> {
    match OpenOptions::new().read(true).write(true).open(rt, name) {
        Ok(file) => Ok(file),
        Err(_) => OpenOptions::new().write(true).open(rt, name),
    }
}

/// The parts of the file between the cuts, each opened by itself.
pub(crate) fn open_parts<R: Files<File = File>>(
    rt: &R,
    alloc: Global,
    name: &str,
    size: u64,
    cuts: &[u64],
) -> Result<Vec<RealPart>, SplitFault>
    requires { IsCuts 0 cuts.now size }
    ensures parts { IfOk result (λ v. map part_extent v.items ≡ extents None 0 cuts.now) }
    ensures faults { IfOk result (λ v. All (λ p. p.faults ≡ 0) v.items) }
{
    let Ok(mut parts) = Vec::with_capacity(alloc, cuts.len()) else {
        return Err(SplitFault::Memory);
    };
    let mut from = 0;
    for cut in cuts.iter() {
        let to = *cut;
        let Ok(file) = open(rt, name) else {
            return Err(SplitFault::Failed);
        };
        let part = RealPart {
            file,
            from,
            to,
            faults: 0,
            name: Name::empty(alloc),
        };
        if parts.push(part).is_err() {
            return Err(SplitFault::Memory);
        }
        from = to;
    }
    Ok(parts)
}

/// The count with the faults of the parts. It closes their handles.
pub(crate) fn close_parts(count: u64, parts: Vec<RealPart>) -> u64
    ensures { result ≡ raised count (sum_by (λ p. p.faults) parts.items) }
{
    let mut faults = count;
    for part in parts.iter() {
        faults = raise(faults, part.faults);
    }
    faults
}

impl View for RealPart {
    ghost use Rattle.std.specs.Prelude.{None, false, refl};
    ghost use Rattle.std.proofs.Common.{rules};

    ghost held = { λ p. record { bytes = None; size = p.size; name = p.name } };

    ghost faults = { λ p. p.faults };

    ghost tells = { false };

    ghost never_fails = { false };

    fn size(&self) -> u64 {
        self.to - self.from
    }

    fn read_at(&mut self, at: u64, out: &mut [u8]) -> Result<(), Failed> {
        match self.file.read_exact_at(out, self.from + at) {
            Ok(()) => Ok(()),
            Err(_) => {
                self.faults = raise(self.faults, 1);
                Err(Failed)
            }
        }
    }

    ghost told = { λ _. refl };

    ghost sized = { λ _. tt };

    ghost sure = { Prim.search rules };
}

impl Part for RealPart {
    fn write_at(&mut self, at: u64, b: &[u8]) -> Result<(), Failed> {
        match self.file.write_all_at(b, self.from + at) {
            Ok(()) => Ok(()),
            Err(_) => {
                self.faults = raise(self.faults, 1);
                Err(Failed)
            }
        }
    }
}
