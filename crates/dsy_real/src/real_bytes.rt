//! Files of the operating system that are read and written by place. Offsets are bytes from 0.

ghost use Rattle.std.specs.Prelude.{◌≡◌, ◌↔◌, None, false, IfOk, IsErrAnd, IsTrue};
ghost use Rattle.std.specs.IoError.{error_kind};
ghost use Rattle.std.specs.List.{sum_by};
ghost use Rattle.dsy_base.specs.Counts.{raised};
ghost use Rattle.dsy_base.specs.Splits.{joined, held_joined};

use crate::real_part::{RealPart, close_parts, open_parts};
use dsy_base::fault::{Failed, IoFault, SplitFault, raise};
use dsy_base::name::Name;
use dsy_base::view::{Part, Target, View};
use std::alloc::Global;
use std::fs::{File, OpenOptions};
use std::io::ErrorKind;
use std::os::unix::fs::FileExt;
use std::rt::Files;
use std::{fs, io};

/// The bytes of a file. Each call opens it anew, so however many there are, no limit on open files is met.
#[derive(Drop)]
pub struct RealBytes<'a, R: Files<File = File>> {
    rt: &'a R,
    alloc: Global,
    name: Name,
    size: u64,
    faults: u64,
}

/// Fills `out` with the bytes of the file from offset `at` on.
pub(crate) fn read_at<R: Files<File = File>>(
    rt: &R,
    name: &str,
    at: u64,
    out: &mut [u8],
) -> io::Result<()> {
    let file = fs::open(rt, name)?;
    file.read_exact_at(out, at)
}

// Whether a read of the first byte has met the end of the file.
fn is_at_end(read: io::Result<()>) -> bool
    ensures exactly { IsTrue result ↔ IsErrAnd read (λ e. error_kind e ≡ ErrorKind.UnexpectedEof) }
{
    match read {
        Ok(()) => false,
        Err(error) => error.kind() == ErrorKind::UnexpectedEof,
    }
}

/// The size of a file that is read, where the system says `told`. Many files in /proc have bytes and are said to have
/// none. Their size isn't known, so a file of no bytes is read once, and refused if a byte comes.
pub(crate) fn size_to_read<R: Files<File = File>>(rt: &R, name: &str, told: u64) -> io::Result<u64>
    ensures value { IfOk result (λ n. n ≡ told) }
{
    let mut first = [0; 1];
    if told > 0 || is_at_end(read_at(rt, name, 0, &mut first)) {
        return Ok(told);
    }
    Err(io::Error::from(ErrorKind::Other))
}

fn write_at<R: Files<File = File>>(rt: &R, name: &str, at: u64, b: &[u8]) -> io::Result<()> {
    let file = OpenOptions::new().write(true).open(rt, name)?;
    file.write_all_at(b, at)
}

fn set_len<R: Files<File = File>>(rt: &R, name: &str, n: u64) -> io::Result<()> {
    let file = OpenOptions::new().write(true).open(rt, name)?;
    file.set_len(n)
}

impl<'a, R: Files<File = File>> RealBytes<'a, R> {
    /// The file, which has `size` bytes.
    pub fn new(rt: &'a R, alloc: Global, name: Name, size: u64) -> RealBytes<'a, R>
        ensures size { result.size ≡ size }
        ensures named { result.name ≡ name }
        ensures faults { result.faults ≡ 0 }
    {
        RealBytes {
            rt,
            alloc,
            name,
            size,
            faults: 0,
        }
    }

    /// The name that it was taken under, and how often a call on it has failed.
    pub fn into_parts(self) -> (Name, u64)
        ensures { (result.0 ≡ self.entry.name) × (result.1 ≡ self.entry.faults) }
    {
        (self.name, self.faults)
    }
}

impl<R: Files<File = File>> View for RealBytes<'_, R> {
    ghost use Rattle.std.specs.Prelude.{None, false, refl};
    ghost use Rattle.std.proofs.Common.{rules};

    ghost held = { λ t. record { bytes = None; size = t.size; name = t.name } };

    ghost faults = { λ t. t.faults };

    ghost tells = { false };

    ghost never_fails = { false };

    fn size(&self) -> u64 {
        self.size
    }

    fn read_at(&mut self, at: u64, out: &mut [u8]) -> Result<(), Failed> {
        match read_at(self.rt, self.name.as_str(), at, out) {
            Ok(()) => Ok(()),
            Err(_) => {
                self.faults = raise(self.faults, 1);
                Err(Failed)
            }
        }
    }

    ghost told = { λ _. refl };

    ghost sized = { λ _. tt };

    ghost sure = { Prim.search rules };
}

impl<R: Files<File = File>> Part for RealBytes<'_, R> {
    fn write_at(&mut self, at: u64, b: &[u8]) -> Result<(), Failed> {
        match write_at(self.rt, self.name.as_str(), at, b) {
            Ok(()) => Ok(()),
            Err(_) => {
                self.faults = raise(self.faults, 1);
                Err(Failed)
            }
        }
    }
}

impl<'a, R: Files<File = File>> Target for RealBytes<'a, R> {
    ghost use Rattle.std.specs.Prelude.{refl};

    type Piece = RealPart;

    type Rest = RealBytes<'a, R>;

    ghost left = { λ t. record { size = t.size; name = t.name; faults = t.faults } };

    fn set_len(&mut self, n: u64) -> Result<(), IoFault> {
        match set_len(self.rt, self.name.as_str(), n) {
            Ok(()) => {
                self.size = n;
                Ok(())
            }
            Err(_) => {
                self.faults = raise(self.faults, 1);
                Err(IoFault::Failed)
            }
        }
    }

    fn split(
        self,
        cuts: &[u64],
    ) -> Result<(RealBytes<'a, R>, Vec<RealPart>), (RealBytes<'a, R>, SplitFault)> {
        let mut target = self;
        match open_parts(
            target.rt,
            target.alloc,
            target.name.as_str(),
            target.size,
            cuts,
        ) {
            Ok(parts) => Ok((target, parts)),
            Err(SplitFault::Memory) => Err((target, SplitFault::Memory)),
            Err(SplitFault::Failed) => {
                target.faults = raise(target.faults, 1);
                Err((target, SplitFault::Failed))
            }
        }
    }

    fn rejoin(rest: RealBytes<'a, R>, parts: Vec<RealPart>) -> RealBytes<'a, R>
        requires { sum_by (λ p. p.size) parts.items ≡ rest.size }
        ensures bytes { record { bytes = None; size = result.size; name = result.name }
            ≡ held_joined (record { size = rest.entry.size; name = rest.entry.name; faults = rest.entry.faults }) false
            (joined (λ p. record { bytes = None; size = p.size; name = p.name }) parts.items) }
        ensures faults { result.faults ≡ raised rest.entry.faults (sum_by (λ p. p.faults) parts.items) }
    {
        let mut target = rest;
        target.faults = close_parts(target.faults, parts);
        target
    }

    ghost parts_tell = { refl };

    ghost parts_fail = { refl };
}
