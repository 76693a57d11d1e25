//! Files and folders of the operating system by their names. They don't tell contracts what they hold.

ghost use Rattle.std.specs.Prelude.{◌≡◌, ◌↔◌, IfOk, IsSome, OnOk};
ghost use Rattle.std.specs.IoError.{error_kind};
ghost use Rattle.std.specs.Map.{count_at};
ghost use Rattle.dsy_base.specs.Counts.{Rose, Counted};
ghost use Rattle.dsy_base.specs.Slots.{counts_in};

use crate::real_bytes::{RealBytes, size_to_read};
use crate::real_folder::{RealFolder, RealInner, is_want_of_memory, put_file, remove_file};
use dsy_base::fault::{IoFault, OpenFault};
use dsy_base::files::Files;
use dsy_base::image_files::ImageFiles;
use dsy_base::name::Name;
use dsy_base::slots::{Slots, claim, count};
use std::alloc::{AllocError, Global};
use std::collections::BTreeMap;
use std::fs::{File, OpenOptions};
use std::io::ErrorKind;
use std::rt::Files as System;
use std::{fs, io};

/// Files and folders of the operating system. For each name that was used it keeps how often calls on it have failed.
#[derive(Drop)]
pub struct RealFiles<'a, R: System<File = File>> {
    rt: &'a R,
    alloc: Global,
    files: Slots<()>,
    folders: Slots<()>,
}

/// What stands under a name.
enum Found {
    /// A file, and its size in bytes.
    File(u64),
    Folder,
    Nothing,
    /// What is neither, or can't be reached.
    Other,
}

// What stands under the name. Symbolic links are followed.
fn stat<R: System<File = File>>(rt: &R, name: &str) -> Found {
    match fs::metadata(rt, name) {
        Ok(metadata) if metadata.is_file() => Found::File(metadata.len()),
        Ok(metadata) if metadata.is_dir() => Found::Folder,
        Ok(_) => Found::Other,
        Err(error) => match error.kind() {
            ErrorKind::NotFound | ErrorKind::NotADirectory => Found::Nothing,
            _ => Found::Other,
        },
    }
}

// The size of the file, which is made where there is none. A fresh one isn't the file that stood there, so that what
// else names or links to that stays as it is.
fn open_file<R: System<File = File>>(rt: &R, name: &str, fresh: bool) -> io::Result<u64> {
    if fresh && fs::symlink_metadata(rt, name).is_ok() {
        fs::remove_file(rt, name)?;
    }
    let file = OpenOptions::new()
        .write(true)
        .create(true)
        .truncate(fresh)
        .open(rt, name)?;
    Ok(file.metadata()?.len())
}

// The path of a temporary file beside the file of this name, which doesn't grow with the name.
fn temporary_beside(alloc: Global, name: &str) -> Result<String, AllocError> {
    let mut path = String::new(alloc);
    if let Some((folder, _)) = name.rsplit_once('/') {
        path.push_str(folder)?;
        path.push('/')?;
    }
    path.push_str(".tmp-desync")?;
    Ok(path)
}

// Refuses a name under which something stands that is no file.
fn refuse_others<R: System<File = File>>(rt: &R, name: &str) -> io::Result<()> {
    match stat(rt, name) {
        Found::File(_) | Found::Nothing => Ok(()),
        Found::Folder | Found::Other => Err(io::Error::from(ErrorKind::Other)),
    }
}

// Whether the name is a symbolic link.
fn is_link<R: System<File = File>>(rt: &R, name: &str) -> bool {
    match fs::symlink_metadata(rt, name) {
        Ok(metadata) => metadata.is_symlink(),
        Err(_) => false,
    }
}

// Puts `b` in the place of the file, or of the file that the name links to.
fn replace_file<R: System<File = File> + AllocGlobal>(
    rt: &R,
    name: &str,
    b: &[u8],
) -> io::Result<()> {
    refuse_others(rt, name)?;
    if is_link(rt, name) {
        let path = fs::canonicalize(rt, name)?;
        let temporary = temporary_beside(rt.alloc(), path.as_str())?;
        put_file(rt, rt.alloc(), path.as_str(), temporary.as_str(), b)?;
        return Ok(());
    }
    let temporary = temporary_beside(rt.alloc(), name)?;
    put_file(rt, rt.alloc(), name, temporary.as_str(), b)?;
    Ok(())
}

// Puts the file in the place of the other, or of the file that the other name links to, with the rights of that one.
fn rename_file<R: System<File = File> + AllocGlobal>(
    rt: &R,
    from: &str,
    to: &str,
) -> io::Result<()> {
    refuse_others(rt, to)?;
    if let Ok(metadata) = fs::metadata(rt, to) {
        fs::set_permissions(rt, from, metadata.permissions())?;
    }
    if is_link(rt, to) {
        let path = fs::canonicalize(rt, to)?;
        return fs::rename(rt, from, path.as_str());
    }
    fs::rename(rt, from, to)
}

// Makes room for the name's number.
fn named(alloc: Global, slots: &mut Slots<()>, name: &str) -> Result<Name, AllocError>
    ensures named { IfOk result (λ n. n ≡ name.now) }
    ensures counts { Counted (counts_in slots.old) (counts_in slots.new) name.now }
    ensures value { count_at (counts_in slots.new) name.now ≡ count_at (counts_in slots.old) name.now }
    ensures known { OnOk result (IsSome (counts_in slots.new name.now)) }
{
    claim(alloc, slots, name)?;
    Name::of(alloc, name)
}

// Counts a fault of the name.
fn fail(slots: &mut Slots<()>, name: &str)
    requires { IsSome (counts_in slots.old name.now) }
    ensures counts { Counted (counts_in slots.old) (counts_in slots.new) name.now }
    ensures cause { Rose (count_at (counts_in slots.old) name.now) (count_at (counts_in slots.new) name.now) }
{
    count(slots, name, 1);
}

// What an error of the system is: want of memory, or a fault of the name, which is counted.
fn fault_of(slots: &mut Slots<()>, name: &str, error: &io::Error) -> IoFault
    requires { IsSome (counts_in slots.old name.now) }
    ensures counts { Counted (counts_in slots.old) (counts_in slots.new) name.now }
    ensures cause { result ≡ IoFault.Failed
        → Rose (count_at (counts_in slots.old) name.now) (count_at (counts_in slots.new) name.now) }
    ensures kept { result ≡ IoFault.Memory
        → count_at (counts_in slots.new) name.now ≡ count_at (counts_in slots.old) name.now }
    ensures exactly { (result ≡ IoFault.Memory) ↔ (error_kind error.now ≡ ErrorKind.OutOfMemory) }
{
    if is_want_of_memory(error) {
        return IoFault::Memory;
    }
    fail(slots, name);
    IoFault::Failed
}

impl<'a, R: System<File = File>> RealFiles<'a, R> {
    pub fn new(rt: &'a R, alloc: Global) -> RealFiles<'a, R> {
        RealFiles {
            rt,
            alloc,
            files: BTreeMap::new(alloc),
            folders: BTreeMap::new(alloc),
        }
    }
}

impl<'a, R: System<File = File> + AllocGlobal + Clone + Drop> Files for RealFiles<'a, R> {
    type View = RealBytes<'a, R>;

    type Target = RealBytes<'a, R>;

    type Look = RealFolder<'a, R>;

    type Folder = RealFolder<'a, R>;

    ghost use Rattle.std.specs.Prelude.{None, false, refl};
    ghost use Rattle.std.proofs.Common.{rules};
    ghost use Rattle.dsy_base.specs.Slots.{counts_in};

    ghost disk = { λ s. record {
      files = None;
      folders = None;
      file_counts = counts_in s.files;
      folder_counts = counts_in s.folders;
    } };

    ghost tells = { false };

    ghost never_fails = { false };

    fn view(&mut self, name: &str) -> Result<RealBytes<'a, R>, OpenFault> {
        let Ok(label) = named(self.alloc, &mut self.files, name) else {
            return Err(OpenFault::Memory);
        };
        let size = match stat(self.rt, name) {
            Found::File(told) => size_to_read(self.rt, name, told).ok(),
            Found::Nothing => return Err(OpenFault::Absent),
            Found::Folder | Found::Other => None,
        };
        match size {
            Some(size) => Ok(RealBytes::new(self.rt, self.alloc, label, size)),
            None => {
                fail(&mut self.files, name);
                Err(OpenFault::Failed)
            }
        }
    }

    fn end_view(&mut self, v: RealBytes<'a, R>) {
        let (label, faults) = v.into_parts();
        count(&mut self.files, label.as_str(), faults);
    }

    fn take(&mut self, name: &str, fresh: bool) -> Result<RealBytes<'a, R>, IoFault> {
        let Ok(label) = named(self.alloc, &mut self.files, name) else {
            return Err(IoFault::Memory);
        };
        let opened = match stat(self.rt, name) {
            Found::File(_) | Found::Nothing => open_file(self.rt, name, fresh).ok(),
            Found::Folder | Found::Other => None,
        };
        match opened {
            Some(size) => Ok(RealBytes::new(self.rt, self.alloc, label, size)),
            None => {
                fail(&mut self.files, name);
                Err(IoFault::Failed)
            }
        }
    }

    fn give(&mut self, name: &str, t: RealBytes<'a, R>) {
        let (_, faults) = t.into_parts();
        count(&mut self.files, name, faults);
    }

    fn replace(&mut self, name: &str, b: &[u8]) -> Result<(), IoFault> {
        if claim(self.alloc, &mut self.files, name).is_err() {
            return Err(IoFault::Memory);
        }
        match replace_file(self.rt, name, b) {
            Ok(()) => Ok(()),
            Err(error) => Err(fault_of(&mut self.files, name, &error)),
        }
    }

    fn rename(&mut self, from: &str, to: &str) -> Result<(), OpenFault> {
        if claim(self.alloc, &mut self.files, to).is_err() {
            return Err(OpenFault::Memory);
        }
        let renamed = match stat(self.rt, from) {
            Found::File(_) => rename_file(self.rt, from, to),
            Found::Nothing => return Err(OpenFault::Absent),
            Found::Folder | Found::Other => Err(io::Error::from(ErrorKind::Other)),
        };
        match renamed {
            Ok(()) => Ok(()),
            Err(error) => Err(fault_of(&mut self.files, to, &error).into()),
        }
    }

    fn remove(&mut self, name: &str) -> Result<(), OpenFault> {
        if claim(self.alloc, &mut self.files, name).is_err() {
            return Err(OpenFault::Memory);
        }
        match remove_file(self.rt, name) {
            Ok(true) => Ok(()),
            Ok(false) => Err(OpenFault::Absent),
            Err(_) => {
                fail(&mut self.files, name);
                Err(OpenFault::Failed)
            }
        }
    }

    fn look(&mut self, name: &str) -> Result<RealFolder<'a, R>, OpenFault> {
        let Ok(label) = named(self.alloc, &mut self.folders, name) else {
            return Err(OpenFault::Memory);
        };
        match stat(self.rt, name) {
            Found::Folder => Ok(RealFolder::new(self.rt, self.alloc, label)),
            Found::Nothing | Found::File(_) => Err(OpenFault::Absent),
            Found::Other => {
                fail(&mut self.folders, name);
                Err(OpenFault::Failed)
            }
        }
    }

    fn end_look(&mut self, l: RealFolder<'a, R>) {
        let (label, faults) = l.into_parts();
        count(&mut self.folders, label.as_str(), faults);
    }

    fn take_folder(&mut self, name: &str) -> Result<RealFolder<'a, R>, OpenFault> {
        self.look(name)
    }

    fn give_folder(&mut self, name: &str, d: RealFolder<'a, R>) {
        let (_, faults) = d.into_parts();
        count(&mut self.folders, name, faults);
    }

    ghost told = { λ _. (refl, refl) };

    ghost sure = { Prim.search rules };

    ghost alike = { Prim.search rules };

    ghost unnamed = { (refl, refl, refl) };
}

impl<'a, R: System<File = File> + AllocGlobal + Clone + Drop> ImageFiles for RealFiles<'a, R> {
    type Inner = RealInner<'a, R>;

    fn inner(&self, folder: &str) -> Option<RealInner<'a, R>> {
        let Ok(name) = Name::of(self.alloc, folder) else {
            return None;
        };
        Some(RealInner::new(self.rt, self.alloc, name))
    }

    ghost untold = { λ t. t };

    ghost unseen = { (λ t. t, λ t. t) };
}
