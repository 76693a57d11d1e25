//! Folders of the operating system. The files of a folder have names relative to it, with at most one `/`.

ghost use Rattle.std.specs.Prelude.{◌≡◌, ◌≤◌, ◌↔◌, length, IfOk, IsTrue};
ghost use Rattle.std.specs.IoError.{error_kind};
ghost use Rattle.dsy_base.specs.Counts.{Rose};

use crate::real_bytes::{read_at, size_to_read};
use dsy_base::fault::{FileFault, IoFault, raise};
use dsy_base::folder::Folder;
use dsy_base::inner_folders::InnerFolders;
use dsy_base::look::Look;
use dsy_base::name::Name;
use dsy_base::temporary::temporary_name;
use std::alloc::{AllocError, Global};
use std::fs::{File, OpenOptions, ReadDir};
use std::io::ErrorKind;
use std::os::unix::fs::FileExt;
use std::rt::Files;
use std::{fs, io};

/// A folder that is read and written. Each call opens what it needs anew.
#[derive(Drop)]
pub struct RealFolder<'a, R: Files<File = File>> {
    rt: &'a R,
    alloc: Global,
    name: Name,
    faults: u64,
}

// The path of a file in the folder.
fn path_in(alloc: Global, folder: &str, name: &str) -> Result<String, AllocError> {
    let mut path = String::from_str(alloc, folder)?;
    path.push('/')?;
    path.push_str(name)?;
    Ok(path)
}

// Whether the error says that there is no such file.
fn is_absence(error: &io::Error) -> bool {
    matches!(error.kind(), ErrorKind::NotFound | ErrorKind::NotADirectory)
}

// The size of the file of this path. What is no file is refused before it is opened, since a pipe would wait.
fn size_of<R: Files<File = File>>(rt: &R, path: &str) -> Result<u64, FileFault> {
    match fs::metadata(rt, path) {
        Ok(metadata) if metadata.is_file() => match size_to_read(rt, path, metadata.len()) {
            Ok(size) => Ok(size),
            Err(_) => Err(FileFault::Failed),
        },
        Ok(_) => Err(FileFault::Failed),
        Err(error) if is_absence(&error) => Err(FileFault::Absent),
        Err(_) => Err(FileFault::Failed),
    }
}

// Reads a file from its beginning to its end.
fn read_whole<R: Files<File = File>>(rt: &R, path: &str, out: &mut [u8]) -> Result<usize, FileFault>
    ensures size { IfOk result (λ n. n ≤ length out.new) }
{
    let size = size_of(rt, path)?;
    if (out.len() as u64) < size {
        return Err(FileFault::Longer);
    }
    let (front, _) = out.split_at_mut(size as usize);
    match read_at(rt, path, 0, front) {
        Ok(()) => Ok(front.len()),
        Err(_) => Err(FileFault::Failed),
    }
}

// Whether a file is there. What else stands there can't be read as one, so that is a fault.
fn is_file<R: Files<File = File>>(rt: &R, path: &str) -> Result<bool, IoFault> {
    match fs::metadata(rt, path) {
        Ok(metadata) if metadata.is_file() => Ok(true),
        Ok(_) => Err(IoFault::Failed),
        Err(error) if is_absence(&error) => Ok(false),
        Err(_) => Err(IoFault::Failed),
    }
}

// Opens a folder to list it, where no signal comes between.
fn list<R: Files<File = File> + AllocGlobal + Clone + Drop>(
    rt: &R,
    path: &str,
) -> io::Result<ReadDir<R, Global>> {
    for _ in 0..u64::MAX {
        match fs::read_dir(rt, path) {
            Err(error) if error.kind() == ErrorKind::Interrupted => {}
            listed => return listed,
        }
    }
    Err(io::Error::from(ErrorKind::Interrupted))
}

// The names in a folder, each after `prefix`, of files and, where `folders` is true, of folders alone.
fn entries<R: Files<File = File> + AllocGlobal + Clone + Drop>(
    rt: &R,
    path: &str,
    prefix: &str,
    folders: bool,
    names: &mut Vec<String>,
) -> io::Result<()> {
    for entry in list(rt, path)? {
        let entry = entry?;
        let metadata = match fs::metadata(rt, entry.path()) {
            Ok(metadata) => metadata,
            Err(error) if is_absence(&error) => continue,
            Err(error) => return Err(error),
        };
        let wanted = if folders {
            metadata.is_dir()
        } else {
            metadata.is_file()
        };
        if wanted {
            let mut name = String::from_str(rt.alloc(), prefix)?;
            name.push_str(entry.file_name())?;
            names.push(name)?;
        }
    }
    Ok(())
}

// The names of the folder's files and of those in its folders, in the order of their bytes.
fn names_in<R: Files<File = File> + AllocGlobal + Clone + Drop>(
    rt: &R,
    folder: &str,
) -> io::Result<Vec<Name>> {
    let mut inner = Vec::new(rt.alloc());
    entries(rt, folder, "", true, &mut inner)?;
    let mut names = Vec::new(rt.alloc());
    entries(rt, folder, "", false, &mut names)?;
    for name in &inner {
        let path = path_in(rt.alloc(), folder, name.as_str())?;
        let prefix = path_in(rt.alloc(), name.as_str(), "")?;
        entries(rt, path.as_str(), prefix.as_str(), false, &mut names)?;
    }
    names.sort()?;
    let mut sorted = Vec::new(rt.alloc());
    for name in &names {
        sorted.push(Name::of(rt.alloc(), name.as_str())?)?;
    }
    Ok(sorted)
}

// Makes a file that isn't there yet, under the path or, where others use that, under one beside it.
fn create_beside<R: Files<File = File>>(
    rt: &R,
    alloc: Global,
    path: &str,
) -> io::Result<(String, File)> {
    for number in 0..1000u32 {
        let mut free = String::from_str(alloc, path)?;
        if number > 0 {
            let suffix = format!(in alloc; "-{number}")?;
            free.push_str(suffix.as_str())?;
        }
        match OpenOptions::new()
            .write(true)
            .create_new(true)
            .open(rt, free.as_str())
        {
            Ok(file) => return Ok((free, file)),
            Err(error) if error.kind() == ErrorKind::AlreadyExists => {}
            Err(error) => return Err(error),
        }
    }
    Err(io::Error::from(ErrorKind::AlreadyExists))
}

/// Puts `b` under the path: into a temporary file beside it, which is then renamed. A refusal leaves no temporary file
/// that can be removed. Answers whether the temporary file had the name that it was to have.
pub(crate) fn put_file<R: Files<File = File>>(
    rt: &R,
    alloc: Global,
    path: &str,
    temporary: &str,
    b: &[u8],
) -> io::Result<bool> {
    let (beside, file) = create_beside(rt, alloc, temporary)?;
    let written = file.write_all_at(b, 0);
    drop(file);
    let put = match written {
        Ok(()) => fs::rename(rt, beside.as_str(), path),
        Err(error) => Err(error),
    };
    match put {
        Ok(()) => Ok(beside.as_str() == temporary),
        Err(error) => {
            let _ = fs::remove_file(rt, beside.as_str());
            Err(error)
        }
    }
}

// Makes the folder in which the file lies, where it isn't there.
fn make_folder<R: Files<File = File>>(
    rt: &R,
    alloc: Global,
    folder: &str,
    name: &str,
) -> io::Result<()> {
    let Some((inner, _)) = name.rsplit_once('/') else {
        return Ok(());
    };
    let path = path_in(alloc, folder, inner)?;
    match fs::create_dir(rt, path.as_str()) {
        Ok(()) => Ok(()),
        Err(error) if error.kind() == ErrorKind::AlreadyExists => Ok(()),
        Err(error) => Err(error),
    }
}

// Puts `b` under the path of a chunk. A file that has the temporary file's name is removed: a crash left it, or another
// program is putting the same chunk, and then puts it again.
fn put_chunk<R: Files<File = File>>(
    rt: &R,
    alloc: Global,
    path: &str,
    temporary: &str,
    b: &[u8],
) -> io::Result<()> {
    if !put_file(rt, alloc, path, temporary, b)? {
        let _ = fs::remove_file(rt, temporary);
    }
    Ok(())
}

// Puts `b` under the name in the folder. The inner folder of the name is made first, since it mostly isn't there yet.
// Where that or the temporary file was taken away since, all is done again.
fn put_in<R: Files<File = File>>(
    rt: &R,
    alloc: Global,
    folder: &str,
    name: &str,
    b: &[u8],
) -> io::Result<()> {
    let path = path_in(alloc, folder, name)?;
    let beside = temporary_name(alloc, name)?;
    let temporary = path_in(alloc, folder, beside.as_str())?;
    for _ in 0..8 {
        make_folder(rt, alloc, folder, name)?;
        match put_chunk(rt, alloc, path.as_str(), temporary.as_str(), b) {
            Err(error) if is_absence(&error) => {}
            put => return put,
        }
    }
    Err(io::Error::from(ErrorKind::NotFound))
}

/// Removes the file of this path, or the link, and answers whether there was one. A folder there is refused.
pub(crate) fn remove_file<R: Files<File = File>>(rt: &R, path: &str) -> Result<bool, IoFault> {
    match fs::remove_file(rt, path) {
        Ok(()) => Ok(true),
        Err(error) if is_absence(&error) => Ok(false),
        Err(_) => Err(IoFault::Failed),
    }
}

/// Whether the error is want of memory, which is no fault of the file.
pub(crate) fn is_want_of_memory(error: &io::Error) -> bool
    ensures exactly { IsTrue result ↔ (error_kind error.now ≡ ErrorKind.OutOfMemory) }
{
    error.kind() == ErrorKind::OutOfMemory
}

// What an error of the system is: want of memory, or a fault, which is counted.
fn fault_of(error: &io::Error, faults: &mut u64) -> IoFault
    ensures faults { faults.old ≤ faults.new }
    ensures cause { result ≡ IoFault.Failed → Rose faults.old faults.new }
    ensures only { result ≡ IoFault.Memory → faults.new ≡ faults.old }
    ensures exactly { (result ≡ IoFault.Memory) ↔ (error_kind error.now ≡ ErrorKind.OutOfMemory) }
{
    if is_want_of_memory(error) {
        return IoFault::Memory;
    }
    *faults = raise(*faults, 1);
    IoFault::Failed
}

impl<'a, R: Files<File = File>> RealFolder<'a, R> {
    /// The folder of this name.
    pub fn new(rt: &'a R, alloc: Global, name: Name) -> RealFolder<'a, R>
        ensures named { result.name ≡ name }
        ensures faults { result.faults ≡ 0 }
    {
        RealFolder {
            rt,
            alloc,
            name,
            faults: 0,
        }
    }

    /// The name that it was taken under, and how often a call on it has failed.
    pub fn into_parts(self) -> (Name, u64)
        ensures { (result.0 ≡ self.entry.name) × (result.1 ≡ self.entry.faults) }
    {
        (self.name, self.faults)
    }

    // The path of a file in it.
    fn path(&self, name: &str) -> Result<String, AllocError> {
        path_in(self.alloc, self.name.as_str(), name)
    }
}

/// The folders inside a folder.
#[derive(Drop)]
pub struct RealInner<'a, R: Files<File = File>> {
    rt: &'a R,
    alloc: Global,
    name: Name,
}

impl<'a, R: Files<File = File>> RealInner<'a, R> {
    /// Those inside the folder of this name.
    pub fn new(rt: &'a R, alloc: Global, name: Name) -> RealInner<'a, R>
        ensures { result.name ≡ name }
    {
        RealInner { rt, alloc, name }
    }
}

impl<R: Files<File = File>> InnerFolders for RealInner<'_, R> {
    ghost place = { λ inner. inner.name };

    fn make_for(&self, path: &str) {
        let _ = make_folder(self.rt, self.alloc, self.name.as_str(), path);
    }
}

impl<R: Files<File = File> + AllocGlobal + Clone + Drop> Look for RealFolder<'_, R> {
    ghost use Rattle.std.specs.Prelude.{None, false, refl};
    ghost use Rattle.std.proofs.Common.{rules};

    ghost files = { λ _. None };

    ghost faults = { λ l. l.faults };

    ghost place = { λ l. l.name };

    ghost tells = { false };

    ghost never_fails = { false };

    fn read(&mut self, name: &str, out: &mut [u8]) -> Result<usize, FileFault> {
        let Ok(path) = self.path(name) else {
            return Err(FileFault::Memory);
        };
        match read_whole(self.rt, path.as_str(), out) {
            Err(FileFault::Failed) => {
                self.faults = raise(self.faults, 1);
                Err(FileFault::Failed)
            }
            read => read,
        }
    }

    fn has(&mut self, name: &str) -> Result<bool, IoFault> {
        let Ok(path) = self.path(name) else {
            return Err(IoFault::Memory);
        };
        match is_file(self.rt, path.as_str()) {
            Ok(found) => Ok(found),
            Err(_) => {
                self.faults = raise(self.faults, 1);
                Err(IoFault::Failed)
            }
        }
    }

    fn names(&mut self) -> Result<Vec<Name>, IoFault> {
        match names_in(self.rt, self.name.as_str()) {
            Ok(names) => Ok(names),
            Err(error) => Err(fault_of(&error, &mut self.faults)),
        }
    }

    ghost told = { λ _. refl };

    ghost sure = { Prim.search rules };
}

impl<R: Files<File = File> + AllocGlobal + Clone + Drop> Folder for RealFolder<'_, R> {
    fn put(&mut self, name: &str, b: &[u8]) -> Result<(), IoFault> {
        match put_in(self.rt, self.alloc, self.name.as_str(), name, b) {
            Ok(()) => Ok(()),
            Err(error) => Err(fault_of(&error, &mut self.faults)),
        }
    }

    fn remove(&mut self, name: &str) -> Result<bool, IoFault> {
        let Ok(path) = self.path(name) else {
            return Err(IoFault::Memory);
        };
        match remove_file(self.rt, path.as_str()) {
            Ok(found) => Ok(found),
            Err(_) => {
                self.faults = raise(self.faults, 1);
                Err(IoFault::Failed)
            }
        }
    }
}
