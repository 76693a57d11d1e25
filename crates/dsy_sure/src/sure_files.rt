//! Files and folders in memory by their names, whose calls never fail.

ghost use Rattle.std.specs.Prelude.{◌≡◌, ◌≢◌, ℕ, List, [], None, Some, IsSome, IsOk, IfOk, OnOk, OnErr, unwrap_or};
ghost use Rattle.std.specs.Option.{option_map};
ghost use Rattle.dsy_base.specs.Counts.{Counted};
ghost use Rattle.dsy_base.specs.Files.{OpenGives, FoundThere};
ghost use Rattle.dsy_base.specs.Maps.{at_name};
ghost use Rattle.dsy_base.specs.Slots.{held_in};
ghost use Rattle.dsy_forms.specs.Trees.{map_of};
ghost use Rattle.dsy_sure.specs.SureFiles.{files_in, folders_in, files_of, folders_of, zeros_in};

use crate::sure_bytes::SureBytes;
use crate::sure_folder::SureFolder;
use dsy_base::fault::{IoFault, Memory, OpenFault};
use dsy_base::files::Files;
use dsy_base::image_files::ImageFiles;
use dsy_base::name::Name;
use dsy_base::slots::{Slots, claim, take_out};
use dsy_forms::memory_files::MemoryFiles;
use dsy_forms::no_folders::NoFolders;
use dsy_forms::slot_files::{
    get_named, look_at, put_named, remove_named, rename_named, set_named, take_folder,
};
use std::alloc::{AllocError, Global};
use std::collections::BTreeMap;

/// Files and folders in memory by their names.
#[derive(Drop)]
pub struct SureFiles {
    alloc: Global,
    files: Slots<Vec<u8>>,
    folders: Slots<SureFolder>,
}

impl SureFiles {
    pub fn new(alloc: Global) -> SureFiles
        ensures files { (q : List ℕ) → files_of result q ≡ None }
        ensures folders { (q : List ℕ) → folders_of result q ≡ None }
        ensures counts { (q : List ℕ) → zeros_in result.files q ≡ None }
        ensures folder_counts { (q : List ℕ) → zeros_in result.folders q ≡ None }
    {
        SureFiles {
            alloc,
            files: BTreeMap::new(alloc),
            folders: BTreeMap::new(alloc),
        }
    }

    /// Puts a file under the name.
    pub fn set_file(&mut self, name: &str, bytes: Vec<u8>) -> Result<(), Memory>
        ensures ok { OnOk result (files_of self.new
            ≡ at_name (files_of self.old) name.now (Some bytes.items)) }
        ensures err { OnErr result (files_of self.new ≡ files_of self.old) }
        ensures folders { folders_of self.new ≡ folders_of self.old }
        ensures counts { Counted (zeros_in self.old.files) (zeros_in self.new.files) name.now }
        ensures folder_counts { zeros_in self.new.folders ≡ zeros_in self.old.folders }
    {
        set_named(self.alloc, &mut self.files, name, bytes)
    }
}

impl MemoryFiles for SureFiles {
    fn set_folder(&mut self, name: &str, f: SureFolder) -> Result<(), Memory> {
        set_named(self.alloc, &mut self.folders, name, f)
    }

    fn file(&self, name: &str) -> Option<&[u8]> {
        match get_named(&self.files, name) {
            Some(bytes) => Some(bytes.as_slice()),
            None => None,
        }
    }

    fn folder(&self, name: &str) -> Option<&SureFolder> {
        get_named(&self.folders, name)
    }
}

impl Files for SureFiles {
    type View = SureBytes;

    type Target = SureBytes;

    type Look = SureFolder;

    type Folder = SureFolder;

    ghost use Rattle.std.specs.Prelude.{Some, true, refl};
    ghost use Rattle.std.proofs.Common.{rules};
    ghost use Rattle.dsy_sure.specs.SureFiles.{disk_of};

    ghost disk = { disk_of };

    ghost tells = { true };

    ghost never_fails = { true };

    fn view(&mut self, name: &str) -> Result<SureBytes, OpenFault> {
        make_room(self.alloc, &mut self.files, name)?;
        let Ok(place) = Name::of(self.alloc, name) else {
            return Err(OpenFault::Memory);
        };
        match copy_of(self.alloc, &self.files, name) {
            Err(_) => Err(OpenFault::Memory),
            Ok(None) => Err(OpenFault::Absent),
            Ok(Some(bytes)) => Ok(SureBytes::of(place, bytes)),
        }
    }

    fn end_view(&mut self, v: SureBytes) {
        drop(v);
    }

    fn take(&mut self, name: &str, fresh: bool) -> Result<SureBytes, IoFault> {
        make_room(self.alloc, &mut self.files, name)?;
        let Ok(place) = Name::of(self.alloc, name) else {
            return Err(IoFault::Memory);
        };
        let bytes = take_file(self.alloc, &mut self.files, name);
        if fresh {
            return Ok(SureBytes::of(place, Vec::new(self.alloc)));
        }
        Ok(SureBytes::of(place, bytes))
    }

    fn give(&mut self, name: &str, t: SureBytes) {
        put_named(&mut self.files, name, t.into_bytes());
    }

    fn replace(&mut self, name: &str, b: &[u8]) -> Result<(), IoFault> {
        make_room(self.alloc, &mut self.files, name)?;
        let Ok(bytes) = Vec::from_slice(self.alloc, b) else {
            return Err(IoFault::Memory);
        };
        put_named(&mut self.files, name, bytes);
        Ok(())
    }

    fn rename(&mut self, from: &str, to: &str) -> Result<(), OpenFault> {
        make_room(self.alloc, &mut self.files, to)?;
        rename_named(&mut self.files, from, to)
    }

    fn remove(&mut self, name: &str) -> Result<(), OpenFault> {
        make_room(self.alloc, &mut self.files, name)?;
        remove_named(&mut self.files, name)
    }

    fn look(&mut self, name: &str) -> Result<SureFolder, OpenFault> {
        make_room(self.alloc, &mut self.folders, name)?;
        let Ok(place) = Name::of(self.alloc, name) else {
            return Err(OpenFault::Memory);
        };
        look_at(&self.folders, name, place)
    }

    fn end_look(&mut self, l: SureFolder) {
        drop(l);
    }

    fn take_folder(&mut self, name: &str) -> Result<SureFolder, OpenFault> {
        make_room(self.alloc, &mut self.folders, name)?;
        let Ok(place) = Name::of(self.alloc, name) else {
            return Err(OpenFault::Memory);
        };
        take_folder(&mut self.folders, name, place)
    }

    fn give_folder(&mut self, name: &str, d: SureFolder) {
        put_named(&mut self.folders, name, d);
    }

    ghost told = { λ _. (refl, refl) };

    ghost sure = { Prim.search rules };

    ghost alike = { (λ _. (refl, refl, refl, refl), λ _. (refl, refl, refl, refl)) };

    ghost unnamed = { (refl, refl, refl) };
}

// Makes room for the name. Its only fault is want of memory.
fn make_room<V: Drop>(alloc: Global, slots: &mut Slots<V>, name: &str) -> Result<(), IoFault>
    ensures kept { (q : List ℕ) → held_in slots.new q ≡ held_in slots.old q }
    ensures counts { Counted (zeros_in slots.old) (zeros_in slots.new) name.now }
    ensures known { OnOk result (IsSome (zeros_in slots.new name.now)) }
    ensures only { result ≢ Err IoFault.Failed }
    ensures room { IsSome (zeros_in slots.old name.now) → IsOk result }
{
    match claim(alloc, slots, name) {
        Ok(()) => Ok(()),
        Err(_) => Err(IoFault::Memory),
    }
}

// Takes out a file, which is empty where there is none.
fn take_file(alloc: Global, files: &mut Slots<Vec<u8>>, name: &str) -> Vec<u8>
    ensures bytes { result.items ≡ unwrap_or (files_in files.old name.now) [] }
    ensures files { (q : List ℕ) → files_in files.new q ≡ at_name (files_in files.old) name.now None q }
    ensures counts { (q : List ℕ) → zeros_in files.new q ≡ zeros_in files.old q }
{
    take_out(files, name).unwrap_or(Vec::new(alloc))
}

impl ImageFiles for SureFiles {
    type Inner = NoFolders;

    fn inner(&self, folder: &str) -> Option<NoFolders> {
        NoFolders::of(self.alloc, folder)
    }

    ghost untold = { λ t. t };

    ghost unseen = { (λ t. t, λ t. t) };
}

// A copy of a file's bytes.
fn copy_of(alloc: Global, files: &Slots<Vec<u8>>, name: &str) -> Result<Option<Vec<u8>>, AllocError>
    ensures { IfOk result (λ o. option_map (λ b. b.items) o ≡ files_in files.now name.now) }
{
    match get_named(files, name) {
        Some(bytes) => Ok(Some(Vec::from_slice(alloc, bytes)?)),
        None => Ok(None),
    }
}
