//! Files and folders in memory by their names, with stated calls that fail.

ghost use Rattle.std.specs.Prelude.{◌≡◌, ◌≢◌, ℕ, List, [], None, Some, IsSome, IfOk, OnOk, OnErr, if◌then◌else◌};
ghost use Rattle.std.specs.Prelude.{Err, unwrap_or};
ghost use Rattle.std.specs.BTreeMap.{get_by_text};
ghost use Rattle.std.specs.Map.{count_at};
ghost use Rattle.std.specs.Option.{option_map};
ghost use Rattle.dsy_base.specs.Counts.{Counted, CountsFaults};
ghost use Rattle.dsy_base.specs.Files.{OpenGives, FoundThere};
ghost use Rattle.dsy_base.specs.Maps.{at_name};
ghost use Rattle.dsy_forms.specs.MemFiles.{files_in, folders_in, files_of, folders_of, file_counts_of};
ghost use Rattle.dsy_forms.specs.MemFiles.{folder_counts_of};
ghost use Rattle.dsy_base.specs.Slots.{counts_in, held_in};
ghost use Rattle.dsy_forms.specs.Trees.{map_of};

use crate::mem_folder::MemFolder;
use crate::memory_files::MemoryFiles;
use crate::slot_files::{
    get_named, look_at, put_named, remove_named, rename_named, set_named, take_folder,
};
use byte_forms::calls::{Calls, Fails};
use byte_forms::mem_target::{MemFile, MemTarget};
use byte_forms::mem_view::MemView;
use byte_forms::ranges::RangeFails;
use dsy_base::fault::{IoFault, Memory, OpenFault};
use dsy_base::files::Files;
use dsy_base::name::Name;
use dsy_base::slots::{Slots, claim, count, take_out};
use std::alloc::{AllocError, Global};
use std::collections::BTreeMap;

/// Files and folders in memory by their names.
#[derive(Drop)]
pub struct MemFiles {
    alloc: Global,
    files: Slots<MemFile>,
    folders: Slots<MemFolder>,
    // what calls on files that aren't there yet are to fail
    coming: BTreeMap<String, RangeFails>,
    calls: Calls,
}

impl MemFiles {
    pub fn new(alloc: Global, fails: Fails) -> MemFiles
        ensures files { (q : List ℕ) → files_of result q ≡ None }
        ensures folders { (q : List ℕ) → folders_of result q ≡ None }
        ensures counts { (q : List ℕ) → file_counts_of result q ≡ None }
        ensures folder_counts { (q : List ℕ) → folder_counts_of result q ≡ None }
        ensures said { result.calls.fails ≡ fails }
    {
        MemFiles {
            alloc,
            files: BTreeMap::new(alloc),
            folders: BTreeMap::new(alloc),
            coming: BTreeMap::new(alloc),
            calls: Calls::new(fails),
        }
    }

    /// Puts a file under the name, whose calls fail as stated.
    pub fn set_file(&mut self, name: &str, bytes: Vec<u8>, fails: RangeFails) -> Result<(), Memory>
        ensures ok { OnOk result (files_of self.new
            ≡ at_name (files_of self.old) name.now (Some bytes.items)) }
        ensures err { OnErr result (files_of self.new ≡ files_of self.old) }
        ensures folders { folders_of self.new ≡ folders_of self.old }
        ensures counts { Counted (file_counts_of self.old) (file_counts_of self.new) name.now }
        ensures kept { count_at (file_counts_of self.new) name.now
            ≡ count_at (file_counts_of self.old) name.now }
        ensures folder_counts { folder_counts_of self.new ≡ folder_counts_of self.old }
    {
        set_named(self.alloc, &mut self.files, name, MemFile { bytes, fails })
    }

    pub(crate) fn alloc(&self) -> Global {
        self.alloc
    }

    /// States which calls on a file fail that isn't there yet, once it is taken or replaced.
    #[tactic(auto, using(std::proofs::lemmas::Map::Text::text_keys))]
    pub fn set_target_fails(&mut self, name: &str, fails: RangeFails) -> Result<(), Memory>
        ensures said { OnOk result ((q : List ℕ) → get_by_text self.new.coming q
            ≡ at_name (λ p. get_by_text self.old.coming p) name.now (Some fails) q) }
        ensures files { files_of self.new ≡ files_of self.old }
        ensures folders { folders_of self.new ≡ folders_of self.old }
        ensures counts { file_counts_of self.new ≡ file_counts_of self.old }
        ensures folder_counts { folder_counts_of self.new ≡ folder_counts_of self.old }
    {
        let Ok(key) = String::from_str(self.alloc, name) else {
            return Err(Memory);
        };
        match self.coming.insert(key, fails) {
            Ok(_) => Ok(()),
            Err(_) => Err(Memory),
        }
    }
}

impl MemoryFiles for MemFiles {
    fn set_folder(&mut self, name: &str, f: MemFolder) -> Result<(), Memory> {
        set_named(self.alloc, &mut self.folders, name, f)
    }

    fn file(&self, name: &str) -> Option<&[u8]> {
        match get_named(&self.files, name) {
            Some(file) => Some(file.bytes.as_slice()),
            None => None,
        }
    }

    fn folder(&self, name: &str) -> Option<&MemFolder> {
        get_named(&self.folders, name)
    }
}

impl Files for MemFiles {
    type View = MemView;

    type Target = MemTarget;

    type Look = MemFolder;

    type Folder = MemFolder;

    ghost use Rattle.std.specs.Prelude.{Some, true, false, refl};
    ghost use Rattle.std.proofs.Common.{rules};
    ghost use Rattle.dsy_forms.specs.MemFiles.{disk_of};

    ghost disk = { disk_of };

    ghost tells = { true };

    ghost never_fails = { false };

    fn view(&mut self, name: &str) -> Result<MemView, OpenFault> {
        call_on(self.alloc, &mut self.files, &mut self.calls, name)?;
        let Ok(place) = Name::of(self.alloc, name) else {
            return Err(OpenFault::Memory);
        };
        match copy_of(self.alloc, &self.files, name) {
            Err(_) => Err(OpenFault::Memory),
            Ok(None) => Err(OpenFault::Absent),
            Ok(Some((bytes, reads))) => Ok(MemView::of(self.alloc, place, bytes, reads)),
        }
    }

    fn end_view(&mut self, v: MemView) {
        let (place, faults) = v.into_count();
        count(&mut self.files, place.as_str(), faults);
    }

    fn take(&mut self, name: &str, fresh: bool) -> Result<MemTarget, IoFault> {
        call_on(self.alloc, &mut self.files, &mut self.calls, name)?;
        let Ok(place) = Name::of(self.alloc, name) else {
            return Err(IoFault::Memory);
        };
        let file = take_file(self.alloc, &mut self.files, &mut self.coming, name);
        if fresh {
            return Ok(MemTarget::of(place, emptied(self.alloc, file)));
        }
        Ok(MemTarget::of(place, file))
    }

    fn give(&mut self, name: &str, t: MemTarget) {
        let (file, faults) = t.into_file();
        put_named(&mut self.files, name, file);
        count(&mut self.files, name, faults);
    }

    fn replace(&mut self, name: &str, b: &[u8]) -> Result<(), IoFault> {
        call_on(self.alloc, &mut self.files, &mut self.calls, name)?;
        let Ok(bytes) = Vec::from_slice(self.alloc, b) else {
            return Err(IoFault::Memory);
        };
        replace_file(self.alloc, &mut self.files, &mut self.coming, name, bytes);
        Ok(())
    }

    fn rename(&mut self, from: &str, to: &str) -> Result<(), OpenFault> {
        call_on(self.alloc, &mut self.files, &mut self.calls, to)?;
        rename_named(&mut self.files, from, to)
    }

    fn remove(&mut self, name: &str) -> Result<(), OpenFault> {
        call_on(self.alloc, &mut self.files, &mut self.calls, name)?;
        remove_named(&mut self.files, name)
    }

    fn look(&mut self, name: &str) -> Result<MemFolder, OpenFault> {
        call_on(self.alloc, &mut self.folders, &mut self.calls, name)?;
        let Ok(place) = Name::of(self.alloc, name) else {
            return Err(OpenFault::Memory);
        };
        look_at(&self.folders, name, place)
    }

    fn end_look(&mut self, l: MemFolder) {
        let (place, faults) = l.into_count();
        count(&mut self.folders, place.as_str(), faults);
    }

    fn take_folder(&mut self, name: &str) -> Result<MemFolder, OpenFault> {
        call_on(self.alloc, &mut self.folders, &mut self.calls, name)?;
        let Ok(place) = Name::of(self.alloc, name) else {
            return Err(OpenFault::Memory);
        };
        take_folder(&mut self.folders, name, place)
    }

    fn give_folder(&mut self, name: &str, d: MemFolder) {
        let faults = d.faults();
        put_named(&mut self.folders, name, d);
        count(&mut self.folders, name, faults);
    }

    ghost told = { λ _. (refl, refl) };

    ghost sure = { Prim.search rules };

    ghost alike = { Prim.search rules };

    ghost unnamed = { (refl, refl, refl) };
}

// Makes a call on a name: makes room for its number, and fails if the call is to fail.
#[tactic(auto, using(dsy_base::proofs::Counts::counted))]
fn call_on<V: Drop>(
    alloc: Global,
    slots: &mut Slots<V>,
    calls: &mut Calls,
    name: &str,
) -> Result<(), IoFault>
    ensures kept { (q : List ℕ) → held_in slots.new q ≡ held_in slots.old q }
    ensures counts { Counted (counts_in slots.old) (counts_in slots.new) name.now }
    ensures known { OnOk result (IsSome (counts_in slots.new name.now)) }
    ensures ok { OnOk result (count_at (counts_in slots.new) name.now ≡ count_at (counts_in slots.old) name.now) }
    ensures faults { CountsFaults IoFault.Failed IoFault.Memory (count_at (counts_in slots.old) name.now)
        (count_at (counts_in slots.new) name.now) result }
    ensures room { IsSome (counts_in slots.old name.now) → result ≢ Err IoFault.Memory }
{
    if claim(alloc, slots, name).is_err() {
        return Err(IoFault::Memory);
    }
    if calls.next_fails() {
        count(slots, name, 1);
        return Err(IoFault::Failed);
    }
    Ok(())
}

// Takes out a file, which is empty where there is none.
fn take_file(
    alloc: Global,
    files: &mut Slots<MemFile>,
    coming: &mut BTreeMap<String, RangeFails>,
    name: &str,
) -> MemFile
    ensures bytes { result.bytes.items ≡ unwrap_or (files_in files.old name.now) [] }
    ensures files { (q : List ℕ) → files_in files.new q
        ≡ at_name (files_in files.old) name.now None q }
    ensures counts { (q : List ℕ) → counts_in files.new q ≡ counts_in files.old q }
{
    match take_out(files, name) {
        Some(file) => file,
        None => MemFile {
            bytes: Vec::new(alloc),
            fails: coming.remove(name).unwrap_or(RangeFails::none(alloc)),
        },
    }
}

// Puts bytes in the place of what the name holds. The calls that are to fail stay.
fn replace_file(
    alloc: Global,
    files: &mut Slots<MemFile>,
    coming: &mut BTreeMap<String, RangeFails>,
    name: &str,
    bytes: Vec<u8>,
)
    requires { IsSome (counts_in files.old name.now) }
    ensures files { (q : List ℕ) → files_in files.new q
        ≡ at_name (files_in files.old) name.now (Some bytes.items) q }
    ensures counts { (q : List ℕ) → counts_in files.new q ≡ counts_in files.old q }
{
    let fails = take_file(alloc, files, coming, name).fails;
    put_named(files, name, MemFile { bytes, fails });
}

// The file with no bytes.
fn emptied(alloc: Global, file: MemFile) -> MemFile
    ensures { result.bytes.items ≡ [] }
{
    MemFile {
        bytes: Vec::new(alloc),
        fails: file.fails,
    }
}

type Copied = (Vec<u8>, Vec<(u64, u32)>);

// A copy of a file's bytes, and of the reads of it that are to fail.
fn copy_of(alloc: Global, files: &Slots<MemFile>, name: &str) -> Result<Option<Copied>, AllocError>
    ensures { IfOk result (λ o. option_map (λ c. c.0.items) o ≡ files_in files.now name.now) }
{
    match get_named(files, name) {
        Some(file) => {
            let bytes = Vec::from_slice(alloc, &file.bytes)?;
            let reads = Vec::from_slice(alloc, &file.fails.reads)?;
            Ok(Some((bytes, reads)))
        }
        None => Ok(None),
    }
}
