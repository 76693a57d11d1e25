//! Folders in memory, with stated calls that fail. Names are relative, with `/` between components.

ghost use Rattle.std.specs.Prelude.{◌≡◌, ◌≤◌, ℕ, List, [], None, IfOk, true, false};
ghost use Rattle.dsy_base.specs.Counts.{Rose};
ghost use Rattle.dsy_forms.specs.Trees.{map_of};

use crate::named_files::{copied, listed_names, put_file, read_whole, remove_file};
use crate::slot_files::{InSlot, SlotFolder};
use byte_forms::calls::{Calls, Fails};
use dsy_base::fault::{FileFault, IoFault, raise};
use dsy_base::folder::Folder;
use dsy_base::look::Look;
use dsy_base::name::Name;
use dsy_base::temporary::temporary_name;
use std::alloc::{AllocError, Global};
use std::collections::BTreeMap;

/// A folder in memory, or a look at one. A put that fails leaves its temporary file with all bytes.
#[derive(Drop)]
pub struct MemFolder {
    alloc: Global,
    files: BTreeMap<String, Vec<u8>>,
    calls: Calls,
    faults: u64,
    name: Name,
}

impl MemFolder {
    pub fn new(alloc: Global, fails: Fails) -> MemFolder
        ensures files { (q : List ℕ) → map_of result.files q ≡ None }
        ensures said { result.calls.fails ≡ fails }
        ensures faults { result.faults ≡ 0 }
        ensures place { result.name ≡ [] }
    {
        MemFolder {
            alloc,
            files: BTreeMap::new(alloc),
            calls: Calls::new(fails),
            faults: 0,
            name: Name::empty(alloc),
        }
    }

    /// How often a call on it has failed.
    pub(crate) fn faults(&self) -> u64
        ensures { result ≡ self.now.faults }
    {
        self.faults
    }

    /// The name, and how often a call on it has failed.
    pub(crate) fn into_count(self) -> (Name, u64)
        ensures place { result.0 ≡ self.name }
        ensures faults { result.1 ≡ self.faults }
    {
        (self.name, self.faults)
    }

    // Whether the call that is made now fails. If so, it counts a fault.
    fn fails_now(&mut self) -> bool
        ensures kept { (self.new.files ≡ self.old.files) × (self.new.name ≡ self.old.name) }
        ensures faults { self.old.faults ≤ self.new.faults }
        ensures cause { result ≡ true → Rose self.old.faults self.new.faults }
        ensures only { result ≡ false → self.new.faults ≡ self.old.faults }
    {
        if self.calls.next_fails() {
            self.faults = raise(self.faults, 1);
            true
        } else {
            false
        }
    }
}

impl InSlot for MemFolder {
    ghost use Rattle.dsy_base.specs.Maps.{Map};
    ghost use Rattle.dsy_forms.specs.Trees.{map_of};

    ghost Shown = { Map (List ℕ) };

    ghost shows = { λ f. map_of f.files };
}

impl SlotFolder for MemFolder {
    ghost faults = { λ f. f.faults };

    ghost place = { λ f. f.name };

    fn look(&self, name: Name) -> Result<MemFolder, AllocError> {
        Ok(MemFolder {
            alloc: self.alloc,
            files: copied(&self.files)?,
            calls: self.calls.again(self.alloc)?,
            faults: 0,
            name,
        })
    }

    fn taken(self, name: Name) -> MemFolder {
        MemFolder {
            alloc: self.alloc,
            files: self.files,
            calls: self.calls,
            faults: 0,
            name,
        }
    }
}

impl Look for MemFolder {
    ghost use Rattle.std.specs.Prelude.{Some, true, false, refl};
    ghost use Rattle.std.proofs.Common.{rules};
    ghost use Rattle.dsy_forms.specs.Trees.{map_of};

    ghost files = { λ l. Some (map_of l.files) };

    ghost faults = { λ l. l.faults };

    ghost place = { λ l. l.name };

    ghost tells = { true };

    ghost never_fails = { false };

    fn read(&mut self, name: &str, out: &mut [u8]) -> Result<usize, FileFault> {
        if self.fails_now() {
            return Err(FileFault::Failed);
        }
        match self.files.get(name) {
            None => Err(FileFault::Absent),
            Some(b) => read_whole(b, out),
        }
    }

    fn has(&mut self, name: &str) -> Result<bool, IoFault> {
        if self.fails_now() {
            return Err(IoFault::Failed);
        }
        Ok(self.files.contains_key(name))
    }

    fn names(&mut self) -> Result<Vec<Name>, IoFault> {
        if self.fails_now() {
            return Err(IoFault::Failed);
        }
        match listed_names(self.alloc, &self.files) {
            Ok(names) => Ok(names),
            Err(_) => Err(IoFault::Memory),
        }
    }

    ghost told = { λ _. refl };

    ghost sure = { Prim.search rules };
}

impl Folder for MemFolder {
    fn put(&mut self, name: &str, b: &[u8]) -> Result<(), IoFault> {
        let fails = self.calls.next_fails();
        let Ok(temporary) = temporary_name(self.alloc, name) else {
            return Err(IoFault::Memory);
        };
        if fails {
            let Ok(()) = put_file(self.alloc, &mut self.files, temporary.as_str(), b) else {
                return Err(IoFault::Memory);
            };
            self.faults = raise(self.faults, 1);
            return Err(IoFault::Failed);
        }
        remove_file(&mut self.files, temporary.as_str());
        put_file(self.alloc, &mut self.files, name, b)
    }

    fn remove(&mut self, name: &str) -> Result<bool, IoFault> {
        if self.fails_now() {
            return Err(IoFault::Failed);
        }
        Ok(remove_file(&mut self.files, name))
    }
}
