//! Folders in memory, whose calls never fail. Names are relative, with `/` between components.

ghost use Rattle.std.specs.Prelude.{◌≡◌, ℕ, List, [], None, IfOk};
ghost use Rattle.dsy_forms.specs.Trees.{map_of};

use dsy_base::fault::{FileFault, IoFault};
use dsy_base::folder::Folder;
use dsy_base::look::Look;
use dsy_base::name::Name;
use dsy_base::temporary::temporary_name;
use dsy_forms::named_files::{copied, listed_names, put_file, read_whole, remove_file};
use dsy_forms::slot_files::{InSlot, SlotFolder};
use std::alloc::{AllocError, Global};
use std::collections::BTreeMap;

/// A folder in memory, or a look at one. Where there is no memory for a put, a temporary file of the same name may be
/// gone.
#[derive(Drop)]
pub struct SureFolder {
    alloc: Global,
    files: BTreeMap<String, Vec<u8>>,
    name: Name,
}

impl SureFolder {
    pub fn new(alloc: Global) -> SureFolder
        ensures files { (q : List ℕ) → map_of result.files q ≡ None }
        ensures place { result.name ≡ [] }
    {
        SureFolder {
            alloc,
            files: BTreeMap::new(alloc),
            name: Name::empty(alloc),
        }
    }
}

impl InSlot for SureFolder {
    ghost use Rattle.dsy_base.specs.Maps.{Map};
    ghost use Rattle.dsy_forms.specs.Trees.{map_of};

    ghost Shown = { Map (List ℕ) };

    ghost shows = { λ f. map_of f.files };
}

impl SlotFolder for SureFolder {
    ghost faults = { λ _. 0 };

    ghost place = { λ f. f.name };

    fn look(&self, name: Name) -> Result<SureFolder, AllocError> {
        Ok(SureFolder {
            alloc: self.alloc,
            files: copied(&self.files)?,
            name,
        })
    }

    fn taken(self, name: Name) -> SureFolder {
        SureFolder {
            alloc: self.alloc,
            files: self.files,
            name,
        }
    }
}

impl Look for SureFolder {
    ghost use Rattle.std.specs.Prelude.{Some, false, true, refl};
    ghost use Rattle.dsy_forms.specs.Trees.{map_of};

    ghost files = { λ d. Some (map_of d.files) };

    ghost faults = { λ _. 0 };

    ghost place = { λ d. d.name };

    ghost tells = { true };

    ghost never_fails = { true };

    ghost may_lack_memory = { false };

    fn read(&mut self, name: &str, out: &mut [u8]) -> Result<usize, FileFault> {
        match self.files.get(name) {
            None => Err(FileFault::Absent),
            Some(b) => read_whole(b, out),
        }
    }

    fn has(&mut self, name: &str) -> Result<bool, IoFault> {
        Ok(self.files.contains_key(name))
    }

    fn names(&mut self) -> Result<Vec<Name>, IoFault> {
        match listed_names(self.alloc, &self.files) {
            Ok(names) => Ok(names),
            Err(_) => Err(IoFault::Memory),
        }
    }

    ghost told = { λ _. refl };

    ghost sure = { λ _ _. refl };
}

impl Folder for SureFolder {
    fn put(&mut self, name: &str, b: &[u8]) -> Result<(), IoFault> {
        let Ok(temporary) = temporary_name(self.alloc, name) else {
            return Err(IoFault::Memory);
        };
        remove_file(&mut self.files, temporary.as_str());
        put_file(self.alloc, &mut self.files, name, b)
    }

    fn remove(&mut self, name: &str) -> Result<bool, IoFault> {
        Ok(remove_file(&mut self.files, name))
    }
}
