//! Folders whose type names the files that they began with, the name that they were taken under, how often they had
//! failed, which digest names their chunks, and what may be put into them. Sizes are in bytes.

ghost use Rattle.std.specs.Prelude.{◌≡◌, ◌≤◌, ℕ, List, [], Option, None};
ghost use Rattle.dsy_base.specs.Maps.{Map};

use dsy_base::fault::{FileFault, IoFault};
use dsy_base::folder::Folder;
use dsy_base::look::Look;
use dsy_base::name::Name;
use std::marker::{Brand, Model, PhantomData};

/// What the type of a folder names. Each call of a program picks it.
pub trait FolderName {
    /// The files that the folder began with.
    ghost opening: { Option (Map (List ℕ)) };

    /// The name that it was taken under.
    ghost place: { List ℕ };

    /// How often a call on it had failed.
    ghost faults: { ℕ };

    /// The kind of its chunks' digests, as a number.
    ghost kind: { ℕ };

    /// The ids of the chunks that may be put, each with its size.
    ghost pairs: { Option (List (List ℕ × ℕ)) };

    /// The maps of the stores of which one has to hold what is put.
    ghost stores: { Option (List (Map (List ℕ))) };
}

impl FolderName for Brand {
    ghost opening = { None };

    ghost place = { [] };

    ghost faults = { 0 };

    ghost kind = { 0 };

    ghost pairs = { None };

    ghost stores = { None };
}

/// A folder whose type names what N has.
#[derive(Drop)]
pub struct NamedFolder<F: Folder, N: FolderName> {
    folder: F,
    of: PhantomData<N>,
}

impl<F: Folder, N: FolderName> Model for NamedFolder<F, N> {
    ghost use Rattle.std.specs.Prelude.{◌≡◌, ◌≤◌};

    ghost Value = { F };

    ghost view = { λ s. s.folder };

    ghost invariant = { λ s. (F.place s.folder ≡ N.place) × (N.faults ≤ F.faults s.folder) };
}

impl<F: Folder, N: FolderName> NamedFolder<F, N> {
    pub fn new(folder: F) -> NamedFolder<F, N>
        requires place { F.place folder ≡ N.place }
        requires faults { N.faults ≤ F.faults folder }
        ensures { result ≡ folder }
    {
        NamedFolder {
            folder,
            of: PhantomData,
        }
    }

    pub fn into_inner(self) -> F
        ensures same { result ≡ self }
        ensures place { F.place result ≡ N.place }
        ensures faults { N.faults ≤ F.faults result }
    {
        self.folder
    }
}

impl<F: Folder, N: FolderName> Look for NamedFolder<F, N> {
    ghost files = { λ s. F.files s };

    ghost faults = { λ s. F.faults s };

    ghost place = { λ s. F.place s };

    ghost tells = { F.tells };

    ghost never_fails = { F.never_fails };

    ghost may_lack_memory = { F.may_lack_memory };

    fn read(&mut self, name: &str, out: &mut [u8]) -> Result<usize, FileFault> {
        self.folder.read(name, out)
    }

    fn has(&mut self, name: &str) -> Result<bool, IoFault> {
        self.folder.has(name)
    }

    fn names(&mut self) -> Result<Vec<Name>, IoFault> {
        self.folder.names()
    }

    ghost told = { F.told };

    ghost sure = { F.sure };
}

impl<F: Folder, N: FolderName> Folder for NamedFolder<F, N> {
    ghost opening = { N.opening };

    ghost kind = { N.kind };

    ghost pairs = { N.pairs };

    ghost stores = { N.stores };

    fn put(&mut self, name: &str, b: &[u8]) -> Result<(), IoFault> {
        self.folder.put(name, b)
    }

    fn remove(&mut self, name: &str) -> Result<bool, IoFault> {
        self.folder.remove(name)
    }
}
