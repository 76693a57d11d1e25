//! The chunk files of a folder as a store. Sizes are in bytes.

ghost use Rattle.std.specs.Prelude.{◌≡◌, ◌≢◌, ◌<◌, ◌≤◌, Err, IfSome, IfOk, IsTrue, OnOk, OnErr, is_some, length};
ghost use Rattle.std.specs.Option.{option_map};
ghost use Rattle.caibx_fields.specs.Limits.{size_limit};
ghost use Rattle.chunk_store.specs.Causes.{CountsCause};
ghost use Rattle.chunk_store.specs.Folders.{chunks};
ghost use Rattle.chunk_store.specs.Gets.{GetGives};
ghost use Rattle.chunk_store.specs.Paths.{path_of};
ghost use Rattle.dir_store.specs.Names.{is_temporary};
ghost use Rattle.dir_store.specs.Puts.{PutsAtPath, LeavesTemporary, Removes};
ghost use Rattle.dsy_base.specs.Counts.{CountsFaults};
ghost use Rattle.dsy_base.specs.Maps.{IsNamesOf, at_name};

use crate::laws::chunk_is_no_temporary;
use caibx_fields::format::SIZE_LIMIT;
use chunk_store::id::ChunkId;
use chunk_store::laws::{id_has_32_bytes, path_names_one_id, temporary_is_no_path};
use chunk_store::store::{GetFault, Store, StoreWrite};
use dsy_base::fault::{FileFault, IoFault};
use dsy_base::folder::Folder;
use dsy_base::look::Look;
use dsy_base::name::Name;
use std::alloc::AllocError;
use std::marker::Model;

/// The chunk files of a folder, as a store. Contracts see it as the folder.
#[derive(Drop)]
pub struct DirStore<F: Look> {
    folder: F,
}

impl<F: Look> Model for DirStore<F> {
    ghost Value = { F };

    ghost view = { λ s. s.folder };
}

/// How many bytes of a chunk file are read at first: 256 KiB.
pub const FIRST_READ: usize = 262_144;

// Makes the buffer longer, at least twice as long where it may be.
fn grow(buffer: &mut Vec<u8>) -> Result<(), AllocError>
    requires room { length buffer.old.items < size_limit }
    ensures ok { OnOk result (length buffer.old.items < length buffer.new.items) }
    ensures room { length buffer.new.items ≤ size_limit }
{
    let size = (buffer.len() * 2).max(FIRST_READ).min(SIZE_LIMIT as usize);
    buffer.resize(size, 0)
}

impl<F: Look> DirStore<F> {
    pub fn new(folder: F) -> DirStore<F>
        ensures { result ≡ folder }
    {
        DirStore { folder }
    }

    pub fn into_inner(self) -> F
        ensures { result ≡ self }
    {
        self.folder
    }

    /// The names of all files that have at most one `/`, each once, in the order of their bytes.
    pub fn names(&mut self) -> Result<Vec<Name>, IoFault>
        ensures found { IfOk result (λ v. IfSome (F.files self.old) (λ m. IsNamesOf m v.items)) }
        ensures kept { F.files self.new ≡ F.files self.old }
        ensures place { F.place self.new ≡ F.place self.old }
        ensures faults { CountsFaults IoFault.Failed IoFault.Memory (F.faults self.old) (F.faults self.new) result }
    {
        self.folder.names()
    }

    // Reads the file of this id to the front of `out`.
    fn read(&mut self, id: &ChunkId, out: &mut [u8]) -> Result<usize, GetFault>
        ensures bytes { IfSome (option_map chunks (F.files self.old)) (λ m. GetGives (m id.now.0) result out.new) }
        ensures size { IfOk result (λ n. n ≤ length out.new) }
        ensures only { result ≡ Err GetFault.Memory → IsTrue F.may_lack_memory }
        ensures kept { F.files self.new ≡ F.files self.old }
        ensures place { F.place self.new ≡ F.place self.old }
        ensures unfailed { result ≢ Err GetFault.Failed → F.faults self.new ≡ F.faults self.old }
        ensures faults { CountsCause GetFault.Failed (F.faults self.old) (F.faults self.new) result }
    {
        let path = id.path();
        match self.folder.read(path.as_str(), out) {
            Ok(n) => Ok(n),
            Err(FileFault::Absent) => Err(GetFault::Missing),
            Err(FileFault::Longer) => Err(GetFault::Longer),
            Err(FileFault::Failed) => Err(GetFault::Failed),
            Err(FileFault::Memory) => Err(GetFault::Memory),
        }
    }

    /// Reads the file of this id to the front of the buffer, which becomes as long as is needed. `Longer`: the file has
    /// more than 64 MiB.
    pub fn read_whole(&mut self, id: &ChunkId, buffer: &mut Vec<u8>) -> Result<usize, GetFault>
        requires room { length buffer.old.items ≤ size_limit }
        ensures room { length buffer.new.items ≤ size_limit }
        ensures bytes { IfSome (option_map chunks (F.files self.old))
            (λ m. GetGives (m id.now.0) result buffer.new.items) }
        ensures ok { IfOk result (λ n. n ≤ length buffer.new.items) }
        ensures longer { result ≡ Err GetFault.Longer → length buffer.new.items ≡ size_limit }
        ensures kept { F.files self.new ≡ F.files self.old }
        ensures place { F.place self.new ≡ F.place self.old }
        ensures unfailed { result ≢ Err GetFault.Failed → F.faults self.new ≡ F.faults self.old }
        ensures faults { CountsCause GetFault.Failed (F.faults self.old) (F.faults self.new) result }
    {
        while buffer.len() < SIZE_LIMIT as usize {
            match self.read(id, buffer.as_mut_slice()) {
                Err(GetFault::Longer) => {}
                answer => return answer,
            }
            match grow(buffer) {
                Ok(()) => {}
                Err(_) => return Err(GetFault::Memory),
            }
        }
        self.read(id, buffer.as_mut_slice())
    }
}

impl<F: Folder> DirStore<F> {
    /// Writes the file of this id.
    pub fn write(&mut self, id: &ChunkId, b: &[u8]) -> Result<(), IoFault>
        ensures ok { OnOk result (PutsAtPath id.now.0 b.now (F.files self.old) (F.files self.new)) }
        ensures err { OnErr result (LeavesTemporary id.now.0 (F.files self.old) (F.files self.new)) }
        ensures place { F.place self.new ≡ F.place self.old }
        ensures faults { CountsFaults IoFault.Failed IoFault.Memory (F.faults self.old) (F.faults self.new) result }
    {
        let path = id.path();
        self.folder.put(path.as_str(), b)
    }

    /// Removes the file of this id, and answers whether there was one.
    pub fn remove(&mut self, id: &ChunkId) -> Result<bool, IoFault>
        ensures found { IfOk result (λ b. IfSome (F.files self.old) (λ m. b ≡ is_some (chunks m id.now.0))) }
        ensures ok { OnOk result (Removes (path_of id.now.0) (F.files self.old) (F.files self.new)) }
        ensures holds { OnOk result (option_map chunks (F.files self.new)
            ≡ option_map (λ m. at_name m id.now.0 None) (option_map chunks (F.files self.old))) }
        ensures err { OnErr result (F.files self.new ≡ F.files self.old) }
        ensures place { F.place self.new ≡ F.place self.old }
        ensures faults { CountsFaults IoFault.Failed IoFault.Memory (F.faults self.old) (F.faults self.new) result }
    {
        id_has_32_bytes(id);
        path_names_one_id();
        let path = id.path();
        self.folder.remove(path.as_str())
    }

    /// Removes the temporary file of this name, and answers whether there was one.
    pub fn remove_temporary(&mut self, name: &str) -> Result<bool, IoFault>
        requires named { IsTrue (is_temporary name.now) }
        ensures found { IfOk result (λ b. IfSome (F.files self.old) (λ m. b ≡ is_some (m name.now))) }
        ensures ok { OnOk result (Removes name.now (F.files self.old) (F.files self.new)) }
        ensures holds { option_map chunks (F.files self.new) ≡ option_map chunks (F.files self.old) }
        ensures err { OnErr result (F.files self.new ≡ F.files self.old) }
        ensures place { F.place self.new ≡ F.place self.old }
        ensures faults { CountsFaults IoFault.Failed IoFault.Memory (F.faults self.old) (F.faults self.new) result }
    {
        chunk_is_no_temporary();
        self.folder.remove(name)
    }
}

impl<F: Look> Store for DirStore<F> {
    ghost use Rattle.std.specs.Option.{option_map};
    ghost use Rattle.chunk_store.specs.Folders.{chunks};
    ghost use Rattle.chunk_store.specs.Said.{answers_alone, just_one, said_by, says_map, vouched_map};
    ghost use Rattle.dir_store.specs.Stores.{lies_map, unasked_map, told_map};

    ghost holds = { λ s. option_map chunks (F.files s) };

    ghost members = { λ s. just_one (option_map chunks (F.files s)) };

    ghost folder = { λ s. F.files s };

    ghost said = { λ s. said_by (option_map chunks (F.files s)) };

    ghost asked = { λ _ _. 0 };

    ghost queried = { λ _ _. 0 };

    ghost faults = { λ s. F.faults s };

    ghost place = { λ s. F.place s };

    ghost tells = { F.tells };

    ghost never_fails = { F.never_fails };

    ghost told_never_fail = { F.never_fails };

    ghost may_lack_memory = { F.may_lack_memory };

    fn get(&mut self, id: &ChunkId, out: &mut [u8]) -> Result<usize, GetFault> {
        self.read(id, out)
    }

    fn giver(&self) -> usize {
        0
    }

    fn has(&mut self, id: &ChunkId) -> Result<bool, IoFault> {
        let path = id.path();
        self.folder.has(path.as_str())
    }

    ghost alone = { λ s. answers_alone (option_map chunks (F.files s)) };

    ghost vouched = { λ s. vouched_map (option_map chunks (F.files s)) };

    ghost says = { λ s. says_map (option_map chunks (F.files s)) };

    ghost lies = { λ s. lies_map (F.files s) };

    ghost unasked = { λ s. unasked_map (option_map chunks (F.files s)) };

    ghost told = { λ s t. told_map F.tells (F.files s) (F.told s) t };

    ghost sure = { λ s t. F.sure s t };

    ghost steady = { λ s t _. F.sure s t };
}

impl<F: Folder> StoreWrite for DirStore<F> {
    fn put(&mut self, id: &ChunkId, b: &[u8]) -> Result<(), IoFault> {
        id_has_32_bytes(id);
        path_names_one_id();
        temporary_is_no_path();
        self.write(id, b)
    }
}
