//! The lists of what lies in a folder store, in the order of their bytes.

ghost use Rattle.std.specs.Prelude.{◌≡◌, IfSome, IfOk, List, ℕ, map};
ghost use Rattle.std.specs.List.{filter, filter_map};
ghost use Rattle.dir_store.specs.Lists.{IsIdsOf, IsNamesWhere};
ghost use Rattle.dir_store.specs.Names.{id_at_path, is_stranger, is_temporary};
ghost use Rattle.dsy_base.specs.Counts.{CountsFaults};

use crate::names::{id_at_path, is_stranger, is_temporary};
use crate::store::DirStore;
use chunk_store::id::ChunkId;
use chunk_store::laws::path_is_listed;
use dsy_base::fault::IoFault;
use dsy_base::look::Look;
use dsy_base::name::Name;
use std::alloc::AllocError;

// The ids whose chunk files have these names.
fn ids_at(names: &Vec<Name>) -> Result<Vec<ChunkId>, AllocError>
    ensures value { IfOk result (λ v. map (λ id. id.0) v.items ≡ filter_map id_at_path names.now.items) }
{
    let mut ids = Vec::new(*names.allocator());
    for name in names {
        if let Some(id) = id_at_path(name.as_str()) {
            ids.push(id)?;
        }
    }
    Ok(ids)
}

// Keeps the names of temporary files.
fn keep_temporaries(names: &mut Vec<Name>)
    ensures value { names.new.items ≡ filter is_temporary names.old.items }
{
    names.retain(|name| is_temporary(name.as_str()));
}

// Keeps the names of strangers.
fn keep_strangers(names: &mut Vec<Name>)
    ensures value { names.new.items ≡ filter is_stranger names.old.items }
{
    names.retain(|name| is_stranger(name.as_str()));
}

impl<F: Look> DirStore<F> {
    /// The ids of all chunk files, each once, in the order of their bytes.
    pub fn ids(&mut self) -> Result<Vec<ChunkId>, IoFault>
        ensures found { IfOk result (λ v. IfSome (F.files self.old) (λ m. IsIdsOf m v.items)) }
        ensures kept { F.files self.new ≡ F.files self.old }
        ensures place { F.place self.new ≡ F.place self.old }
        ensures faults { CountsFaults IoFault.Failed IoFault.Memory (F.faults self.old) (F.faults self.new) result }
    {
        path_is_listed();
        let names = self.names()?;
        match ids_at(&names) {
            Ok(ids) => Ok(ids),
            Err(_) => Err(IoFault::Memory),
        }
    }

    /// The names of all temporary files, each once, in the order of their bytes.
    pub fn temporaries(&mut self) -> Result<Vec<Name>, IoFault>
        ensures found { IfOk result (λ v. IfSome (F.files self.old) (λ m. IsNamesWhere is_temporary m v.items)) }
        ensures kept { F.files self.new ≡ F.files self.old }
        ensures place { F.place self.new ≡ F.place self.old }
        ensures faults { CountsFaults IoFault.Failed IoFault.Memory (F.faults self.old) (F.faults self.new) result }
    {
        let mut names = self.names()?;
        keep_temporaries(&mut names);
        Ok(names)
    }

    /// The names of all files that are neither chunk files nor temporary ones, each once, in the order of their bytes.
    pub fn strangers(&mut self) -> Result<Vec<Name>, IoFault>
        ensures found { IfOk result (λ v. IfSome (F.files self.old) (λ m. IsNamesWhere is_stranger m v.items)) }
        ensures kept { F.files self.new ≡ F.files self.old }
        ensures place { F.place self.new ≡ F.place self.old }
        ensures faults { CountsFaults IoFault.Failed IoFault.Memory (F.faults self.old) (F.faults self.new) result }
    {
        let mut names = self.names()?;
        keep_strangers(&mut names);
        Ok(names)
    }
}
