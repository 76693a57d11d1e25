//! The cache of a command: its folder is taken to be written, and given back.

ghost use Rattle.std.specs.Prelude.{◌≡◌, [], Ok, Err, None, Some, IfOk, IfErr, OnOk, IsSome};
ghost use Rattle.std.specs.Option.{option_map};
ghost use Rattle.cache_store.specs.Shelves.{shelf_of};
ghost use Rattle.command_steps.specs.Cache.{CacheGiven, CacheOpened, with_cache};
ghost use Rattle.command_worlds.specs.Worlds.{Reads};
ghost use Rattle.dsy_base.specs.Maps.{at_name};

use crate::stores::not_reached;
use cache_store::shelf::CacheShelf;
use chunk_store::id::DigestKind;
use command_outcome::outcome::Outcome;
use dsy_base::files::Files;
use dsy_base::name::Name;
use std::alloc::Global;

/// Takes the folder of this name as a cache, whose chunks are named by this digest.
pub fn take_shelf<F: Files>(
    alloc: Global,
    files: &mut F,
    kind: DigestKind,
    name: &str,
) -> Result<CacheShelf<F::Folder>, Outcome>
    ensures ok { IfOk result (λ s. CacheOpened [] (Some name.now) (F.disk files.old) (Ok tt) (with_cache
        (Some (shelf_of F.Folder.files F.Folder.place F.Folder.faults s)) (F.disk files.new))) }
    ensures named { IfOk result (λ s. F.Folder.place s.folder ≡ name.now) }
    ensures fresh { IfOk result (λ s. (F.Folder.faults s.folder ≡ 0) × (s.kind ≡ kind)) }
    ensures known { OnOk result (IsSome ((F.disk files.new).folder_counts name.now)) }
    ensures gone { OnOk result ((F.disk files.new).folders ≡ option_map (λ m. at_name m name.now None)
        (F.disk files.old).folders) }
    ensures err { IfErr result (λ o. CacheOpened [] (Some name.now) (F.disk files.old) (Err o) (F.disk files.new)) }
{
    match files.take_folder(name) {
        Ok(folder) => Ok(CacheShelf::with_kind(kind, folder)),
        Err(fault) => Err(not_reached(alloc, name, fault)),
    }
}

/// Gives the folder of a cache back.
pub fn give_shelf<F: Files>(files: &mut F, name: &str, shelf: CacheShelf<F::Folder>)
    requires named { F.Folder.place shelf.folder ≡ name.now }
    requires known { IsSome ((F.disk files.old).folder_counts name.now) }
    ensures given { CacheGiven (Some (shelf_of F.Folder.files F.Folder.place F.Folder.faults shelf))
        (F.disk files.old) (F.disk files.new) }
{
    files.give_folder(name, shelf.into_inner())
}
