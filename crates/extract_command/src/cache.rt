//! The cache of an extraction, where there is one: its folder is taken to be written, and given back.

ghost use Rattle.std.specs.Prelude.{◌≡◌, [], Ok, Err, None, IfSome, IfOk, IfErr, OnOk, IsSome};
ghost use Rattle.std.specs.Option.{option_map};
ghost use Rattle.cache_store.specs.Shelves.{shelf_of};
ghost use Rattle.command_steps.specs.Cache.{CacheGiven, CacheOpened, with_cache};
ghost use Rattle.dsy_base.specs.Maps.{at_name};

use cache_store::shelf::CacheShelf;
use chunk_store::id::DigestKind;
use command_outcome::outcome::Outcome;
use command_steps::cache::{give_shelf, take_shelf};
use dsy_base::files::Files;
use dsy_base::folder::Folder;
use dsy_base::look::Look;
use dsy_base::name::Name;
use std::alloc::Global;

/// Takes the folder of a cache, where there is one. Its chunks are named by this digest.
pub(crate) fn take_cache<F: Files>(
    alloc: Global,
    files: &mut F,
    kind: DigestKind,
    cache: &Option<Name>,
) -> Result<Option<CacheShelf<F::Folder>>, Outcome>
    ensures ok { IfOk result (λ o. CacheOpened [] cache.now (F.disk files.old) (Ok tt) (with_cache
        (option_map (shelf_of F.Folder.files F.Folder.place F.Folder.faults) o) (F.disk files.new))) }
    ensures named { IfOk result (λ o. option_map (λ s. F.Folder.place s.folder) o ≡ cache.now) }
    ensures fresh { IfOk result (λ o. IfSome o (λ s. (F.Folder.faults s.folder ≡ 0) × (s.kind ≡ kind))) }
    ensures known { OnOk result (IfSome cache.now (λ q. IsSome ((F.disk files.new).folder_counts q))) }
    ensures gone { OnOk result (IfSome cache.now (λ q. (F.disk files.new).folders
        ≡ option_map (λ m. at_name m q None) (F.disk files.old).folders)) }
    ensures err { IfErr result (λ o. CacheOpened [] cache.now (F.disk files.old) (Err o) (F.disk files.new)) }
{
    let Some(name) = cache else {
        return Ok(None);
    };
    let shelf = take_shelf(alloc, files, kind, name.as_str())?;
    Ok(Some(shelf))
}

/// Gives the folder of a cache back, where there is one.
pub(crate) fn give_cache<F: Files>(
    files: &mut F,
    cache: &Option<Name>,
    taken: Option<CacheShelf<F::Folder>>,
)
    requires named { option_map (λ s. F.Folder.place s.folder) taken ≡ cache.now }
    requires known { IfSome cache.now (λ q. IsSome ((F.disk files.old).folder_counts q)) }
    ensures given { CacheGiven (option_map (shelf_of F.Folder.files F.Folder.place F.Folder.faults) taken)
        (F.disk files.old) (F.disk files.new) }
{
    let Some(shelf) = taken else {
        return;
    };
    let Some(name) = cache else {
        return;
    };
    give_shelf(files, name.as_str(), shelf)
}
