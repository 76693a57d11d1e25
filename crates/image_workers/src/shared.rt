//! The cache of an assembly behind a lock, while several workers ask and fill it.

ghost use Rattle.std.specs.Prelude.{◌≡◌, Bool, IfSome, IsTrue, None, Option, is_some};
ghost use Rattle.cache_store.specs.Shelves.{MayAdd, Shelf};
ghost use Rattle.chunk_sources.specs.Caches.{Stocked, seen};
ghost use Rattle.chunk_store.specs.Kinds.{kind_named};
ghost use Rattle.image_workers.specs.Shared.{NamesShelf, door_shelf};
ghost use Rattle.std.specs.Option.{option_map};
ghost use Rattle.locked_cache.specs.Additions.{shared_shelf};

use cache_store::shelf::CacheShelf;
use dsy_base::folder::Folder;
use dsy_base::look::Look;
use locked_cache::door::{CacheDoor, LockedCache};
use named_folders::named_folder::{FolderName, NamedFolder};
use std::sync::Wait;

/// The cache behind a lock, where there is one. The type of its folder names its kind and what it held.
pub(crate) fn lock_cache<F: Folder, N: FolderName>(
    cache: Option<CacheShelf<F>>,
) -> Option<LockedCache<NamedFolder<F, N>>>
    requires named { IfSome (seen F.Look cache) (NamesShelf (kind_named N.kind) N.opening N.place N.faults) }
    ensures there { is_some result ≡ is_some cache }
{
    match cache {
        Some(shelf) => {
            let kind = shelf.kind();
            let named: NamedFolder<F, N> = NamedFolder::new(shelf.into_inner());
            Some(LockedCache::new(CacheShelf::with_kind(kind, named)))
        }
        None => None,
    }
}

/// The cache as it comes out of the lock: workers have added only what the type of its folder lets them.
pub(crate) fn unlock_cache<F: Folder, N: FolderName>(
    cache: Option<LockedCache<NamedFolder<F, N>>>,
) -> Option<CacheShelf<F>>
    ensures stocked { (old : Option Shelf) → is_some old ≡ is_some cache →
        IfSome old (NamesShelf (kind_named N.kind) N.opening N.place N.faults) →
        IfSome old (λ s. is_some s.files ≡ F.tells) →
        Stocked (MayAdd (kind_named N.kind) N.pairs N.stores) old (seen F.Look result) }
{
    match cache {
        Some(cache) => {
            let shelf = cache.into_inner();
            let kind = shelf.kind();
            let folder = shelf.into_inner().into_inner();
            Some(CacheShelf::with_kind(kind, folder))
        }
        None => None,
    }
}

/// A door to the cache, where there is one.
pub(crate) fn door_of<'a, W: Wait, F: Folder>(
    rt: &'a W,
    cache: &'a Option<LockedCache<F>>,
) -> Option<CacheDoor<'a, W, F>>
    ensures fresh { option_map (λ d. shared_shelf (kind_named F.kind) F.opening F.pairs F.stores d.faults) result
        ≡ door_shelf (kind_named F.kind) F.opening F.pairs F.stores 0 cache.now }
{
    match cache {
        Some(cache) => Some(cache.door(rt)),
        None => None,
    }
}

/// Only for its contract: where no call on the folder fails, none through the door has.
pub(crate) fn door_keeps<W: Wait, F: Folder>(door: &Option<CacheDoor<'_, W, F>>)
    ensures sure { IsTrue F.never_fails → IfSome door.now (λ d. d.faults ≡ 0) }
{
    if let Some(door) = door {
        door.keeps();
    }
}
