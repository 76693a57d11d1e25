//! What was reached is served, where all stores are folders: they are of one type then, which tells what the type of
//! folders tells, and never fails where that doesn't.

ghost use Rattle.std.specs.Prelude.{◌≡◌, ◌==◌, ◌≤◌, ℕ, All, IfSome, IsTrue, Some, true};
ghost use Rattle.cache_store.specs.Shelves.{shelf_of};
ghost use Rattle.command_groups.specs.Groups.{AreGroups, stores_of};
ghost use Rattle.command_steps.specs.Cache.{with_cache};
ghost use Rattle.command_steps.specs.Sources.{storage};
ghost use Rattle.command_steps.specs.Stores.{are_folders};
ghost use Rattle.command_worlds.specs.Worlds.{Reads};
ghost use Rattle.dsy_base.specs.Links.{DialState};
ghost use Rattle.locked_shelf.specs.Keepings.{KeepsOpening};
ghost use Rattle.proxy_command.specs.ProxyServing.{IsServedFrom, ProxyServed, look_types};
ghost use Rattle.proxy_command.specs.Reaching.{HasReached};
ghost use Rattle.server_commands.specs.Serving.{heard};

use crate::folder_chains::{close_chains, folder_chains};
use crate::proxy::ProxyWords;
use crate::reach::Reached;
use crate::serving::serve_by;
use cache_store::shelf::CacheShelf;
use chunk_store::store::Store;
use command_outcome::outcome::Outcome;
use command_steps::any_store::AnyStore;
use command_steps::cache::give_shelf;
use command_words::command::{Location, Locations};
use dsy_base::dial::Dial;
use dsy_base::files::Files;
use dsy_base::folder::Folder;
use dsy_base::image_files::ImageFiles;
use dsy_base::listen::Listen;
use dsy_base::look::Look;
use std::alloc::Global;
use std::sync::Wait;
use std::thread::Threads;
use store_group::group::Group;

// Whether all of them are folders.
fn are_folders(stores: &[Location]) -> bool
    ensures { result ≡ are_folders stores.now }
{
    let Some((first, rest)) = stores.split_first() else {
        return true;
    };
    match first {
        Location::Folder(_) => are_folders(rest),
        Location::Http { .. } => false,
    }
}

/// Whether all stores of all groups are folders.
pub(crate) fn groups_are_folders(groups: &[Locations]) -> bool
    ensures { result ≡ are_folders (stores_of groups.now) }
{
    let Some((first, rest)) = groups.split_first() else {
        return true;
    };
    if are_folders(first.as_slice()) {
        groups_are_folders(rest)
    } else {
        false
    }
}

// Serves the cache, and gives the stores back. Where there is no memory for them nobody is heard.
fn serve_stores<R: Threads + Wait + Sync, F: ImageFiles, D: Dial, L: Listen>(
    rt: &R,
    alloc: Global,
    files: &mut F,
    listen: &mut L,
    words: &ProxyWords,
    reached: Reached<F::Folder, Group<AnyStore<F::Look, D>>>,
) -> (CacheShelf<F::Folder>, Result<(), Outcome>)
where
    F::Look: Send,
    F::Folder: Send,
    L::Link: Send,
    requires groups { AreGroups words.now.stores words.now.retries }
    requires folders { are_folders (stores_of words.now.stores) ≡ true }
    requires reached { HasReached F.Look.Look D.state ⟦<Group<AnyStore<F::Look, D>> as Store>⟧
        words.now.stores words.now.retries words.now.cache words.now.kind words.now.workers (F.disk files.old)
        (shelf_of F.Folder.files F.Folder.place F.Folder.faults reached.shelf) reached.chains.items }
    ensures served { IsServedFrom (look_types F.Look.never_fails F.Look.may_lack_memory)
        (heard F.Folder.never_fails (L.state listen.old) (L.state listen.new)) words.now.stores reached.shelf.kind
        (words.now.workers == 1)
        (with_cache (Some (shelf_of F.Folder.files F.Folder.place F.Folder.faults reached.shelf))
        (F.disk files.old)).folders (F.Folder.files reached.shelf.folder) (F.Folder.files result.0.folder) result.1 }
    ensures stocks { IfSome (F.Folder.files reached.shelf.folder)
        (λ first. KeepsOpening reached.shelf.kind first (F.Folder.files result.0.folder)) }
    ensures place { F.Folder.place result.0.folder ≡ F.Folder.place reached.shelf.folder }
    ensures kept { Reads (F.disk files.old) (F.disk files.new) }
{
    let Reached { shelf, chains } = reached;
    match folder_chains(alloc, files, chains, words.retries) {
        Ok(chains) => {
            let (reached, answer) = serve_by(rt, alloc, listen, words, Reached { shelf, chains });
            let Reached { shelf, chains } = reached;
            close_chains(files, chains);
            (shelf, answer)
        }
        Err(_) => (shelf, Err(Outcome::Memory)),
    }
}

/// Serves what was reached. The stores are given back, and then the cache, whatever the answer is.
pub(crate) fn serve_folders<R: Threads + Wait + Sync, F: ImageFiles, D: Dial, L: Listen>(
    rt: &R,
    alloc: Global,
    files: &mut F,
    listen: &mut L,
    words: &ProxyWords,
    reached: Reached<F::Folder, Group<AnyStore<F::Look, D>>>,
) -> Result<(), Outcome>
where
    F::Look: Send,
    F::Folder: Send,
    L::Link: Send,
    requires groups { AreGroups words.now.stores words.now.retries }
    requires folders { are_folders (stores_of words.now.stores) ≡ true }
    requires reached { HasReached F.Look.Look D.state ⟦<Group<AnyStore<F::Look, D>> as Store>⟧
        words.now.stores words.now.retries words.now.cache words.now.kind words.now.workers (F.disk files.old)
        (shelf_of F.Folder.files F.Folder.place F.Folder.faults reached.shelf) reached.chains.items }
    ensures served { (k : DialState) → ProxyServed (look_types F.Look.never_fails F.Look.may_lack_memory)
        (heard F.Folder.never_fails (L.state listen.old) (L.state listen.new))
        words.now.stores words.now.retries words.now.cache words.now.kind (words.now.workers == 1)
        (storage (with_cache (Some (shelf_of F.Folder.files F.Folder.place F.Folder.faults reached.shelf))
        (F.disk files.old)) k) result (storage (F.disk files.new) k) }
{
    let (shelf, answer) = serve_stores(rt, alloc, files, listen, words, reached);
    give_shelf(files, words.cache.as_str(), shelf);
    answer
}
