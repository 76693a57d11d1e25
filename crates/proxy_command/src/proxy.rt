//! `chunk-server -s STORE.. -e RETRIES -c CACHE -l HOST:PORT -n N`: the chunks of CACHE over connections and, where it
//! doesn't give them, those of 1 to 16 stores, which may stand in groups, and which are added to it. Where N is 1
//! connections are served one after the other, else each in a thread of its own.

ghost use Rattle.std.specs.Prelude.{◌≡◌, ◌==◌, All, IsSome, Some, false, true};
ghost use Rattle.cache_store.specs.Shelves.{shelf_of};
ghost use Rattle.command_groups.specs.Chains.{CanGiveChain, IsChainGiven};
ghost use Rattle.command_groups.specs.Groups.{AreGroups, stores_of};
ghost use Rattle.command_steps.specs.Cache.{CacheGiven, with_cache};
ghost use Rattle.command_steps.specs.Sources.{storage};
ghost use Rattle.command_steps.specs.Stores.{are_folders};
ghost use Rattle.command_steps.specs.Turns.{GivenInTurn};
ghost use Rattle.command_worlds.specs.Worlds.{world};
ghost use Rattle.dsy_base.specs.Disk.{Disk, Output};
ghost use Rattle.proxy_command.specs.ProxyServing.{ProxyServed, ProxyServerEnds, look_types};
ghost use Rattle.proxy_command.specs.Reaching.{HasReached};
ghost use Rattle.server_commands.specs.Serving.{heard};

use crate::reach::{Reached, reach};
use crate::serve_folders::{groups_are_folders, serve_folders};
use crate::serving::serve_by;
use chunk_store::id::DigestKind;
use chunk_store::store::Store;
use command_groups::chains::close_chains;
use command_outcome::outcome::Outcome;
use command_steps::any_store::AnyStore;
use command_steps::cache::give_shelf;
use command_words::command::Groups;
use dsy_base::dial::Dial;
use dsy_base::files::Files;
use dsy_base::folder::Folder;
use dsy_base::image_files::ImageFiles;
use dsy_base::listen::Listen;
use dsy_base::look::Look;
use dsy_base::name::Name;
use server_commands::address::Address;
use std::alloc::Global;
use std::sync::Wait;
use std::thread::Threads;
use store_group::group::Group;

/// The words of a `chunk-server` with a cache.
#[derive(Drop)]
pub struct ProxyWords {
    pub stores: Groups,
    /// How often a call that fails is made again.
    pub retries: u32,
    pub cache: Name,
    pub address: Address,
    /// Which digest names the chunks.
    pub kind: DigestKind,
    pub workers: u32,
}

// Gives the cache back, and then the stores.
fn give_back<F: Files, D: Dial>(
    files: &mut F,
    dial: &mut D,
    cache: &str,
    reached: Reached<F::Folder, Group<AnyStore<F::Look, D>>>,
)
    requires named { F.Folder.place reached.shelf.folder ≡ cache.now }
    requires known { IsSome ((F.disk files.old).folder_counts cache.now) }
    requires given { All (CanGiveChain F.Look.Look (F.disk files.old)) reached.chains.items }
    ensures given { (m : Disk)
        × CacheGiven (Some (shelf_of F.Folder.files F.Folder.place F.Folder.faults reached.shelf)) (F.disk files.old) m
        × GivenInTurn (IsChainGiven F.Look.Look D.state) reached.chains.items
        (storage m (D.state dial.old)) (storage (F.disk files.new) (D.state dial.new)) }
{
    let Reached { shelf, chains } = reached;
    give_shelf(files, cache, shelf);
    close_chains(files, dial, chains);
}

// Serves what was reached, where a store is a server. Cache and stores are given back, whatever the answer is.
fn serve_any<R: Threads + Wait + Sync, F: ImageFiles, D: Dial + Send, L: Listen>(
    rt: &R,
    alloc: Global,
    files: &mut F,
    dial: &mut D,
    listen: &mut L,
    words: &ProxyWords,
    reached: Reached<F::Folder, Group<AnyStore<F::Look, D>>>,
) -> Result<(), Outcome>
where
    F::Look: Send,
    F::Folder: Send,
    D::Link: Send,
    L::Link: Send,
    requires server { are_folders (stores_of words.now.stores) ≡ false }
    requires reached { HasReached F.Look.Look D.state ⟦<Group<AnyStore<F::Look, D>> as Store>⟧
        words.now.stores words.now.retries words.now.cache words.now.kind words.now.workers (F.disk files.old)
        (shelf_of F.Folder.files F.Folder.place F.Folder.faults reached.shelf) reached.chains.items }
    ensures served { ProxyServed (look_types F.Look.never_fails F.Look.may_lack_memory)
        (heard F.Folder.never_fails (L.state listen.old) (L.state listen.new))
        words.now.stores words.now.retries words.now.cache words.now.kind (words.now.workers == 1)
        (storage (with_cache (Some (shelf_of F.Folder.files F.Folder.place F.Folder.faults reached.shelf))
        (F.disk files.old)) (D.state dial.old)) result (storage (F.disk files.new) (D.state dial.new)) }
{
    let (reached, answer) = serve_by(rt, alloc, listen, words, reached);
    give_back(files, dial, words.cache.as_str(), reached);
    answer
}

// Serves what was reached.
fn serve_between<R: Threads + Wait + Sync, F: ImageFiles, D: Dial + Send, L: Listen>(
    rt: &R,
    alloc: Global,
    files: &mut F,
    dial: &mut D,
    listen: &mut L,
    words: &ProxyWords,
    reached: Reached<F::Folder, Group<AnyStore<F::Look, D>>>,
) -> Result<(), Outcome>
where
    F::Look: Send,
    F::Folder: Send,
    D::Link: Send,
    L::Link: Send,
    requires groups { AreGroups words.now.stores words.now.retries }
    requires reached { HasReached F.Look.Look D.state ⟦<Group<AnyStore<F::Look, D>> as Store>⟧
        words.now.stores words.now.retries words.now.cache words.now.kind words.now.workers (F.disk files.old)
        (shelf_of F.Folder.files F.Folder.place F.Folder.faults reached.shelf) reached.chains.items }
    ensures served { ProxyServed (look_types F.Look.never_fails F.Look.may_lack_memory)
        (heard F.Folder.never_fails (L.state listen.old) (L.state listen.new))
        words.now.stores words.now.retries words.now.cache words.now.kind (words.now.workers == 1)
        (storage (with_cache (Some (shelf_of F.Folder.files F.Folder.place F.Folder.faults reached.shelf))
        (F.disk files.old)) (D.state dial.old)) result (storage (F.disk files.new) (D.state dial.new)) }
{
    if groups_are_folders(words.stores.as_slice()) {
        serve_folders(rt, alloc, files, listen, words, reached)
    } else {
        serve_any(rt, alloc, files, dial, listen, words, reached)
    }
}

/// Serves the chunks of CACHE and of the stores over the connections that come at an address, until no more come. The
/// stores are asked in order for a chunk that CACHE doesn't give, and it is added to CACHE. Each worker has stores of
/// its own; where they can't be opened again there are fewer. Nobody is heard where a store or CACHE can't be reached.
pub fn proxy_server<R: Threads + Wait + Sync, F: ImageFiles, D: Dial + Send, L: Listen>(
    rt: &R,
    alloc: Global,
    files: &mut F,
    dial: &mut D,
    listen: &mut L,
    words: ProxyWords,
) -> Result<(), Outcome>
where
    F::Look: Send,
    F::Folder: Send,
    D::Link: Send,
    L::Link: Send,
    requires groups { AreGroups words.stores words.retries }
    ensures ends { (p : Output) →
        ProxyServerEnds (look_types F.Look.never_fails F.Look.may_lack_memory)
        (heard F.Folder.never_fails (L.state listen.old) (L.state listen.new))
        words.stores words.retries words.cache words.kind words.workers
        (world (F.disk files.old) (D.state dial.old) p) result
        (world (F.disk files.new) (D.state dial.new) p) }
{
    let reached = match reach(alloc, files, dial, &words) {
        Ok(reached) => reached,
        Err(outcome) => return Err(outcome),
    };
    serve_between(rt, alloc, files, dial, listen, &words, reached)
}
