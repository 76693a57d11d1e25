//! The stores and the cache of a server, opened in order.

ghost use Rattle.std.specs.Prelude.{◌≡◌, ◌≤◌, ◌⊎◌, Ok, Err, Some, IfErr, IfOk, OnOk, max, vec_len};
ghost use Rattle.cache_store.specs.Shelves.{shelf_of};
ghost use Rattle.command_groups.specs.Groups.{AreGroups, stores_of};
ghost use Rattle.command_steps.specs.Cache.{CacheOpened, with_cache};
ghost use Rattle.command_steps.specs.Sources.{SourcesOpened};
ghost use Rattle.dsy_base.specs.Disk.{Disk};
ghost use Rattle.proxy_command.specs.Reaching.{AreWorkers, HasReached};

use crate::proxy::ProxyWords;
use cache_store::shelf::CacheShelf;
use chunk_store::store::Store;
use command_groups::chains::{drop_chain, drop_chains, open_chain, open_chains};
use command_outcome::outcome::Outcome;
use command_steps::any_store::AnyStore;
use command_steps::cache::take_shelf;
use dsy_base::dial::Dial;
use dsy_base::files::Files;
use dsy_base::folder::Folder;
use dsy_base::image_files::ImageFiles;
use dsy_base::look::Look;
use std::alloc::Global;
use store_chain::chain::Chain;
use store_group::group::Group;

/// A cache, and a chain of stores for each worker, the first worker's last.
#[derive(Drop)]
pub(crate) struct Reached<W: Folder, S: Store> {
    pub shelf: CacheShelf<W>,
    pub chains: Vec<Chain<S>>,
}

// Opens the groups of stores in their order, for the first worker and then for the others.
fn open_workers<F: Files, D: Dial>(
    alloc: Global,
    files: &mut F,
    dial: &D,
    words: &ProxyWords,
) -> Result<Vec<Chain<Group<AnyStore<F::Look, D>>>>, Outcome>
    requires groups { AreGroups words.now.stores words.now.retries }
    ensures ok { IfOk result (λ v. AreWorkers F.Look.Look D.state (F.disk files.old) (F.disk files.new)
        words.now.stores words.now.retries words.now.kind words.now.workers v.items) }
    ensures there { OnOk result (SourcesOpened (stores_of words.now.stores) (F.disk files.old) (Ok tt)
        (F.disk files.new)) }
    ensures err { IfErr result (λ o. SourcesOpened (stores_of words.now.stores) (F.disk files.old) (Err o)
        (F.disk files.new)) }
{
    let (kind, groups, retries) = (words.kind, words.stores.as_slice(), words.retries);
    let first = match open_chain(alloc, files, dial, kind, groups, retries) {
        Ok(first) => first,
        Err(outcome) => return Err(outcome),
    };
    let workers = words.workers as usize;
    let mut chains = open_chains(alloc, files, dial, kind, groups, retries, workers);
    match chains.push(first) {
        Ok(()) => Ok(chains),
        Err(full) => {
            drop_chains(files, chains);
            drop_chain(files, full.value);
            Err(Outcome::Memory)
        }
    }
}

/// Opens the stores, and takes the folder of the cache. Where it can't be taken the stores are let go.
pub(crate) fn reach<F: ImageFiles, D: Dial>(
    alloc: Global,
    files: &mut F,
    dial: &D,
    words: &ProxyWords,
) -> Result<Reached<F::Folder, Group<AnyStore<F::Look, D>>>, Outcome>
    requires groups { AreGroups words.now.stores words.now.retries }
    ensures ok { IfOk result (λ r. (m : Disk)
        × SourcesOpened (stores_of words.now.stores) (F.disk files.old) (Ok tt) m
        × CacheOpened (stores_of words.now.stores) (Some words.now.cache) m (Ok tt) (with_cache
        (Some (shelf_of F.Folder.files F.Folder.place F.Folder.faults r.shelf)) (F.disk files.new))) }
    ensures there { IfOk result (λ r. HasReached F.Look.Look D.state ⟦<Group<AnyStore<F::Look, D>> as Store>⟧
        words.now.stores words.now.retries words.now.cache words.now.kind words.now.workers (F.disk files.new)
        (shelf_of F.Folder.files F.Folder.place F.Folder.faults r.shelf) r.chains.items) }
    ensures err { IfErr result (λ o.
        SourcesOpened (stores_of words.now.stores) (F.disk files.old) (Err o) (F.disk files.new)
        ⊎ ((m : Disk) × SourcesOpened (stores_of words.now.stores) (F.disk files.old) (Ok tt) m
        × CacheOpened (stores_of words.now.stores) (Some words.now.cache) m (Err o) (F.disk files.new))) }
{
    let chains = match open_workers(alloc, files, dial, words) {
        Ok(chains) => chains,
        Err(outcome) => return Err(outcome),
    };
    match take_shelf(alloc, files, words.kind, words.cache.as_str()) {
        Ok(shelf) => Ok(Reached { shelf, chains }),
        Err(outcome) => {
            drop_chains(files, chains);
            Err(outcome)
        }
    }
}
