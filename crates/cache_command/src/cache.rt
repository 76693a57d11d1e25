//! `cache -s STORE.. -e RETRIES -c CACHE -n WORKERS INDEX..`: CACHE holds each chunk that the indexes list, with chunks
//! from 1 to 16 stores, which may stand in groups.

ghost use Rattle.std.specs.Prelude.{◌≡◌, ◌⊎◌, ℕ, List, ◌+◌, ◌-◌, ◌≤◌, ◌∷◌, length, All, IfOk, IfErr, Ok, Err, Some};
ghost use Rattle.std.specs.List.{AllZip};
ghost use Rattle.cache_command.specs.Caching.{CacheEnds, FillsEach, FrontSpelled, IndexesFilled, listed_times};
ghost use Rattle.cache_command.specs.Caching.{of_calls};
ghost use Rattle.cache_command.specs.Filling.{AreHad, AsksListings, HoldAlike, JustOpened, each_stores};
ghost use Rattle.chunk_dealing.specs.Dealing.{AsksInShares};
ghost use Rattle.cache_store.specs.Shelves.{shelf_of};
ghost use Rattle.caibx_codec.specs.Listing.{Listing};
ghost use Rattle.command_groups.specs.Chains.{chain_groups};
ghost use Rattle.command_groups.specs.Groups.{AreGroups, stores_of};
ghost use Rattle.command_steps.specs.Cache.{CacheOpened, with_cache};
ghost use Rattle.command_steps.specs.Sources.{SourcesOpened, storage};
ghost use Rattle.command_words.specs.Locations.{NamesIndex};
ghost use Rattle.command_worlds.specs.Worlds.{world};
ghost use Rattle.dsy_base.specs.Disk.{Disk, Output};

use crate::filling::{Filling, fill_by, filling_of};
use chunk_store::id::DigestKind;
use chunk_store::store::Store;
use command_groups::chains::{close_chains, drop_chains, open_chains};
use command_groups::groups::{close_groups, drop_groups, open_groups};
use command_groups::numbers::numbered;
use command_indexes::load::load_index;
use command_outcome::outcome::Outcome;
use command_steps::any_store::AnyStore;
use command_steps::cache::{give_shelf, take_shelf};
use command_words::command::{Groups, Locations, Names};
use dsy_base::dial::Dial;
use dsy_base::files::Files;
use dsy_base::folder::Folder;
use dsy_base::image_files::ImageFiles;
use dsy_base::look::Look;
use dsy_base::name::Name;
use std::alloc::Global;
use std::thread::Threads;
use store_group::group::Group;

/// The words of a `cache`.
#[derive(Drop)]
pub struct CacheWords {
    pub stores: Groups,
    /// How often a call that fails is made again.
    pub retries: u32,
    pub cache: Name,
    /// How many workers ask the stores, at most.
    pub workers: u32,
    pub indexes: Names,
}

// Reads the rest of the indexes in their order, and fills the cache by each.
#[tactic(auto, using(crate::proofs::Had::first_named))]
fn fill_each<R: Threads + Sync, F: Files, D: Dial, S: Store + Send>(
    rt: &R,
    alloc: Global,
    files: &mut F,
    dial: &mut D,
    indexes: &[Name],
    filling: Filling<F::Folder, S>,
) -> (Filling<F::Folder, S>, Result<(), Outcome>)
    requires alike { HoldAlike S.Store filling.cached.chain filling.further.items }
    requires named { All NamesIndex indexes.now }
    ensures filled { FillsEach (of_calls S.Store (each_stores (filling.cached.chain ∷ filling.further.items))
        (each_stores (result.0.cached.chain ∷ result.0.further.items)) result.0.refuser
        (F.Folder.faults filling.cached.shelf.folder) (F.Folder.faults result.0.cached.shelf.folder))
        (storage (F.disk files.old) (D.state dial.old)) (storage (F.disk files.new) (D.state dial.new)) indexes.now
        (F.Folder.files filling.cached.shelf.folder) (F.Folder.files result.0.cached.shelf.folder) result.1 }
    ensures had { AreHad indexes.now (storage (F.disk files.old) (D.state dial.old))
        (storage (F.disk files.new) (D.state dial.new)) }
    ensures asks { (ls : List Listing)
        × FrontSpelled (storage (F.disk files.old) (D.state dial.old)) (storage (F.disk files.new) (D.state dial.new))
        indexes.now ls
        × AllZip (AsksListings S.Store ls)
        (filling.cached.chain ∷ filling.further.items) (result.0.cached.chain ∷ result.0.further.items)
        × AsksInShares S.asked (listed_times ls)
        (filling.cached.chain ∷ filling.further.items) (result.0.cached.chain ∷ result.0.further.items) }
    ensures refuser { filling.refuser ≤ length filling.further.items →
        result.0.refuser ≤ length result.0.further.items }
    ensures place { F.Folder.place result.0.cached.shelf.folder ≡ F.Folder.place filling.cached.shelf.folder }
    ensures never_falls { F.Folder.faults filling.cached.shelf.folder
        ≤ F.Folder.faults result.0.cached.shelf.folder }
{
    let Some((first, rest)) = indexes.split_first() else {
        return (filling, Ok(()));
    };
    let Ok(name) = Name::of(alloc, first.as_str()) else {
        return (filling, Err(Outcome::Memory));
    };
    let index = match load_index(alloc, files, dial, name) {
        Ok(index) => index,
        Err(outcome) => return (filling, Err(outcome)),
    };
    let (filling, filled) = fill_by(rt, alloc, &index, filling);
    match filled {
        Ok(()) => fill_each(rt, alloc, files, dial, rest, filling),
        Err(outcome) => (filling, Err(outcome)),
    }
}

// Opens the groups of stores in their order, for the first worker and then for the others, and takes the folder of the
// cache. No index was read yet, so its kind isn't known: filling by an index makes cache and chains anew.
fn reach<F: ImageFiles, D: Dial>(
    alloc: Global,
    files: &mut F,
    dial: &D,
    groups: &[Locations],
    retries: u32,
    cache: &str,
    workers: u32,
) -> Result<Filling<F::Folder, Group<AnyStore<F::Look, D>>>, Outcome>
    requires groups { AreGroups groups.now retries }
    ensures ok { IfOk result (λ f. (m : Disk) × SourcesOpened (stores_of groups.now) (F.disk files.old) (Ok tt) m
        × CacheOpened (stores_of groups.now) (Some cache.now) m (Ok tt) (with_cache
        (Some (shelf_of F.Folder.files F.Folder.place F.Folder.faults f.cached.shelf)) (F.disk files.new))) }
    ensures fresh { IfOk result (λ f. JustOpened F.Look.Look D.state retries
        ⟦<Group<AnyStore<F::Look, D>> as Store>⟧ (F.disk files.new) cache.now
        (shelf_of F.Folder.files F.Folder.place F.Folder.faults f.cached.shelf) f.cached.chain f.further.items) }
    ensures located { IfOk result (λ f. chain_groups F.Look.Look f.cached.chain ≡ groups.now) }
    ensures few { IfOk result (λ f. length f.further.items ≤ workers - 1) }
    ensures refuser { IfOk result (λ f. f.refuser ≡ 0) }
    ensures err { IfErr result (λ o. SourcesOpened (stores_of groups.now) (F.disk files.old) (Err o) (F.disk files.new)
        ⊎ ((m : Disk) × SourcesOpened (stores_of groups.now) (F.disk files.old) (Ok tt) m
        × CacheOpened (stores_of groups.now) (Some cache.now) m (Err o) (F.disk files.new))) }
{
    let opened = match open_groups(alloc, files, dial, groups, retries) {
        Ok(opened) => opened,
        Err(outcome) => return Err(outcome),
    };
    let kind = DigestKind::Sha512T256;
    let further = open_chains(alloc, files, dial, kind, groups, retries, workers as usize);
    match take_shelf(alloc, files, kind, cache) {
        Ok(shelf) => Ok(filling_of(shelf, opened, further)),
        Err(outcome) => {
            drop_chains(files, further);
            drop_groups(files, opened);
            Err(outcome)
        }
    }
}

// Fills the cache whose folder was taken. Folder and stores are given back, whatever the answer is.
fn fill_between<R: Threads + Sync, F: Files, D: Dial + Send>(
    rt: &R,
    alloc: Global,
    files: &mut F,
    dial: &mut D,
    words: &CacheWords,
    filling: Filling<F::Folder, Group<AnyStore<F::Look, D>>>,
) -> Result<(), Outcome>
where
    F::Look: Send,
    D::Link: Send,
    requires groups { AreGroups words.now.stores words.now.retries }
    requires reached { JustOpened F.Look.Look D.state words.now.retries ⟦<Group<AnyStore<F::Look, D>> as Store>⟧
        (F.disk files.old) words.now.cache
        (shelf_of F.Folder.files F.Folder.place F.Folder.faults filling.cached.shelf)
        filling.cached.chain filling.further.items }
    requires refuser { filling.refuser ≡ 0 }
    requires located { chain_groups F.Look.Look filling.cached.chain ≡ words.now.stores }
    requires named { All NamesIndex words.now.indexes }
    ensures filled { IndexesFilled F.Look.never_fails words.now.stores words.now.retries words.now.cache
        (1 + length filling.further.items) words.now.indexes (storage (with_cache
        (Some (shelf_of F.Folder.files F.Folder.place F.Folder.faults filling.cached.shelf)) (F.disk files.old))
        (D.state dial.old)) result (storage (F.disk files.new) (D.state dial.new)) }
{
    let indexes = words.indexes.as_slice();
    let (filling, filled) = fill_each(rt, alloc, files, dial, indexes, filling);
    let Filling {
        cached,
        further,
        ..
    } = filling;
    let (shelf, chain) = cached.into_parts();
    let groups = chain.into_stores();
    let named = words.stores.as_slice();
    let answer = numbered(named, filled);
    give_shelf(files, words.cache.as_str(), shelf);
    close_chains(files, dial, further);
    close_groups(files, dial, groups);
    answer
}

/// Puts the chunks that the indexes list into CACHE, index by index, up to the first chunk that isn't obtained. What
/// CACHE holds already is left where it is right; what it lacks comes from the stores, which are asked in order. Each
/// worker has stores of its own; where they can't be opened again there are fewer.
pub fn fill_cache<R: Threads + Sync, F: ImageFiles, D: Dial + Send>(
    rt: &R,
    alloc: Global,
    files: &mut F,
    dial: &mut D,
    words: CacheWords,
) -> Result<(), Outcome>
where
    F::Look: Send,
    D::Link: Send,
    requires groups { AreGroups words.stores words.retries }
    requires named { All NamesIndex words.indexes }
    ensures ends { (p : Output) → CacheEnds F.Look.never_fails words.stores words.retries words.cache words.workers
        words.indexes (world (F.disk files.old) (D.state dial.old) p) result
        (world (F.disk files.new) (D.state dial.new) p) }
{
    let groups = words.stores.as_slice();
    let cache = words.cache.as_str();
    let reached = reach(
        alloc,
        files,
        dial,
        groups,
        words.retries,
        cache,
        words.workers,
    );
    let filling = match reached {
        Ok(filling) => filling,
        Err(outcome) => return Err(outcome),
    };
    fill_between(rt, alloc, files, dial, &words, filling)
}
