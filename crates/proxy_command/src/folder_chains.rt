//! Chains of groups of folders, whose stores are of one type. They are made of chains of stores of any kind that were
//! opened, and given back.

ghost use Rattle.std.specs.Prelude.{◌≡◌, ◌++◌, ◌+◌, ◌≤◌, IfOk, IsTrue, OnOk, map, vec_capacity, vec_len};
ghost use Rattle.std.specs.Prelude.{All};
ghost use Rattle.command_steps.specs.AnyStores.{IsKnown, location_in};
ghost use Rattle.command_steps.specs.Stores.{are_folders, is_folder};
ghost use Rattle.command_worlds.specs.Worlds.{Reads};
ghost use Rattle.proxy_command.specs.FolderChains.{AreFolderGroups, AreOfFolders, IsFolderChain, IsFolderGroup};
ghost use Rattle.proxy_command.specs.FolderChains.{KnowsChains, KnowsFolders, KnowsGroups, any_group, any_store};
ghost use Rattle.proxy_command.specs.FolderChains.{folder_location};

use command_groups::chains::drop_chains;
use command_groups::groups::drop_groups;
use command_steps::any_store::AnyStore;
use command_steps::sources::drop_sources;
use dir_store::store::DirStore;
use dsy_base::dial::Dial;
use dsy_base::fault::Memory;
use dsy_base::files::Files;
use dsy_base::look::Look;
use std::alloc::Global;
use store_chain::chain::Chain;
use store_group::group::Group;

// ---- given back

// Gives a folder back.
fn close_folder<F: Files>(files: &mut F, folder: DirStore<F::Look>)
    requires known { IsKnown (F.disk files.old).folder_counts (folder_location F.Look.place folder) }
    ensures kept { Reads (F.disk files.old) (F.disk files.new) }
{
    files.end_look(folder.into_inner())
}

// Gives the folders back, the last first.
fn close_folders<F: Files>(files: &mut F, mut folders: Vec<DirStore<F::Look>>)
    requires known { KnowsFolders F.Look.place (F.disk files.old).folder_counts folders.items }
    ensures kept { Reads (F.disk files.old) (F.disk files.new) }
{
    match folders.pop() {
        Some(folder) => {
            close_folder(files, folder);
            close_folders(files, folders)
        }
        None => (),
    }
}

// The same of groups.
fn close_groups<F: Files>(files: &mut F, mut groups: Vec<Group<DirStore<F::Look>>>)
    requires known { KnowsGroups F.Look.place (F.disk files.old).folder_counts groups.items }
    ensures kept { Reads (F.disk files.old) (F.disk files.new) }
{
    match groups.pop() {
        Some(group) => {
            close_folders(files, group.into_stores());
            close_groups(files, groups)
        }
        None => (),
    }
}

/// Gives the folders of all chains back.
pub(crate) fn close_chains<F: Files>(
    files: &mut F,
    mut chains: Vec<Chain<Group<DirStore<F::Look>>>>,
)
    requires known { KnowsChains F.Look.place (F.disk files.old).folder_counts chains.items }
    ensures kept { Reads (F.disk files.old) (F.disk files.new) }
{
    match chains.pop() {
        Some(chain) => {
            close_groups(files, chain.into_stores());
            close_chains(files, chains)
        }
        None => (),
    }
}

// ---- taken out of stores of any kind

// The folder of a store that has one.
fn folder_of<L: Look, D: Dial>(store: AnyStore<L, D>) -> DirStore<L>
    requires folder { IsTrue (is_folder (location_in L.place store)) }
    ensures same { any_store result ≡ store }
{
    match store {
        AnyStore::Folder(folder) => folder,
        AnyStore::Http(_) => unreachable!(),
    }
}

// Puts the folders of the stores behind those for which room was taken.
fn move_folders<L: Look, D: Dial>(mut from: Vec<AnyStore<L, D>>, to: &mut Vec<DirStore<L>>)
    requires folders { IsTrue (are_folders (map (location_in L.place) from.items)) }
    requires room { vec_len to.old + vec_len from ≤ vec_capacity to.old }
    ensures same { map any_store to.new.items ≡ map any_store to.old.items ++ from.items }
{
    if from.is_empty() {
        return;
    }
    let store = from.remove(0);
    to.push_reserved(folder_of(store));
    move_folders(from, to)
}

// The folders of the stores. Where there is no room for them, the stores are given back.
fn folders_of<F: Files, D: Dial>(
    alloc: Global,
    files: &mut F,
    stores: Vec<AnyStore<F::Look, D>>,
) -> Result<Vec<DirStore<F::Look>>, Memory>
    requires folders { IsTrue (are_folders (map (location_in F.Look.place) stores.items)) }
    requires known { All (IsKnown (F.disk files.old).folder_counts) (map (location_in F.Look.place) stores.items) }
    ensures ok { IfOk result (λ v. map any_store v.items ≡ stores.items) }
    ensures kept { Reads (F.disk files.old) (F.disk files.new) }
{
    let Ok(mut folders) = Vec::with_capacity(alloc, stores.len()) else {
        drop_sources(files, stores);
        return Err(Memory);
    };
    move_folders(stores, &mut folders);
    Ok(folders)
}

// The group of the same folders.
fn group_of<F: Files, D: Dial>(
    alloc: Global,
    files: &mut F,
    group: Group<AnyStore<F::Look, D>>,
    retries: u32,
) -> Result<Group<DirStore<F::Look>>, Memory>
    requires group { IsFolderGroup F.Look.place (F.disk files.old).folder_counts retries group }
    ensures ok { IfOk result (λ g. any_group g ≡ group) }
    ensures kept { Reads (F.disk files.old) (F.disk files.new) }
{
    match folders_of(alloc, files, group.into_stores()) {
        Ok(folders) => Ok(Group::new(folders, retries)),
        Err(fault) => Err(fault),
    }
}

// Puts the groups of the same folders behind those for which room was taken. Where there is no room for the folders of
// one, it and those after it are given back.
fn move_groups<F: Files, D: Dial>(
    alloc: Global,
    files: &mut F,
    mut from: Vec<Group<AnyStore<F::Look, D>>>,
    retries: u32,
    to: &mut Vec<Group<DirStore<F::Look>>>,
) -> Result<(), Memory>
    requires groups { AreFolderGroups F.Look.place (F.disk files.old).folder_counts retries from.items }
    requires known { KnowsGroups F.Look.place (F.disk files.old).folder_counts to.old.items }
    requires room { vec_len to.old + vec_len from ≤ vec_capacity to.old }
    ensures ok { OnOk result (map any_group to.new.items ≡ map any_group to.old.items ++ from.items) }
    ensures known { KnowsGroups F.Look.place (F.disk files.new).folder_counts to.new.items }
    ensures kept { Reads (F.disk files.old) (F.disk files.new) }
{
    if from.is_empty() {
        return Ok(());
    }
    let group = from.remove(0);
    match group_of(alloc, files, group, retries) {
        Ok(group) => {
            to.push_reserved(group);
            move_groups(alloc, files, from, retries, to)
        }
        Err(fault) => {
            drop_groups(files, from);
            Err(fault)
        }
    }
}

// The chain of the same groups.
fn chain_of<F: Files, D: Dial>(
    alloc: Global,
    files: &mut F,
    chain: Chain<Group<AnyStore<F::Look, D>>>,
    retries: u32,
) -> Result<Chain<Group<DirStore<F::Look>>>, Memory>
    requires chain { IsFolderChain F.Look.place (F.disk files.old).folder_counts retries chain }
    ensures groups { IfOk result (λ c. map any_group c.stores ≡ chain.stores) }
    ensures kind { IfOk result (λ c. c.kind ≡ chain.kind) }
    ensures kept { Reads (F.disk files.old) (F.disk files.new) }
{
    let kind = chain.kind();
    let groups = chain.into_stores();
    let Ok(mut moved) = Vec::with_capacity(alloc, groups.len()) else {
        drop_groups(files, groups);
        return Err(Memory);
    };
    match move_groups(alloc, files, groups, retries, &mut moved) {
        Ok(()) => Ok(Chain::with_kind(kind, moved)),
        Err(fault) => {
            close_groups(files, moved);
            Err(fault)
        }
    }
}

// The same of chains.
fn move_chains<F: Files, D: Dial>(
    alloc: Global,
    files: &mut F,
    mut from: Vec<Chain<Group<AnyStore<F::Look, D>>>>,
    retries: u32,
    to: &mut Vec<Chain<Group<DirStore<F::Look>>>>,
) -> Result<(), Memory>
    requires chains { All (IsFolderChain F.Look.place (F.disk files.old).folder_counts retries) from.items }
    requires known { KnowsChains F.Look.place (F.disk files.old).folder_counts to.old.items }
    requires room { vec_len to.old + vec_len from ≤ vec_capacity to.old }
    ensures groups { OnOk result (map (λ c. map any_group c.stores) to.new.items
        ≡ map (λ c. map any_group c.stores) to.old.items ++ map (λ c. c.stores) from.items) }
    ensures kinds { OnOk result (map (λ c. c.kind) to.new.items
        ≡ map (λ c. c.kind) to.old.items ++ map (λ c. c.kind) from.items) }
    ensures known { KnowsChains F.Look.place (F.disk files.new).folder_counts to.new.items }
    ensures kept { Reads (F.disk files.old) (F.disk files.new) }
{
    if from.is_empty() {
        return Ok(());
    }
    let chain = from.remove(0);
    match chain_of(alloc, files, chain, retries) {
        Ok(chain) => {
            to.push_reserved(chain);
            move_chains(alloc, files, from, retries, to)
        }
        Err(fault) => {
            drop_chains(files, from);
            Err(fault)
        }
    }
}

/// Chains of the same groups of folders, as stores of one type. Where there is no memory for them, all are given back.
pub(crate) fn folder_chains<F: Files, D: Dial>(
    alloc: Global,
    files: &mut F,
    chains: Vec<Chain<Group<AnyStore<F::Look, D>>>>,
    retries: u32,
) -> Result<Vec<Chain<Group<DirStore<F::Look>>>>, Memory>
    requires chains { All (IsFolderChain F.Look.place (F.disk files.old).folder_counts retries) chains.items }
    ensures ok { IfOk result (λ v. AreOfFolders chains.items v.items) }
    ensures known { IfOk result (λ v. KnowsChains F.Look.place (F.disk files.new).folder_counts v.items) }
    ensures kept { Reads (F.disk files.old) (F.disk files.new) }
{
    let Ok(mut moved) = Vec::with_capacity(alloc, chains.len()) else {
        drop_chains(files, chains);
        return Err(Memory);
    };
    match move_chains(alloc, files, chains, retries, &mut moved) {
        Ok(()) => Ok(moved),
        Err(fault) => {
            close_chains(files, moved);
            Err(fault)
        }
    }
}
