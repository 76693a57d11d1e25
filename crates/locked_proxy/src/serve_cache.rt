//! A cache before stores over connections: the type of the cache's folder names what it began with, and a type names
//! what the stores hold.

ghost use Rattle.std.specs.Prelude.{◌≡◌, ◌≢◌, ◌<◌, ◌≤◌, [], vec_len, All, IfSome, Some};
ghost use Rattle.chunk_store.specs.Kinds.{kind_named};
ghost use Rattle.dsy_base.specs.Counts.{Rose};
ghost use Rattle.locked_proxy.specs.Chains.{IsChainOf, maps_told, chain_places};
ghost use Rattle.locked_proxy.specs.Replies.{EndsThrough};
ghost use Rattle.locked_shelf.specs.Keepings.{KeepsOpening};
ghost use Rattle.locked_shelf.specs.Listening.{ServesAll, ServesSome};

use crate::proxy_name::ProxyName;
use crate::serve_proxy::serve_proxy;
use crate::shelf::ProxyShelf;
use cache_store::shelf::CacheShelf;
use chunk_store::store::Store;
use dsy_base::fault::IoFault;
use dsy_base::folder::Folder;
use dsy_base::listen::Listen;
use locked_shelf::serve_all::AllServed;
use named_folders::named_folder::{FolderName, NamedFolder};
use std::alloc::Global;
use std::marker::Brand;
use std::sync::Wait;
use std::thread::Threads;
use store_chain::chain::Chain;

// The same cache, where the type of its folder names what N has.
fn name_cache<F: Folder, N: FolderName>(cache: CacheShelf<F>) -> CacheShelf<NamedFolder<F, N>>
    requires place { F.place cache.folder ≡ N.place }
    requires faults { N.faults ≤ F.faults cache.folder }
    ensures folder { result.folder ≡ cache.folder }
    ensures kind { result.kind ≡ cache.kind }
{
    let kind = cache.kind();
    CacheShelf::with_kind(kind, NamedFolder::new(cache.into_inner()))
}

// The same cache, whose folder's type names nothing.
fn unname_cache<F: Folder, N: FolderName>(cache: CacheShelf<NamedFolder<F, N>>) -> CacheShelf<F>
    ensures folder { result.folder ≡ cache.folder }
    ensures kind { result.kind ≡ cache.kind }
    ensures place { F.place result.folder ≡ N.place }
{
    let kind = cache.kind();
    CacheShelf::with_kind(kind, cache.into_inner().into_inner())
}

// Serves a cache whose folder's type names its files and its kind, before stores that P names.
fn serve_named<
    L: Listen,
    F: Folder + Send,
    S: Store + Send,
    N: FolderName + Send,
    P: ProxyName + Send,
    R: Threads + Wait + Sync,
>(
    rt: &R,
    alloc: Global,
    listen: &mut L,
    cache: CacheShelf<F>,
    chains: Vec<Chain<S>>,
) -> (CacheShelf<F>, Vec<Chain<S>>, AllServed)
where
    L::Link: Send,
    requires some { 0 < vec_len chains }
    requires opening { IfSome N.opening (λ first. F.files cache.folder ≡ Some first) }
    requires place { F.place cache.folder ≡ N.place }
    requires faults { N.faults ≤ F.faults cache.folder }
    requires kind { cache.kind ≡ kind_named N.kind }
    requires named { All (IsChainOf S.Store (kind_named N.kind) P.maps P.places) chains.items }
    ensures kept { IfSome N.opening (λ first. KeepsOpening (kind_named N.kind) first (F.files result.0.folder)) }
    ensures place { F.place result.0.folder ≡ N.place }
    ensures kind { result.0.kind ≡ kind_named N.kind }
    ensures number { vec_len result.1 ≡ vec_len chains }
    ensures named { All (IsChainOf S.Store (kind_named N.kind) P.maps P.places) result.1.items }
    ensures end { result.2 ≡ AllServed.Ended → (L.state listen.new).coming ≡ Some [] }
    ensures served { result.2 ≢ AllServed.Short → result.2 ≢ AllServed.Memory →
        ServesAll (EndsThrough (kind_named N.kind) N.opening P.maps F.never_fails S.never_fails L.Link.tells)
        (L.state listen.old) (L.state listen.new) }
    ensures lacking { ServesSome (EndsThrough (kind_named N.kind) N.opening P.maps F.never_fails S.never_fails
        L.Link.tells) (L.state listen.old) (L.state listen.new) }
    ensures cause { result.2 ≡ AllServed.ListenFault → Rose (L.state listen.old).faults (L.state listen.new).faults }
    ensures unfailed { result.2 ≡ AllServed.Memory → (L.state listen.new).faults ≡ (L.state listen.old).faults }
    ensures faults { (L.state listen.old).faults ≤ (L.state listen.new).faults }
{
    let named = name_cache::<F, N>(cache);
    match ProxyShelf::<NamedFolder<F, N>, S, P>::new(alloc, named, chains) {
        Ok(shelf) => {
            let served = serve_proxy(rt, alloc, listen, &shelf);
            let (cache, chains) = shelf.into_parts();
            (unname_cache(cache), chains, served)
        }
        Err((cache, chains, _)) => (unname_cache(cache), chains, AllServed::Memory),
    }
}

/// Listens at an address, and serves the chunks of a cache over each connection that comes, by a thread for each, until
/// no more come. A chunk that the cache doesn't give is obtained from the stores of a chain, and added to the cache.
/// There is at least one chain, and all have the same stores. The cache is given back, with right chunks added or put
/// in the place of others, and so are the chains. `ListenFault`: it can't listen there, or the next connection can't be
/// taken.
pub fn serve_cache<L: Listen, F: Folder + Send, S: Store + Send, R: Threads + Wait + Sync>(
    rt: &R,
    alloc: Global,
    listen: &mut L,
    host: &str,
    port: u16,
    cache: CacheShelf<F>,
    chains: Vec<Chain<S>>,
) -> (CacheShelf<F>, Vec<Chain<S>>, AllServed)
where
    L::Link: Send,
    requires some { 0 < vec_len chains }
    requires alike { All (IsChainOf S.Store cache.kind (maps_told S.holds chains.items)
        (Some (chain_places S.place chains.items))) chains.items }
    ensures kept { IfSome (F.files cache.folder) (λ first. KeepsOpening cache.kind first (F.files result.0.folder)) }
    ensures place { F.place result.0.folder ≡ F.place cache.folder }
    ensures kind { result.0.kind ≡ cache.kind }
    ensures number { vec_len result.1 ≡ vec_len chains }
    ensures chains { All (IsChainOf S.Store cache.kind (maps_told S.holds chains.items)
        (Some (chain_places S.place chains.items))) result.1.items }
    ensures end { result.2 ≡ AllServed.Ended → (L.state listen.new).coming ≡ Some [] }
    ensures served { result.2 ≢ AllServed.Short → result.2 ≢ AllServed.Memory →
        ServesAll (EndsThrough cache.kind (F.files cache.folder) (maps_told S.holds chains.items) F.never_fails
        S.never_fails L.Link.tells) (L.state listen.old) (L.state listen.new) }
    ensures lacking { ServesSome (EndsThrough cache.kind (F.files cache.folder)
        (maps_told S.holds chains.items) F.never_fails S.never_fails L.Link.tells)
        (L.state listen.old) (L.state listen.new) }
    ensures cause { result.2 ≡ AllServed.ListenFault → Rose (L.state listen.old).faults (L.state listen.new).faults }
    ensures unfailed { result.2 ≡ AllServed.Memory → (L.state listen.new).faults ≡ (L.state listen.old).faults }
{
    match listen.bind(host, port) {
        Ok(()) => serve_named::<L, F, S, Brand, Brand, R>(rt, alloc, listen, cache, chains),
        Err(IoFault::Failed) => (cache, chains, AllServed::ListenFault),
        Err(IoFault::Memory) => (cache, chains, AllServed::Memory),
    }
}
