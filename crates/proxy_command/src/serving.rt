//! A cache and stores that were reached, served over connections.

ghost use Rattle.std.specs.Prelude.{◌≡◌, ◌==◌, ◌<◌, false, true, length, map, vec_len, All, None, Some};
ghost use Rattle.chunk_proxy.specs.Leaving.{KeepsBehind};
ghost use Rattle.locked_proxy.specs.Chains.{IsChainOf, chain_places, maps_told};
ghost use Rattle.proxy_command.specs.ProxyServing.{ServesProxyTo, supply};
ghost use Rattle.proxy_command.specs.Reaching.{AreLent, IsProxied, chain_chunks, sure_by_types};
ghost use Rattle.server_commands.specs.Serving.{heard};

use crate::proxy::ProxyWords;
use crate::reach::Reached;
use cache_store::cached::Cached;
use chunk_proxy::proxy_service::ProxyService;
use chunk_proxy::state::ProxyState;
use chunk_store::store::Store;
use command_outcome::outcome::Outcome;
use dsy_base::folder::Folder;
use dsy_base::listen::Listen;
use locked_proxy::serve_cache::serve_cache;
use server_commands::address::Address;
use server_commands::chunks::all_ended;
use server_commands::in_turn::{ended, serve_in_turn};
use std::alloc::Global;
use std::sync::Wait;
use std::thread::Threads;

// Serves one connection after the other, by one chain.
fn serve_cached<W: Folder, S: Store, L: Listen>(
    alloc: Global,
    listen: &mut L,
    address: &Address,
    cached: Cached<W, S>,
) -> (Cached<W, S>, Result<(), Outcome>)
    requires unnamed { (W.pairs ≡ None) × (W.stores ≡ None) }
    ensures served { ServesProxyTo cached.chain.kind (heard W.never_fails (L.state listen.old) (L.state listen.new))
        (supply (W.files cached.shelf.folder) (W.files result.0.shelf.folder) (map S.holds cached.chain.stores))
        (sure_by_types W.never_fails S.Store (map S.holds cached.chain.stores)) true result.1 }
    ensures changed { KeepsBehind W.files W.place W.faults S.Store cached result.0 }
    ensures place { W.place result.0.shelf.folder ≡ W.place cached.shelf.folder }
{
    let mut state = ProxyState::new(alloc, cached);
    let served = serve_in_turn::<L, ProxyService<W, S>>(alloc, listen, address, &mut state);
    (state.into_inner(), ended(served))
}

// The same, where there is one chain.
fn serve_alone<W: Folder, S: Store, L: Listen>(
    alloc: Global,
    listen: &mut L,
    address: &Address,
    reached: Reached<W, S>,
) -> (Reached<W, S>, Result<(), Outcome>)
    requires unnamed { (W.pairs ≡ None) × (W.stores ≡ None) }
    requires one { length reached.chains.items ≡ 1 }
    requires chains { AreLent S.Store reached.shelf.kind reached.chains.items }
    ensures served { ServesProxyTo reached.shelf.kind (heard W.never_fails (L.state listen.old) (L.state listen.new))
        (supply (W.files reached.shelf.folder) (W.files result.0.shelf.folder)
        (chain_chunks S.holds reached.chains.items))
        (sure_by_types W.never_fails S.Store (chain_chunks S.holds reached.chains.items)) true result.1 }
    ensures changed { IsProxied W.files W.place S.Store true reached.shelf result.0.shelf
        reached.chains.items result.0.chains.items }
{
    let Reached { shelf, mut chains } = reached;
    let Some(chain) = chains.pop() else {
        unreachable!()
    };
    let (cached, served) = serve_cached(alloc, listen, address, Cached::new(shelf, chain));
    let (shelf, chain) = cached.into_parts();
    chains.push(chain).unwrap();
    (Reached { shelf, chains }, served)
}

// Serves each connection in a thread of its own.
fn serve_shared<W: Folder + Send, S: Store + Send, L: Listen, R: Threads + Wait + Sync>(
    rt: &R,
    alloc: Global,
    listen: &mut L,
    address: &Address,
    reached: Reached<W, S>,
) -> (Reached<W, S>, Result<(), Outcome>)
where
    L::Link: Send,
    requires some { 0 < vec_len reached.chains }
    requires chains { AreLent S.Store reached.shelf.kind reached.chains.items }
    ensures served { ServesProxyTo reached.shelf.kind (heard W.never_fails (L.state listen.old) (L.state listen.new))
        (supply (W.files reached.shelf.folder) (W.files result.0.shelf.folder)
        (chain_chunks S.holds reached.chains.items))
        (sure_by_types W.never_fails S.Store (chain_chunks S.holds reached.chains.items)) false result.1 }
    ensures changed { IsProxied W.files W.place S.Store false reached.shelf result.0.shelf
        reached.chains.items result.0.chains.items }
{
    let Reached { shelf, chains } = reached;
    let (host, port) = (address.host.as_str(), address.port);
    let (shelf, chains, served) = serve_cache(rt, alloc, listen, host, port, shelf, chains);
    (Reached { shelf, chains }, all_ended(served))
}

/// Serves what was reached, by as many workers as the words say: by one in turn, else each connection in a thread of
/// its own.
pub(crate) fn serve_by<W: Folder + Send, S: Store + Send, L: Listen, R: Threads + Wait + Sync>(
    rt: &R,
    alloc: Global,
    listen: &mut L,
    words: &ProxyWords,
    reached: Reached<W, S>,
) -> (Reached<W, S>, Result<(), Outcome>)
where
    L::Link: Send,
    requires unnamed { (W.pairs ≡ None) × (W.stores ≡ None) }
    requires some { 0 < vec_len reached.chains }
    requires one { words.now.workers ≡ 1 → length reached.chains.items ≡ 1 }
    requires chains { AreLent S.Store reached.shelf.kind reached.chains.items }
    ensures served { ServesProxyTo reached.shelf.kind (heard W.never_fails (L.state listen.old) (L.state listen.new))
        (supply (W.files reached.shelf.folder) (W.files result.0.shelf.folder)
        (chain_chunks S.holds reached.chains.items))
        (sure_by_types W.never_fails S.Store (chain_chunks S.holds reached.chains.items))
        (words.now.workers == 1) result.1 }
    ensures changed { IsProxied W.files W.place S.Store (words.now.workers == 1) reached.shelf result.0.shelf
        reached.chains.items result.0.chains.items }
{
    if words.workers == 1 {
        serve_alone(alloc, listen, &words.address, reached)
    } else {
        serve_shared(rt, alloc, listen, &words.address, reached)
    }
}
