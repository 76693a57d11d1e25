//! Caches in memory before stores in memory that threads share, and the connections in memory that they serve.

ghost use Rattle.std.specs.Prelude.{◌≡◌, ◌<◌, vec_len};
ghost use Rattle.std.specs.List.{All};
ghost use Rattle.chunk_store.specs.declared.id.DigestKind.TheVariants as kinds;
ghost use Rattle.dsy_base.specs.Links.{IsFreshLink};
ghost use Rattle.link_forms.specs.MemLinks.{link_of};

use crate::chunk_abc::{
    FAILED, GET, HEAD, NOT_FOUND, OK_3, OK_ABC, cache_of, chain_of, failing_chain, holds_abc, id_of,
};
use crate::compare::{ok, same};
use cache_store::shelf::CacheShelf;
use chunk_server::shelf::Shelf;
use chunk_store::store::Store;
use dsy_forms::mem_folder::MemFolder;
use http_wire::request::Act;
use link_forms::mem_link::MemLink;
use link_forms::mem_listen::MemListen;
use locked_proxy::serve_proxy::serve_proxy;
use locked_proxy::shelf::ProxyShelf;
use locked_shelf::serve_all::AllServed;
use std::alloc::Global;
use std::marker::Brand;
use std::process::Abort;
use std::sync::Wait;
use std::thread::Threads;
use store_chain::chain::Chain;

type Shared<S> = ProxyShelf<MemFolder, S, Brand>;

// This cache before these stores.
fn shared<S: Store>(
    rt: &impl Abort,
    alloc: Global,
    cache: CacheShelf<MemFolder>,
    chains: Vec<Chain<S>>,
) -> Shared<S>
    requires some { 0 < vec_len chains }
    requires kind { cache.kind ≡ kinds.Sha512T256 }
    requires kinds { All (λ c. c.kind ≡ kinds.Sha512T256) chains.items }
{
    match ProxyShelf::new(alloc, cache, chains) {
        Ok(shelf) => shelf,
        Err(_) => rt.panic("no memory"),
    }
}

// A connection over which these bytes come.
fn link_with(rt: &impl Abort, alloc: Global, asked: &[u8]) -> MemLink
    ensures { IsFreshLink (link_of result) }
{
    let piece = ok(rt, asked.to_vec(alloc));
    MemLink::new(alloc, ok(rt, vec![in alloc; piece]), Vec::new(alloc))
}

// Serves two connections, and looks at what is sent over each. Their order as they end is free.
fn are_sent<R: Abort + Threads + Wait + Sync, S: Store + Send + Sync>(
    rt: &R,
    alloc: Global,
    shelf: &Shared<S>,
    asked: [&[u8]; 2],
    sent: [&[u8]; 2],
) {
    let links = ok(
        rt,
        vec![in alloc;
            link_with(rt, alloc, asked[0]),
            link_with(rt, alloc, asked[1]),
        ],
    );
    let mut listen = MemListen::new(alloc, links, Vec::new(alloc));
    same(
        rt,
        serve_proxy(rt, alloc, &mut listen, shelf),
        AllServed::Ended,
    );
    let (Some(a), Some(b)) = (listen.ended(0), listen.ended(1)) else {
        rt.panic("two have ended");
    };
    assert!(rt;
        (a.sent() == sent[0] && b.sent() == sent[1])
            || (a.sent() == sent[1] && b.sent() == sent[0]),
        "other replies were sent"
    );
}

// What the cache holds, and how often the stores of each chain were asked.
fn are_left<S: Store>(rt: &impl Abort, shelf: Shared<S>, holds: bool, asks: &[u64]) {
    let (cache, chains) = shelf.into_parts();
    same(rt, holds_abc(cache), holds);
    same(rt, chains.len(), asks.len());
    for (chain, asked) in chains.iter().zip(asks) {
        same(rt, chain.asks(), *asked);
    }
}

// The status of the reply to a GET of `abc` by the door of this connection.
fn status_by<R: Abort + Wait, S: Store>(rt: &R, shelf: &Shared<S>, connection: u64) -> u16 {
    let mut door = shelf.door(rt, connection);
    ok(rt, door.answer(&Act::Get(id_of(rt)), &[])).status
}

// Two connections ask for a chunk that the stores hold.
fn both_get<R: Abort + Threads + Wait + Sync>(rt: &R, alloc: Global, held: Option<&[u8]>) {
    let chains = ok(rt, vec![in alloc; chain_of(rt, alloc, Some(b"abc"))]);
    let shelf = shared(rt, alloc, cache_of(rt, alloc, held), chains);
    are_sent(rt, alloc, &shelf, [GET, HEAD], [OK_ABC, OK_3]);
    let (cache, chains) = shelf.into_parts();
    assert!(rt; holds_abc(cache), "the chunk was kept");
    for chain in chains.iter() {
        assert!(rt;
            chain.asks() == 1 || chain.asks() == 2,
            "each connection asks once at most"
        );
    }
}

#[test]
fn two_connections_get_the_same_chunk(rt: HostRuntime) {
    both_get(&rt, rt.alloc(), None);
}

#[test]
fn a_wrong_file_of_the_cache_is_put_right(rt: HostRuntime) {
    both_get(&rt, rt.alloc(), Some(b"abX"));
}

#[test]
fn each_connection_asks_the_chain_of_its_number(rt: HostRuntime) {
    let alloc = rt.alloc();
    let chains = ok(
        &rt,
        vec![in alloc;
            chain_of(&rt, alloc, None),
            chain_of(&rt, alloc, Some(b"abc")),
        ],
    );
    let shelf = shared(&rt, alloc, cache_of(&rt, alloc, None), chains);
    same(&rt, status_by(&rt, &shelf, 3), 200);
    are_left(&rt, shelf, true, &[0, 1]);
}

#[test]
fn what_one_connection_adds_is_found_by_another(rt: HostRuntime) {
    let alloc = rt.alloc();
    let chains = ok(
        &rt,
        vec![in alloc;
            chain_of(&rt, alloc, Some(b"abc")),
            chain_of(&rt, alloc, None),
        ],
    );
    let shelf = shared(&rt, alloc, cache_of(&rt, alloc, None), chains);
    same(&rt, status_by(&rt, &shelf, 0), 200);
    same(&rt, status_by(&rt, &shelf, 1), 200);
    are_left(&rt, shelf, true, &[1, 0]);
}

#[test]
fn a_chunk_that_nobody_has_is_not_found(rt: HostRuntime) {
    let alloc = rt.alloc();
    let chains = ok(&rt, vec![in alloc; chain_of(&rt, alloc, None)]);
    let shelf = shared(&rt, alloc, cache_of(&rt, alloc, None), chains);
    are_sent(&rt, alloc, &shelf, [GET, HEAD], [NOT_FOUND, NOT_FOUND]);
    are_left(&rt, shelf, false, &[2]);
}

#[test]
fn a_store_that_fails_is_told(rt: HostRuntime) {
    let alloc = rt.alloc();
    let chains = ok(&rt, vec![in alloc; failing_chain(&rt, alloc)]);
    let shelf = shared(&rt, alloc, cache_of(&rt, alloc, None), chains);
    are_sent(&rt, alloc, &shelf, [GET, b""], [FAILED, b""]);
    are_left(&rt, shelf, false, &[1]);
}

#[test]
fn a_cache_that_fails_is_passed_over(rt: HostRuntime) {
    let alloc = rt.alloc();
    let fails = ok(&rt, vec![in alloc; 0u64, 1]);
    let cache = CacheShelf::new(MemFolder::new(alloc, fails));
    let chains = ok(&rt, vec![in alloc; chain_of(&rt, alloc, Some(b"abc"))]);
    let shelf = shared(&rt, alloc, cache, chains);
    same(&rt, status_by(&rt, &shelf, 0), 200);
    are_left(&rt, shelf, false, &[1]);
}
