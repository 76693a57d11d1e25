//! Caches in memory before stores in memory, and the connections in memory that they serve.

ghost use Rattle.std.specs.Prelude.{◌≡◌};

use crate::chunk_abc::{
    BODY, FAILED, GET, HEAD, NOT_FOUND, NOT_TAKEN, OK_3, OK_ABC, PUT, cache_of, chain_of,
    failing_chain, holds_abc,
};
use crate::compare::{ok, same};
use cache_store::cached::Cached;
use cache_store::shelf::CacheShelf;
use chunk_proxy::connection::serve_proxy_connection;
use chunk_proxy::state::ProxyState;
use chunk_store::store::Store;
use dsy_forms::mem_folder::MemFolder;
use http_serve::connection::Served;
use link_forms::mem_link::MemLink;
use std::alloc::Global;
use std::process::Abort;
use store_chain::chain::Chain;

// This cache before this store.
fn proxy_of<S: Store>(
    alloc: Global,
    cache: CacheShelf<MemFolder>,
    chain: Chain<S>,
) -> ProxyState<MemFolder, S>
    requires { cache.kind ≡ chain.kind }
{
    ProxyState::new(alloc, Cached::new(cache, chain))
}

// Serves a connection on which two requests come at once, and looks at what is sent.
fn is_sent<S: Store>(
    rt: &impl Abort,
    alloc: Global,
    proxy: &mut ProxyState<MemFolder, S>,
    asked: [&[u8]; 2],
    sent: [&[u8]; 2],
) {
    let mut piece = Vec::new(alloc);
    let mut wanted = Vec::new(alloc);
    for part in asked {
        ok(rt, piece.extend_from_slice(part));
    }
    for part in sent {
        ok(rt, wanted.extend_from_slice(part));
    }
    let pieces = ok(rt, vec![in alloc; piece]);
    let mut link = MemLink::new(alloc, pieces, Vec::new(alloc));
    same(
        rt,
        serve_proxy_connection(alloc, &mut link, proxy),
        Served::Closed,
    );
    same(rt, link.sent(), wanted.as_slice());
}

// What the cache's file of `abc` holds, if it is `abc`, and how often the stores were asked.
fn is_left<S: Store>(rt: &impl Abort, proxy: ProxyState<MemFolder, S>, holds: bool, asks: u64) {
    let (cache, chain) = proxy.into_inner().into_parts();
    same(rt, holds_abc(cache), holds);
    same(rt, chain.asks(), asks);
}

#[test]
fn a_chunk_of_a_store_is_sent_and_kept(rt: HostRuntime) {
    let alloc = rt.alloc();
    let chain = chain_of(&rt, alloc, Some(b"abc"));
    let mut proxy = proxy_of(alloc, cache_of(&rt, alloc, None), chain);
    is_sent(&rt, alloc, &mut proxy, [GET, GET], [OK_ABC, OK_ABC]);
    is_left(&rt, proxy, true, 1);
}

#[test]
fn a_head_is_told_the_length_and_keeps_the_chunk(rt: HostRuntime) {
    let alloc = rt.alloc();
    let chain = chain_of(&rt, alloc, Some(b"abc"));
    let mut proxy = proxy_of(alloc, cache_of(&rt, alloc, None), chain);
    is_sent(&rt, alloc, &mut proxy, [HEAD, GET], [OK_3, OK_ABC]);
    is_left(&rt, proxy, true, 1);
}

#[test]
fn a_wrong_chunk_of_the_cache_is_not_sent_and_is_replaced(rt: HostRuntime) {
    let alloc = rt.alloc();
    let chain = chain_of(&rt, alloc, Some(b"abc"));
    let mut proxy = proxy_of(alloc, cache_of(&rt, alloc, Some(b"abX")), chain);
    is_sent(&rt, alloc, &mut proxy, [GET, b""], [OK_ABC, b""]);
    is_left(&rt, proxy, true, 1);
}

#[test]
fn a_chunk_that_nobody_has_is_not_found(rt: HostRuntime) {
    let alloc = rt.alloc();
    let chain = chain_of(&rt, alloc, None);
    let mut proxy = proxy_of(alloc, cache_of(&rt, alloc, None), chain);
    is_sent(&rt, alloc, &mut proxy, [GET, HEAD], [NOT_FOUND, NOT_FOUND]);
    is_left(&rt, proxy, false, 2);
}

#[test]
fn a_store_that_fails_is_told(rt: HostRuntime) {
    let alloc = rt.alloc();
    let chain = failing_chain(&rt, alloc);
    let mut proxy = proxy_of(alloc, cache_of(&rt, alloc, None), chain);
    is_sent(&rt, alloc, &mut proxy, [GET, b""], [FAILED, b""]);
    is_left(&rt, proxy, false, 1);
}

#[test]
fn a_put_is_not_taken(rt: HostRuntime) {
    let alloc = rt.alloc();
    let chain = chain_of(&rt, alloc, None);
    let mut proxy = proxy_of(alloc, cache_of(&rt, alloc, None), chain);
    is_sent(&rt, alloc, &mut proxy, [PUT, BODY], [NOT_TAKEN, b""]);
    is_left(&rt, proxy, false, 0);
}

#[test]
fn a_cache_that_fails_is_passed_over(rt: HostRuntime) {
    let alloc = rt.alloc();
    let fails = ok(&rt, vec![in alloc; 0u64, 1]);
    let cache = CacheShelf::new(MemFolder::new(alloc, fails));
    let chain = chain_of(&rt, alloc, Some(b"abc"));
    let mut proxy = proxy_of(alloc, cache, chain);
    is_sent(&rt, alloc, &mut proxy, [GET, b""], [OK_ABC, b""]);
    is_left(&rt, proxy, false, 1);
}
