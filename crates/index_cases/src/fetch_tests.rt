//! An index fetched over connections in memory, on which replies come in pieces of 100 bytes.

use crate::compare::{ok, same};
use crate::index_of_abc::INDEX_OF_ABC;
use crate::pieces::pieces_of;
use caibx_fields::fault::IndexFault;
use http_frames::fault::WireFault;
use index_server::fetch_index::{FetchFault, fetch_index};
use link_forms::mem_dial::MemDial;
use link_forms::mem_link::MemLink;
use std::alloc::Global;
use std::process::Abort;

const ASK: &[u8] =
    b"GET /a.caibx HTTP/1.1\r\nHost: localhost:8081\r\nAccept-Encoding: identity\r\nConnection: close\r\n\r\n";

const OK_144: &[u8] = b"HTTP/1.1 200 OK\r\nContent-Length: 144\r\n\r\n";

// A dialer of one connection, on which this head and body come.
fn dialer(rt: &impl Abort, alloc: Global, head: &[u8], body: &[u8]) -> MemDial {
    let mut reply = ok(rt, head.to_vec(alloc));
    ok(rt, reply.extend_from_slice(body));
    let pieces = pieces_of(rt, alloc, reply.as_slice(), 100);
    let mut links = Vec::new(alloc);
    ok(rt, links.push(MemLink::new(alloc, pieces, Vec::new(alloc))));
    MemDial::new(alloc, links, Vec::new(alloc))
}

// One connection has ended, on which the ask was sent once.
fn has_asked_once(rt: &impl Abort, dial: &MemDial) {
    match dial.ended(0) {
        Some(link) => same(rt, link.sent(), ASK),
        None => rt.panic("no connection has ended"),
    }
    same(rt, dial.ended(1).is_none(), true);
}

// The reply gives the index of `abc`.
fn gives_abc(rt: &impl Abort, alloc: Global, head: &[u8], body: &[u8]) {
    let mut dial = dialer(rt, alloc, head, body);
    let index = ok(
        rt,
        fetch_index(alloc, &mut dial, "localhost", 8081, "/a.caibx"),
    );
    same(rt, index.count(), 1);
    same(rt, index.length(), 3);
    has_asked_once(rt, &dial);
}

// It gives none.
fn gives_none(rt: &impl Abort, alloc: Global, head: &[u8], body: &[u8], why: FetchFault) {
    let mut dial = dialer(rt, alloc, head, body);
    let fetched = fetch_index(alloc, &mut dial, "localhost", 8081, "/a.caibx");
    same(rt, fetched.err(), Some(why));
    has_asked_once(rt, &dial);
}

#[test]
fn a_whole_index_is_read(rt: HostRuntime) {
    let alloc = rt.alloc();
    gives_abc(&rt, alloc, OK_144, &INDEX_OF_ABC);
    let chunked = b"HTTP/1.1 200 OK\r\nTransfer-Encoding: chunked\r\n\r\n90\r\n";
    let mut body = ok(&rt, INDEX_OF_ABC.to_vec(alloc));
    ok(&rt, body.extend_from_slice(b"\r\n0\r\n\r\n"));
    gives_abc(&rt, alloc, chunked, body.as_slice());
}

#[test]
fn a_reply_without_an_index_is_told(rt: HostRuntime) {
    let alloc = rt.alloc();
    let absent = b"HTTP/1.1 404 Not Found\r\nContent-Length: 144\r\n\r\n";
    gives_none(&rt, alloc, absent, &INDEX_OF_ABC, FetchFault::Absent);
    let failed = b"HTTP/1.1 500 Internal Server Error\r\nContent-Length: 144\r\n\r\n";
    gives_none(&rt, alloc, failed, &INDEX_OF_ABC, FetchFault::Status(500));
    let short = b"HTTP/1.1 200 OK\r\nContent-Length: 143\r\n\r\n";
    let truncated = FetchFault::Bad(IndexFault::Truncated { at: 143 });
    gives_none(&rt, alloc, short, &INDEX_OF_ABC[..143], truncated);
    let other = FetchFault::Bad(IndexFault::Head);
    gives_none(&rt, alloc, OK_144, &[7; 144], other);
}

// The last byte of the index doesn't come. Of a body that is told to be longer than the longest index, none does.
#[test]
fn a_reply_that_is_cut_short_or_too_long_is_refused(rt: HostRuntime) {
    let alloc = rt.alloc();
    let cut = FetchFault::Wire(WireFault::CutShort);
    gives_none(&rt, alloc, OK_144, &INDEX_OF_ABC[..143], cut);
    // So it is told of one whose first bytes are those of no index.
    gives_none(&rt, alloc, OK_144, &[7; 143], cut);
    let long = b"HTTP/1.1 200 OK\r\nContent-Length: 167772265\r\n\r\n";
    let too_long = FetchFault::Wire(WireFault::BodyTooLong);
    gives_none(&rt, alloc, long, b"", too_long);
}

#[test]
fn a_dial_that_fails_is_told(rt: HostRuntime) {
    let alloc = rt.alloc();
    let mut dial = MemDial::new(alloc, Vec::new(alloc), Vec::new(alloc));
    let fetched = fetch_index(alloc, &mut dial, "localhost", 8081, "/a.caibx");
    same(&rt, fetched.err(), Some(FetchFault::Failed));
    same(&rt, dial.ended(0).is_none(), true);
}
