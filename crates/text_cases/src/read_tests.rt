//! A store over connections in memory: what it sends, and what it makes of replies, whole and in pieces.

ghost use Rattle.std.specs.Prelude.{◌<◌};

use crate::compare::{ok, same};
use crate::pieces::pieces_of;
use chunk_store::id::ChunkId;
use chunk_store::store::{GetFault, Store, StoreWrite};
use dsy_base::dial::Dial;
use dsy_base::fault::{IoFault, Memory};
use dsy_base::name::Name;
use http_fetch::fetch::fetch;
use http_fetch::taker::Taker;
use http_frames::fault::WireFault;
use http_read::fault::BadReply;
use http_read::store::HttpStore;
use link_forms::mem_dial::MemDial;
use link_forms::mem_link::MemLink;
use link_forms::open_link::OpenLink;
use std::alloc::Global;
use std::process::Abort;

// SHA-512/256 of `abc`, from FIPS 180-4's examples.
const ABC: &str = "53048e2681941ef99b2e29b76b4c7dabe4c2d0c634fc6d46e0e2f13107e7af23";

const GET: &str = "\
GET /store/5304/53048e2681941ef99b2e29b76b4c7dabe4c2d0c634fc6d46e0e2f13107e7af23 HTTP/1.1\r\n\
Host: localhost:8080\r\nAccept-Encoding: identity\r\nConnection: close\r\n\r\n";

const HEAD: &str = "\
HEAD /store/5304/53048e2681941ef99b2e29b76b4c7dabe4c2d0c634fc6d46e0e2f13107e7af23 HTTP/1.1\r\n\
Host: localhost:8080\r\nAccept-Encoding: identity\r\nConnection: close\r\n\r\n";

const PUT: &str = "\
PUT /store/5304/53048e2681941ef99b2e29b76b4c7dabe4c2d0c634fc6d46e0e2f13107e7af23 HTTP/1.1\r\n\
Host: localhost:8080\r\nAccept-Encoding: identity\r\nConnection: close\r\nContent-Length: 3\r\n\r\nabc";

const CHUNKED: &[u8] =
    b"HTTP/1.1 200 OK\r\nTransfer-Encoding: chunked\r\n\r\n3\r\nabc\r\n0\r\n\r\n";

// A dialer that notes whether it was to dial another server than localhost at 8080.
#[derive(Drop)]
struct Noting {
    inner: MemDial,
    elsewhere: bool,
}

impl Dial for Noting {
    ghost use Rattle.std.specs.Prelude.{true, refl};
    ghost use Rattle.link_forms.specs.MemLinks.{dial_of};

    type Link = OpenLink;

    ghost state = { λ d. dial_of d.inner };

    ghost tells = { true };

    fn fork(&self) -> Result<Noting, Memory> {
        match self.inner.fork() {
            Ok(inner) => Ok(Noting {
                inner,
                elsewhere: false,
            }),
            Err(memory) => Err(memory),
        }
    }

    fn dial(&mut self, host: &str, port: u16) -> Result<OpenLink, IoFault> {
        if host != "localhost" || port != 8080 {
            self.elsewhere = true;
        }
        self.inner.dial(host, port)
    }

    fn hang_up(&mut self, link: OpenLink) {
        self.inner.hang_up(link)
    }

    fn join(&mut self, other: Noting) {
        self.inner.join(other.inner)
    }

    ghost told = { λ _. refl };

    ghost alike = { λ h. h };
}

// Keeps what it takes, and counts how often.
#[derive(Drop)]
struct Keeping {
    bytes: Vec<u8>,
    times: u64,
}

impl Taker for Keeping {
    ghost has_taken = { λ s b. Unit {0} };

    fn take(&mut self, piece: &[u8]) {
        let _ = self.bytes.extend_from_slice(piece);
        self.times = self.times.saturating_add(1);
    }
}

fn nothing_kept(alloc: Global) -> Keeping {
    Keeping {
        bytes: Vec::new(alloc),
        times: 0,
    }
}

// A dialer of one connection, over which the reply comes in pieces of this size.
fn dialer(rt: &impl Abort, alloc: Global, reply: &[u8], size: usize) -> MemDial
    requires { 0 < size }
{
    let pieces = pieces_of(rt, alloc, reply, size);
    let mut links = Vec::new(alloc);
    ok(rt, links.push(MemLink::new(alloc, pieces, Vec::new(alloc))));
    MemDial::new(alloc, links, Vec::new(alloc))
}

// `http://localhost:8080/store/` over this dialer.
fn store<D: Dial>(rt: &impl Abort, alloc: Global, dial: D) -> HttpStore<D> {
    let host = ok(rt, Name::of(alloc, "localhost"));
    let prefix = ok(rt, Name::of(alloc, "/store"));
    HttpStore::new(alloc, dial, host, 8080, prefix)
}

fn abc(rt: &impl Abort) -> ChunkId {
    ok(rt, ChunkId::from_hex(ABC))
}

// This and no more was sent, on one connection that has ended.
fn has_sent(rt: &impl Abort, d: &MemDial, text: &str) {
    match d.ended(0) {
        Some(link) => same(rt, link.sent(), text.as_bytes()),
        None => rt.panic("no connection has ended"),
    }
    same(rt, d.ended(1).is_none(), true);
}

// Where `abc` is asked for, with room for 3 bytes.
fn gets_in_pieces(
    rt: &impl Abort,
    alloc: Global,
    reply: &[u8],
    size: usize,
    wanted: Result<usize, GetFault>,
    last: Option<BadReply>,
)
    requires { 0 < size }
{
    let mut s = store(rt, alloc, dialer(rt, alloc, reply, size));
    let mut out = [0u8; 3];
    same(rt, s.get(&abc(rt), &mut out), wanted);
    same(rt, s.last_bad(), last);
    has_sent(rt, &s.into_dial(), GET);
    if wanted.is_ok() {
        same(rt, out, *b"abc");
    }
}

fn gives_abc(rt: &impl Abort, alloc: Global, reply: &[u8]) {
    gets_in_pieces(rt, alloc, reply, 4096, Ok(3), None);
}

fn answers(rt: &impl Abort, alloc: Global, reply: &[u8], fault: GetFault) {
    gets_in_pieces(rt, alloc, reply, 4096, Err(fault), None);
}

// A reply that isn't taken is no answer of the server.
fn is_bad(rt: &impl Abort, alloc: Global, reply: &[u8], bad: BadReply) {
    gets_in_pieces(rt, alloc, reply, 4096, Err(GetFault::Failed), Some(bad));
}

#[test]
fn a_chunk_comes_in_pieces_of_one_byte(rt: HostRuntime) {
    gets_in_pieces(&rt, rt.alloc(), CHUNKED, 1, Ok(3), None);
}

#[test]
fn whole_replies_give_chunks(rt: HostRuntime) {
    let alloc = rt.alloc();
    gives_abc(&rt, alloc, CHUNKED);
    gives_abc(
        &rt,
        alloc,
        b"HTTP/1.1 200 OK\r\nContent-Length: 3\r\n\r\nabc and more",
    );
    gives_abc(&rt, alloc, b"HTTP/1.1 200 OK\r\n\r\nabc");
}

#[test]
fn a_reply_that_is_cut_short_gives_none(rt: HostRuntime) {
    let alloc = rt.alloc();
    let cut = BadReply::Wire(WireFault::CutShort);
    let chunked = b"HTTP/1.1 200 OK\r\nTransfer-Encoding: chunked\r\n\r\n3\r\nabc\r\n";
    is_bad(&rt, alloc, chunked, cut);
    is_bad(
        &rt,
        alloc,
        b"HTTP/1.1 200 OK\r\nContent-Length: 3\r\n\r\nab",
        cut,
    );
    is_bad(&rt, alloc, b"HTTP/1.1 200 OK\r\n", cut);
}

#[test]
fn only_404_says_missing(rt: HostRuntime) {
    let alloc = rt.alloc();
    answers(
        &rt,
        alloc,
        b"HTTP/1.1 404 Not Found\r\n\r\n",
        GetFault::Missing,
    );
    let unavailable = b"HTTP/1.1 503 Service Unavailable\r\n\r\n";
    is_bad(&rt, alloc, unavailable, BadReply::Status(503));
    let moved = b"HTTP/1.1 301 Moved Permanently\r\n\r\n";
    is_bad(&rt, alloc, moved, BadReply::Status(301));
}

#[test]
fn a_body_of_four_bytes_is_longer_than_three(rt: HostRuntime) {
    let reply = b"HTTP/1.1 200 OK\r\nContent-Length: 4\r\n\r\nabcd";
    answers(&rt, rt.alloc(), reply, GetFault::Longer);
}

#[test]
fn a_head_past_its_limit_is_refused(rt: HostRuntime) {
    let bad = BadReply::Wire(WireFault::HeadTooLong);
    is_bad(&rt, rt.alloc(), &[b'a'; 16_384], bad);
}

#[test]
fn the_head_of_a_chunk_tells_its_presence(rt: HostRuntime) {
    let alloc = rt.alloc();
    let reply = b"HTTP/1.1 200 OK\r\nContent-Length: 3\r\n\r\n";
    let mut s = store(&rt, alloc, dialer(&rt, alloc, reply, 4096));
    same(&rt, s.has(&abc(&rt)), Ok(true));
    has_sent(&rt, &s.into_dial(), HEAD);
}

#[test]
fn a_chunk_is_put_behind_its_ask(rt: HostRuntime) {
    let alloc = rt.alloc();
    let reply = b"HTTP/1.1 201 Created\r\nContent-Length: 0\r\n\r\n";
    let mut s = store(&rt, alloc, dialer(&rt, alloc, reply, 4096));
    same(&rt, s.put(&abc(&rt), b"abc"), Ok(()));
    has_sent(&rt, &s.into_dial(), PUT);
}

#[test]
fn its_own_server_is_dialed_alone(rt: HostRuntime) {
    let alloc = rt.alloc();
    let dial = Noting {
        inner: dialer(&rt, alloc, CHUNKED, 4096),
        elsewhere: false,
    };
    let mut s = store(&rt, alloc, dial);
    let mut out = [0u8; 3];
    same(&rt, s.get(&abc(&rt), &mut out), Ok(3));
    same(&rt, s.into_dial().elsewhere, false);
}

#[test]
fn a_fetch_dials_its_own_server(rt: HostRuntime) {
    let alloc = rt.alloc();
    let mut dial = Noting {
        inner: dialer(&rt, alloc, CHUNKED, 4096),
        elsewhere: false,
    };
    let mut body = nothing_kept(alloc);
    ok(
        &rt,
        fetch(alloc, &mut dial, "localhost", 8080, "/a", 3, &mut body),
    );
    same(&rt, body.bytes.as_slice(), &b"abc"[..]);
    same(&rt, dial.elsewhere, false);
}

// The head has 38 bytes, and 2 of the body come with it. What follows the body isn't taken.
#[test]
fn a_body_by_length_is_taken_as_it_comes(rt: HostRuntime) {
    let alloc = rt.alloc();
    let reply = b"HTTP/1.1 200 OK\r\nContent-Length: 7\r\n\r\nabcdefgh";
    let mut dial = dialer(&rt, alloc, reply, 4);
    let mut body = nothing_kept(alloc);
    ok(
        &rt,
        fetch(alloc, &mut dial, "localhost", 8080, "/a", 7, &mut body),
    );
    same(&rt, body.bytes.as_slice(), &b"abcdefg"[..]);
    same(&rt, body.times, 3);
}

#[test]
fn a_dial_that_fails_is_no_bad_reply(rt: HostRuntime) {
    let alloc = rt.alloc();
    let mut s = store(
        &rt,
        alloc,
        MemDial::new(alloc, Vec::new(alloc), Vec::new(alloc)),
    );
    same(&rt, s.has(&abc(&rt)), Err(IoFault::Failed));
    same(&rt, s.last_bad(), None);
    same(&rt, s.into_dial().ended(0).is_none(), true);
}
