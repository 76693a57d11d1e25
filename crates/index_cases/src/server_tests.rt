//! Folders of indexes in memory, and the connections in memory that they serve.

ghost use Rattle.std.specs.Prelude.{◌<◌, ◌≤◌, length};
ghost use Rattle.caibx_fields.specs.Limits.{file_limit};

use crate::compare::{ok, same};
use crate::index_of_abc::INDEX_OF_ABC;
use crate::pieces::pieces_of;
use dsy_base::folder::Folder;
use dsy_base::look::Look;
use dsy_base::name::Name;
use dsy_forms::mem_folder::MemFolder;
use http_serve::connection::Served;
use http_wire::index_request::IndexAct;
use index_server::serve_index::serve_index;
use index_server::state::IndexState;
use link_forms::mem_link::MemLink;
use std::alloc::Global;
use std::process::Abort;

// A server over a folder that is empty, which takes indexes.
fn empty_server(alloc: Global) -> IndexState<MemFolder> {
    IndexState::new(alloc, MemFolder::new(alloc, Vec::new(alloc)), true)
}

// One message more: its head, and its body.
fn add(rt: &impl Abort, all: &mut Vec<u8>, head: &[u8], body: &[u8]) {
    ok(rt, all.extend_from_slice(head));
    ok(rt, all.extend_from_slice(body));
}

const PUT_A: &[u8] = b"PUT /a.caibx HTTP/1.1\r\nContent-Length: 144\r\n\r\n";

const PUT_B: &[u8] = b"PUT /b.caibx HTTP/1.1\r\nContent-Length: 3\r\n\r\n";

const OK_144: &[u8] = b"HTTP/1.1 200 OK\r\nContent-Length: 144\r\n\r\n";

// Serves a connection on which these bytes come, in pieces of this many, and looks at what is sent.
fn is_sent<F: Folder>(
    rt: &impl Abort,
    alloc: Global,
    state: &mut IndexState<F>,
    size: usize,
    bytes: &[u8],
    sent: &[u8],
)
    requires { 0 < size }
{
    let pieces = pieces_of(rt, alloc, bytes, size);
    let mut link = MemLink::new(alloc, pieces, Vec::new(alloc));
    same(rt, serve_index(alloc, &mut link, state), Served::Closed);
    same(rt, link.sent(), sent);
}

// An index is put and got; bytes that are no index aren't put; what isn't there is told.
fn one_connection(rt: &impl Abort, alloc: Global, size: usize)
    requires { 0 < size }
{
    let mut asked = Vec::new(alloc);
    add(rt, &mut asked, PUT_A, &INDEX_OF_ABC);
    add(rt, &mut asked, b"GET /a.caibx HTTP/1.1\r\n\r\n", b"");
    add(rt, &mut asked, PUT_B, b"abc");
    add(rt, &mut asked, b"GET /b.caibx HTTP/1.1\r\n\r\n", b"");
    add(rt, &mut asked, b"GET /a HTTP/1.1\r\n\r\n", b"");
    let mut sent = Vec::new(alloc);
    add(
        rt,
        &mut sent,
        b"HTTP/1.1 200 OK\r\nContent-Length: 0\r\n\r\n",
        b"",
    );
    add(rt, &mut sent, OK_144, &INDEX_OF_ABC);
    add(
        rt,
        &mut sent,
        b"HTTP/1.1 400 Bad Request\r\nContent-Length: 0\r\n\r\n",
        b"",
    );
    add(
        rt,
        &mut sent,
        b"HTTP/1.1 404 Not Found\r\nContent-Length: 0\r\n\r\n",
        b"HTTP/1.1 404 Not Found\r\nContent-Length: 0\r\n\r\n",
    );
    let mut state = empty_server(alloc);
    is_sent(
        rt,
        alloc,
        &mut state,
        size,
        asked.as_slice(),
        sent.as_slice(),
    );
    holds_the_index_alone(rt, &mut state.into_inner());
}

// The folder holds the index under its name, and nothing else.
fn holds_the_index_alone(rt: &impl Abort, folder: &mut MemFolder) {
    let mut out = [0u8; 144];
    same(rt, folder.read("a.caibx", &mut out), Ok(144));
    same(rt, out, INDEX_OF_ABC);
    same(rt, ok(rt, folder.names()).len(), 1);
}

#[test]
fn indexes_are_put_and_got(rt: HostRuntime) {
    one_connection(&rt, rt.alloc(), 1);
    one_connection(&rt, rt.alloc(), 1000);
}

fn name_of(rt: &impl Abort, alloc: Global) -> Name {
    ok(rt, Name::of(alloc, "a.caibx"))
}

// Answers the act, and looks at status, length and body.
fn gets<F: Folder>(
    rt: &impl Abort,
    alloc: Global,
    state: &mut IndexState<F>,
    status: u16,
    sent: &[u8],
) {
    let act = IndexAct::Get(name_of(rt, alloc));
    let reply = ok(rt, state.apply(&act, b""));
    same(rt, reply.status, status);
    same(rt, reply.length, sent.len() as u64);
    same(rt, reply.body.as_slice(), sent);
}

fn asks_how_long<F: Folder>(
    rt: &impl Abort,
    alloc: Global,
    state: &mut IndexState<F>,
    status: u16,
    length: u64,
) {
    let act = IndexAct::Head(name_of(rt, alloc));
    let reply = ok(rt, state.apply(&act, b""));
    same(rt, reply.status, status);
    same(rt, reply.length, length);
    same(rt, reply.body.len(), 0);
}

fn puts<F: Folder>(
    rt: &impl Abort,
    alloc: Global,
    state: &mut IndexState<F>,
    body: &[u8],
    status: u16,
)
    requires { length body.now ≤ file_limit }
{
    let act = IndexAct::Put(name_of(rt, alloc));
    let reply = ok(rt, state.apply(&act, body));
    same(rt, reply.status, status);
    same(rt, reply.length, 0);
    same(rt, reply.body.len(), 0);
}

#[test]
fn a_length_is_told_without_the_index(rt: HostRuntime) {
    let alloc = rt.alloc();
    let mut state = empty_server(alloc);
    same(&rt, state.writable(), true);
    asks_how_long(&rt, alloc, &mut state, 404, 0);
    puts(&rt, alloc, &mut state, &INDEX_OF_ABC, 200);
    asks_how_long(&rt, alloc, &mut state, 200, 144);
}

#[test]
fn an_index_stays_where_what_is_put_is_none(rt: HostRuntime) {
    let alloc = rt.alloc();
    let mut state = empty_server(alloc);
    puts(&rt, alloc, &mut state, &INDEX_OF_ABC, 200);
    puts(&rt, alloc, &mut state, b"abc", 400);
    puts(&rt, alloc, &mut state, &INDEX_OF_ABC[..143], 400);
    gets(&rt, alloc, &mut state, 200, &INDEX_OF_ABC);
}

// A file that is no index isn't given, for which it is read once. Then two calls fail.
#[test]
fn damaged_indexes_and_faults_are_told(rt: HostRuntime) {
    let alloc = rt.alloc();
    let mut folder = MemFolder::new(alloc, ok(&rt, vec![in alloc; 2, 3]));
    ok(&rt, folder.put("a.caibx", &INDEX_OF_ABC[..143]));
    let mut state = IndexState::new(alloc, folder, true);
    gets(&rt, alloc, &mut state, 404, b"");
    gets(&rt, alloc, &mut state, 500, b"");
    puts(&rt, alloc, &mut state, &INDEX_OF_ABC, 500);
    puts(&rt, alloc, &mut state, &INDEX_OF_ABC, 200);
    gets(&rt, alloc, &mut state, 200, &INDEX_OF_ABC);
}

// A link on which the second call fails: a read, and then a write.
fn ends(rt: &impl Abort, alloc: Global, bytes: &[u8], fails: u64, served: Served, sent: &[u8]) {
    let pieces = pieces_of(rt, alloc, bytes, 1000);
    let mut link = MemLink::new(alloc, pieces, ok(rt, vec![in alloc; fails]));
    let mut state = empty_server(alloc);
    same(rt, serve_index(alloc, &mut link, &mut state), served);
    same(rt, link.sent(), sent);
}

#[test]
fn a_connection_that_fails_is_told(rt: HostRuntime) {
    let alloc = rt.alloc();
    let asked = b"GET /a.caibx HTTP/1.1\r\n\r\n";
    ends(&rt, alloc, asked, 0, Served::LinkFault, b"");
    ends(&rt, alloc, asked, 1, Served::LinkFault, b"");
}

#[test]
fn a_head_without_an_end_is_refused(rt: HostRuntime) {
    let alloc = rt.alloc();
    let asked = ok(&rt, vec![in alloc; b'a'; 16_384]);
    let mut state = empty_server(alloc);
    is_sent(
        &rt,
        alloc,
        &mut state,
        1000,
        asked.as_slice(),
        b"HTTP/1.1 431 Request Header Fields Too Large\r\nContent-Length: 0\r\nConnection: close\r\n\r\n",
    );
}
