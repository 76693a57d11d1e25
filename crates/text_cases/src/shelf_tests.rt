//! Shelves over a folder in memory, and the connections in memory that they serve, through the bounds of their traits.

ghost use Rattle.std.specs.Prelude.{◌≡◌, ◌<◌, ◌≤◌, length, false};
ghost use Rattle.caibx_fields.specs.Limits.{size_limit};
ghost use Rattle.http_wire.specs.Request.{is_refusal};

use crate::compare::{ok, same};
use crate::pieces::pieces_of;
use chunk_server::serve::{Served, serve};
use chunk_server::shelf::Shelf;
use chunk_server::state::ShelfState;
use chunk_store::id::{ChunkId, DigestKind};
use dsy_base::folder::Folder;
use dsy_base::look::Look;
use dsy_forms::mem_folder::MemFolder;
use http_wire::request::Act;
use link_forms::mem_link::MemLink;
use std::alloc::Global;
use std::process::Abort;

// The path of `abc` (FIPS 180-4, the example of SHA-512/256).
const ABC: &str = "5304/53048e2681941ef99b2e29b76b4c7dabe4c2d0c634fc6d46e0e2f13107e7af23";

fn id_of(bytes: &[u8]) -> ChunkId {
    ChunkId::of(DigestKind::Sha512T256, bytes)
}

fn shelf_of(
    rt: &impl Abort,
    alloc: Global,
    folder: MemFolder,
    writable: bool,
) -> ShelfState<MemFolder> {
    match ShelfState::new(alloc, folder, writable) {
        Ok(shelf) => shelf,
        Err(_) => rt.panic("no memory"),
    }
}

// A shelf over a folder that is empty, which takes chunks.
fn empty_shelf(rt: &impl Abort, alloc: Global) -> ShelfState<MemFolder> {
    shelf_of(rt, alloc, MemFolder::new(alloc, Vec::new(alloc)), true)
}

// Answers the act, and looks at status, length and body.
fn answers<H: Shelf>(
    rt: &impl Abort,
    shelf: &mut H,
    act: Act,
    body: &[u8],
    status: u16,
    stated: u64,
    sent: &[u8],
)
    requires taken { is_refusal act ≡ false }
    requires size { length body.now ≤ size_limit }
{
    let reply = ok(rt, shelf.answer(&act, body));
    same(rt, reply.status, status);
    same(rt, reply.length, stated);
    same(rt, reply.body.as_slice(), sent);
}

fn chunks_are_put_and_got<H: Shelf>(rt: &impl Abort, shelf: &mut H) {
    let abc = id_of(b"abc");
    answers(rt, shelf, Act::Get(abc), b"", 404, 0, b"");
    answers(rt, shelf, Act::Put(abc), b"abc", 200, 0, b"");
    answers(rt, shelf, Act::Get(abc), b"", 200, 3, b"abc");
    answers(rt, shelf, Act::Head(abc), b"", 200, 3, b"");
    answers(rt, shelf, Act::Put(abc), b"abd", 400, 0, b"");
    answers(rt, shelf, Act::Get(abc), b"", 200, 3, b"abc");
    answers(rt, shelf, Act::Head(id_of(b"abd")), b"", 404, 0, b"");
    answers(rt, shelf, Act::Lost, b"", 404, 0, b"");
}

// The folder holds "abc" under its path, and nothing else.
fn holds_abc_alone(rt: &impl Abort, folder: &mut MemFolder) {
    let mut out = [0u8; 3];
    same(rt, folder.read(ABC, &mut out), Ok(3));
    same(rt, out, *b"abc");
    same(rt, ok(rt, folder.names()).len(), 1);
}

#[test]
fn chunks_of_a_folder(rt: HostRuntime) {
    let mut shelf = empty_shelf(&rt, rt.alloc());
    same(&rt, shelf.writable(), true);
    same(&rt, shelf.kind(), DigestKind::Sha512T256);
    chunks_are_put_and_got(&rt, &mut shelf);
    holds_abc_alone(&rt, &mut shelf.into_inner());
}

// A file of another name isn't the chunk. Then two calls fail, and the put doesn't.
fn damaged_chunks_and_faults_are_told<H: Shelf>(rt: &impl Abort, shelf: &mut H) {
    let abc = id_of(b"abc");
    answers(rt, shelf, Act::Get(abc), b"", 404, 0, b"");
    answers(rt, shelf, Act::Get(abc), b"", 500, 0, b"");
    answers(rt, shelf, Act::Put(abc), b"abc", 500, 0, b"");
    answers(rt, shelf, Act::Put(abc), b"abc", 200, 0, b"");
    answers(rt, shelf, Act::Get(abc), b"", 200, 3, b"abc");
}

#[test]
fn damaged_chunks_and_faults(rt: HostRuntime) {
    let alloc = rt.alloc();
    let mut folder = MemFolder::new(alloc, ok(&rt, vec![in alloc; 2, 3]));
    ok(&rt, folder.put(ABC, b"abd"));
    let mut shelf = shelf_of(&rt, alloc, folder, true);
    damaged_chunks_and_faults_are_told(&rt, &mut shelf);
}

// The text that these parts are.
fn text_of(rt: &impl Abort, alloc: Global, parts: &[&str]) -> String {
    let mut text = String::new(alloc);
    for part in parts {
        ok(rt, text.push_str(part));
    }
    text
}

// Serves a connection on which these bytes come, in pieces of this many, and looks at what is sent.
fn is_sent<H: Shelf>(
    rt: &impl Abort,
    alloc: Global,
    shelf: &mut H,
    size: usize,
    bytes: &[u8],
    sent: &[u8],
)
    requires { 0 < size }
{
    let pieces = pieces_of(rt, alloc, bytes, size);
    let mut link = MemLink::new(alloc, pieces, Vec::new(alloc));
    same(rt, serve(alloc, &mut link, shelf), Served::Closed);
    same(rt, link.sent(), sent);
}

// The path of `abd`, whose digest is from `openssl dgst -sha512-256`.
const ABD: &str = "72e5/72e5b67ed56db92b5d793c8610219bcb2e6c3fb70ac6a729fee72109b95498e8";

const LENGTH_3: &str = " HTTP/1.1\r\nContent-Length: 3\r\n\r\n";

const END: &str = " HTTP/1.1\r\n\r\n";

const OK_0: &str = "HTTP/1.1 200 OK\r\nContent-Length: 0\r\n\r\n";

const OK_3: &str = "HTTP/1.1 200 OK\r\nContent-Length: 3\r\n\r\n";

const OK_3_CLOSE: &[u8] = b"HTTP/1.1 200 OK\r\nContent-Length: 3\r\nConnection: close\r\n\r\n";

const OK_3_CLOSE_ABC: &[u8] =
    b"HTTP/1.1 200 OK\r\nContent-Length: 3\r\nConnection: close\r\n\r\nabc";

const BAD: &str = "HTTP/1.1 400 Bad Request\r\nContent-Length: 0\r\n\r\n";

const BAD_CLOSE: &[u8] =
    b"HTTP/1.1 400 Bad Request\r\nContent-Length: 0\r\nConnection: close\r\n\r\n";

const MISSING: &str = "HTTP/1.1 404 Not Found\r\nContent-Length: 0\r\n\r\n";

const NOT_ALLOWED: &str =
    "HTTP/1.1 405 Method Not Allowed\r\nContent-Length: 0\r\nConnection: close\r\n\r\n";

// A chunk is put and got, and other bytes under its path are refused.
fn one_connection(rt: &impl Abort, alloc: Global, size: usize)
    requires { 0 < size }
{
    let asked = text_of(
        rt,
        alloc,
        &[
            "PUT /", ABC, LENGTH_3, "abc", "GET /", ABC, END, "PUT /", ABC, LENGTH_3, "abd",
            "GET /", ABD, END, "DELETE /", ABC, END, "GET /", ABC, END,
        ],
    );
    let parts = [OK_0, OK_3, "abc", BAD, MISSING, NOT_ALLOWED];
    let sent = text_of(rt, alloc, &parts);
    let mut shelf = empty_shelf(rt, alloc);
    is_sent(
        rt,
        alloc,
        &mut shelf,
        size,
        asked.as_bytes(),
        sent.as_bytes(),
    );
    holds_abc_alone(rt, &mut shelf.into_inner());
}

// The path of `abc` by SHA-256 (FIPS 180-4's example).
const ABC_256: &str = "ba78/ba7816bf8f01cfea414140de5dae2223b00361a396177a9cb410ff61f20015ad";

// A shelf by SHA-256 over a folder that has `abc` by SHA-512/256.
fn shelf_by_sha256(rt: &impl Abort, alloc: Global) -> ShelfState<MemFolder> {
    let mut folder = MemFolder::new(alloc, Vec::new(alloc));
    ok(rt, folder.put(ABC, b"abc"));
    match ShelfState::with_kind(alloc, DigestKind::Sha256, folder, true) {
        Ok(shelf) => shelf,
        Err(_) => rt.panic("no memory"),
    }
}

#[test]
fn chunks_of_another_kind_are_refused(rt: HostRuntime) {
    let alloc = rt.alloc();
    let asked = text_of(
        &rt,
        alloc,
        &[
            "GET /", ABC, END, "PUT /", ABC, LENGTH_3, "abc", "PUT /", ABC_256, LENGTH_3, "abc",
            "GET /", ABC_256, END,
        ],
    );
    let sent = text_of(&rt, alloc, &[MISSING, BAD, OK_0, OK_3, "abc"]);
    let mut shelf = shelf_by_sha256(&rt, alloc);
    same(&rt, shelf.kind(), DigestKind::Sha256);
    is_sent(
        &rt,
        alloc,
        &mut shelf,
        64,
        asked.as_bytes(),
        sent.as_bytes(),
    );
}

#[test]
fn one_connection_in_any_pieces(rt: HostRuntime) {
    one_connection(&rt, rt.alloc(), 1);
    one_connection(&rt, rt.alloc(), 50);
    one_connection(&rt, rt.alloc(), 4096);
}

// What is sent by a shelf that has `abc` alone, where this text comes, and that it has no more then.
fn abc_is_sent(rt: &impl Abort, alloc: Global, parts: &[&str], sent: &[u8]) {
    let mut folder = MemFolder::new(alloc, Vec::new(alloc));
    ok(rt, folder.put(ABC, b"abc"));
    let mut shelf = shelf_of(rt, alloc, folder, true);
    let asked = text_of(rt, alloc, parts);
    is_sent(rt, alloc, &mut shelf, 64, asked.as_bytes(), sent);
    holds_abc_alone(rt, &mut shelf.into_inner());
}

#[test]
fn ends_of_connections(rt: HostRuntime) {
    let alloc = rt.alloc();
    let head = ["HEAD /", ABC, " HTTP/1.0\r\n\r\n"];
    abc_is_sent(&rt, alloc, &head, OK_3_CLOSE);
    let close = [
        "GET /",
        ABC,
        " HTTP/1.1\r\nConnection: close\r\n\r\nGET /",
        END,
    ];
    abc_is_sent(&rt, alloc, &close, OK_3_CLOSE_ABC);
    let body = [
        "GET /",
        ABC,
        " HTTP/1.1\r\nContent-Length: 1\r\n\r\nxGET /",
        END,
    ];
    abc_is_sent(&rt, alloc, &body, BAD_CLOSE);
}

#[test]
fn requests_that_are_cut_short(rt: HostRuntime) {
    let alloc = rt.alloc();
    abc_is_sent(&rt, alloc, &["PUT /", ABD, LENGTH_3, "ab"], b"");
    abc_is_sent(&rt, alloc, &["GET /", ABC, " HTTP/1.1\r\n"], b"");
    abc_is_sent(&rt, alloc, &[], b"");
}

const TOO_LARGE: &[u8] =
    b"HTTP/1.1 431 Request Header Fields Too Large\r\nContent-Length: 0\r\nConnection: close\r\n\r\n";

#[test]
fn heads_without_end(rt: HostRuntime) {
    let alloc = rt.alloc();
    let mut shelf = empty_shelf(&rt, alloc);
    is_sent(&rt, alloc, &mut shelf, 8192, &[b'x'; 16_384], TOO_LARGE);
    is_sent(&rt, alloc, &mut shelf, 8192, &[b'x'; 16_383], b"");
}

#[test]
fn a_failed_read_ends_a_connection(rt: HostRuntime) {
    let alloc = rt.alloc();
    let mut shelf = empty_shelf(&rt, alloc);
    let pieces = pieces_of(&rt, alloc, b"GET /", 1);
    let second = ok(&rt, vec![in alloc; 1]);
    let mut link = MemLink::new(alloc, pieces, second);
    same(&rt, serve(alloc, &mut link, &mut shelf), Served::LinkFault);
    same(&rt, link.sent().len(), 0);
}

// A folder that holds a chunk of this many bytes, and a request for it.
fn chunk_and_request(rt: &impl Abort, alloc: Global, size: usize) -> (MemFolder, String) {
    let body = ok(rt, vec![in alloc; b'x'; size]);
    let path = id_of(body.as_slice()).path();
    let mut folder = MemFolder::new(alloc, Vec::new(alloc));
    ok(rt, folder.put(path.as_str(), body.as_slice()));
    (folder, text_of(rt, alloc, &["GET /", path.as_str(), END]))
}

// So many bytes of the reply to a request for a chunk of this size are sent where the second write fails, which is the
// third call: the request comes in one piece.
fn is_sent_at_first(rt: &impl Abort, alloc: Global, size: usize, sent: usize) {
    let (folder, request) = chunk_and_request(rt, alloc, size);
    let mut shelf = shelf_of(rt, alloc, folder, false);
    let pieces = pieces_of(rt, alloc, request.as_bytes(), 4096);
    let third = ok(rt, vec![in alloc; 2]);
    let mut link = MemLink::new(alloc, pieces, third);
    let _ = serve(alloc, &mut link, &mut shelf);
    same(rt, link.sent().len(), sent);
}

// The head of a reply of one digit of length has 38 bytes.
#[test]
fn a_body_of_256_kib_leaves_with_its_head(rt: HostRuntime) {
    let alloc = rt.alloc();
    is_sent_at_first(&rt, alloc, 0, 38);
    is_sent_at_first(&rt, alloc, 3, 41);
    is_sent_at_first(&rt, alloc, 262_144, 43 + 262_144);
    is_sent_at_first(&rt, alloc, 262_145, 43);
}
