//! Asks and replies by their bytes; bodies of replies in pieces of each size, whole, cut short and misspelled; and
//! heads of requests.

ghost use Rattle.std.specs.Prelude.{◌<◌};

use crate::compare::{ok, same};
use chunk_store::id::ChunkId;
use dsy_forms::mem_sink::MemSink;
use http_frames::body::BodyKind;
use http_frames::fault::WireFault;
use http_frames::head::head_end;
use http_frames::reader::BodyReader;
use http_wire::ask::write_ask;
use http_wire::reply::{Method, ReplyHead, read_reply};
use http_wire::reply_text::write_reply;
use http_wire::request::{Act, Request, read_request};
use http_wire::target::id_in;
use std::alloc::Global;
use std::process::Abort;

const CHUNKED: &[u8] =
    b"3;name=\"v\"\r\nabc\r\n00a \r\n0123456789\r\n0\r\nTrailer: 1\r\nother: 2\n\r\nGET";

// The body of these bytes, fed this many at a time, its answer and whether it was done.
fn read(
    kind: BodyKind,
    bytes: &[u8],
    step: usize,
    out: &mut [u8],
) -> (Result<usize, WireFault>, bool)
    requires { 0 < step }
{
    let mut reader = BodyReader::new(kind);
    for piece in bytes.chunks(step) {
        if let Err(fault) = reader.feed(piece, out) {
            return (Err(fault), reader.done());
        }
    }
    let done = reader.done();
    (reader.finish(), done)
}

#[test]
fn chunks_in_any_pieces(rt: HostRuntime) {
    for step in 1..CHUNKED.len() + 1 {
        let mut out = [0u8; 13];
        let (answer, done) = read(BodyKind::Chunked, CHUNKED, step, &mut out);
        same(&rt, answer, Ok(13));
        same(&rt, done, true);
        same(&rt, out, *b"abc0123456789");
    }
}

// In pieces of each size, with room for 13 bytes.
fn chunks_are_refused(rt: &impl Abort, bytes: &[u8], fault: WireFault) {
    for step in 1..bytes.len().saturating_add(1) {
        let (answer, _) = read(BodyKind::Chunked, bytes, step, &mut [0u8; 13]);
        same(rt, answer, Err(fault));
    }
}

#[test]
fn chunks_refused(rt: HostRuntime) {
    chunks_are_refused(&rt, b"3\r\nabc\r\n", WireFault::CutShort);
    chunks_are_refused(&rt, b"3\r\nabc\r\n0\r\n", WireFault::CutShort);
    chunks_are_refused(&rt, b"3\nabc\r\n0\r\n\r\n", WireFault::BadChunk);
    chunks_are_refused(&rt, b"3\r\nabcd\r\n0\r\n\r\n", WireFault::BadChunk);
    chunks_are_refused(&rt, b"\r\n", WireFault::BadChunk);
    chunks_are_refused(&rt, b"g\r\n", WireFault::BadChunk);
    chunks_are_refused(&rt, b"10000000000000000\r\n", WireFault::BadChunk);
    chunks_are_refused(&rt, b"e\r\n", WireFault::BodyTooLong);
    chunks_are_refused(&rt, b"ffffffffffffffff\r\n", WireFault::BodyTooLong);
}

// What comes of a body with room for three bytes, and whether it was done.
fn body_gives(
    rt: &impl Abort,
    kind: BodyKind,
    bytes: &[u8],
    step: usize,
    want: Result<usize, WireFault>,
    done: bool,
)
    requires { 0 < step }
{
    let (answer, was_done) = read(kind, bytes, step, &mut [0u8; 3]);
    same(rt, answer, want);
    same(rt, was_done, done);
}

#[test]
fn bodies_by_length(rt: HostRuntime) {
    let mut out = [0u8; 3];
    let (answer, _) = read(BodyKind::Length(3), b"abcd", 2, &mut out);
    same(&rt, answer, Ok(3));
    same(&rt, out, *b"abc");
    body_gives(&rt, BodyKind::Length(3), b"abcd", 2, Ok(3), true);
    let cut = Err(WireFault::CutShort);
    body_gives(&rt, BodyKind::Length(3), b"ab", 2, cut, false);
    body_gives(&rt, BodyKind::Length(4), b"", 1, cut, false);
    let long = Err(WireFault::BodyTooLong);
    body_gives(&rt, BodyKind::Length(4), b"a", 1, long, false);
}

#[test]
fn bodies_to_the_end_and_none(rt: HostRuntime) {
    let long = Err(WireFault::BodyTooLong);
    body_gives(&rt, BodyKind::ToEnd, b"xyz", 1, Ok(3), false);
    body_gives(&rt, BodyKind::ToEnd, b"wxyz", 3, long, false);
    body_gives(&rt, BodyKind::None, b"xyz", 1, Ok(0), true);
}

#[test]
fn a_size_line_of_256_bytes_is_taken(rt: HostRuntime) {
    let mut line = [b' '; 256];
    line[0] = b'0';
    line[254] = b'\r';
    line[255] = b'\n';
    let mut out = [0u8; 1];
    let mut reader = BodyReader::new(BodyKind::Chunked);
    same(&rt, reader.feed(&line, &mut out), Ok(()));
    same(&rt, reader.feed(b"\n", &mut out), Ok(()));
    same(&rt, reader.done(), true);
}

#[test]
fn a_size_line_of_257_bytes_is_refused(rt: HostRuntime) {
    let mut line = [b' '; 257];
    line[0] = b'0';
    line[255] = b'\r';
    line[256] = b'\n';
    let mut out = [0u8; 1];
    let mut reader = BodyReader::new(BodyKind::Chunked);
    same(&rt, reader.feed(&line, &mut out), Err(WireFault::BadChunk));
    same(&rt, reader.feed(b"x", &mut out), Err(WireFault::BadChunk));
}

#[test]
fn limits_of_a_trailer(rt: HostRuntime) {
    let line = [b'x'; 16_381];
    let mut out = [0u8; 1];
    let mut reader = BodyReader::new(BodyKind::Chunked);
    same(&rt, reader.feed(b"0\r\n", &mut out), Ok(()));
    same(&rt, reader.feed(&line, &mut out), Ok(()));
    same(&rt, reader.feed(b"\n\r\n", &mut out), Ok(()));
    same(&rt, reader.done(), true);
    let mut reader = BodyReader::new(BodyKind::Chunked);
    same(&rt, reader.feed(b"0\r\n\r\r\n", &mut out), Ok(()));
    same(&rt, reader.done(), false);
    same(&rt, reader.feed(&line, &mut out), Err(WireFault::BadChunk));
    same(&rt, reader.finish(), Err(WireFault::BadChunk));
}

#[test]
fn ends_of_heads(rt: HostRuntime) {
    same(&rt, head_end(b"a\r\n\r\nb\n\n"), Some(5));
    same(&rt, head_end(b"a\n\nb"), Some(3));
    same(&rt, head_end(b"\n\r\n"), Some(3));
    same(&rt, head_end(b"\r\n"), None);
    same(&rt, head_end(b"a\r\nb\r\n\r"), None);
}

// The head of a reply to GET has this status, and is followed by such a body.
fn reply_has(rt: &impl Abort, head: &[u8], status: u16, body: BodyKind) {
    same(
        rt,
        read_reply(head, Method::Get),
        Ok(ReplyHead { status, body }),
    );
}

#[test]
fn heads_of_replies(rt: HostRuntime) {
    reply_has(&rt, b"HTTP/1.1 200 OK\r\n\r\n", 200, BodyKind::ToEnd);
    reply_has(&rt, b"HTTP/1.0 404 \nA: b\n\n", 404, BodyKind::ToEnd);
    reply_has(
        &rt,
        b"HTTP/1.1 204 x\r\nContent-Length: x\r\n\r\n",
        204,
        BodyKind::None,
    );
    reply_has(&rt, b"HTTP/1.1 100 x\r\n\r\n", 100, BodyKind::None);
    let head = b"HTTP/1.1 200 OK\r\ncontent-LENGTH: \t3 \r\nContent-Length: 03\r\n\r\n";
    reply_has(&rt, head, 200, BodyKind::Length(3));
    let head = b"HTTP/1.1 200 OK\r\nContent-Length: 999999999999999999\r\n\r\n";
    reply_has(&rt, head, 200, BodyKind::Length(999_999_999_999_999_999));
    let head = b"HTTP/1.1 200 OK\r\nContent-Length: 3\r\nTransfer-Encoding: Chunked\r\n\r\n";
    reply_has(&rt, head, 200, BodyKind::Chunked);
    let head = b"HTTP/1.1 200 OK\r\nContent-Length: x\r\n\r\n";
    let want = ReplyHead {
        status: 200,
        body: BodyKind::None,
    };
    same(&rt, read_reply(head, Method::Head), Ok(want));
}

fn is_no_reply(rt: &impl Abort, head: &[u8], fault: WireFault) {
    same(rt, read_reply(head, Method::Get), Err(fault));
}

#[test]
fn heads_that_are_no_replies(rt: HostRuntime) {
    let framing = WireFault::Framing;
    let head = b"HTTP/1.1 200 OK\r\nContent-Length: 3\r\nContent-Length: 4\r\n\r\n";
    is_no_reply(&rt, head, framing);
    is_no_reply(
        &rt,
        b"HTTP/1.1 200 OK\r\nContent-Length: 3, 3\r\n\r\n",
        framing,
    );
    is_no_reply(&rt, b"HTTP/1.1 200 OK\r\nContent-Length:\r\n\r\n", framing);
    let head = b"HTTP/1.1 200 OK\r\nContent-Length: 1000000000000000000\r\n\r\n";
    is_no_reply(&rt, head, framing);
    let head = b"HTTP/1.1 200 OK\r\nTransfer-Encoding: gzip, chunked\r\n\r\n";
    is_no_reply(&rt, head, framing);
    let head =
        b"HTTP/1.1 200 OK\r\nTransfer-Encoding: chunked\r\nTransfer-Encoding: chunked\r\n\r\n";
    is_no_reply(&rt, head, framing);
    is_no_reply(&rt, b"HTTP/2 200 OK\r\n\r\n", WireFault::BadHead);
    let short = b"HTTP/1.1 200 OK\r\nContent-Length: x\r\n\r";
    is_no_reply(&rt, short, WireFault::BadHead);
    is_no_reply(&rt, b"HTTP/1.1 200 OK\r\n\r\nx", WireFault::BadHead);
}

#[test]
fn asks(rt: HostRuntime) {
    let alloc = rt.alloc();
    let mut out = MemSink::new(alloc, Vec::new(alloc));
    let put = write_ask(
        alloc,
        Method::Get,
        "localhost",
        8080,
        "/store/a",
        None,
        &mut out,
    );
    same(&rt, put, Ok(()));
    let get =
        b"GET /store/a HTTP/1.1\r\nHost: localhost:8080\r\nAccept-Encoding: identity\r\nConnection: close\r\n\r\n";
    same(&rt, out.taken(), get.as_slice());
}

#[test]
fn asks_of_the_usual_port_with_a_body(rt: HostRuntime) {
    let alloc = rt.alloc();
    let mut out = MemSink::new(alloc, Vec::new(alloc));
    let put = write_ask(alloc, Method::Put, "h", 80, "/a", Some(3), &mut out);
    same(&rt, put, Ok(()));
    let put =
        b"PUT /a HTTP/1.1\r\nHost: h\r\nAccept-Encoding: identity\r\nConnection: close\r\nContent-Length: 3\r\n\r\n";
    same(&rt, out.taken(), put.as_slice());
}

// The id of the bytes "abc" (FIPS 180-4, the example of SHA-512/256).
const ABC: ChunkId = ChunkId([
    0x53, 0x04, 0x8e, 0x26, 0x81, 0x94, 0x1e, 0xf9, 0x9b, 0x2e, 0x29, 0xb7, 0x6b, 0x4c, 0x7d, 0xab,
    0xe4, 0xc2, 0xd0, 0xc6, 0x34, 0xfc, 0x6d, 0x46, 0xe0, 0xe2, 0xf1, 0x31, 0x07, 0xe7, 0xaf, 0x23,
]);

// The target is the path of "abc".
fn is_abc(rt: &impl Abort, target: &[u8]) {
    same(rt, id_in(target), Some(ABC));
}

fn is_no_path(rt: &impl Abort, target: &[u8]) {
    same(rt, id_in(target), None);
}

#[test]
fn targets_that_are_paths(rt: HostRuntime) {
    is_abc(
        &rt,
        b"/5304/53048e2681941ef99b2e29b76b4c7dabe4c2d0c634fc6d46e0e2f13107e7af23",
    );
    is_abc(
        &rt,
        b"/5304/53048E2681941EF99B2E29B76B4C7DABE4C2D0C634FC6D46E0E2F13107E7AF23",
    );
    is_no_path(
        &rt,
        b"/5305/53048e2681941ef99b2e29b76b4c7dabe4c2d0c634fc6d46e0e2f13107e7af23",
    );
    is_no_path(
        &rt,
        b"15304/53048e2681941ef99b2e29b76b4c7dabe4c2d0c634fc6d46e0e2f13107e7af23",
    );
    is_no_path(
        &rt,
        b"/5304153048e2681941ef99b2e29b76b4c7dabe4c2d0c634fc6d46e0e2f13107e7af23",
    );
    is_no_path(
        &rt,
        b"/5304/53048e2681941ef99b2e29b76b4c7dabe4c2d0c634fc6d46e0e2f13107e7af230",
    );
    is_no_path(
        &rt,
        b"/5304/53048e2681941ef99b2e29b76b4c7dabe4c2d0c634fc6d46e0e2f13107e7af2",
    );
    is_no_path(&rt, b"/");
}

// The head, before a body of this many bytes, is refused with this status, and the connection closed.
fn is_refused(rt: &impl Abort, head: &[u8], status: u16, body: u64) {
    let want = Request {
        act: Act::Refuse(status),
        close: true,
        body,
    };
    same(rt, read_request(head, true), want);
}

#[test]
fn requests_refused(rt: HostRuntime) {
    is_refused(&rt, b"GET /x HTTP/1.1\r\n\r\nx", 400, 0);
    is_refused(&rt, b"GET /x HTTP/2\r\n\r\n", 400, 0);
    is_refused(
        &rt,
        b"POST /x HTTP/1.1\r\nTransfer-Encoding: chunked\r\n\r\n",
        405,
        0,
    );
    is_refused(&rt, b"get /x HTTP/1.1\r\n\r\n", 405, 0);
    let head = b"GET /x HTTP/1.1\r\nTransfer-Encoding: gzip\r\nContent-Length: x\r\n\r\n";
    is_refused(&rt, head, 411, 0);
    is_refused(&rt, b"GET /x HTTP/1.1\r\nContent-Length: 1\r\n\r\n", 400, 0);
    is_refused(
        &rt,
        b"HEAD /x HTTP/1.1\r\nContent-Length: +0\r\n\r\n",
        400,
        0,
    );
    let head = b"PUT /x HTTP/1.1\r\nContent-Length: 3\r\nContent-Length: 4\r\n\r\n";
    is_refused(&rt, head, 400, 0);
    is_refused(&rt, b"PUT /x HTTP/1.1\r\n\r\n", 411, 0);
    let head = b"PUT /x HTTP/1.1\r\nContent-Length: 67108865\r\n\r\n";
    is_refused(&rt, head, 413, 67_108_865);
}

// The head asks for no path of a chunk, and may close the connection.
fn is_lost(rt: &impl Abort, head: &[u8], close: bool) {
    let request = read_request(head, false);
    same(rt, request.act, Act::Lost);
    same(rt, request.close, close);
}

#[test]
fn requests_that_close(rt: HostRuntime) {
    is_lost(&rt, b"GET /x HTTP/1.1\r\n\r\n", false);
    is_lost(&rt, b"GET /x HTTP/1.0\r\n\r\n", true);
    is_lost(&rt, b"GET /x HTTP/1.1\r\nConnection: close\r\n\r\n", true);
    is_lost(
        &rt,
        b"GET /x HTTP/1.1\r\nConnection: keep-alive\r\n\r\n",
        false,
    );
    is_lost(
        &rt,
        b"GET /x HTTP/1.1\r\nCONNECTION: Upgrade ,\tClose , x\r\n\r\n",
        true,
    );
    is_lost(
        &rt,
        b"GET /x HTTP/1.1\r\nConnection: closed, c lose\r\n\r\n",
        false,
    );
    is_lost(
        &rt,
        b"GET /x HTTP/1.1\r\nConnection: x\r\nConnection: close\r\n\r\n",
        true,
    );
}

// The head of a request that is read by a server that takes no chunks.
fn asks_for(rt: &impl Abort, head: &[u8], act: Act) {
    same(rt, read_request(head, false).act, act);
}

#[test]
fn requests_taken(rt: HostRuntime) {
    let get =
        b"GET /5304/53048e2681941ef99b2e29b76b4c7dabe4c2d0c634fc6d46e0e2f13107e7af23 HTTP/1.1\r\nHost: h\r\n\r\n";
    asks_for(&rt, get, Act::Get(ABC));
    let head =
        b"HEAD /5304/53048e2681941ef99b2e29b76b4c7dabe4c2d0c634fc6d46e0e2f13107e7af23 HTTP/1.1\r\n\
        Content-Length: 0\r\n\r\n";
    asks_for(&rt, head, Act::Head(ABC));
    let put =
        b"PUT /5304/53048e2681941ef99b2e29b76b4c7dabe4c2d0c634fc6d46e0e2f13107e7af23 HTTP/1.1\r\n\
        Content-Length: 67108864\r\n\r\n";
    asks_for(&rt, put, Act::Refuse(405));
    let taken = Request {
        act: Act::Put(ABC),
        close: false,
        body: 67_108_864,
    };
    same(&rt, read_request(put, true), taken);
}

// A head of this many header lines.
fn head_of(rt: &impl Abort, alloc: Global, lines: usize) -> String {
    let mut head = ok(rt, String::from_str(alloc, "GET /x HTTP/1.1\r\n"));
    for _ in 0..lines {
        ok(rt, head.push_str("a: b\r\n"));
    }
    ok(rt, head.push_str("\r\n"));
    head
}

#[test]
fn sixty_four_header_lines_are_the_most(rt: HostRuntime) {
    let most = head_of(&rt, rt.alloc(), 64);
    asks_for(&rt, most.as_bytes(), Act::Lost);
    let more = head_of(&rt, rt.alloc(), 65);
    asks_for(&rt, more.as_bytes(), Act::Refuse(400));
}

// The head of a reply of the server itself is this text.
fn is_replied(rt: &impl Abort, alloc: Global, status: u16, length: u64, close: bool, text: &[u8]) {
    let mut out = MemSink::new(alloc, Vec::new(alloc));
    same(
        rt,
        write_reply(alloc, status, length, close, &mut out),
        Ok(()),
    );
    same(rt, out.taken(), text);
}

#[test]
fn heads_of_own_replies(rt: HostRuntime) {
    let own = b"HTTP/1.1 200 OK\r\nContent-Length: 3\r\n\r\n";
    is_replied(&rt, rt.alloc(), 200, 3, false, own);
    let own = b"HTTP/1.1 405 Method Not Allowed\r\nContent-Length: 0\r\nConnection: close\r\n\r\n";
    is_replied(&rt, rt.alloc(), 405, 0, true, own);
}
