//! The heads of requests for indexes, and the names in their targets.

use crate::compare::{ok, same};
use dsy_base::name::Name;
use http_wire::index_request::{IndexAct, IndexRequest, read_index_request};
use http_wire::index_target::name_in_target;
use std::alloc::Global;
use std::process::Abort;

// The target is the path of the index of this name.
fn names(rt: &impl Abort, alloc: Global, target: &[u8], want: &str) {
    match ok(rt, name_in_target(alloc, target)) {
        Some(name) => same(rt, name.as_str(), want),
        None => rt.panic("no name"),
    }
}

// The target is the path of no index.
fn names_none(rt: &impl Abort, alloc: Global, target: &[u8]) {
    same(rt, ok(rt, name_in_target(alloc, target)).is_none(), true);
}

#[test]
fn names_of_indexes(rt: HostRuntime) {
    let alloc = rt.alloc();
    names(&rt, alloc, b"/a.caibx", "a.caibx");
    names(&rt, alloc, b"/A-1_b.2.caibx", "A-1_b.2.caibx");
    names(&rt, alloc, b"/a..b.caibx", "a..b.caibx");
}

#[test]
fn what_leads_out_of_the_folder_is_no_name(rt: HostRuntime) {
    let alloc = rt.alloc();
    names_none(&rt, alloc, b"/../a.caibx");
    names_none(&rt, alloc, b"/x/a.caibx");
    names_none(&rt, alloc, b"//a.caibx");
    names_none(&rt, alloc, b"/..caibx");
    names_none(&rt, alloc, b"/.a.caibx");
}

#[test]
fn what_has_another_form_is_no_name(rt: HostRuntime) {
    let alloc = rt.alloc();
    names_none(&rt, alloc, b"");
    names_none(&rt, alloc, b"/");
    names_none(&rt, alloc, b"a.caibx");
    names_none(&rt, alloc, b"/.caibx");
    names_none(&rt, alloc, b"/a");
    names_none(&rt, alloc, b"/a.caibx?x");
    names_none(&rt, alloc, b"/a%62.caibx");
    names_none(&rt, alloc, b"/a.CAIBX");
    names_none(&rt, alloc, b"/\xc3\xa4.caibx");
}

// Whether the name of this many bytes is one of an index.
fn is_name_of(rt: &impl Abort, alloc: Global, size: usize) -> bool {
    let mut target = ok(rt, vec![in alloc; b'a'; size]);
    ok(rt, target.extend_from_slice(b".caibx"));
    let mut path = ok(rt, vec![in alloc; b'/'; 1]);
    ok(rt, path.extend_from_slice(target.as_slice()));
    ok(rt, name_in_target(alloc, path.as_slice())).is_some()
}

#[test]
fn names_have_at_most_128_bytes(rt: HostRuntime) {
    let alloc = rt.alloc();
    same(&rt, is_name_of(&rt, alloc, 1), true);
    same(&rt, is_name_of(&rt, alloc, 122), true);
    same(&rt, is_name_of(&rt, alloc, 123), false);
}

// What the act is, as a number that the table of requests has: a status, or 0 where the request is taken.
fn refusal(request: &IndexRequest) -> u16 {
    match request.act {
        IndexAct::Refuse(status) => status,
        _ => 0,
    }
}

// Reads the head, and looks at the status of a refusal, whether it closes, and the length of its body.
fn reads(
    rt: &impl Abort,
    alloc: Global,
    head: &[u8],
    writable: bool,
    status: u16,
    close: bool,
    body: u64,
) {
    let request = ok(rt, read_index_request(alloc, head, writable));
    same(rt, refusal(&request), status);
    same(rt, request.close, close);
    same(rt, request.body, body);
}

#[test]
fn requests_are_refused_by_the_table(rt: HostRuntime) {
    let alloc = rt.alloc();
    reads(
        &rt,
        alloc,
        b"GET /a.caibx HTTP/1.1\r\n\r\n",
        false,
        0,
        false,
        0,
    );
    reads(
        &rt,
        alloc,
        b"GET /a.caibx HTTP/1.0\r\n\r\n",
        false,
        0,
        true,
        0,
    );
    reads(
        &rt,
        alloc,
        b"DELETE /a.caibx HTTP/1.1\r\n\r\n",
        true,
        405,
        true,
        0,
    );
    reads(
        &rt,
        alloc,
        b"PUT /a.caibx HTTP/1.1\r\nContent-Length: 144\r\n\r\n",
        false,
        405,
        true,
        144,
    );
    reads(
        &rt,
        alloc,
        b"PUT /a.caibx HTTP/1.1\r\n\r\n",
        true,
        411,
        true,
        0,
    );
    reads(&rt, alloc, b"GET a b c\r\n\r\n", true, 400, true, 0);
}

// 104 bytes, and 40 for each of 2^22 chunks.
#[test]
fn a_body_has_at_most_the_bytes_of_the_longest_index(rt: HostRuntime) {
    let alloc = rt.alloc();
    reads(
        &rt,
        alloc,
        b"PUT /a.caibx HTTP/1.1\r\nContent-Length: 167772264\r\n\r\n",
        true,
        0,
        false,
        167_772_264,
    );
    reads(
        &rt,
        alloc,
        b"PUT /a.caibx HTTP/1.1\r\nContent-Length: 167772265\r\n\r\n",
        true,
        413,
        true,
        167_772_265,
    );
}

// The name of what is got.
fn gets(rt: &impl Abort, request: IndexRequest, want: &str) {
    match request.act {
        IndexAct::Get(name) => same_name(rt, &name, want),
        _ => rt.panic("another act"),
    }
}

fn same_name(rt: &impl Abort, name: &Name, want: &str) {
    same(rt, name.as_str(), want);
}

#[test]
fn the_index_of_the_target_is_asked_for(rt: HostRuntime) {
    let alloc = rt.alloc();
    let head = b"GET /a.caibx HTTP/1.1\r\n\r\n";
    gets(
        &rt,
        ok(&rt, read_index_request(alloc, head, false)),
        "a.caibx",
    );
}
