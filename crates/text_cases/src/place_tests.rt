//! Where an index is, by its name.

use crate::compare::{ok, same};
use command_words::location::{IndexPlace, NoLocation, read_index_place};
use std::alloc::Global;
use std::process::Abort;

fn is_file(rt: &impl Abort, alloc: Global, word: &str) {
    match ok(rt, read_index_place(alloc, word)) {
        IndexPlace::File(name) => same(rt, name.as_str(), word),
        _ => rt.panic("a server"),
    }
}

fn is_at(rt: &impl Abort, alloc: Global, word: &str, server: (&str, u16), asked: &str) {
    match ok(rt, read_index_place(alloc, word)) {
        IndexPlace::Http { host, port, path } => {
            same(rt, (host.as_str(), port), server);
            same(rt, path.as_str(), asked);
        }
        _ => rt.panic("a file"),
    }
}

fn is_none(rt: &impl Abort, alloc: Global, word: &str) {
    match read_index_place(alloc, word) {
        Err(NoLocation::Bad) => (),
        _ => rt.panic("a place"),
    }
}

#[test]
fn name_with_a_scheme_is_a_url(rt: HostRuntime) {
    let alloc = rt.alloc();
    is_file(&rt, alloc, "a.caibx");
    is_file(&rt, alloc, "a|b:/c");
    is_at(&rt, alloc, "http://h/a.caibx", ("h", 80), "/a.caibx");
    is_at(
        &rt,
        alloc,
        "http://localhost:8081/a.caibx",
        ("localhost", 8081),
        "/a.caibx",
    );
    is_none(&rt, alloc, "http://h:8081");
    is_none(&rt, alloc, "http://h/a.caibx?");
}

#[test]
fn path_is_that_of_the_request(rt: HostRuntime) {
    let alloc = rt.alloc();
    is_at(
        &rt,
        alloc,
        "http://h:8081/x/../a b|c/",
        ("h", 8081),
        "/a%20b|c/",
    );
}
