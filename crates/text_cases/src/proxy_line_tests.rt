//! Words of `chunk-server`, with a cache before its stores and without.

use crate::compare::same;
use crate::line_tests::{have_sizes, is_a_server, is_refused, is_the_folder, store_in, words_of};
use chunk_store::id::DigestKind;
use command_line::read_words;
use command_words::command::{Command, Groups};
use std::alloc::Global;
use std::process::Abort;

// Words, the place at which they are refused, and why: first what a word by itself is refused for, as with a cache.
const REFUSED: &str = "\
chunk-server -s st -c '' -l h:1 -> 4 Empty
chunk-server -s a| -l h:1 -> 2 Empty
chunk-server -s a|https://h/ -l h:1 -> 2 BadLocation
chunk-server -s a|b|c|d|e|f|g|h|i|j|k|l|m|n|o|p|q -l h:1 -> 2 TooMany
chunk-server -s a|b|c|d|e|f|g|h -c ca -s i|j|k|l|m|n|o|p|q -l h:1 -> 6 TooMany
chunk-server -s st -c ca --cache b -l h:1 -> 5 TooMany
chunk-server -s st -e 1 --error-retry 1 -c ca -l h:1 -> 5 TooMany
chunk-server -s st -e 17 -l h:1 -> 4 BadNumber
chunk-server -s http://h/ -l x -> 4 BadListen
chunk-server -s st -l h:1 -c -> 6 NoValue
chunk-server -s st x -c ca -l h:1 -> 3 Operands
index-server -s st -c ca -l h:1 -> 3 UnknownOption
chunk-server -s st -s b -l h:1 -> 3 TooMany
chunk-server -s st -l h:1 -e 1 -> 5 TooMany
chunk-server -e 0 -s st -s b -l h:1 -> 1 TooMany
chunk-server -s st -s b -e 0 -l h:1 -> 3 TooMany
chunk-server -s http://h/ -s b -l h:1 -> 3 TooMany
chunk-server -s a|b -l h:1 -e 1 -> 5 TooMany
chunk-server -s st -e 1 -> 3 TooMany
chunk-server -s http://h/ -l h:1 -> 2 NeedsFolder
chunk-server -l h:1 -w -s a|b -> 5 NeedsFolder
chunk-server -s a|b -> 2 NeedsFolder
chunk-server -s st -c ca -> 5 MissingOption
chunk-server -c ca -l h:1 -> 5 MissingOption
chunk-server -s st -c ca -w -> 6 MissingOption
chunk-server -s st -c ca -l localhost:8080 -w -> 8 ReadOnly
chunk-server -w -c ca -l h:1 -s http://h/|x -e 3 -> 10 ReadOnly
";

#[test]
fn words_of_chunk_server_are_refused_at_their_places(rt: HostRuntime) {
    for line in REFUSED.lines() {
        is_refused(&rt, rt.alloc(), line);
    }
}

// These stores, and how often a call on them is made again.
fn are_two_groups(rt: &impl Abort, stores: &Groups, retries: u32) {
    have_sizes(rt, stores, &[2, 1]);
    is_the_folder(rt, store_in(rt, stores, 0, 0));
    is_a_server(rt, store_in(rt, stores, 0, 1), 80);
    is_a_server(rt, store_in(rt, stores, 1, 0), 8080);
    same(rt, retries, 3);
}

#[test]
#[rattlefmt::skip]
fn a_cache_makes_it_a_proxy(rt: HostRuntime) {
    let line = "chunk-server --digest sha256 -s /srv/a|http://localhost/ -l ::1:80 -e 3 -n 4 -c ca \
        -s http://localhost:8080/";
    match read_words(rt.alloc(), &words_of(&rt, rt.alloc(), line)) {
        Ok(Command::Proxy { stores, retries, cache, host, port, workers, digest }) => {
            are_two_groups(&rt, &stores, retries);
            same(&rt, cache.as_str(), "ca");
            same(&rt, host.as_str(), "::1");
            same(&rt, (port, workers), (80, 4));
            same(&rt, digest, DigestKind::Sha256);
        }
        _ => rt.panic("refused"),
    }
}

// What is usual where the words say no more.
fn is_usual(rt: &impl Abort, retries: u32, workers: u32, digest: DigestKind) {
    same(rt, (retries, workers), (0, 10));
    same(rt, digest, DigestKind::Sha512T256);
}

#[test]
#[rattlefmt::skip]
fn a_proxy_has_ten_workers_and_tries_once(rt: HostRuntime) {
    let line = "chunk-server --cache -w --listen :1 --store st";
    match read_words(rt.alloc(), &words_of(&rt, rt.alloc(), line)) {
        Ok(Command::Proxy { stores, retries, cache, host, port, workers, digest }) => {
            have_sizes(&rt, &stores, &[1]);
            is_usual(&rt, retries, workers, digest);
            same(&rt, cache.as_str(), "-w");
            same(&rt, (host.as_str(), port), ("", 1));
        }
        _ => rt.panic("refused"),
    }
}

// The words are `chunk-server` over the folder `st`.
fn chunk_server_has(rt: &impl Abort, alloc: Global, line: &str, writable: bool, workers: u32) {
    match read_words(alloc, &words_of(rt, alloc, line)) {
        Ok(
            Command::ChunkServer {
                store,
                writable: allowed,
                workers: many,
                ..
            },
        ) => {
            same(rt, store.as_str(), "st");
            same(rt, (allowed, many), (writable, workers));
        }
        _ => rt.panic("refused"),
    }
}

#[test]
fn without_a_cache_it_is_a_server_of_a_folder(rt: HostRuntime) {
    chunk_server_has(&rt, rt.alloc(), "chunk-server -s st -l h:1", false, 10);
    chunk_server_has(
        &rt,
        rt.alloc(),
        "chunk-server -w -n 1 -l h:1 -s st",
        true,
        1,
    );
}
