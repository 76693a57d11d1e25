//! What is printed of each command, by its first line.

use crate::compare::{ok, same};
use command_help::help::{Topic, put_help};
use command_words::option_table::CommandKind;
use dsy_forms::mem_sink::MemSink;
use std::alloc::Global;
use std::process::Abort;

// Prints the text on a topic, and compares its first line.
fn begins(rt: &impl Abort, alloc: Global, topic: Topic, first: &str) {
    let mut sink = MemSink::new(alloc, Vec::new(alloc));
    ok(rt, put_help(topic, &mut sink));
    match sink.taken().get(..first.len()) {
        Some(front) => same(rt, front, first.as_bytes()),
        None => rt.panic("a shorter text"),
    }
}

fn command_begins(rt: &impl Abort, alloc: Global, kind: CommandKind, first: &str) {
    begins(rt, alloc, Topic::Command(kind), first);
}

#[test]
#[rattlefmt::skip]
fn each_topic_is_told_of(rt: HostRuntime) {
    let alloc = rt.alloc();
    begins(&rt, alloc, Topic::All, "desync keeps images as chunks in a store");
    begins(&rt, alloc, Topic::Version, "desync 0.1.0 (rattle-kit-13)\n");
    command_begins(&rt, alloc, CommandKind::Make, "usage: desync make -s STORE");
    command_begins(&rt, alloc, CommandKind::Extract, "usage: desync extract [-k]");
    command_begins(&rt, alloc, CommandKind::Cat, "usage: desync cat -s STORE..");
    command_begins(&rt, alloc, CommandKind::VerifyIndex, "usage: desync verify-index");
    command_begins(&rt, alloc, CommandKind::Chop, "usage: desync chop");
    command_begins(&rt, alloc, CommandKind::Cache, "usage: desync cache");
    command_begins(&rt, alloc, CommandKind::ListChunks, "usage: desync list-chunks");
    command_begins(&rt, alloc, CommandKind::Info, "usage: desync info");
    command_begins(&rt, alloc, CommandKind::Verify, "usage: desync verify -s");
    command_begins(&rt, alloc, CommandKind::Prune, "usage: desync prune");
    command_begins(&rt, alloc, CommandKind::ChunkServer, "usage: desync chunk-server");
    command_begins(&rt, alloc, CommandKind::IndexServer, "usage: desync index-server");
    command_begins(&rt, alloc, CommandKind::Demo, "usage: desync demo");
}
