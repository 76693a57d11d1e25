//! The line of each outcome, and of each fault of an index.

use crate::compare::{ok, same};
use caibx_fields::fault::IndexFault;
use chunk_ends::sizes::SizeFault;
use chunk_store::id::ChunkId;
use chunk_store::shows::Shows;
use chunk_store::store::Giver;
use command_outcome::error_line::put_error_line;
use command_outcome::line::Line;
use command_outcome::outcome::Outcome;
use command_words::usage::UsageWhy;
use dsy_base::fault::IoFault;
use dsy_base::name::Name;
use dsy_forms::mem_sink::MemSink;
use std::alloc::Global;
use std::process::Abort;

// The id of "abc" (FIPS 180-4's example message), as its 64 digits.
const ABC: &str = "53048e2681941ef99b2e29b76b4c7dabe4c2d0c634fc6d46e0e2f13107e7af23";

// Puts the line of the outcome, and compares it.
fn line_is(rt: &impl Abort, alloc: Global, outcome: Outcome, line: &str) {
    let mut sink = MemSink::new(alloc, Vec::new(alloc));
    let mut room = ok(rt, Line::with_room(alloc, 512));
    ok(rt, put_error_line(&mut room, &outcome, &mut sink));
    same(rt, sink.taken(), line.as_bytes());
}

fn fault_is(rt: &impl Abort, alloc: Global, fault: IndexFault, line: &str) {
    let name = name_of(rt, alloc, "i");
    line_is(rt, alloc, Outcome::BadIndex { name, fault }, line);
}

fn usage_is(rt: &impl Abort, alloc: Global, why: UsageWhy, line: &str) {
    line_is(rt, alloc, Outcome::Usage { place: 5, why }, line);
}

fn name_of(rt: &impl Abort, alloc: Global, name: &str) -> Name {
    ok(rt, Name::of(alloc, name))
}

fn abc(rt: &impl Abort) -> ChunkId {
    ok(rt, ChunkId::from_hex(ABC))
}

#[test]
#[rattlefmt::skip]
fn each_outcome_with_a_name_or_number_has_its_line(rt: HostRuntime) {
    let alloc = rt.alloc();
    let name = name_of(&rt, alloc, "a/b.caibx");
    line_is(&rt, alloc, Outcome::NoFile { name }, "desync: a/b.caibx: no such file\n");
    let name = name_of(&rt, alloc, "st");
    line_is(&rt, alloc, Outcome::NoFolder { name }, "desync: st: no such folder\n");
    let name = name_of(&rt, alloc, "o");
    line_is(&rt, alloc, Outcome::FileFault { name }, "desync: o: failed\n");
    line_is(&rt, alloc, Outcome::Length { size: 4 }, "desync: the file has 4 bytes\n");
    line_is(&rt, alloc, Outcome::StoreFault { store: 15 }, "desync: store 15 failed\n");
}

#[test]
#[rattlefmt::skip]
fn each_outcome_with_an_id_has_its_line(rt: HostRuntime) {
    let alloc = rt.alloc();
    let id = abc(&rt);
    line_is(&rt, alloc, Outcome::Missing { entry: 0, id },
        "desync: chunk 53048e2681941ef99b2e29b76b4c7dabe4c2d0c634fc6d46e0e2f13107e7af23 of entry 0 is missing\n");
    let store = Giver { number: 2, member: 0 };
    line_is(&rt, alloc, Outcome::Damaged { entry: 7, id, store, shows: Shows::Longer },
        "desync: chunk 53048e2681941ef99b2e29b76b4c7dabe4c2d0c634fc6d46e0e2f13107e7af23 of entry 7 is damaged in \
            store 2\n");
    line_is(&rt, alloc, Outcome::Mismatch { entry: 3, got: id },
        "desync: entry 3 has the name 53048e2681941ef99b2e29b76b4c7dabe4c2d0c634fc6d46e0e2f13107e7af23\n");
    line_is(&rt, alloc, Outcome::Changed { entry: 18446744073709551615, was: id, got: id },
        "desync: the image changed at entry 18446744073709551615\n");
}

#[test]
#[rattlefmt::skip]
fn each_other_outcome_has_its_line(rt: HostRuntime) {
    let alloc = rt.alloc();
    line_is(&rt, alloc, Outcome::Done, "");
    line_is(&rt, alloc, Outcome::Sizes(SizeFault::Order), "desync: bad chunk sizes: Order\n");
    line_is(&rt, alloc, Outcome::Sizes(SizeFault::MinTooSmall), "desync: bad chunk sizes: MinTooSmall\n");
    line_is(&rt, alloc, Outcome::CacheFault, "desync: the cache failed\n");
    line_is(&rt, alloc, Outcome::TargetFault, "desync: the target failed\n");
    line_is(&rt, alloc, Outcome::OutFault, "desync: the output failed\n");
    line_is(&rt, alloc, Outcome::ImageFault, "desync: the image failed\n");
    line_is(&rt, alloc, Outcome::ListenFault, "desync: the listener failed\n");
    line_is(&rt, alloc, Outcome::TooManyItems, "desync: too many chunks\n");
    line_is(&rt, alloc, Outcome::DamagedLeft { count: 10 }, "desync: damaged chunks left: 10\n");
    line_is(&rt, alloc, Outcome::Memory, "desync: no memory\n");
}

#[test]
#[rattlefmt::skip]
fn each_fault_of_an_index_has_its_text(rt: HostRuntime) {
    let alloc = rt.alloc();
    fault_is(&rt, alloc, IndexFault::Truncated { at: 143 }, "desync: i: bad index: truncated at byte 143\n");
    fault_is(&rt, alloc, IndexFault::Head, "desync: i: bad index: no index head\n");
    fault_is(&rt, alloc, IndexFault::Table, "desync: i: bad index: no table head\n");
    fault_is(&rt, alloc, IndexFault::Tail, "desync: i: bad index: bad table tail\n");
    fault_is(&rt, alloc, IndexFault::Trailing, "desync: i: bad index: bytes after the tail\n");
    fault_is(&rt, alloc, IndexFault::MaxSize { max: 67_108_865 }, "desync: i: bad index: greatest size 67108865 is \
        over the limit\n");
    fault_is(&rt, alloc, IndexFault::Items, "desync: i: bad index: too many entries\n");
    fault_is(&rt, alloc, IndexFault::Order { entry: 1 }, "desync: i: bad index: entry 1 ends out of order\n");
    fault_is(&rt, alloc, IndexFault::TooLarge { entry: 3, size: 262_145 }, "desync: i: bad index: entry 3 has \
        262145 bytes\n");
}

#[test]
#[rattlefmt::skip]
fn faulty_words_are_told_by_place_and_reason(rt: HostRuntime) {
    let alloc = rt.alloc();
    usage_is(&rt, alloc, UsageWhy::NoCommand, "desync: word 5: NoCommand\n");
    usage_is(&rt, alloc, UsageWhy::UnknownCommand, "desync: word 5: UnknownCommand\n");
    usage_is(&rt, alloc, UsageWhy::BadLocation, "desync: word 5: BadLocation\n");
    usage_is(&rt, alloc, UsageWhy::BadDigest, "desync: word 5: BadDigest\n");
    usage_is(&rt, alloc, UsageWhy::MissingOption, "desync: word 5: MissingOption\n");
    usage_is(&rt, alloc, UsageWhy::ReadOnly, "desync: word 5: ReadOnly\n");
}

#[test]
fn a_failing_sink_takes_no_line(rt: HostRuntime) {
    let alloc = rt.alloc();
    let mut sink = MemSink::new(alloc, ok(&rt, vec![in alloc; 0]));
    let mut room = ok(&rt, Line::with_room(alloc, 512));
    let put = put_error_line(&mut room, &Outcome::Memory, &mut sink);
    same(&rt, put, Err(IoFault::Failed));
    same(&rt, sink.taken(), b"".as_slice());
}
