//! Small indexes, checked, listed, described and looked for in stores. The digests are those of
//! `indexes`.

use crate::calls::fails;
use crate::compare::{ok, same};
use crate::indexes::{ABC, ABX, DEF, DEX, id_of, index_of};
use byte_forms::mem_view::MemView;
use caibx_codec::index::Index;
use dsy_base::fault::{Failed, IoFault};
use dsy_base::view::View;
use dsy_forms::mem_sink::MemSink;
use image_check::check::{CheckFault, verify_index};
use std::alloc::Global;
use std::process::Abort;
use std::thread::Threads;
use store_chain::chain::Chain;
use store_chain::refused::HasFault;
use store_forms::scripted_store::{Refuses, ScriptedStore};
use verify_tool::count::count_in_store;
use verify_tool::info::info;
use verify_tool::list::list_chunks;

fn view_of(rt: &impl Abort, alloc: Global, image: &[u8], fails: Vec<u64>) -> MemView {
    MemView::new(alloc, ok(rt, Vec::from_slice(alloc, image)), fails)
}

// What comes of these bytes beside the index.
fn is_checked<R: Abort + Threads + Sync>(
    rt: &R,
    alloc: Global,
    index: &Index,
    image: &[u8],
    want: Result<(), CheckFault>,
) {
    let view = view_of(rt, alloc, image, Vec::new(alloc));
    let (_, checked) = verify_index(rt, alloc, index, view, &mut Vec::new(alloc));
    same(rt, checked, want);
}

// The chunk that is another one has this digest.
fn mismatch(rt: &impl Abort, entry: u64, got: &str) -> Result<(), CheckFault> {
    let got = id_of(rt, got);
    Err(CheckFault::Mismatch { entry, got })
}

#[test]
fn the_first_wrong_chunk_is_named(rt: HostRuntime) {
    let alloc = rt.alloc();
    let one = index_of(&rt, alloc, &[ABC]);
    is_checked(&rt, alloc, &one, b"abc", Ok(()));
    is_checked(&rt, alloc, &one, b"abX", mismatch(&rt, 0, ABX));
    is_checked(
        &rt,
        alloc,
        &one,
        b"abcd",
        Err(CheckFault::Length { size: 4 }),
    );
    let two = index_of(&rt, alloc, &[ABC, DEF]);
    is_checked(&rt, alloc, &two, b"abcdeX", mismatch(&rt, 1, DEX));
    is_checked(&rt, alloc, &two, b"abXdeX", mismatch(&rt, 0, ABX));
    is_checked(&rt, alloc, &index_of(&rt, alloc, &[]), b"", Ok(()));
}

#[test]
fn a_failed_read_is_no_mismatch(rt: HostRuntime) {
    let alloc = rt.alloc();
    let two = index_of(&rt, alloc, &[ABC, DEF]);
    let view = view_of(&rt, alloc, b"abcdeX", fails(&rt, alloc, 1));
    let (_, checked) = verify_index(&rt, alloc, &two, view, &mut Vec::new(alloc));
    same(&rt, checked, Err(CheckFault::ImageFault));
}

#[test]
fn a_wrong_length_is_told_before_any_read(rt: HostRuntime) {
    let alloc = rt.alloc();
    let two = index_of(&rt, alloc, &[ABC, DEF]);
    let view = view_of(&rt, alloc, b"abXdeXg", fails(&rt, alloc, 0));
    let (mut view, checked) = verify_index(&rt, alloc, &two, view, &mut Vec::new(alloc));
    same(&rt, checked, Err(CheckFault::Length { size: 7 }));
    // The first read fails, and it has not been made yet.
    assert!(rt; view.size() == 7);
    same(&rt, view.read_at(0, &mut [0; 7]), Err(Failed));
}

// The index is listed in this text.
fn is_listed(rt: &impl Abort, alloc: Global, index: &Index, text: &str) {
    let mut sink = MemSink::new(alloc, Vec::new(alloc));
    same(rt, list_chunks(alloc, index, &mut sink), Ok(()));
    same(rt, sink.taken(), text.as_bytes());
}

// So much of the list is put where this call fails.
fn is_listed_up_to(rt: &impl Abort, alloc: Global, index: &Index, call: u64, size: usize) {
    let mut failing = MemSink::new(alloc, fails(rt, alloc, call));
    let listed = list_chunks(alloc, index, &mut failing);
    same(rt, listed, Err(IoFault::Failed));
    same(rt, failing.taken().len(), size);
}

#[test]
fn each_entry_has_a_line(rt: HostRuntime) {
    let alloc = rt.alloc();
    let index = index_of(&rt, alloc, &[ABC, DEF, ABC]);
    is_listed(
        &rt,
        alloc,
        &index,
        "\
53048e2681941ef99b2e29b76b4c7dabe4c2d0c634fc6d46e0e2f13107e7af23
f391834ba55302124fbcfc8df6831a666e468b310e99295e1fce0abf8ef9ec3f
53048e2681941ef99b2e29b76b4c7dabe4c2d0c634fc6d46e0e2f13107e7af23
",
    );
    is_listed_up_to(&rt, alloc, &index, 0, 0);
}

#[test]
fn long_lists_are_put_in_blocks(rt: HostRuntime) {
    let alloc = rt.alloc();
    let names = ok(&rt, vec![in alloc; DEF; 1_000]);
    let index = index_of(&rt, alloc, names.as_slice());
    let mut sink = MemSink::new(alloc, Vec::new(alloc));
    same(&rt, list_chunks(alloc, &index, &mut sink), Ok(()));
    same(&rt, sink.taken().len(), 65_000);
    is_listed_up_to(&rt, alloc, &index, 1, 33_280);
}

// The figures of the index are this line.
fn has_figures(rt: &impl Abort, alloc: Global, index: &Index, in_store: Option<u64>, line: &str) {
    let mut sink = MemSink::new(alloc, Vec::new(alloc));
    same(rt, info(alloc, index, in_store, &mut sink), Ok(()));
    same(rt, sink.taken(), line.as_bytes());
}

const ONE_HAD: &str = "\
{\"chunk-size-avg\":65536,\"chunk-size-max\":262144,\"chunk-size-min\":16384,\
\"in-store\":1,\"size\":3,\"total\":1,\"unique\":1}\n";

const ONE: &str = "\
{\"chunk-size-avg\":65536,\"chunk-size-max\":262144,\"chunk-size-min\":16384,\
\"size\":3,\"total\":1,\"unique\":1}\n";

const THREE_LACKED: &str = "\
{\"chunk-size-avg\":65536,\"chunk-size-max\":262144,\"chunk-size-min\":16384,\
\"in-store\":0,\"size\":9,\"total\":3,\"unique\":2}\n";

#[test]
fn figures_are_one_line(rt: HostRuntime) {
    let alloc = rt.alloc();
    let one = index_of(&rt, alloc, &[ABC]);
    has_figures(&rt, alloc, &one, Some(1), ONE_HAD);
    has_figures(&rt, alloc, &one, None, ONE);
    let three = index_of(&rt, alloc, &[ABC, DEF, ABC]);
    has_figures(&rt, alloc, &three, Some(0), THREE_LACKED);
    let mut failing = MemSink::new(alloc, fails(&rt, alloc, 0));
    same(
        &rt,
        info(alloc, &one, None, &mut failing),
        Err(IoFault::Failed),
    );
}

// A store that has something under each of these names.
fn having(rt: &impl Abort, alloc: Global, names: &[&str]) -> ScriptedStore {
    let mut store = ScriptedStore::new(alloc, Refuses::Nothing);
    for name in names {
        ok(rt, store.set_chunk(&id_of(rt, name), b""));
    }
    store
}

fn failing(alloc: Global) -> ScriptedStore {
    ScriptedStore::new(alloc, Refuses::Everything(IoFault::Failed))
}

// One of the two stores has this many of the listed ids; both are given back.
fn are_had(
    rt: &impl Abort,
    alloc: Global,
    index: &Index,
    first: ScriptedStore,
    second: ScriptedStore,
    wanted: Result<u64, HasFault>,
) -> Vec<ScriptedStore> {
    let mut chain = Chain::new(ok(rt, vec![in alloc; first, second]));
    same(rt, count_in_store(alloc, index, &mut chain), wanted);
    same(rt, chain.asks(), 0);
    chain.into_stores()
}

fn fault(store: u32) -> Result<u64, HasFault> {
    Err(HasFault::StoreFault { store })
}

// The same of stores that have something under these names.
fn are_counted(
    rt: &impl Abort,
    alloc: Global,
    index: &Index,
    first: &[&str],
    second: &[&str],
    wanted: Result<u64, HasFault>,
) {
    let first = having(rt, alloc, first);
    let second = having(rt, alloc, second);
    are_had(rt, alloc, index, first, second, wanted);
}

#[test]
fn an_id_counts_once_where_some_store_has_it(rt: HostRuntime) {
    let alloc = rt.alloc();
    let index = index_of(&rt, alloc, &[ABC, DEF, ABC]);
    are_counted(&rt, alloc, &index, &[ABC], &[], Ok(1));
    are_counted(&rt, alloc, &index, &[ABC], &[ABC], Ok(1));
    are_counted(&rt, alloc, &index, &[], &[DEF], Ok(1));
    are_counted(&rt, alloc, &index, &[DEF], &[ABC], Ok(2));
    are_counted(&rt, alloc, &index, &[], &[], Ok(0));
    let none = having(&rt, alloc, &[]);
    are_had(&rt, alloc, &index, none, failing(alloc), fault(1));
    let one = having(&rt, alloc, &[ABC]);
    are_had(&rt, alloc, &index, failing(alloc), one, fault(0));
}

// Each store was asked twice.
fn two_calls(rt: &impl Abort, stores: &[ScriptedStore]) {
    for store in stores {
        same(rt, store.calls(), 2);
    }
}

#[test]
fn each_id_is_asked_for_once(rt: HostRuntime) {
    let alloc = rt.alloc();
    let index = index_of(&rt, alloc, &[ABC, DEF, ABC, DEF, ABC]);
    let first = having(&rt, alloc, &[]);
    let second = having(&rt, alloc, &[]);
    let stores = are_had(&rt, alloc, &index, first, second, Ok(0));
    two_calls(&rt, &stores);
}

#[test]
fn ids_are_asked_for_in_order_up_to_a_fault(rt: HostRuntime) {
    let alloc = rt.alloc();
    let index = index_of(&rt, alloc, &[ABC, ABC, DEF, DEX, ABX]);
    let fails = ScriptedStore::new(alloc, Refuses::Id(id_of(&rt, DEF)));
    let stores = are_had(&rt, alloc, &index, having(&rt, alloc, &[]), fails, fault(1));
    two_calls(&rt, &stores);
}
