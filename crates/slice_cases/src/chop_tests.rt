//! An image chopped by several views.

use crate::compare::{ok, same};
use crate::gate::Gate;
use crate::images::{DEX, IMAGE, Others, gated_views, id_of, index, views_of};
use caibx_codec::index::Index;
use chunk_store::mem_store::MemStore;
use chunk_store::store::Store;
use image_chop::chop::{ChopFault, chop};
use std::alloc::Global;
use std::process::Abort;
use std::sync::Arc;
use std::thread::Threads;

// How many of the listed chunks the store has.
fn stored(rt: &impl Abort, index: &Index, store: &mut MemStore) -> usize {
    let mut count = 0usize;
    for i in 0..index.count() {
        let listed = index.entry(i);
        if ok(rt, store.has(&listed.id)) {
            count = count.saturating_add(1);
        }
    }
    count
}

// What comes of these bytes, and how many of the listed chunks an empty store has then.
fn chops<R: Abort + Threads + Sync>(
    rt: &R,
    alloc: Global,
    index: &Index,
    image: &[u8],
    others: Others,
    want: Result<(), ChopFault>,
    chunks: usize,
) {
    let (first, mut others) = views_of(rt, alloc, image, others);
    let store = MemStore::new(alloc);
    let (_, mut store, chopped) = chop(rt, alloc, index, first, &mut others, store);
    same(rt, chopped, want);
    same(rt, stored(rt, index, &mut store), chunks);
}

fn chops_at_once<R: Abort + Threads + Sync>(rt: &R, alloc: Global) {
    let gate = ok(rt, Arc::new(alloc, Gate::new()));
    let index = index(rt, alloc);
    let (first, mut others) = gated_views(rt, alloc, IMAGE, &gate);
    let store = MemStore::new(alloc);
    let (_, mut store, chopped) = chop(rt, alloc, &index, first, &mut others, store);
    same(rt, chopped, Ok(()));
    same(rt, gate.passed(), 2);
    same(rt, stored(rt, &index, &mut store), 6);
}

#[test]
fn two_views_are_chopped_at_once(rt: HostRuntime) {
    chops_at_once(&rt, rt.alloc());
}

// The second chunk is `deX`, and the last one `pqX`.
#[test]
fn the_first_wrong_chunk_ends_it_by_any_number_of_views(rt: HostRuntime) {
    let alloc = rt.alloc();
    let index = index(&rt, alloc);
    let got = id_of(&rt, DEX);
    let want = Err(ChopFault::Mismatch { entry: 1, got });
    let image = b"abcdeXghijklmnopqX";
    for count in [0, 1, 2, 31] {
        chops(&rt, alloc, &index, IMAGE, Others::Good(count), Ok(()), 6);
        chops(&rt, alloc, &index, image, Others::Good(count), want, 1);
        chops(&rt, alloc, &index, image, Others::Failing(count), want, 1);
    }
}

#[test]
fn a_failed_read_of_another_view_is_passed_over(rt: HostRuntime) {
    let alloc = rt.alloc();
    let index = index(&rt, alloc);
    for count in [1, 2, 31] {
        chops(&rt, alloc, &index, IMAGE, Others::Failing(count), Ok(()), 6);
    }
}
