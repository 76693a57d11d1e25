//! An image held against its index by several views.

use crate::compare::{ok, same};
use crate::gate::Gate;
use crate::images::{DEX, IMAGE, Others, gated_views, id_of, index, views_of};
use caibx_codec::index::Index;
use image_check::check::{CheckFault, verify_index};
use std::alloc::Global;
use std::process::Abort;
use std::sync::Arc;
use std::thread::Threads;

// What comes of these bytes beside the index.
fn checks<R: Abort + Threads + Sync>(
    rt: &R,
    alloc: Global,
    index: &Index,
    image: &[u8],
    others: Others,
    want: Result<(), CheckFault>,
) {
    let (first, mut others) = views_of(rt, alloc, image, others);
    let (_, checked) = verify_index(rt, alloc, index, first, &mut others);
    same(rt, checked, want);
}

fn checks_at_once<R: Abort + Threads + Sync>(rt: &R, alloc: Global) {
    let gate = ok(rt, Arc::new(alloc, Gate::new()));
    let (first, mut others) = gated_views(rt, alloc, IMAGE, &gate);
    let (_, checked) = verify_index(rt, alloc, &index(rt, alloc), first, &mut others);
    same(rt, checked, Ok(()));
    same(rt, gate.passed(), 2);
}

#[test]
fn two_views_are_checked_at_once(rt: HostRuntime) {
    checks_at_once(&rt, rt.alloc());
}

// The second chunk is `deX`, and the last one `pqX`.
#[test]
fn the_first_wrong_chunk_is_named_by_any_number_of_views(rt: HostRuntime) {
    let alloc = rt.alloc();
    let index = index(&rt, alloc);
    let got = id_of(&rt, DEX);
    let want = Err(CheckFault::Mismatch { entry: 1, got });
    let image = b"abcdeXghijklmnopqX";
    for count in [0, 1, 2, 31] {
        checks(&rt, alloc, &index, IMAGE, Others::Good(count), Ok(()));
        checks(&rt, alloc, &index, image, Others::Good(count), want);
        checks(&rt, alloc, &index, image, Others::Failing(count), want);
    }
}

#[test]
fn a_failed_read_of_another_view_is_passed_over(rt: HostRuntime) {
    let alloc = rt.alloc();
    let index = index(&rt, alloc);
    for count in [1, 2, 31] {
        checks(&rt, alloc, &index, IMAGE, Others::Failing(count), Ok(()));
    }
}
