//! Small folder stores in memory, checked and pruned. The digests are from FIPS 180-4's
//! examples and `openssl dgst -sha512-256`.

use crate::calls::fails;
use crate::compare::{ok, same};
use crate::indexes::{ABC, id_of};
use chunk_store::id::DigestKind;
use dir_store::store::DirStore;
use dsy_base::fault::IoFault;
use dsy_base::folder::Folder;
use dsy_base::look::Look;
use dsy_forms::mem_folder::MemFolder;
use dsy_forms::mem_sink::MemSink;
use std::alloc::Global;
use std::collections::BTreeSet;
use std::process::Abort;
use std::thread::Threads;
use store_check::verify::{StoreCheck, verify_store, verify_store_as};
use verify_tool::prune::prune;

const ABC_FILE: &str = "5304/53048e2681941ef99b2e29b76b4c7dabe4c2d0c634fc6d46e0e2f13107e7af23";

const ABC_STRANGER: &str =
    "5304/53048e2681941ef99b2e29b76b4c7dabe4c2d0c634fc6d46e0e2f13107e7af23.cacnk";

// By SHA-256.
const ABC_256_FILE: &str = "ba78/ba7816bf8f01cfea414140de5dae2223b00361a396177a9cb410ff61f20015ad";

const DEF_FILE: &str = "f391/f391834ba55302124fbcfc8df6831a666e468b310e99295e1fce0abf8ef9ec3f";

// A store of these files, where a later call fails.
fn store_of(
    rt: &impl Abort,
    alloc: Global,
    fails: Vec<u64>,
    files: &[(&str, &[u8])],
) -> DirStore<MemFolder> {
    let mut folder = MemFolder::new(alloc, fails);
    for (name, bytes) in files {
        ok(rt, folder.put(name, bytes));
    }
    DirStore::new(folder)
}

fn same_names(rt: &impl Abort, store: &mut DirStore<MemFolder>, want: &[&str]) {
    let names = ok(rt, store.names());
    same(rt, names.len(), want.len());
    for (name, text) in names.iter().zip(want) {
        same(rt, name.as_str(), *text);
    }
}

// Verifies the store over a sink of which these calls fail, and compares how it ended, what was printed, and which
// files are left.
fn verifies<R: Abort + Threads + Sync>(
    rt: &R,
    alloc: Global,
    mut store: DirStore<MemFolder>,
    repair: bool,
    fails: Vec<u64>,
    ended: Result<u64, StoreCheck>,
    printed: &str,
    left: &[&str],
) {
    let mut out = MemSink::new(alloc, fails);
    let mut none: Vec<DirStore<MemFolder>> = Vec::new(alloc);
    let verified = verify_store(rt, alloc, &mut store, &mut none, repair, &mut out);
    same(rt, verified, ended);
    same(rt, out.taken(), printed.as_bytes());
    same_names(rt, &mut store, left);
}

const ABC_REMOVED: &str =
    "removed 53048e2681941ef99b2e29b76b4c7dabe4c2d0c634fc6d46e0e2f13107e7af23\n";

const ABC_DAMAGED: &str =
    "damaged 53048e2681941ef99b2e29b76b4c7dabe4c2d0c634fc6d46e0e2f13107e7af23\n";

// One file is damaged.
const ONE_DAMAGED: [(&str, &[u8]); 2] = [(ABC_FILE, b"abX"), (DEF_FILE, b"def")];

const BOTH_DAMAGED: [(&str, &[u8]); 2] = [(ABC_FILE, b"abX"), (DEF_FILE, b"deX")];

#[test]
fn a_damaged_file_is_told_and_left(rt: HostRuntime) {
    let alloc = rt.alloc();
    let store = store_of(&rt, alloc, Vec::new(alloc), &ONE_DAMAGED);
    let left = [ABC_FILE, DEF_FILE];
    verifies(
        &rt,
        alloc,
        store,
        false,
        Vec::new(alloc),
        Ok(1),
        ABC_DAMAGED,
        &left,
    );
}

#[test]
fn a_damaged_file_is_removed_with_repair(rt: HostRuntime) {
    let alloc = rt.alloc();
    let store = store_of(&rt, alloc, Vec::new(alloc), &ONE_DAMAGED);
    verifies(
        &rt,
        alloc,
        store,
        true,
        Vec::new(alloc),
        Ok(0),
        ABC_REMOVED,
        &[DEF_FILE],
    );
}

#[test]
fn the_chunk_of_another_kind_is_damaged(rt: HostRuntime) {
    let alloc = rt.alloc();
    let files: [(&str, &[u8]); 2] = [(ABC_FILE, b"abc"), (ABC_256_FILE, b"abc")];
    let mut store = store_of(&rt, alloc, Vec::new(alloc), &files);
    let mut none: Vec<DirStore<MemFolder>> = Vec::new(alloc);
    let mut out = MemSink::new(alloc, Vec::new(alloc));
    let kind = DigestKind::Sha256;
    let verified = verify_store_as(&rt, alloc, &mut store, kind, &mut none, true, &mut out);
    same(&rt, verified, Ok(0));
    same(&rt, out.taken(), ABC_REMOVED.as_bytes());
    same_names(&rt, &mut store, &[ABC_256_FILE]);
}

#[test]
fn a_file_that_was_removed_has_its_line_last(rt: HostRuntime) {
    let alloc = rt.alloc();
    let store = store_of(&rt, alloc, Vec::new(alloc), &BOTH_DAMAGED);
    let ended = Err(StoreCheck::OutFault);
    verifies(
        &rt,
        alloc,
        store,
        true,
        fails(&rt, alloc, 1),
        ended,
        ABC_REMOVED,
        &[],
    );
}

// Two puts, the list, and a read and a removal of each file: the last one fails.
#[test]
fn a_file_that_stays_has_no_line(rt: HostRuntime) {
    let alloc = rt.alloc();
    let store = store_of(&rt, alloc, fails(&rt, alloc, 6), &BOTH_DAMAGED);
    let ended = Err(StoreCheck::StoreFault);
    verifies(
        &rt,
        alloc,
        store,
        true,
        Vec::new(alloc),
        ended,
        ABC_REMOVED,
        &[DEF_FILE],
    );
}

// A chunk that is kept, one that isn't, a temporary file and two strangers.
const FILES: [(&str, &[u8]); 5] = [
    (ABC_FILE, b"abc"),
    (DEF_FILE, b"def"),
    ("5304/.tmp-cacnkx", b"ab"),
    (ABC_STRANGER, b"abc"),
    ("notes.txt", b"notes"),
];

// Prunes these files, but for "abc", where these calls fail, and compares how it ended, and which files are left.
fn prunes(
    rt: &impl Abort,
    alloc: Global,
    fails: Vec<u64>,
    ended: Result<u64, IoFault>,
    left: &[&str],
) {
    let mut keep = BTreeSet::new(alloc);
    ok(rt, keep.insert(id_of(rt, ABC)));
    let mut store = store_of(rt, alloc, fails, &FILES);
    same(rt, prune(&mut store, &keep), ended);
    same_names(rt, &mut store, left);
}

#[test]
fn what_is_kept_and_strangers_stay(rt: HostRuntime) {
    let alloc = rt.alloc();
    let left = [ABC_FILE, ABC_STRANGER, "notes.txt"];
    prunes(&rt, alloc, Vec::new(alloc), Ok(2), &left);
}

// Five puts, the list and two removals: the last one fails.
#[test]
fn a_failed_removal_ends_the_pruning(rt: HostRuntime) {
    let alloc = rt.alloc();
    let left = [ABC_FILE, ABC_STRANGER, DEF_FILE, "notes.txt"];
    let ended = Err(IoFault::Failed);
    prunes(&rt, alloc, fails(&rt, alloc, 7), ended, &left);
}
