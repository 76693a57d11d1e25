//! Folder stores over folders in memory, through the bounds of their trait.

use crate::compare::{ok, same};
use chunk_store::id::{ChunkId, DigestKind};
use chunk_store::store::{GetFault, Store, StoreWrite};
use dir_store::names::is_temporary;
use dir_store::store::DirStore;
use dsy_base::fault::IoFault;
use dsy_base::folder::Folder;
use dsy_base::name::Name;
use dsy_forms::mem_folder::MemFolder;
use std::process::Abort;

// SHA-512/256 and SHA-256 of `abc`, from FIPS 180-4's examples, and SHA-512/256 of no bytes, from
// `openssl dgst -sha512-256`.
const CHUNKS: [&str; 3] = [
    "5304/53048e2681941ef99b2e29b76b4c7dabe4c2d0c634fc6d46e0e2f13107e7af23",
    "ba78/ba7816bf8f01cfea414140de5dae2223b00361a396177a9cb410ff61f20015ad",
    "c672/c672b8d1ef56ed28ab87c3622c5114069bdd3ad7b8f9737498d0c01ecef0967a",
];

const TEMPORARIES: [&str; 3] = [
    ".tmp-cacnk",
    ".tmp-cacnk1",
    "5304/.tmp-cacnk53048e2681941ef99b2e29b76b4c7dabe4c2d0c634fc6d46e0e2f13107e7af23",
];

const STRANGERS: [&str; 7] = [
    ".tmp-cacnk2/notes.txt",
    "5304/53048E2681941EF99B2E29B76B4C7DABE4C2D0C634FC6D46E0E2F13107E7AF23",
    "5304/53048e2681941ef99b2e29b76b4c7dabe4c2d0c634fc6d46e0e2f13107e7af2",
    "5304/53048e2681941ef99b2e29b76b4c7dabe4c2d0c634fc6d46e0e2f13107e7af23.cacnk",
    "5304/x.tmp-cacnk",
    "5305/53048e2681941ef99b2e29b76b4c7dabe4c2d0c634fc6d46e0e2f13107e7af23",
    "notes.txt",
];

fn abc() -> ChunkId {
    ChunkId::of(DigestKind::Sha512T256, b"abc")
}

fn nothing() -> ChunkId {
    ChunkId::of(DigestKind::Sha512T256, b"")
}

fn same_names(rt: &impl Abort, names: &[Name], want: &[&str]) {
    same(rt, names.len(), want.len());
    for (name, text) in names.iter().zip(want) {
        same(rt, name.as_str(), *text);
    }
}

fn same_paths(rt: &impl Abort, ids: &[ChunkId], want: &[&str]) {
    same(rt, ids.len(), want.len());
    for (id, path) in ids.iter().zip(want) {
        same(rt, id.path().as_str(), *path);
    }
}

// Each file holds its name.
fn put_files<D: Folder>(rt: &impl Abort, d: &mut D, names: &[&str]) {
    for name in names {
        ok(rt, d.put(name, name.as_bytes()));
    }
}

fn each_file_is_listed_by_its_name<D: Folder>(rt: &impl Abort, mut d: D) {
    put_files(rt, &mut d, &STRANGERS);
    put_files(rt, &mut d, &CHUNKS);
    put_files(rt, &mut d, &TEMPORARIES);
    let mut store = DirStore::new(d);
    let ids = ok(rt, store.ids());
    same_paths(rt, &ids, &CHUNKS);
    let temporaries = ok(rt, store.temporaries());
    same_names(rt, &temporaries, &TEMPORARIES);
    let strangers = ok(rt, store.strangers());
    same_names(rt, &strangers, &STRANGERS);
}

fn what_is_named_is_removed<D: Folder>(rt: &impl Abort, d: D) {
    let mut store = DirStore::new(d);
    ok(rt, store.put(&abc(), b"abc"));
    ok(rt, store.put(&nothing(), b""));
    for want in [true, false] {
        same(rt, store.has(&abc()), Ok(want));
        same(rt, store.remove(&abc()), Ok(want));
    }
    let mut out = [0u8; 3];
    same(rt, store.get(&abc(), &mut out), Err(GetFault::Missing));
    same(rt, store.get(&nothing(), &mut out), Ok(0));
}

#[test]
fn folders_without_failing_calls(rt: HostRuntime) {
    let alloc = rt.alloc();
    each_file_is_listed_by_its_name(&rt, MemFolder::new(alloc, Vec::new(alloc)));
    what_is_named_is_removed(&rt, MemFolder::new(alloc, Vec::new(alloc)));
}

// The temporary file of `abc` is listed, and removed by the second call.
fn a_failed_removal_leaves_it<D: Folder>(rt: &impl Abort, store: &mut DirStore<D>) {
    let left = ok(rt, store.temporaries());
    same_names(rt, &left, &TEMPORARIES[2..]);
    for name in &left {
        let text = name.as_str();
        assert!(rt; is_temporary(text));
        same(rt, store.remove_temporary(text), Err(IoFault::Failed));
        same(rt, store.remove_temporary(text), Ok(true));
    }
}

// The first, the third, .. of the calls fail.
#[test]
fn a_failing_call_leaves_what_was_there(rt: HostRuntime) {
    let alloc = rt.alloc();
    let every_other = ok(&rt, vec![in alloc; 0u64, 2, 4, 6, 8]);
    let mut store = DirStore::new(MemFolder::new(alloc, every_other));
    same(&rt, store.put(&abc(), b"abc"), Err(IoFault::Failed));
    same(&rt, store.has(&abc()), Ok(false));
    same(&rt, store.temporaries().err(), Some(IoFault::Failed));
    a_failed_removal_leaves_it(&rt, &mut store);
    same(&rt, store.ids().err(), Some(IoFault::Failed));
    ok(&rt, store.put(&abc(), b"abc"));
    same(&rt, store.remove(&abc()), Err(IoFault::Failed));
    same(&rt, store.has(&abc()), Ok(true));
    same(&rt, ok(&rt, store.temporaries()).len(), 0);
}
