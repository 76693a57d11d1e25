//! Caches filled from a folder store, all in memory. The digests are those of `indexes`.

ghost use Rattle.std.specs.Prelude.{◌≡◌};
ghost use Rattle.chunk_store.specs.declared.id.DigestKind.TheVariants as kinds;

use crate::compare::{ok, same};
use crate::indexes::{ABC, ABX, DEF, id_of, index_of};
use cache_fill::fill::{FillFault, fill};
use cache_store::cached::Cached;
use cache_store::shelf::CacheShelf;
use chunk_store::shows::Shows;
use chunk_store::store::Giver;
use dir_store::store::DirStore;
use dsy_base::fault::FileFault;
use dsy_base::folder::Folder;
use dsy_base::look::Look;
use dsy_forms::mem_folder::MemFolder;
use std::alloc::Global;
use std::process::Abort;
use std::thread::Threads;
use store_chain::chain::Chain;

const FIRST: Giver = Giver {
    number: 0,
    member: 0,
};

// A folder that holds these, and whose call of this number fails.
fn folder_of(
    rt: &impl Abort,
    alloc: Global,
    abc: Option<&[u8]>,
    def: Option<&[u8]>,
    fails: Option<u64>,
) -> MemFolder {
    let mut calls = Vec::new(alloc);
    if let Some(call) = fails {
        ok(rt, calls.push(call));
    }
    let mut folder = MemFolder::new(alloc, calls);
    put(rt, &mut folder, ABC, abc);
    put(rt, &mut folder, DEF, def);
    folder
}

// Puts these bytes, if any, under the id.
fn put(rt: &impl Abort, folder: &mut MemFolder, id: &str, bytes: Option<&[u8]>) {
    if let Some(bytes) = bytes {
        ok(rt, folder.put(id_of(rt, id).path().as_str(), bytes));
    }
}

fn chain_of(rt: &impl Abort, alloc: Global, folder: MemFolder) -> Chain<DirStore<MemFolder>>
    ensures { result.kind ≡ kinds.Sha512T256 }
{
    Chain::new(ok(rt, vec![in alloc; DirStore::new(folder)]))
}

// The folder holds these three bytes under the id, or none.
fn holds(rt: &impl Abort, folder: &mut MemFolder, id: &str, wanted: Option<&[u8]>) {
    let mut out = [0u8; 3];
    let read = folder.read(id_of(rt, id).path().as_str(), &mut out);
    match wanted {
        Some(b) => same(rt, out.as_slice(), b),
        None => same(rt, read, Err(FileFault::Absent)),
    }
}

// Fills a cache from a store by the index of "abc" and "def", and compares how it ended, what the cache then holds
// under the two ids, and how often the stores were asked.
fn fills<R: Abort + Threads + Sync>(
    rt: &R,
    alloc: Global,
    cache: MemFolder,
    store: MemFolder,
    ended: Result<(), FillFault>,
    abc: Option<&[u8]>,
    def: Option<&[u8]>,
    asks: u64,
) {
    let index = index_of(rt, alloc, &[ABC, DEF]);
    let mut cached = Cached::new(CacheShelf::new(cache), chain_of(rt, alloc, store));
    let mut further = Vec::new(alloc);
    let filled = fill(rt, alloc, &index, &mut cached, &mut further);
    same(rt, filled.result, ended);
    same(rt, filled.worker, 0);
    let (shelf, chain) = cached.into_parts();
    same(rt, chain.asks(), asks);
    let mut folder = shelf.into_inner();
    holds(rt, &mut folder, ABC, abc);
    holds(rt, &mut folder, DEF, def);
}

// Fills a cache that holds these from a store that holds these. The cache then holds both chunks.
fn is_filled<R: Abort + Threads + Sync>(
    rt: &R,
    alloc: Global,
    cache: [Option<&[u8]>; 2],
    store: [Option<&[u8]>; 2],
    asks: u64,
) {
    let cache = folder_of(rt, alloc, cache[0], cache[1], None);
    let store = folder_of(rt, alloc, store[0], store[1], None);
    fills(
        rt,
        alloc,
        cache,
        store,
        Ok(()),
        Some(b"abc"),
        Some(b"def"),
        asks,
    );
}

#[test]
fn a_cache_holds_each_chunk_then(rt: HostRuntime) {
    let alloc = rt.alloc();
    let (abc, def) = (Some(b"abc".as_slice()), Some(b"def".as_slice()));
    is_filled(&rt, alloc, [None, None], [abc, def], 2);
    is_filled(&rt, alloc, [abc, def], [None, None], 0);
    is_filled(&rt, alloc, [abc, None], [None, def], 1);
    is_filled(&rt, alloc, [Some(b"abX"), def], [abc, None], 1);
}

fn missing(rt: &impl Abort, entry: u64, id: &str) -> Result<(), FillFault> {
    let id = id_of(rt, id);
    Err(FillFault::Missing { entry, id })
}

#[test]
fn the_first_chunk_that_is_not_had_is_named(rt: HostRuntime) {
    let alloc = rt.alloc();
    let abc = Some(b"abc".as_slice());
    let cache = folder_of(&rt, alloc, None, None, None);
    let store = folder_of(&rt, alloc, None, None, None);
    let first = missing(&rt, 0, ABC);
    fills(&rt, alloc, cache, store, first, None, None, 1);
    let cache = folder_of(&rt, alloc, None, None, None);
    let store = folder_of(&rt, alloc, abc, None, None);
    let second = missing(&rt, 1, DEF);
    fills(&rt, alloc, cache, store, second, abc, None, 2);
}

#[test]
fn a_damaged_chunk_is_named(rt: HostRuntime) {
    let alloc = rt.alloc();
    let (abx, def) = (Some(b"abX".as_slice()), Some(b"def".as_slice()));
    let cache = folder_of(&rt, alloc, abx, None, None);
    let store = folder_of(&rt, alloc, abx, def, None);
    let damaged = Err(FillFault::Damaged {
        entry: 0,
        id: id_of(&rt, ABC),
        store: FIRST,
        shows: Shows::Digest(id_of(&rt, ABX)),
    });
    fills(&rt, alloc, cache, store, damaged, abx, None, 1);
}

// The cache's first put fails, and the store's first read.
#[test]
fn a_folder_that_fails_is_named(rt: HostRuntime) {
    let alloc = rt.alloc();
    let (abc, def) = (Some(b"abc".as_slice()), Some(b"def".as_slice()));
    let failing = folder_of(&rt, alloc, None, None, Some(1));
    let store = folder_of(&rt, alloc, abc, def, None);
    let fault = Err(FillFault::CacheFault);
    fills(&rt, alloc, failing, store, fault, None, None, 1);
    let cache = folder_of(&rt, alloc, None, None, None);
    let failing = folder_of(&rt, alloc, None, None, Some(0));
    let fault = Err(FillFault::StoreFault { store: 0 });
    fills(&rt, alloc, cache, failing, fault, None, None, 1);
}
