//! Shelves over folders in memory, and chains of one folder store.

ghost use Rattle.std.specs.Prelude.{◌≡◌, ◌≤◌};
ghost use Rattle.chunk_store.specs.declared.id.DigestKind.TheVariants as kinds;

use crate::compare::{ok, same};
use crate::digests::{ABC, ABC_256, ABC_PATH, NOTHING};
use cache_store::cached::{Cached, Got, Kept, obtain_through};
use cache_store::shelf::{CacheMiss, CacheShelf};
use chunk_store::id::{ChunkId, DigestKind};
use chunk_store::shows::Shows;
use dir_store::store::DirStore;
use dsy_base::folder::Folder;
use dsy_forms::mem_folder::MemFolder;
use std::alloc::Global;
use std::process::Abort;
use store_chain::chain::Chain;
use store_chain::refused::Refused;

fn id_of(rt: &impl Abort, digits: &str) -> ChunkId {
    ok(rt, ChunkId::from_hex(digits))
}

// What an answer left in the buffer.
fn holds_abc(rt: &impl Abort, out: &[u8; 8]) {
    same(rt, out.as_slice().starts_with(b"abc"), true);
}

// A folder that holds these bytes in the file of `abc`, if any.
fn folder_of(rt: &impl Abort, alloc: Global, held: Option<&[u8]>) -> MemFolder {
    let mut folder = MemFolder::new(alloc, Vec::new(alloc));
    if let Some(b) = held {
        ok(rt, folder.put(ABC_PATH, b));
    }
    folder
}

// A shelf over such a folder.
fn shelf_of(rt: &impl Abort, alloc: Global, held: Option<&[u8]>) -> CacheShelf<MemFolder>
    ensures { result.kind ≡ kinds.Sha512T256 }
{
    CacheShelf::new(folder_of(rt, alloc, held))
}

// A chain of a store in such a folder.
fn chain_of(rt: &impl Abort, alloc: Global, held: Option<&[u8]>) -> Chain<DirStore<MemFolder>>
    ensures { result.kind ≡ kinds.Sha512T256 }
{
    let store = DirStore::new(folder_of(rt, alloc, held));
    Chain::new(ok(rt, vec![in alloc; store]))
}

// What a shelf answers whose file of `abc` holds these bytes.
fn finds(
    rt: &impl Abort,
    alloc: Global,
    held: Option<&[u8]>,
    size: usize,
    wanted: Result<usize, CacheMiss>,
)
    requires { size ≤ 8 }
{
    let id = id_of(rt, ABC);
    let mut shelf = shelf_of(rt, alloc, held);
    let mut out = [0u8; 8];
    same(rt, shelf.find(&id, Some(size), &mut out), wanted);
    if wanted.is_ok() {
        holds_abc(rt, &out);
    }
}

fn wrong(shows: Shows) -> Result<usize, CacheMiss> {
    Err(CacheMiss::Wrong(shows))
}

#[test]
fn only_the_chunk_of_the_name_and_the_size_is_found(rt: HostRuntime) {
    let alloc = rt.alloc();
    finds(&rt, alloc, Some(b"abc"), 3, Ok(3));
    finds(&rt, alloc, None, 3, Err(CacheMiss::Absent));
    let other = id_of(&rt, NOTHING);
    finds(&rt, alloc, Some(b""), 3, wrong(Shows::Digest(other)));
    finds(&rt, alloc, Some(b"abc"), 4, wrong(Shows::Length(3)));
    finds(&rt, alloc, Some(b"abc"), 2, wrong(Shows::Longer));
}

#[test]
fn a_shelf_names_chunks_by_its_kind(rt: HostRuntime) {
    let alloc = rt.alloc();
    let id = ChunkId::of(DigestKind::Sha256, b"abc");
    same(&rt, id, id_of(&rt, ABC_256));
    let mut out = [0u8; 8];
    let folder = folder_of(&rt, alloc, Some(b"abc"));
    let mut shelf = CacheShelf::with_kind(DigestKind::Sha256, folder);
    same(&rt, shelf.kind(), DigestKind::Sha256);
    let found = shelf.find(&id_of(&rt, ABC), Some(3), &mut out);
    same(&rt, found, wrong(Shows::Digest(id)));
    ok(&rt, shelf.add(&id, b"abc"));
    same(&rt, shelf.find(&id, Some(3), &mut out), Ok(3));
    holds_abc(&rt, &out);
}

#[test]
fn a_failing_shelf_finds_nothing(rt: HostRuntime) {
    let alloc = rt.alloc();
    let id = id_of(&rt, ABC);
    let mut out = [0u8; 8];
    let first = ok(&rt, vec![in alloc; 0u64]);
    let mut failing = CacheShelf::new(MemFolder::new(alloc, first));
    same(
        &rt,
        failing.find(&id, None, &mut out),
        Err(CacheMiss::Failed),
    );
    same(
        &rt,
        failing.find(&id, None, &mut out),
        Err(CacheMiss::Absent),
    );
}

#[test]
fn the_added_chunk_takes_the_place(rt: HostRuntime) {
    let id = ChunkId::of(DigestKind::Sha512T256, b"abc");
    let mut out = [0u8; 8];
    let mut shelf = shelf_of(&rt, rt.alloc(), Some(b"spoiled"));
    same(&rt, shelf.find(&id, None, &mut out).is_err(), true);
    ok(&rt, shelf.add(&id, b"abc"));
    same(&rt, shelf.find(&id, None, &mut out), Ok(3));
    holds_abc(&rt, &out);
}

// What is got of `abc`.
fn got(upstream: bool, kept: Kept) -> Result<Got, Refused> {
    Ok(Got {
        size: 3,
        upstream,
        kept,
    })
}

#[test]
fn the_shelf_gives_and_no_store_is_asked(rt: HostRuntime) {
    let alloc = rt.alloc();
    let id = id_of(&rt, ABC);
    let mut out = [0u8; 8];
    let mut shelf = shelf_of(&rt, alloc, Some(b"abc"));
    let mut chain = chain_of(&rt, alloc, None);
    let had = obtain_through(&mut shelf, &mut chain, &id, Some(3), &mut out);
    same(&rt, had, got(false, Kept::Yes));
    holds_abc(&rt, &out);
    same(&rt, chain.asks(), 0);
}

#[test]
fn what_a_store_gives_is_kept(rt: HostRuntime) {
    let alloc = rt.alloc();
    let id = id_of(&rt, ABC);
    let chain = chain_of(&rt, alloc, Some(b"abc"));
    let mut cached = Cached::new(shelf_of(&rt, alloc, None), chain);
    for upstream in [true, false] {
        let mut out = [0u8; 8];
        let had = cached.obtain(&id, Some(3), &mut out);
        same(&rt, had, got(upstream, Kept::Yes));
        holds_abc(&rt, &out);
    }
    let (_, chain) = cached.into_parts();
    same(&rt, chain.asks(), 1);
}

#[test]
fn a_failing_shelf_makes_no_refusal(rt: HostRuntime) {
    let alloc = rt.alloc();
    let id = id_of(&rt, ABC);
    let mut out = [0u8; 8];
    let both = ok(&rt, vec![in alloc; 0u64, 1]);
    let mut shelf = CacheShelf::new(MemFolder::new(alloc, both));
    let mut chain = chain_of(&rt, alloc, Some(b"abc"));
    let had = obtain_through(&mut shelf, &mut chain, &id, Some(3), &mut out);
    same(&rt, had, got(true, Kept::Failed));
    holds_abc(&rt, &out);
}

#[test]
fn nobody_has_it(rt: HostRuntime) {
    let alloc = rt.alloc();
    let id = id_of(&rt, ABC);
    let chain = chain_of(&rt, alloc, None);
    let mut cached = Cached::new(shelf_of(&rt, alloc, None), chain);
    let had = cached.obtain(&id, None, &mut [0u8; 8]);
    same(&rt, had, Err(Refused::Missing));
}
