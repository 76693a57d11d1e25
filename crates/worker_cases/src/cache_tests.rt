//! Tests of a cache behind a lock, which several workers ask and fill.

ghost use Rattle.std.specs.Prelude.{◌≡◌, ◌≤◌, IfSome, None, Some};
ghost use Rattle.chunk_store.specs.Kinds.{kind_named};
ghost use Rattle.chunk_store.specs.declared.id.DigestKind.TheVariants as kinds;

use cache_store::shelf::{CacheMiss, CacheShelf};
use chunk_store::id::{ChunkId, DigestKind};
use chunk_store::shows::Shows;
use dsy_base::folder::Folder;
use dsy_forms::mem_folder::MemFolder;
use locked_cache::door::{CacheDoor, LockedCache};
use named_folders::named_folder::{FolderName, NamedFolder};
use std::alloc::Global;
use std::marker::Brand;
use std::process::Abort;
use std::sync::Wait;
use std::thread::{Threads, join};

const PIECES: [&[u8]; 8] = [
    b"a",
    b"bc",
    b"def",
    b"",
    b"ghij",
    b"k",
    b"lmnop",
    b"qrstuvwx",
];

fn id_of(chunk: &[u8]) -> ChunkId {
    ChunkId::of(DigestKind::Sha512T256, chunk)
}

// A folder that holds these bytes in the file of the chunk `abc`.
fn folder_of(rt: &impl Abort, alloc: Global, held: &[u8]) -> MemFolder {
    let mut folder = MemFolder::new(alloc, Vec::new(alloc));
    let path = id_of(b"abc").path();
    assert!(rt; folder.put(path.as_str(), held).is_ok());
    folder
}

fn add<W: Abort + Wait, F: Folder>(rt: &W, door: &mut CacheDoor<'_, W, F>, chunk: &[u8])
    requires kind { kind_named F.kind ≡ kinds.Sha512T256 }
    requires unnamed { (F.pairs ≡ None) × (F.stores ≡ None) }
{
    let id = ChunkId::of(DigestKind::Sha512T256, chunk);
    assert!(rt; door.add(&id, chunk).is_ok());
}

// Whether a chunk is found. What is found is that chunk.
fn finds<W: Abort + Wait, F: Folder>(rt: &W, door: &mut CacheDoor<'_, W, F>, chunk: &[u8]) -> bool {
    let mut out = [0u8; 8];
    let size = chunk.len();
    assert!(rt; size <= 8);
    match door.find(&id_of(chunk), Some(size), &mut out) {
        Ok(n) => {
            assert!(rt; n == size && out.as_slice().starts_with(chunk));
            true
        }
        Err(_) => false,
    }
}

// Adds each second piece, the first or the second of each two, and finds it.
fn fill_half<W: Abort + Wait, F: Folder>(
    rt: &W,
    door: CacheDoor<'_, W, F>,
    half: usize,
    pieces: &[&[u8]],
)
    requires kind { kind_named F.kind ≡ kinds.Sha512T256 }
    requires unnamed { (F.pairs ≡ None) × (F.stores ≡ None) }
{
    let mut door = door;
    for (k, piece) in pieces.iter().enumerate() {
        if k % 2 == half {
            add(rt, &mut door, piece);
            assert!(rt; finds(rt, &mut door, piece));
        }
    }
}

fn finds_all<W: Abort + Wait, F: Folder>(rt: &W, cache: &LockedCache<F>, pieces: &[&[u8]]) {
    let mut door = cache.door(rt);
    for piece in pieces {
        assert!(rt; finds(rt, &mut door, piece));
    }
}

// A folder once two workers have added a half of the pieces each. Its type names what it held before.
fn filled<H: Abort + Threads + Wait + Sync, F: Folder + Send, N: FolderName + Send + Sync>(
    rt: &H,
    folder: F,
    pieces: &[&[u8]],
) -> F
    requires opening { IfSome N.opening (λ first. F.files folder ≡ Some first) }
    requires place { F.place folder ≡ N.place }
    requires faults { N.faults ≤ F.faults folder }
    requires kind { kind_named N.kind ≡ kinds.Sha512T256 }
    requires unnamed { (N.pairs ≡ None) × (N.stores ≡ None) }
{
    let named: NamedFolder<F, N> = NamedFolder::new(folder);
    let cache = LockedCache::new(CacheShelf::new(named));
    let first = cache.door(rt);
    let second = cache.door(rt);
    join(
        rt,
        move || fill_half(rt, first, 0, pieces),
        move || fill_half(rt, second, 1, pieces),
    );
    finds_all(rt, &cache, pieces);
    cache.into_inner().into_inner().into_inner()
}

fn fill<H: Abort + Threads + Wait + Sync, F: Folder + Send>(rt: &H, folder: F) -> F {
    filled::<H, F, Brand>(rt, folder, &PIECES)
}

#[test]
fn a_chunk_of_the_folder_is_found(rt: HostRuntime) {
    let folder = folder_of(&rt, rt.alloc(), b"abc");
    let cache = LockedCache::new(CacheShelf::new(folder));
    let mut door = cache.door(&rt);
    assert!(rt; finds(&rt, &mut door, b"abc"));
    assert!(rt; !finds(&rt, &mut door, b"abcd"));
}

#[test]
fn another_door_finds_what_was_added(rt: HostRuntime) {
    let folder = folder_of(&rt, rt.alloc(), b"abc");
    let cache = LockedCache::new(CacheShelf::new(folder));
    let mut one = cache.door(&rt);
    let mut other = cache.door(&rt);
    assert!(rt; !finds(&rt, &mut other, b"def"));
    add(&rt, &mut one, b"def");
    assert!(rt; finds(&rt, &mut other, b"def"));
    assert!(rt; finds(&rt, &mut other, b"abc"));
}

#[test]
fn a_wrong_file_is_not_given(rt: HostRuntime) {
    let folder = folder_of(&rt, rt.alloc(), b"abd");
    let cache = LockedCache::new(CacheShelf::new(folder));
    let mut door = cache.door(&rt);
    let mut out = [0u8; 3];
    let found = door.find(&id_of(b"abc"), Some(3), &mut out);
    let shows = Shows::Digest(id_of(b"abd"));
    assert_eq!(rt; found, Err(CacheMiss::Wrong(shows)));
    add(&rt, &mut door, b"abc");
    assert!(rt; finds(&rt, &mut door, b"abc"));
}

#[test]
fn two_workers_add_and_find(rt: HostRuntime) {
    let folder = fill(&rt, folder_of(&rt, rt.alloc(), b"abc"));
    let cache = LockedCache::new(CacheShelf::new(folder));
    finds_all(&rt, &cache, &PIECES);
    let mut door = cache.door(&rt);
    assert!(rt; finds(&rt, &mut door, b"abc"));
}
