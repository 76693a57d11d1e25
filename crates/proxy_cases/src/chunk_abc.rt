//! What the tests of caches before stores share: requests for the chunk `abc`, their replies, and what holds it. Its
//! name is from FIPS 180-4's examples.

ghost use Rattle.std.specs.Prelude.{◌≡◌};
ghost use Rattle.chunk_store.specs.declared.id.DigestKind.TheVariants as kinds;

use crate::compare::ok;
use cache_store::shelf::CacheShelf;
use chunk_store::id::ChunkId;
use chunk_store::mem_store::MemStore;
use chunk_store::store::StoreWrite;
use dsy_base::fault::IoFault;
use dsy_base::folder::Folder;
use dsy_base::look::Look;
use dsy_forms::mem_folder::MemFolder;
use std::alloc::Global;
use std::process::Abort;
use store_chain::chain::Chain;
use store_forms::scripted_store::{Refuses, ScriptedStore};

pub const ABC: &str = "53048e2681941ef99b2e29b76b4c7dabe4c2d0c634fc6d46e0e2f13107e7af23";

/// The file of the chunk of this name.
pub const ABC_FILE: &str = "5304/53048e2681941ef99b2e29b76b4c7dabe4c2d0c634fc6d46e0e2f13107e7af23";

pub const GET: &[u8] =
    b"GET /5304/53048e2681941ef99b2e29b76b4c7dabe4c2d0c634fc6d46e0e2f13107e7af23 HTTP/1.1\r\n\r\n";

pub const HEAD: &[u8] =
    b"HEAD /5304/53048e2681941ef99b2e29b76b4c7dabe4c2d0c634fc6d46e0e2f13107e7af23 HTTP/1.1\r\n\r\n";

pub const PUT: &[u8] =
    b"PUT /5304/53048e2681941ef99b2e29b76b4c7dabe4c2d0c634fc6d46e0e2f13107e7af23 HTTP/1.1\r\n";

/// The rest of that request, and one behind it.
pub const BODY: &[u8] = b"Content-Length: 3\r\n\r\nabcGET / HTTP/1.1\r\n\r\n";

pub const OK_ABC: &[u8] = b"HTTP/1.1 200 OK\r\nContent-Length: 3\r\n\r\nabc";

pub const OK_3: &[u8] = b"HTTP/1.1 200 OK\r\nContent-Length: 3\r\n\r\n";

pub const NOT_FOUND: &[u8] = b"HTTP/1.1 404 Not Found\r\nContent-Length: 0\r\n\r\n";

pub const FAILED: &[u8] = b"HTTP/1.1 500 Internal Server Error\r\nContent-Length: 0\r\n\r\n";

pub const NOT_TAKEN: &[u8] =
    b"HTTP/1.1 405 Method Not Allowed\r\nContent-Length: 0\r\nConnection: close\r\n\r\n";

pub fn id_of(rt: &impl Abort) -> ChunkId {
    ok(rt, ChunkId::from_hex(ABC))
}

/// A cache whose file of `abc` holds these bytes, if any.
pub fn cache_of(rt: &impl Abort, alloc: Global, held: Option<&[u8]>) -> CacheShelf<MemFolder>
    ensures { result.kind ≡ kinds.Sha512T256 }
{
    let mut folder = MemFolder::new(alloc, Vec::new(alloc));
    if let Some(b) = held {
        ok(rt, folder.put(ABC_FILE, b));
    }
    CacheShelf::new(folder)
}

/// A store that holds these bytes as `abc`, if any.
pub fn chain_of(rt: &impl Abort, alloc: Global, held: Option<&[u8]>) -> Chain<MemStore>
    ensures { result.kind ≡ kinds.Sha512T256 }
{
    let mut store = MemStore::new(alloc);
    if let Some(b) = held {
        ok(rt, store.put(&id_of(rt), b));
    }
    Chain::new(ok(rt, vec![in alloc; store]))
}

/// A store that fails whatever it is asked.
pub fn failing_chain(rt: &impl Abort, alloc: Global) -> Chain<ScriptedStore>
    ensures { result.kind ≡ kinds.Sha512T256 }
{
    let store = ScriptedStore::new(alloc, Refuses::Everything(IoFault::Failed));
    Chain::new(ok(rt, vec![in alloc; store]))
}

/// Whether the cache's file of `abc` holds `abc`.
pub fn holds_abc(cache: CacheShelf<MemFolder>) -> bool {
    let mut folder = cache.into_inner();
    let mut out = [0u8; 8];
    folder.read(ABC_FILE, &mut out) == Ok(3) && out.as_slice().starts_with(b"abc")
}
