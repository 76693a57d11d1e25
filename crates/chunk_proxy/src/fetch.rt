//! A chunk is sought in a cache and in the stores behind it, and the reply tells of it. Sizes are in bytes.

ghost use Rattle.std.specs.Prelude.{◌≡◌, ◌≢◌, ◌≤◌, length, map, take, None, Some, IfOk, IfSome, OnErr};
ghost use Rattle.cache_store.specs.Shelves.{Stocks, shelf_of};
ghost use Rattle.caibx_fields.specs.Limits.{size_limit};
ghost use Rattle.chunk_proxy.specs.Leaving.{AsksForChunks};
ghost use Rattle.chunk_proxy.specs.Obtaining.{IsRightChunk, SeeksChunk, TellsChunk, TellsOf};
ghost use Rattle.chunk_server.specs.Reads.{answer_by};
ghost use Rattle.http_serve.specs.Answers.{answer_in};

use crate::upstream::{take_room, tell_refused};
use cache_store::cached::{Cached, Got, Kept};
use chunk_server::chunk_file::ReadMethod;
use chunk_store::id::ChunkId;
use chunk_store::store::Store;
use dsy_base::fault::Memory;
use dsy_base::folder::Folder;
use http_serve::service::Reply;
use std::alloc::Global;
use store_chain::refused::Refused;

// The reply that tells of this chunk.
fn tell_chunk(alloc: Global, method: ReadMethod, chunk: &[u8]) -> Result<Reply, Memory>
    ensures ok { IfOk result (λ r. answer_in r ≡ answer_by method (Some chunk.now)) }
{
    let body = match method {
        ReadMethod::Get => match chunk.to_vec(alloc) {
            Ok(body) => body,
            Err(_) => return Err(Memory),
        },
        ReadMethod::Head => Vec::new(alloc),
    };
    Ok(Reply {
        status: 200,
        length: chunk.len() as u64,
        body,
    })
}

// The reply that tells of the chunk at the front of these bytes. A fault of the cache is passed over.
fn tell_got(alloc: Global, method: ReadMethod, got: &Got, out: &[u8]) -> Result<Reply, Memory>
    requires inside { got.now.size ≤ length out.now }
    ensures ok { IfOk result (λ r. (got.now.kept ≢ Kept.Memory)
        × (answer_in r ≡ answer_by method (Some (take got.now.size out.now)))) }
{
    match got.kept {
        Kept::Memory => Err(Memory),
        Kept::Yes | Kept::Failed => {
            let (chunk, _) = out.split_at(got.size);
            tell_chunk(alloc, method, chunk)
        }
    }
}

// The reply that tells of what was obtained.
fn tell(
    alloc: Global,
    method: ReadMethod,
    obtained: &Result<Got, Refused>,
    out: &[u8],
) -> Result<Reply, Memory>
    requires inside { IfOk obtained.now (λ got. got.size ≤ length out.now) }
    ensures ok { IfOk result (λ r. TellsOf method obtained.now out.now (answer_in r)) }
{
    match obtained {
        Ok(got) => tell_got(alloc, method, got, out),
        Err(refused) => tell_refused(alloc, refused),
    }
}

/// Seeks the chunk of this id through the buffer, which gets room for every chunk, and answers the reply that tells of
/// it.
pub(crate) fn fetch<F: Folder, S: Store>(
    alloc: Global,
    cached: &mut Cached<F, S>,
    buffer: &mut Vec<u8>,
    method: ReadMethod,
    id: &ChunkId,
) -> Result<Reply, Memory>
    requires unnamed { (F.pairs ≡ None) × (F.stores ≡ None) }
    requires room { length buffer.old.items ≤ size_limit }
    ensures room { length buffer.new.items ≤ size_limit }
    ensures ok { IfOk result (λ r. TellsChunk F.files F.place F.faults S.Store method id.now
        cached.old cached.new (answer_in r)) }
    ensures err { OnErr result (SeeksChunk F.files F.place F.faults S.Store id.now cached.old cached.new) }
    ensures stocks { Stocks (IsRightChunk cached.old.chain.kind) (shelf_of F.files F.place F.faults cached.old.shelf)
        (shelf_of F.files F.place F.faults cached.new.shelf) }
    ensures asks { AsksForChunks S.Store cached.old.chain.stores cached.new.chain.stores }
    ensures stores { map S.holds cached.new.chain.stores ≡ map S.holds cached.old.chain.stores }
    ensures place { F.place cached.new.shelf.folder ≡ F.place cached.old.shelf.folder }
    ensures kind { cached.new.chain.kind ≡ cached.old.chain.kind }
{
    take_room(buffer)?;
    let obtained = cached.obtain(id, None, buffer.as_mut_slice());
    tell(alloc, method, &obtained, buffer.as_slice())
}
