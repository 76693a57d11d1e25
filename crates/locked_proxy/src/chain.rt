//! What stands behind a chain's lock: stores that are what its type names, and the buffer that they are asked with.

ghost use Rattle.std.specs.Prelude.{◌≡◌, ℕ, ◌≤◌, List, length, map, Option, Some, IfErr, IfOk, IfSome};
ghost use Rattle.caibx_fields.specs.Limits.{size_limit};
ghost use Rattle.chunk_proxy.specs.Obtaining.{IsRightChunk};
ghost use Rattle.chunk_store.specs.Kinds.{kind_named};
ghost use Rattle.dsy_base.specs.Maps.{Map};
ghost use Rattle.locked_proxy.specs.Chains.{IsChainOf, Withholds};

use crate::proxy_name::ProxyName;
use chunk_proxy::upstream::take_room;
use chunk_store::id::ChunkId;
use chunk_store::store::Store;
use dsy_base::fault::Memory;
use dsy_base::folder::Folder;
use http_serve::service::HEAD_ROOM;
use std::alloc::Global;
use std::marker::{Model, PhantomData};
use store_chain::chain::Chain;
use store_chain::refused::Refused;

/// A chain of the kind that the type of a cache's folder names, and of the stores that N names. Contracts see it as the
/// chain.
#[derive(Drop)]
pub struct KeptChain<F: Folder, S: Store, N: ProxyName> {
    alloc: Global,
    chain: Chain<S>,
    buffer: Vec<u8>,
    folder: PhantomData<F>,
    name: PhantomData<N>,
}

impl<F: Folder, S: Store, N: ProxyName> Model for KeptChain<F, S, N> {
    ghost use Rattle.std.specs.Prelude.{◌≤◌, length};
    ghost use Rattle.caibx_fields.specs.Limits.{size_limit};
    ghost use Rattle.chunk_store.specs.Kinds.{kind_named};
    ghost use Rattle.locked_proxy.specs.Chains.{IsChainOf};
    ghost use Rattle.store_chain.specs.Chains.{Chained};

    ghost Value = { Chained S };

    ghost view = { λ s. s.chain };

    ghost invariant = { λ s. (length s.buffer.items ≤ size_limit)
        × IsChainOf S.Store (kind_named F.kind) N.maps N.places s.chain };
}

// These bytes, with room behind them for the head of a reply.
fn body_of(alloc: Global, chunk: &[u8]) -> Result<Vec<u8>, Refused>
    requires size { length chunk.now ≤ size_limit }
    ensures ok { IfOk result (λ v. v.items ≡ chunk.now) }
    ensures err { IfErr result (λ r. r ≡ Refused.Memory) }
{
    let Ok(mut body) = Vec::with_capacity(alloc, chunk.len() + HEAD_ROOM) else {
        return Err(Refused::Memory);
    };
    match body.extend_from_slice(chunk) {
        Ok(()) => Ok(body),
        Err(_) => Err(Refused::Memory),
    }
}

// The chunk of this id, from the first store of the chain that gives it. The buffer gets room for every chunk.
fn obtain_from<S: Store>(
    alloc: Global,
    chain: &mut Chain<S>,
    buffer: &mut Vec<u8>,
    id: &ChunkId,
) -> Result<Vec<u8>, Refused>
    requires room { length buffer.old.items ≤ size_limit }
    ensures room { length buffer.new.items ≤ size_limit }
    ensures ok { IfOk result (λ v. IsRightChunk chain.old.kind id.now.0 v.items) }
    ensures err { IfErr result (λ r. (maps : Option (List (Map (List ℕ))))
        → IfSome maps (λ ms. map S.holds chain.old.stores ≡ map Some ms)
        → Withholds chain.old.kind maps S.never_fails id.now.0 r) }
    ensures held { map S.holds chain.new.stores ≡ map S.holds chain.old.stores }
    ensures places { map S.place chain.new.stores ≡ map S.place chain.old.stores }
    ensures kind { chain.new.kind ≡ chain.old.kind }
{
    if let Err(Memory) = take_room(buffer) {
        return Err(Refused::Memory);
    }
    match chain.obtain(id, None, buffer.as_mut_slice()) {
        Ok(size) => {
            let (chunk, _) = buffer.as_slice().split_at(size);
            body_of(alloc, chunk)
        }
        Err(refused) => Err(refused),
    }
}

impl<F: Folder, S: Store, N: ProxyName> KeptChain<F, S, N> {
    /// Room for a chunk is taken by the first request for one.
    pub fn new(alloc: Global, chain: Chain<S>) -> KeptChain<F, S, N>
        requires named { IsChainOf S.Store (kind_named F.kind) N.maps N.places chain }
        ensures { result ≡ chain }
    {
        KeptChain {
            alloc,
            chain,
            buffer: Vec::new(alloc),
            folder: PhantomData,
            name: PhantomData,
        }
    }

    pub fn into_inner(self) -> Chain<S>
        ensures same { result ≡ self }
        ensures named { IsChainOf S.Store (kind_named F.kind) N.maps N.places result }
    {
        self.chain
    }

    /// The chunk of this id, from the first store that gives it.
    pub fn obtain(&mut self, id: &ChunkId) -> Result<Vec<u8>, Refused>
        ensures ok { IfOk result (λ v. IsRightChunk (kind_named F.kind) id.now.0 v.items) }
        ensures err { IfErr result (Withholds (kind_named F.kind) N.maps S.never_fails id.now.0) }
    {
        obtain_from(self.alloc, &mut self.chain, &mut self.buffer, id)
    }
}
