//! Chunks in memory as a store. Sizes are in bytes.

ghost use Rattle.std.specs.Prelude.{◌≡◌, ◌≢◌, ℕ, List, None, Some, OnOk, OnErr};
ghost use Rattle.chunk_store.specs.Gets.{GetGives};
ghost use Rattle.chunk_store.specs.MemStores.{bytes_by_id};
ghost use Rattle.dsy_base.specs.Maps.{at_name};

use crate::id::ChunkId;
use crate::store::{GetFault, Store, StoreWrite};
use dsy_base::fault::IoFault;
use std::alloc::Global;
use std::collections::BTreeMap;

/// Chunks in memory by their ids. It never fails, and wants memory only for a put.
#[derive(Drop)]
pub struct MemStore {
    alloc: Global,
    chunks: BTreeMap<ChunkId, Vec<u8>>,
}

impl MemStore {
    /// A store of no chunks.
    pub fn new(alloc: Global) -> MemStore
        ensures value { ⟦<MemStore as Store>⟧.holds result ≡ Some (λ _. None) }
    {
        MemStore {
            alloc,
            chunks: BTreeMap::new(alloc),
        }
    }
}

// Reads the whole of `b`, if it fits.
fn read_whole(b: &[u8], out: &mut [u8]) -> Result<usize, GetFault>
    ensures bytes { GetGives (Some b.now) result out.new }
    ensures only { (result ≢ Err GetFault.Failed) × (result ≢ Err GetFault.Memory) }
{
    let n = b.len();
    if out.len() < n {
        return Err(GetFault::Longer);
    }
    let (front, _) = out.split_at_mut(n);
    front.copy_from_slice(b);
    Ok(n)
}

// Sets the bytes under the id.
#[tactic(auto, using(crate::proofs::Chunks::bytes_after))]
fn set_bytes(
    alloc: Global,
    chunks: &mut BTreeMap<ChunkId, Vec<u8>>,
    id: &ChunkId,
    b: &[u8],
) -> Result<(), IoFault>
    ensures ok { OnOk result ((q : List ℕ) → bytes_by_id chunks.new q
        ≡ at_name (bytes_by_id chunks.old) id.now.0 (Some b.now) q) }
    ensures err { OnErr result ((q : List ℕ) → bytes_by_id chunks.new q ≡ bytes_by_id chunks.old q) }
    ensures only { result ≢ Err IoFault.Failed }
{
    let Ok(bytes) = Vec::from_slice(alloc, b) else {
        return Err(IoFault::Memory);
    };
    match chunks.insert(*id, bytes) {
        Ok(_) => Ok(()),
        Err(_) => Err(IoFault::Memory),
    }
}

impl Store for MemStore {
    ghost use Rattle.std.specs.Prelude.{Some, [], true, false, refl};
    ghost use Rattle.chunk_store.specs.MemStores.{bytes_by_id};
    ghost use Rattle.chunk_store.specs.Said.{just_one, said_by, says_map, vouched_map};

    ghost holds = { λ s. Some (bytes_by_id s.chunks) };

    ghost members = { λ s. just_one (Some (bytes_by_id s.chunks)) };

    ghost said = { λ s. said_by (Some (bytes_by_id s.chunks)) };

    ghost asked = { λ _ _. 0 };

    ghost queried = { λ _ _. 0 };

    ghost faults = { λ _. 0 };

    ghost place = { λ _. [] };

    ghost tells = { true };

    ghost never_fails = { true };

    ghost told_never_fail = { true };

    ghost may_lack_memory = { false };

    fn get(&mut self, id: &ChunkId, out: &mut [u8]) -> Result<usize, GetFault> {
        match self.chunks.get(id) {
            None => Err(GetFault::Missing),
            Some(b) => read_whole(b, out),
        }
    }

    fn giver(&self) -> usize {
        0
    }

    fn has(&mut self, id: &ChunkId) -> Result<bool, IoFault> {
        Ok(self.chunks.contains_key(id))
    }

    ghost alone = { λ _. refl };

    ghost vouched = { λ s. vouched_map (Some (bytes_by_id s.chunks)) };

    ghost says = { λ s. says_map (Some (bytes_by_id s.chunks)) };

    ghost lies = { λ _. tt };

    ghost unasked = { λ _ _. (refl, refl) };

    ghost told = { λ _ _. refl };

    ghost sure = { λ _ _. refl };

    ghost steady = { λ _ _ _. refl };
}

impl StoreWrite for MemStore {
    fn put(&mut self, id: &ChunkId, b: &[u8]) -> Result<(), IoFault> {
        set_bytes(self.alloc, &mut self.chunks, id, b)
    }
}
