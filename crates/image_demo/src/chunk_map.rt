//! The chunks of an image in memory, and stores over them for several workers. Sizes are in bytes.

ghost use Rattle.std.specs.Prelude.{◌≡◌, ◌≢◌, ℕ, List, Err, None, Some, OnOk, OnErr};
ghost use Rattle.chunk_store.specs.Gets.{GetGives};
ghost use Rattle.chunk_store.specs.MemStores.{bytes_by_id};
ghost use Rattle.dsy_base.specs.Maps.{at_name};

use chunk_store::id::ChunkId;
use chunk_store::store::{GetFault, Store, StoreWrite};
use dsy_base::fault::IoFault;
use std::alloc::Global;
use std::collections::BTreeMap;

/// ChunkMap by their ids, which can be lent to stores. They never fail, and want memory only for a put.
#[derive(Drop)]
pub struct ChunkMap {
    alloc: Global,
    by_id: BTreeMap<ChunkId, Vec<u8>>,
}

/// A store of borrowed chunks. It never fails, and wants no memory.
#[derive(Clone, Copy)]
pub struct SharedChunks<'a> {
    by_id: &'a BTreeMap<ChunkId, Vec<u8>>,
}

// Reads the whole of `b`, if it fits.
fn read_whole(b: &[u8], out: &mut [u8]) -> Result<usize, GetFault>
    ensures bytes { GetGives (Some b.now) result out.new }
    ensures only { (result ≢ Err GetFault.Failed) × (result ≢ Err GetFault.Memory) }
{
    let n = b.len();
    if out.len() < n {
        return Err(GetFault::Longer);
    }
    let (front, _) = out.split_at_mut(n);
    front.copy_from_slice(b);
    Ok(n)
}

impl ChunkMap {
    /// No chunks.
    pub fn new(alloc: Global) -> ChunkMap
        ensures none { ⟦<ChunkMap as Store>⟧.holds result ≡ Some (λ _. None) }
    {
        ChunkMap {
            alloc,
            by_id: BTreeMap::new(alloc),
        }
    }

    /// A store of them.
    pub fn shared(&self) -> SharedChunks<'_>
        ensures chunks { result.by_id.now ≡ self.now.by_id }
    {
        SharedChunks { by_id: &self.by_id }
    }

    // Sets the bytes under the id.
    #[tactic(auto, using(chunk_store::proofs::Chunks::bytes_after))]
    fn set(&mut self, id: &ChunkId, b: &[u8]) -> Result<(), IoFault>
        ensures ok { OnOk result ((q : List ℕ) → bytes_by_id self.new.by_id q
            ≡ at_name (bytes_by_id self.old.by_id) id.now.0 (Some b.now) q) }
        ensures err { OnErr result ((q : List ℕ) → bytes_by_id self.new.by_id q ≡ bytes_by_id self.old.by_id q) }
        ensures only { result ≢ Err IoFault.Failed }
    {
        let Ok(bytes) = Vec::from_slice(self.alloc, b) else {
            return Err(IoFault::Memory);
        };
        match self.by_id.insert(*id, bytes) {
            Ok(_) => Ok(()),
            Err(_) => Err(IoFault::Memory),
        }
    }
}

impl<'a> Store for SharedChunks<'a> {
    ghost use Rattle.std.specs.Prelude.{Some, [], true, false, refl};
    ghost use Rattle.chunk_store.specs.MemStores.{bytes_by_id};
    ghost use Rattle.chunk_store.specs.Said.{answers_alone, just_one, said_by, says_map, vouched_map};

    ghost holds = { λ s. Some (bytes_by_id s.by_id.now) };

    ghost members = { λ s. just_one (Some (bytes_by_id s.by_id.now)) };

    ghost said = { λ s. said_by (Some (bytes_by_id s.by_id.now)) };

    ghost asked = { λ _ _. 0 };

    ghost queried = { λ _ _. 0 };

    ghost faults = { λ _. 0 };

    ghost place = { λ _. [] };

    ghost tells = { true };

    ghost never_fails = { true };

    ghost told_never_fail = { true };

    ghost may_lack_memory = { false };

    fn get(&mut self, id: &ChunkId, out: &mut [u8]) -> Result<usize, GetFault> {
        match self.by_id.get(id) {
            None => Err(GetFault::Missing),
            Some(b) => read_whole(b, out),
        }
    }

    fn giver(&self) -> usize {
        0
    }

    fn has(&mut self, id: &ChunkId) -> Result<bool, IoFault> {
        Ok(self.by_id.contains_key(id))
    }

    ghost alone = { λ s. answers_alone (Some (bytes_by_id s.by_id.now)) };

    ghost vouched = { λ s. vouched_map (Some (bytes_by_id s.by_id.now)) };

    ghost says = { λ s. says_map (Some (bytes_by_id s.by_id.now)) };

    ghost lies = { λ _. tt };

    ghost unasked = { λ _ _. (refl, refl) };

    ghost told = { λ _ _. refl };

    ghost sure = { λ _ _. refl };

    ghost steady = { λ _ _ _. refl };
}

impl Store for ChunkMap {
    ghost use Rattle.std.specs.Prelude.{Some, [], true, false, refl};
    ghost use Rattle.chunk_store.specs.MemStores.{bytes_by_id};
    ghost use Rattle.chunk_store.specs.Said.{answers_alone, just_one, said_by, says_map, vouched_map};

    ghost holds = { λ s. Some (bytes_by_id s.by_id) };

    ghost members = { λ s. just_one (Some (bytes_by_id s.by_id)) };

    ghost said = { λ s. said_by (Some (bytes_by_id s.by_id)) };

    ghost asked = { λ _ _. 0 };

    ghost queried = { λ _ _. 0 };

    ghost faults = { λ _. 0 };

    ghost place = { λ _. [] };

    ghost tells = { true };

    ghost never_fails = { true };

    ghost told_never_fail = { true };

    ghost may_lack_memory = { false };

    fn get(&mut self, id: &ChunkId, out: &mut [u8]) -> Result<usize, GetFault> {
        match self.by_id.get(id) {
            None => Err(GetFault::Missing),
            Some(b) => read_whole(b, out),
        }
    }

    fn giver(&self) -> usize {
        0
    }

    fn has(&mut self, id: &ChunkId) -> Result<bool, IoFault> {
        Ok(self.by_id.contains_key(id))
    }

    ghost alone = { λ s. answers_alone (Some (bytes_by_id s.by_id)) };

    ghost vouched = { λ s. vouched_map (Some (bytes_by_id s.by_id)) };

    ghost says = { λ s. says_map (Some (bytes_by_id s.by_id)) };

    ghost lies = { λ _. tt };

    ghost unasked = { λ _ _. (refl, refl) };

    ghost told = { λ _ _. refl };

    ghost sure = { λ _ _. refl };

    ghost steady = { λ _ _ _. refl };
}

impl StoreWrite for ChunkMap {
    fn put(&mut self, id: &ChunkId, b: &[u8]) -> Result<(), IoFault> {
        self.set(id, b)
    }
}
