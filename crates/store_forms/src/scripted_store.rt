//! A store in memory, with stated calls that are refused. Calls are counted from 0, whatever is asked.

ghost use Rattle.std.specs.Prelude.{◌≡◌, None, Some, OnErr, OnOk};
ghost use Rattle.std.specs.Option.{option_map};
ghost use Rattle.dsy_base.specs.Counts.{CountsFaults, raised};
ghost use Rattle.dsy_base.specs.Maps.{at_name};

use chunk_store::id::ChunkId;
use chunk_store::mem_store::MemStore;
use chunk_store::store::{GetFault, Store, StoreWrite};
use dsy_base::fault::{IoFault, Memory, raise};
use std::alloc::Global;

/// Which calls on a store are refused.
#[derive(Clone, Copy, Debug)]
pub enum Refuses {
    Nothing,
    /// Each call, in this way.
    Everything(IoFault),
    /// The call of this number, which fails.
    Call(u64),
    /// Each call for this id, which fails.
    Id(ChunkId),
}

impl Refuses {
    // How the call of this number, for this id, is refused, if it is.
    fn refusal(&self, call: u64, id: &ChunkId) -> Option<IoFault> {
        match self {
            Refuses::Everything(fault) => Some(*fault),
            Refuses::Call(refused) if *refused == call => Some(IoFault::Failed),
            Refuses::Id(refused) if refused == id => Some(IoFault::Failed),
            _ => None,
        }
    }
}

/// A store in memory. A call that is refused leaves the chunks as they are.
#[derive(Drop)]
pub struct ScriptedStore {
    chunks: MemStore,
    refuses: Refuses,
    calls: u64,
    puts: u64,
    faults: u64,
}

impl ScriptedStore {
    /// A store of no chunks.
    pub fn new(alloc: Global, refuses: Refuses) -> ScriptedStore
        ensures value { ⟦<ScriptedStore as Store>⟧.holds result ≡ Some (λ _. None) }
        ensures said { result.refuses ≡ refuses }
        ensures faults { ⟦<ScriptedStore as Store>⟧.faults result ≡ 0 }
    {
        ScriptedStore {
            chunks: MemStore::new(alloc),
            refuses,
            calls: 0,
            puts: 0,
            faults: 0,
        }
    }

    /// Puts bytes under the id, which is no call on the store.
    pub fn set_chunk(&mut self, id: &ChunkId, b: &[u8]) -> Result<(), Memory>
        ensures ok { OnOk result (⟦<ScriptedStore as Store>⟧.holds self.new
            ≡ option_map (λ m. at_name m id.now.0 (Some b.now)) (⟦<ScriptedStore as Store>⟧.holds self.old)) }
        ensures err { OnErr result (⟦<ScriptedStore as Store>⟧.holds self.new
            ≡ ⟦<ScriptedStore as Store>⟧.holds self.old) }
        ensures counts { self.new.calls ≡ self.old.calls }
        ensures faults { ⟦<ScriptedStore as Store>⟧.faults self.new ≡ ⟦<ScriptedStore as Store>⟧.faults self.old }
    {
        match self.chunks.put(id, b) {
            Ok(()) => Ok(()),
            Err(_) => Err(Memory),
        }
    }

    /// How often it was called. The count stays at its greatest value.
    pub fn calls(&self) -> u64
        ensures { result ≡ self.now.calls }
    {
        self.calls
    }

    /// How often bytes were put into it, and not refused. The count stays at its greatest value.
    pub fn puts(&self) -> u64
        ensures { result ≡ self.now.puts }
    {
        self.puts
    }

    // Counts the call for the id that is made now, and answers how it is refused, if it is.
    fn admit(&mut self, id: &ChunkId) -> Result<(), IoFault>
        ensures kept { self.new.chunks ≡ self.old.chunks }
        ensures counts { self.new.calls ≡ raised self.old.calls 1 }
        ensures faults { CountsFaults IoFault.Failed IoFault.Memory self.old.faults self.new.faults result }
    {
        let call = self.calls;
        self.calls = raise(call, 1);
        match self.refuses.refusal(call, id) {
            None => Ok(()),
            Some(IoFault::Failed) => {
                self.faults = raise(self.faults, 1);
                Err(IoFault::Failed)
            }
            Some(IoFault::Memory) => Err(IoFault::Memory),
        }
    }
}

impl Store for ScriptedStore {
    ghost use Rattle.std.specs.Prelude.{[], true, false, refl};
    ghost use Rattle.std.proofs.Common.{rules};
    ghost use Rattle.chunk_store.specs.Said.{answers_alone, just_one, says_map, vouched_map};

    ghost holds = { λ s. ⟦<MemStore as Store>⟧.holds s.chunks };

    ghost members = { λ s. just_one (⟦<MemStore as Store>⟧.holds s.chunks) };

    ghost said = { λ s. ⟦<MemStore as Store>⟧.said s.chunks };

    ghost asked = { λ _ _. 0 };

    ghost queried = { λ _ _. 0 };

    ghost faults = { λ s. s.faults };

    ghost place = { λ _. [] };

    ghost tells = { true };

    ghost never_fails = { false };

    ghost told_never_fail = { false };

    ghost may_lack_memory = { true };

    fn get(&mut self, id: &ChunkId, out: &mut [u8]) -> Result<usize, GetFault> {
        match self.admit(id) {
            Ok(()) => self.chunks.get(id, out),
            Err(IoFault::Failed) => Err(GetFault::Failed),
            Err(IoFault::Memory) => Err(GetFault::Memory),
        }
    }

    fn giver(&self) -> usize {
        0
    }

    fn has(&mut self, id: &ChunkId) -> Result<bool, IoFault> {
        self.admit(id)?;
        self.chunks.has(id)
    }

    ghost alone = { λ s. answers_alone (⟦<MemStore as Store>⟧.holds s.chunks) };

    ghost vouched = { λ s. vouched_map (⟦<MemStore as Store>⟧.holds s.chunks) };

    ghost says = { λ s. says_map (⟦<MemStore as Store>⟧.holds s.chunks) };

    ghost lies = { λ _. tt };

    ghost unasked = { λ _ _. (refl, refl) };

    ghost told = { λ _ _. refl };

    ghost sure = { Prim.search rules };

    ghost steady = { Prim.search rules };
}

impl StoreWrite for ScriptedStore {
    fn put(&mut self, id: &ChunkId, b: &[u8]) -> Result<(), IoFault> {
        self.admit(id)?;
        self.chunks.put(id, b)?;
        self.puts = raise(self.puts, 1);
        Ok(())
    }
}
