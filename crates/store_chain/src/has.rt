//! Asking stores whether they have a chunk, in turn.

ghost use Rattle.std.specs.Prelude.{◌≡◌, ℕ, List, ◌+◌, ◌^◌, ◌<◌, ◌≤◌, length, map, Some, IfSome, IfOk, IfErr, is_some};
ghost use Rattle.std.specs.Prelude.{false};
ghost use Rattle.std.specs.List.{All, list_any};
ghost use Rattle.chunk_store.specs.Asks.{Has, Sends};
ghost use Rattle.chunk_store.specs.Said.{KeepsOf, AskedOnce};
ghost use Rattle.dsy_base.specs.Maps.{Map};
ghost use Rattle.store_chain.specs.Chains.{EachOnce, KeepsStores};
ghost use Rattle.store_chain.specs.Refusals.{HasTells, HasFailsFrom};

use crate::refused::HasFault;
use chunk_store::id::ChunkId;
use chunk_store::store::Store;
use dsy_base::fault::IoFault;

// Asks one store, which has this number.
fn has_one<S: Store>(store: &mut S, number: u32, id: &ChunkId) -> Result<bool, HasFault>
    ensures found { IfOk result (λ b. IfSome (S.holds store.old) (λ m. b ≡ is_some (m id.now.0))) }
    ensures absent { result ≡ Ok false → (S.said store.new).denied id.now.0 }
    ensures err { IfErr result (HasTells S.said S.faults id.now.0 S.may_lack_memory number store.old store.new) }
    ensures kept { S.holds store.new ≡ S.holds store.old }
    ensures members { S.members store.new ≡ S.members store.old }
    ensures files { S.folder store.new ≡ S.folder store.old }
    ensures folders { S.folders store.new ≡ S.folders store.old }
    ensures place { S.place store.new ≡ S.place store.old }
    ensures said { (q : List ℕ) → KeepsOf (S.said store.old) (S.said store.new) q }
    ensures sends { Sends (λ a. a ≡ Has id.now.0) (S.sent store.old) (S.sent store.new) }
    ensures asks { S.asked store.new ≡ S.asked store.old }
    ensures queries { AskedOnce (S.queried store.old) (S.queried store.new) id.now.0 }
    ensures faults { S.faults store.old ≤ S.faults store.new }
{
    match store.has(id) {
        Ok(has) => Ok(has),
        Err(IoFault::Failed) => Err(HasFault::StoreFault { store: number }),
        Err(IoFault::Memory) => Err(HasFault::Memory),
    }
}

/// Asks the stores in turn, the first of which has this number, until one has it.
pub fn has_each<S: Store>(stores: &mut [S], number: u32, id: &ChunkId) -> Result<bool, HasFault>
    requires room { number + length stores.old < 2 ^ 32 }
    ensures found { (maps : List (Map (List ℕ))) → map S.holds stores.old ≡ map Some maps →
        IfOk result (λ b. b ≡ list_any (λ m. is_some (m id.now.0)) maps) }
    ensures absent { result ≡ Ok false → All (λ s. (S.said s).denied id.now.0) stores.new }
    ensures err { IfErr result (HasFailsFrom S.said S.faults id.now.0 S.may_lack_memory number stores.old stores.new) }
    ensures kept { KeepsStores S.Store (λ a. a ≡ Has id.now.0) stores.old stores.new }
    ensures asks { map S.asked stores.new ≡ map S.asked stores.old }
    ensures queries { EachOnce S.queried id.now.0 stores.old stores.new }
{
    let Some((first, rest)) = stores.split_first_mut() else {
        return Ok(false);
    };
    match has_one(first, number, id) {
        Ok(true) => Ok(true),
        Ok(false) => has_each(rest, number + 1, id),
        Err(fault) => {
            let then = has_each(rest, number + 1, id);
            fault.before(then)
        }
    }
}
