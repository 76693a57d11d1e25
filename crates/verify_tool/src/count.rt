//! How many of the ids that an index lists a chain of stores has. Entries are numbered from 0.

ghost use Rattle.std.specs.Prelude.{◌≡◌, ℕ, ◌≤◌, All, List, map, Some};
ghost use Rattle.std.specs.Prelude.{IfOk, IfErr, OnOk, OnErr, cond, true, false, ◌&&◌};
ghost use Rattle.std.specs.Prelude.{slice_index};
ghost use Rattle.dsy_base.specs.Counts.{Rose};
ghost use Rattle.dsy_base.specs.Maps.{Map};
ghost use Rattle.caibx_codec.specs.Asks.{IsListedHas};
ghost use Rattle.caibx_codec.specs.Listing.{count_of};
ghost use Rattle.chunk_store.specs.Asks.{Has};
ghost use Rattle.store_chain.specs.Chains.{AsksNone, EachOnce, KeepsStores};
ghost use Rattle.store_chain.specs.Refusals.{HasFails};
ghost use Rattle.verify_tool.specs.Counts.{is_held, held_count, TellsHeld, DeniesOthers, EachAsksBefore, FailsAtEntry};
ghost use Rattle.verify_tool.specs.Texts.{unique_count};

use caibx_codec::index::Index;
use chunk_store::id::ChunkId;
use chunk_store::store::Store;
use std::alloc::Global;
use std::collections::BTreeSet;
use store_chain::chain::Chain;
use store_chain::refused::HasFault;

// 1 where the id is new and some store has it, else 0. The stores are asked for a new id alone.
fn count_one<S: Store>(chain: &mut Chain<S>, id: &ChunkId, is_new: bool) -> Result<u64, HasFault>
    ensures value { (maps : List (Map (List ℕ))) → map S.holds chain.old.stores ≡ map Some maps →
        IfOk result (λ n. n ≡ cond (is_new && is_held maps id.now.0) 1 0) }
    ensures size { IfOk result (λ n. n ≤ cond is_new 1 0) }
    ensures ok { OnOk result (is_new ≡ true → TellsHeld S.holds S.said id.now.0 chain.old.stores chain.new.stores) }

    ensures absent { IfOk result (λ n. n ≡ 0 → is_new ≡ true → All (λ s. (S.said s).denied id.now.0) chain.new.stores) }

    ensures only { OnErr result (is_new ≡ true) }
    ensures first { IfErr result (HasFails S.said S.faults id.now.0 chain.old.stores chain.new.stores) }
    ensures cause { (s : ℕ) → result ≡ Err (HasFault.StoreFault s) →
        Rose (slice_index (map S.faults chain.old.stores) s) (slice_index (map S.faults chain.new.stores) s) }

    ensures kept { KeepsStores S.Store (λ a. a ≡ Has id.now.0) chain.old.stores chain.new.stores }
    ensures asks { AsksNone S.asked chain.old chain.new }
    ensures queries { EachOnce S.queried id.now.0 chain.old.stores chain.new.stores }
    ensures unasked { is_new ≡ false → chain.new ≡ chain.old }
{
    if !is_new {
        return Ok(0);
    }
    match chain.has(id) {
        Ok(true) => Ok(1),
        Ok(false) => Ok(0),
        Err(fault) => Err(fault),
    }
}

/// How many different ids the index lists that some store has something under. The stores are asked once for each id,
/// in the order of the ids' first entries, up to the first call that fails, whose fault is answered. `Memory` comes
/// also where none is left to keep the ids that were asked for.
pub fn count_in_store<S: Store>(
    alloc: Global,
    index: &Index,
    chain: &mut Chain<S>,
) -> Result<u64, HasFault>
    ensures value { (maps : List (Map (List ℕ))) → map S.holds chain.old.stores ≡ map Some maps →
        IfOk result (λ n. n ≡ held_count index.now maps) }
    ensures size { IfOk result (λ n. n ≤ unique_count index.now) }
    // An id that isn't counted all stores have denied.
    ensures absent { IfOk result (λ n. DeniesOthers S.said index.now (count_of index.now) n chain.new.stores) }

    ensures first { IfErr result (FailsAtEntry S.holds S.said S.queried S.faults index.now chain.old.stores
        chain.new.stores) }
    ensures cause { (s : ℕ) → result ≡ Err (HasFault.StoreFault s) →
        Rose (slice_index (map S.faults chain.old.stores) s) (slice_index (map S.faults chain.new.stores) s) }

    ensures kept { KeepsStores S.Store (IsListedHas index.now) chain.old.stores chain.new.stores }
    ensures asks { AsksNone S.asked chain.old chain.new }
    ensures queries { EachAsksBefore S.queried index.now (count_of index.now) chain.old.stores chain.new.stores }
{
    let mut asked = BTreeSet::new(alloc);
    let mut n = 0u64;
    for i in 0..index.count() {
        let id = index.id(i);
        let is_new = match asked.insert(id.0) {
            Ok(is_new) => is_new,
            Err(_) => return Err(HasFault::Memory),
        };
        let more = match count_one(chain, &id, is_new) {
            Ok(more) => more,
            Err(fault) => return Err(fault),
        };
        n += more;
    }
    Ok(n)
}
