//! Slots by name. A slot stays, with its number, while what stands in it is taken out, so giving back takes no memory.

ghost use Rattle.std.specs.Prelude.{◌≡◌, ◌≤◌, List, ℕ, None, Some, IsSome, IsOk, OnOk, OnErr};
ghost use Rattle.std.specs.Map.{count_at};
ghost use Rattle.dsy_base.specs.Counts.{Counted, GivenBack, raised};
ghost use Rattle.dsy_base.specs.Maps.{at_name};
ghost use Rattle.dsy_base.specs.Slots.{held_in, counts_in};

use crate::fault::raise;
use std::alloc::{AllocError, Global};
use std::collections::BTreeMap;

/// What stands under a name, and how often calls on the name have failed.
#[derive(Drop)]
pub struct Slot<V> {
    pub held: Option<V>,
    pub faults: u64,
}

/// The slots of the names that were used.
pub type Slots<V> = BTreeMap<String, Slot<V>>;

/// Makes room for the name's number.
#[tactic(auto, using(std::proofs::lemmas::Map::Text::text_keys))]
pub fn claim<V: Drop>(alloc: Global, slots: &mut Slots<V>, name: &str) -> Result<(), AllocError>
    ensures kept { (q : List ℕ) → held_in slots.new q ≡ held_in slots.old q }
    ensures counts { Counted (counts_in slots.old) (counts_in slots.new) name.now }
    ensures value { count_at (counts_in slots.new) name.now
        ≡ count_at (counts_in slots.old) name.now }
    ensures known { OnOk result (IsSome (counts_in slots.new name.now)) }
    ensures err { OnErr result ((q : List ℕ) → counts_in slots.new q ≡ counts_in slots.old q) }
    ensures room { IsSome (counts_in slots.old name.now) → IsOk result }
{
    if slots.contains_key(name) {
        return Ok(());
    }
    let key = String::from_str(alloc, name)?;
    let slot = Slot {
        held: None,
        faults: 0,
    };
    slots.insert(key, slot)?;
    Ok(())
}

// Adds to the name's number.
#[tactic(auto, using(std::proofs::lemmas::Map::Text::text_keys))]
fn add<V: Drop>(slots: &mut Slots<V>, name: &str, n: u64)
    requires { IsSome (counts_in slots.old name.now) }
    ensures kept { (q : List ℕ) → held_in slots.new q ≡ held_in slots.old q }
    ensures counts { (q : List ℕ) → counts_in slots.new q
        ≡ at_name (counts_in slots.old) name.now (Some (raised (count_at (counts_in slots.old) name.now) n)) q }
    ensures faults { count_at (counts_in slots.old) name.now ≤ raised (count_at (counts_in slots.old) name.now) n }
{
    if let Some(slot) = slots.get_mut(name) {
        slot.faults = raise(slot.faults, n);
    }
}

/// Counts `n` more faults of the name.
#[tactic(auto, using(crate::proofs::Counts::given_back))]
pub fn count<V: Drop>(slots: &mut Slots<V>, name: &str, n: u64)
    requires { IsSome (counts_in slots.old name.now) }
    ensures kept { (q : List ℕ) → held_in slots.new q ≡ held_in slots.old q }
    ensures counts { GivenBack (counts_in slots.old) (counts_in slots.new) name.now n }
{
    add(slots, name, n);
}

/// Puts something under the name.
#[tactic(auto, using(std::proofs::lemmas::Map::Text::text_keys))]
pub fn put_back<V: Drop>(slots: &mut Slots<V>, name: &str, v: V)
    requires { IsSome (counts_in slots.old name.now) }
    ensures changed { (q : List ℕ) → held_in slots.new q
        ≡ at_name (held_in slots.old) name.now (Some v) q }
    ensures counts { (q : List ℕ) → counts_in slots.new q ≡ counts_in slots.old q }
{
    if let Some(slot) = slots.get_mut(name) {
        slot.held = Some(v);
    }
}

/// Takes out what stands under the name.
#[tactic(auto, using(std::proofs::lemmas::Map::Text::text_keys))]
pub fn take_out<V: Drop>(slots: &mut Slots<V>, name: &str) -> Option<V>
    ensures value { result ≡ held_in slots.old name.now }
    ensures changed { (q : List ℕ) → held_in slots.new q
        ≡ at_name (held_in slots.old) name.now None q }
    ensures counts { (q : List ℕ) → counts_in slots.new q ≡ counts_in slots.old q }
{
    match slots.get_mut(name) {
        Some(slot) => slot.held.take(),
        None => None,
    }
}
