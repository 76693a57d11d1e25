//! Files and folders in slots by their names, of whatever type they are: they are set, put, taken out, renamed and
//! removed.

ghost use Rattle.std.specs.Prelude.{◌≡◌, ◌≢◌, ℕ, List, None, Some, IsSome, IfOk, OnOk, OnErr, Err};
ghost use Rattle.std.specs.Map.{count_at};
ghost use Rattle.std.specs.Option.{option_map};
ghost use Rattle.dsy_base.specs.Counts.{Counted};
ghost use Rattle.dsy_base.specs.Files.{FoundThere, OpenGives};
ghost use Rattle.dsy_base.specs.Maps.{at_name};
ghost use Rattle.dsy_base.specs.Slots.{counts_in};
ghost use Rattle.dsy_forms.specs.SlotFiles.{shown_in};

use byte_forms::mem_target::MemFile;
use dsy_base::fault::{Memory, OpenFault};
use dsy_base::name::Name;
use dsy_base::slots::{Slots, claim, put_back, take_out};
use std::alloc::{AllocError, Global};

/// What stands in a slot: a file or a folder.
pub trait InSlot: Drop {
    /// What it shows: the bytes of a file, the files of a folder.
    ghost Shown: { Type 0 };

    ghost shows: { Self → Shown };
}

impl InSlot for MemFile {
    ghost Shown = { List ℕ };

    ghost shows = { λ f. f.bytes.items };
}

impl InSlot for Vec<u8> {
    ghost Shown = { List ℕ };

    ghost shows = { λ f. f.items };
}

/// A folder in a slot.
pub trait SlotFolder: InSlot {
    /// How often a call on it has failed.
    ghost faults: { Self → ℕ };

    /// The name that it was taken under.
    ghost place: { Self → List ℕ };

    /// A copy of it under a name, which counts its own calls.
    fn look(&self, name: Name) -> Result<Self, AllocError>
        ensures same { IfOk result (λ l. Self.shows l ≡ Self.shows self.now) }
        ensures fresh { IfOk result (λ l. (faults l ≡ 0) × (place l ≡ name)) };

    /// The folder as it is taken under a name, with no fault yet.
    fn taken(self, name: Name) -> Self
        ensures same { Self.shows result ≡ Self.shows self }
        ensures fresh { (faults result ≡ 0) × (place result ≡ name) };
}

/// What stands under the name.
pub fn get_named<'a, V: InSlot>(slots: &'a Slots<V>, name: &str) -> Option<&'a V>
    ensures { option_map (λ v. V.shows v.now) result ≡ shown_in V.shows slots.now name.now }
{
    match &slots.get(name)?.held {
        Some(held) => Some(held),
        None => None,
    }
}

/// Makes room for the name's number, and puts something under the name.
#[tactic(auto, using(crate::proofs::Updates::at_spelled))]
pub fn set_named<V: InSlot>(
    alloc: Global,
    slots: &mut Slots<V>,
    name: &str,
    v: V,
) -> Result<(), Memory>
    ensures ok { OnOk result ((q : List ℕ) → shown_in V.shows slots.new q
        ≡ at_name (shown_in V.shows slots.old) name.now (Some (V.shows v)) q) }
    ensures err { OnErr result ((q : List ℕ) → shown_in V.shows slots.new q ≡ shown_in V.shows slots.old q) }
    ensures counts { Counted (counts_in slots.old) (counts_in slots.new) name.now }
    ensures kept { count_at (counts_in slots.new) name.now ≡ count_at (counts_in slots.old) name.now }
{
    if claim(alloc, slots, name).is_err() {
        return Err(Memory);
    }
    put_named(slots, name, v);
    Ok(())
}

/// Puts something under the name.
pub fn put_named<V: InSlot>(slots: &mut Slots<V>, name: &str, v: V)
    requires known { IsSome (counts_in slots.old name.now) }
    ensures changed { (q : List ℕ) → shown_in V.shows slots.new q
        ≡ at_name (shown_in V.shows slots.old) name.now (Some (V.shows v)) q }
    ensures counts { (q : List ℕ) → counts_in slots.new q ≡ counts_in slots.old q }
{
    put_back(slots, name, v);
}

/// Takes out what stands under the name.
pub fn take_named<V: InSlot>(slots: &mut Slots<V>, name: &str) -> Option<V>
    ensures value { option_map V.shows result ≡ shown_in V.shows slots.old name.now }
    ensures changed { (q : List ℕ) → shown_in V.shows slots.new q
        ≡ at_name (shown_in V.shows slots.old) name.now None q }
    ensures counts { (q : List ℕ) → counts_in slots.new q ≡ counts_in slots.old q }
{
    take_out(slots, name)
}

/// Puts what stands under `from` under `to`.
#[tactic(auto, using(crate::proofs::Updates::at_absent, crate::proofs::Updates::at_renamed))]
pub fn rename_named<V: InSlot>(slots: &mut Slots<V>, from: &str, to: &str) -> Result<(), OpenFault>
    requires apart { from.now ≢ to.now }
    requires known { IsSome (counts_in slots.old to.now) }
    ensures found { FoundThere (shown_in V.shows slots.old from.now) result }
    ensures ok { OnOk result ((q : List ℕ) → shown_in V.shows slots.new q
        ≡ at_name (at_name (shown_in V.shows slots.old) to.now (shown_in V.shows slots.old from.now)) from.now None q) }
    ensures err { OnErr result ((q : List ℕ) → shown_in V.shows slots.new q ≡ shown_in V.shows slots.old q) }
    ensures counts { (q : List ℕ) → counts_in slots.new q ≡ counts_in slots.old q }
    ensures only { OnErr result (result ≡ Err OpenFault.Absent) }
{
    match take_named(slots, from) {
        Some(v) => {
            put_named(slots, to, v);
            Ok(())
        }
        None => Err(OpenFault::Absent),
    }
}

/// Takes out what stands under the name, for good.
#[tactic(auto, using(crate::proofs::Updates::at_absent))]
pub fn remove_named<V: InSlot>(slots: &mut Slots<V>, name: &str) -> Result<(), OpenFault>
    ensures found { FoundThere (shown_in V.shows slots.old name.now) result }
    ensures ok { OnOk result ((q : List ℕ) → shown_in V.shows slots.new q
        ≡ at_name (shown_in V.shows slots.old) name.now None q) }
    ensures err { OnErr result ((q : List ℕ) → shown_in V.shows slots.new q ≡ shown_in V.shows slots.old q) }
    ensures counts { (q : List ℕ) → counts_in slots.new q ≡ counts_in slots.old q }
    ensures only { OnErr result (result ≡ Err OpenFault.Absent) }
{
    match take_named(slots, name) {
        Some(_) => Ok(()),
        None => Err(OpenFault::Absent),
    }
}

/// A look at the folder under the name.
pub fn look_at<V: SlotFolder>(slots: &Slots<V>, name: &str, place: Name) -> Result<V, OpenFault>
    ensures found { OpenGives (shown_in V.shows slots.now name.now) (λ l f. V.shows l ≡ f) result }
    ensures fresh { IfOk result (λ l. (V.faults l ≡ 0) × (V.place l ≡ place)) }
    ensures only { result ≢ Err OpenFault.Failed }
{
    match get_named(slots, name) {
        Some(folder) => match folder.look(place) {
            Ok(look) => Ok(look),
            Err(_) => Err(OpenFault::Memory),
        },
        None => Err(OpenFault::Absent),
    }
}

/// Takes out the folder under the name, with no fault yet.
#[tactic(auto, using(crate::proofs::Updates::at_absent))]
pub fn take_folder<V: SlotFolder>(
    slots: &mut Slots<V>,
    name: &str,
    place: Name,
) -> Result<V, OpenFault>
    ensures found { OpenGives (shown_in V.shows slots.old name.now) (λ d f. V.shows d ≡ f) result }
    ensures fresh { IfOk result (λ d. (V.faults d ≡ 0) × (V.place d ≡ place)) }
    ensures ok { OnOk result ((q : List ℕ) → shown_in V.shows slots.new q
        ≡ at_name (shown_in V.shows slots.old) name.now None q) }
    ensures err { OnErr result ((q : List ℕ) → shown_in V.shows slots.new q ≡ shown_in V.shows slots.old q) }
    ensures counts { (q : List ℕ) → counts_in slots.new q ≡ counts_in slots.old q }
    ensures only { OnErr result (result ≡ Err OpenFault.Absent) }
{
    let Some(folder) = take_named(slots, name) else {
        return Err(OpenFault::Absent);
    };
    Ok(folder.taken(place))
}
