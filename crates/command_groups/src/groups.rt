//! Groups of stores that are opened in order, and given back.

ghost use Rattle.std.specs.Prelude.{◌≡◌, ℕ, List, ◌≤◌, [], ◌∷◌, ◌++◌, length, map, IfSome, IfOk, IfErr, OnOk};
ghost use Rattle.std.specs.Prelude.{OnErr};
ghost use Rattle.std.specs.List.{All, fold};
ghost use Rattle.command_groups.specs.Groups.{stores_of};
ghost use Rattle.command_groups.specs.Opened.{AreUnused, IsFresh, IsGroupGiven, all_locations, files_in};
ghost use Rattle.command_groups.specs.Opened.{OpensGroups, locations_in, with_group};
ghost use Rattle.command_steps.specs.AnyStores.{IsKnown, source_faults};
ghost use Rattle.command_steps.specs.Sources.{AllThere, ConsultsStores, FirstUnreached, location_files, storage};
ghost use Rattle.command_steps.specs.Uses.{IsNoneOf, Uses, folders_among};
ghost use Rattle.command_words.specs.declared.command.Location.{Location};
ghost use Rattle.command_worlds.specs.Worlds.{Reads};

use command_outcome::outcome::Outcome;
use command_steps::any_store::AnyStore;
use command_steps::sources::{close_sources, drop_sources, open_sources};
use command_words::command::Locations;
use dsy_base::dial::Dial;
use dsy_base::files::Files;
use std::alloc::Global;
use store_group::group::Group;

// Opens the stores of one group.
fn open<F: Files, D: Dial>(
    alloc: Global,
    files: &mut F,
    dial: &D,
    group: &Locations,
    retries: u32,
) -> Result<Group<AnyStore<F::Look, D>>, Outcome>
    requires some { 1 ≤ length group.now }
    ensures there { OnOk result (AllThere (F.disk files.old) group.now) }
    ensures found { IfOk result (λ g. IfSome (F.disk files.old).folders (λ m.
        files_in F.Look.files g ≡ map (location_files m) group.now)) }
    ensures located { IfOk result (λ g. locations_in F.Look.place g ≡ group.now) }
    ensures fresh { IfOk result (IsFresh (source_faults F.Look.faults D.state) retries) }
    ensures unused { IfOk result (AreUnused D.state) }
    ensures known { OnOk result (All (IsKnown (F.disk files.new).folder_counts) group.now) }
    ensures err { IfErr result (FirstUnreached (F.disk files.old) (F.disk files.new) group.now) }
    ensures kept { Reads (F.disk files.old) (F.disk files.new) }
    ensures used { Uses [] (folders_among group.now) (F.disk files.old) (F.disk files.new) }
{
    let stores = open_sources(alloc, files, dial, group.as_slice())?;
    Ok(Group::new(stores, retries))
}

// Gives the stores of one group back.
fn close<F: Files, D: Dial>(files: &mut F, dial: &mut D, group: Group<AnyStore<F::Look, D>>)
    requires known { All (IsKnown (F.disk files.old).folder_counts) (locations_in F.Look.place group) }
    ensures kept { ConsultsStores (locations_in F.Look.place group)
        (storage (F.disk files.old) (D.state dial.old)) (storage (F.disk files.new) (D.state dial.new)) }
    ensures ended { (D.state dial.new).ended ≡ with_group D.state (D.state dial.old).ended group }
    ensures counts { (F.disk files.new).file_counts ≡ (F.disk files.old).file_counts }
    ensures used { Uses [] (folders_among (locations_in F.Look.place group)) (F.disk files.old) (F.disk files.new) }
    ensures given { IsGroupGiven F.Look.place F.Look.faults D.state
        (storage (F.disk files.old) (D.state dial.old)) (storage (F.disk files.new) (D.state dial.new)) group }
{
    close_sources(files, dial, group.into_stores())
}

// Lets one group go that was never asked.
fn drop_unasked<F: Files, D: Dial>(files: &mut F, group: Group<AnyStore<F::Look, D>>)
    requires known { All (IsKnown (F.disk files.old).folder_counts) (locations_in F.Look.place group) }
    ensures kept { Reads (F.disk files.old) (F.disk files.new) }
    ensures used { Uses [] (folders_among (locations_in F.Look.place group)) (F.disk files.old) (F.disk files.new) }
{
    drop_sources(files, group.into_stores())
}

// Appends the group, or lets it go.
fn keep<F: Files, D: Dial>(
    files: &mut F,
    group: Group<AnyStore<F::Look, D>>,
    groups: &mut Vec<Group<AnyStore<F::Look, D>>>,
) -> Result<(), Outcome>
    requires known { All (IsKnown (F.disk files.old).folder_counts) (locations_in F.Look.place group) }
    ensures ok { OnOk result (groups.new.items ≡ groups.old.items ++ group ∷ []) }
    ensures err { OnErr result (groups.new.items ≡ groups.old.items) }
    ensures only { IfErr result (λ o. o ≡ Outcome.Memory) }
    ensures kept { Reads (F.disk files.old) (F.disk files.new) }
    ensures used { Uses [] (folders_among (locations_in F.Look.place group)) (F.disk files.old) (F.disk files.new) }
{
    match groups.push(group) {
        Ok(()) => Ok(()),
        Err(full) => {
            drop_unasked(files, full.value);
            Err(Outcome::Memory)
        }
    }
}

// Opens the rest of the groups.
fn open_each<F: Files, D: Dial>(
    alloc: Global,
    files: &mut F,
    dial: &D,
    names: &[Locations],
    retries: u32,
    groups: &mut Vec<Group<AnyStore<F::Look, D>>>,
) -> Result<(), Outcome>
    requires each { All (λ (g : List Location). 1 ≤ length g) names.now }
    requires known { All (IsKnown (F.disk files.old).folder_counts) (all_locations F.Look.place groups.old.items) }
    ensures ok { OnOk result (OpensGroups F.Look.Look D.state retries (F.disk files.old).folders names.now
        groups.old.items groups.new.items) }
    ensures err { IfErr result (FirstUnreached (F.disk files.old) (F.disk files.new) (stores_of names.now)) }
    ensures known { All (IsKnown (F.disk files.new).folder_counts) (all_locations F.Look.place groups.new.items) }
    ensures kept { Reads (F.disk files.old) (F.disk files.new) }
    ensures used { Uses [] (folders_among (stores_of names.now)) (F.disk files.old) (F.disk files.new) }
    ensures among { (q : List ℕ) → IsNoneOf q (folders_among (all_locations F.Look.place groups.old.items)) →
        IsNoneOf q (folders_among (stores_of names.now)) →
        IsNoneOf q (folders_among (all_locations F.Look.place groups.new.items)) }
{
    let Some((first, rest)) = names.split_first() else {
        return Ok(());
    };
    let group = open(alloc, files, dial, first, retries)?;
    keep(files, group, groups)?;
    open_each(alloc, files, dial, rest, retries, groups)?;
    Ok(())
}

/// Opens the stores of the groups in their order. A call that fails is made up to `retries` times more. Where a store
/// can't be opened, those before it are given back. No server is asked yet: each gets a dialer of its own.
pub fn open_groups<F: Files, D: Dial>(
    alloc: Global,
    files: &mut F,
    dial: &D,
    groups: &[Locations],
    retries: u32,
) -> Result<Vec<Group<AnyStore<F::Look, D>>>, Outcome>
    requires each { All (λ (g : List Location). 1 ≤ length g) groups.now }
    ensures there { OnOk result (AllThere (F.disk files.old) (stores_of groups.now)) }
    ensures found { IfOk result (λ v. IfSome (F.disk files.old).folders (λ m.
        map (files_in F.Look.files) v.items ≡ map (map (location_files m)) groups.now)) }
    ensures located { IfOk result (λ v. map (locations_in F.Look.place) v.items ≡ groups.now) }
    ensures fresh { IfOk result (λ v. All (IsFresh (source_faults F.Look.faults D.state) retries) v.items) }
    ensures unused { IfOk result (λ v. All (AreUnused D.state) v.items) }
    ensures known { OnOk result (All (IsKnown (F.disk files.new).folder_counts) (stores_of groups.now)) }
    ensures err { IfErr result (FirstUnreached (F.disk files.old) (F.disk files.new) (stores_of groups.now)) }
    ensures kept { Reads (F.disk files.old) (F.disk files.new) }
    ensures used { Uses [] (folders_among (stores_of groups.now)) (F.disk files.old) (F.disk files.new) }
{
    let mut opened = Vec::new(alloc);
    match open_each(alloc, files, dial, groups, retries, &mut opened) {
        Ok(()) => Ok(opened),
        Err(outcome) => {
            drop_groups(files, opened);
            Err(outcome)
        }
    }
}

/// Gives the stores of all groups back, and joins what servers' stores have dialed, in the order of the stores.
pub fn close_groups<F: Files, D: Dial>(
    files: &mut F,
    dial: &mut D,
    mut groups: Vec<Group<AnyStore<F::Look, D>>>,
)
    requires known { All (IsKnown (F.disk files.old).folder_counts) (all_locations F.Look.place groups.items) }
    ensures kept { ConsultsStores (all_locations F.Look.place groups.items)
        (storage (F.disk files.old) (D.state dial.old)) (storage (F.disk files.new) (D.state dial.new)) }
    ensures ended { (D.state dial.new).ended
        ≡ fold (with_group D.state) (D.state dial.old).ended groups.items }
    ensures counts { (F.disk files.new).file_counts ≡ (F.disk files.old).file_counts }
    ensures used { Uses [] (folders_among (all_locations F.Look.place groups.items)) (F.disk files.old)
        (F.disk files.new) }
    ensures given { All (IsGroupGiven F.Look.place F.Look.faults D.state
        (storage (F.disk files.old) (D.state dial.old)) (storage (F.disk files.new) (D.state dial.new))) groups.items }
{
    match groups.pop() {
        Some(group) => {
            close_groups(files, dial, groups);
            close(files, dial, group)
        }
        None => (),
    }
}

/// Lets the stores of all groups go, which were never asked.
pub fn drop_groups<F: Files, D: Dial>(files: &mut F, mut groups: Vec<Group<AnyStore<F::Look, D>>>)
    requires known { All (IsKnown (F.disk files.old).folder_counts) (all_locations F.Look.place groups.items) }
    ensures kept { Reads (F.disk files.old) (F.disk files.new) }
    ensures used { Uses [] (folders_among (all_locations F.Look.place groups.items)) (F.disk files.old)
        (F.disk files.new) }
{
    match groups.pop() {
        Some(group) => {
            drop_unasked(files, group);
            drop_groups(files, groups)
        }
        None => (),
    }
}
