//! An index is read from the file that an operand names, or fetched from its URL.

ghost use Rattle.std.specs.Prelude.{◌≡◌, List, ◌++◌, ◌≤◌, Ok, Err, All, IfErr, IfOk, OnOk};
ghost use Rattle.caibx_codec.specs.Listing.{Listing};
ghost use Rattle.command_indexes.specs.Gets.{IndexGot, IndexesGot, outcome_of_fetch};
ghost use Rattle.command_steps.specs.Sources.{storage};
ghost use Rattle.command_words.specs.Locations.{NamesIndex};
ghost use Rattle.command_worlds.specs.Worlds.{world};
ghost use Rattle.dsy_base.specs.Disk.{Output};
ghost use Rattle.extract_plan.specs.Places.{seed_item_limit};

use caibx_codec::index::Index;
use command_outcome::outcome::Outcome;
use command_steps::input_files::load_index_file;
use command_steps::seeds::add_index;
use command_words::location::{IndexPlace, read_index_place};
use dsy_base::dial::Dial;
use dsy_base::files::Files;
use dsy_base::name::Name;
use index_server::fetch_index::{FetchFault, fetch_index};
use std::alloc::Global;

// What a command ends with whose index wasn't fetched from this URL.
fn unfetched(fault: FetchFault, name: Name) -> Outcome
    ensures { result ≡ outcome_of_fetch name fault }
{
    match fault {
        FetchFault::Absent => Outcome::NoFile { name },
        FetchFault::Bad(fault) => Outcome::BadIndex { name, fault },
        FetchFault::Status(_) | FetchFault::Wire(_) | FetchFault::Failed => Outcome::FileFault {
            name,
        },
        FetchFault::Memory => Outcome::Memory,
    }
}

/// Reads the index from the file of this name, or fetches it with one GET, where the name is a URL.
pub fn load_index<F: Files, D: Dial>(
    alloc: Global,
    files: &mut F,
    dial: &mut D,
    name: Name,
) -> Result<Index, Outcome>
    requires { NamesIndex name }
    ensures ends { IndexGot name (storage (F.disk files.old) (D.state dial.old)) result
        (storage (F.disk files.new) (D.state dial.new)) }
{
    match read_index_place(alloc, name.as_str()) {
        Ok(IndexPlace::File(_)) => load_index_file(alloc, files, name),
        Ok(IndexPlace::Http { host, port, path }) => {
            match fetch_index(alloc, dial, host.as_str(), port, path.as_str()) {
                Ok(index) => Ok(index),
                Err(fault) => Err(unfetched(fault, name)),
            }
        }
        Err(_) => Err(Outcome::Memory),
    }
}

// Loads the rest of the indexes. So many items are listed beside them.
fn load_each<F: Files, D: Dial>(
    alloc: Global,
    files: &mut F,
    dial: &mut D,
    names: &[Name],
    items: usize,
    indexes: &mut Vec<Index>,
) -> Result<(), Outcome>
    requires few { items ≤ seed_item_limit }
    requires named { All NamesIndex names.now }
    ensures ok { OnOk result ((ls : List Listing) × (indexes.new.items ≡ indexes.old.items ++ ls)
        × ((p : Output) → IndexesGot items names.now (world (F.disk files.old) (D.state dial.old) p) (Ok ls)
        (world (F.disk files.new) (D.state dial.new) p))) }
    ensures err { IfErr result (λ o. (p : Output) → IndexesGot items names.now
        (world (F.disk files.old) (D.state dial.old) p) (Err o) (world (F.disk files.new) (D.state dial.new) p)) }
{
    let Some((first, rest)) = names.split_first() else {
        return Ok(());
    };
    let Ok(name) = Name::of(alloc, first.as_str()) else {
        return Err(Outcome::Memory);
    };
    let index = load_index(alloc, files, dial, name)?;
    let items = add_index(index, items, indexes)?;
    load_each(alloc, files, dial, rest, items, indexes)
}

/// Loads the indexes of these names in their order, up to the first that isn't obtained, or with which they list more
/// than 2^23 items together.
pub fn load_indexes<F: Files, D: Dial>(
    alloc: Global,
    files: &mut F,
    dial: &mut D,
    names: &[Name],
) -> Result<Vec<Index>, Outcome>
    requires { All NamesIndex names.now }
    ensures ok { IfOk result (λ v. (p : Output) → IndexesGot 0 names.now
        (world (F.disk files.old) (D.state dial.old) p) (Ok v.items) (world (F.disk files.new) (D.state dial.new) p)) }
    ensures err { IfErr result (λ o. (p : Output) → IndexesGot 0 names.now
        (world (F.disk files.old) (D.state dial.old) p) (Err o) (world (F.disk files.new) (D.state dial.new) p)) }
{
    let mut indexes = Vec::new(alloc);
    load_each(alloc, files, dial, names, 0, &mut indexes)?;
    Ok(indexes)
}
