//! Pruning a folder store: chunks that aren't kept go, and temporary files. Names and ids are bytes.

ghost use Rattle.std.specs.Prelude.{◌≡◌, ◌||◌, ℕ, false, List, IfOk, IfSome, OnOk, OnErr};
ghost use Rattle.std.specs.List.{All, filter};
ghost use Rattle.std.specs.Option.{option_map};
ghost use Rattle.std.specs.Set.{is_member};
ghost use Rattle.std.specs.Str.{bytes_eq};
ghost use Rattle.dir_store.specs.Names.{is_stranger};
ghost use Rattle.dir_store.specs.Puts.{Removes};
ghost use Rattle.dsy_base.specs.Counts.{CountsFaults};
ghost use Rattle.verify_tool.specs.Pruning.{CountsVictims, KeepsRest, RemovesFront, StopsPruning};
ghost use Rattle.verify_tool.specs.Texts.{ids_of};
ghost use Rattle.verify_tool.specs.Pruning.{has_id, is_listed_in, is_victim, pruned, without};

use caibx_codec::index::Index;
use chunk_store::id::ChunkId;
use dir_store::laws::chunk_names;
use dir_store::names::{id_at_path, is_temporary};
use dir_store::store::DirStore;
use dsy_base::fault::IoFault;
use dsy_base::folder::Folder;
use dsy_base::name::Name;
use std::alloc::{AllocError, Global};
use std::collections::BTreeSet;

// Whether the id is in the set.
fn has_id(keep: &BTreeSet<ChunkId>, id: &ChunkId) -> bool
    ensures value { result ≡ has_id keep.now id.now.0 }
{
    keep.contains(id)
}

// Whether the file of this name goes.
fn is_victim(name: &str, keep: &BTreeSet<ChunkId>) -> bool
    ensures value { result ≡ is_victim (has_id keep.now) name.now }
{
    if is_temporary(name) {
        return true;
    }
    match id_at_path(name) {
        Some(id) => !has_id(keep, &id),
        None => false,
    }
}

// Leaves the names of the files that go.
fn leave_victims(names: &mut Vec<Name>, keep: &BTreeSet<ChunkId>)
    ensures value { names.new.items ≡ filter (is_victim (has_id keep.now)) names.old.items }
{
    names.retain(|name| is_victim(name.as_str(), keep));
}

// Removes a chunk's or a temporary file.
fn remove_file<F: Folder>(store: &mut DirStore<F>, name: &str) -> Result<bool, IoFault>
    requires named { is_stranger name.now ≡ false }
    ensures ok { OnOk result (Removes name.now (F.files store.old) (F.files store.new)) }
    ensures err { OnErr result (F.files store.new ≡ F.files store.old) }
    ensures place { F.place store.new ≡ F.place store.old }
    ensures faults { CountsFaults IoFault.Failed IoFault.Memory (F.faults store.old) (F.faults store.new) result }
{
    chunk_names();
    match id_at_path(name) {
        Some(id) => store.remove(&id),
        None => store.remove_temporary(name),
    }
}

// Removes the files of these names in order, up to the first call that fails.
fn remove_files<F: Folder>(store: &mut DirStore<F>, names: &[Name]) -> Result<(), IoFault>
    requires named { All (λ q. is_stranger q ≡ false) names.now }
    ensures ok { OnOk result (F.files store.new ≡ option_map (without names.now) (F.files store.old)) }
    ensures err { OnErr result (RemovesFront names.now (F.files store.old) (F.files store.new)) }
    ensures place { F.place store.new ≡ F.place store.old }
    ensures faults { CountsFaults IoFault.Failed IoFault.Memory (F.faults store.old) (F.faults store.new) result }
{
    for name in names {
        match remove_file(store, name.as_str()) {
            Ok(_) => {}
            Err(fault) => return Err(fault),
        }
    }
    Ok(())
}

// Adds the ids that an index lists.
fn add_ids(keep: &mut BTreeSet<ChunkId>, index: &Index) -> Result<(), AllocError>
    ensures value { OnOk result ((q : List ℕ) → has_id keep.new q
        ≡ (has_id keep.old q || is_member bytes_eq (ids_of index.now) q)) }
{
    for i in 0..index.count() {
        keep.insert(index.id(i))?;
    }
    Ok(())
}

/// The ids that the indexes list, all indexes together.
pub fn listed_ids(alloc: Global, indexes: &[Index]) -> Result<BTreeSet<ChunkId>, AllocError>
    ensures value { IfOk result (λ s. (q : List ℕ) → has_id s q ≡ is_listed_in indexes.now q) }
{
    let mut keep = BTreeSet::new(alloc);
    for index in indexes {
        add_ids(&mut keep, index)?;
    }
    Ok(keep)
}

/// Removes the file of each chunk that isn't kept, and each temporary file, in the order of their names, up to the
/// first call that fails. Answers how many went. The folder is listed once.
pub fn prune<F: Folder>(store: &mut DirStore<F>, keep: &BTreeSet<ChunkId>) -> Result<u64, IoFault>
    ensures ok { OnOk result (F.files store.new ≡ option_map (pruned (has_id keep.now)) (F.files store.old)) }
    ensures value { IfOk result (λ n. IfSome (F.files store.old) (CountsVictims (has_id keep.now) n)) }
    ensures err { OnErr result (StopsPruning (has_id keep.now) (F.files store.old) (F.files store.new)) }
    ensures kept { KeepsRest (has_id keep.now) (F.files store.old) (F.files store.new) }
    ensures place { F.place store.new ≡ F.place store.old }
    ensures faults { CountsFaults IoFault.Failed IoFault.Memory (F.faults store.old) (F.faults store.new) result }
{
    let mut names = store.names()?;
    leave_victims(&mut names, keep);
    match remove_files(store, &names) {
        Ok(()) => Ok(names.len() as u64),
        Err(fault) => Err(fault),
    }
}
