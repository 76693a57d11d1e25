//! `prune -s STORE -y INDEX..`: STORE keeps no chunk but those that the indexes list.

ghost use Rattle.std.specs.Prelude.{◌≡◌, ℕ, List, All, IfErr, IfOk, IsSome};
ghost use Rattle.command_words.specs.Locations.{NamesIndex};
ghost use Rattle.command_worlds.specs.Worlds.{world};
ghost use Rattle.store_commands.specs.Prune.{PruneEnds, StorePruned};
ghost use Rattle.dsy_base.specs.Disk.{Output};
ghost use Rattle.verify_tool.specs.Pruning.{has_id, is_listed_in};

use caibx_codec::index::Index;
use chunk_store::id::ChunkId;
use command_indexes::load::load_indexes;
use command_outcome::outcome::Outcome;
use command_steps::taken_stores::{give_folder, take_folder};
use command_words::command::Names;
use dir_store::store::DirStore;
use dsy_base::dial::Dial;
use dsy_base::fault::IoFault;
use dsy_base::files::Files;
use dsy_base::folder::Folder;
use dsy_base::look::Look;
use dsy_base::name::Name;
use std::alloc::Global;
use std::collections::BTreeSet;
use verify_tool::prune::{listed_ids, prune};

// The ids that the indexes list, which stay.
fn kept_ids(alloc: Global, listed: &[Index]) -> Result<BTreeSet<ChunkId>, Outcome>
    ensures ok { IfOk result (λ s. (q : List ℕ) → has_id s q ≡ is_listed_in listed.now q) }
    ensures err { IfErr result (λ o. o ≡ Outcome.Memory) }
{
    match listed_ids(alloc, listed) {
        Ok(keep) => Ok(keep),
        Err(_) => Err(Outcome::Memory),
    }
}

// Prunes the store whose folder was taken. The folder is given back, whatever the answer is.
fn prune_taken<F: Files>(
    files: &mut F,
    store: &str,
    mut taken: DirStore<F::Folder>,
    keep: &BTreeSet<ChunkId>,
) -> Result<(), Outcome>
    requires folder { IsSome ((F.disk files.old).folder_counts store.now) }
    requires named { F.Folder.place taken ≡ store.now }
    requires fresh { F.Folder.faults taken ≡ 0 }
    ensures { StorePruned (has_id keep.now) store.now (F.Folder.files taken)
        (F.disk files.old) result (F.disk files.new) }
{
    let pruned = prune(&mut taken, keep);
    give_folder(files, store, taken);
    match pruned {
        Ok(_) => Ok(()),
        Err(IoFault::Failed) => Err(Outcome::StoreFault { store: 0 }),
        Err(IoFault::Memory) => Err(Outcome::Memory),
    }
}

/// Removes the chunk files of STORE that no INDEX lists, and temporary files, once all indexes have been read.
pub fn prune_folder<F: Files, D: Dial>(
    alloc: Global,
    files: &mut F,
    dial: &mut D,
    store: Name,
    indexes: Names,
) -> Result<(), Outcome>
    requires { All NamesIndex indexes }
    ensures ends { (p : Output) → PruneEnds store indexes (world (F.disk files.old) (D.state dial.old) p) result
        (world (F.disk files.new) (D.state dial.new) p) }
{
    let listed = load_indexes(alloc, files, dial, indexes.as_slice())?;
    let keep = kept_ids(alloc, &listed)?;
    let taken = take_folder(alloc, files, store.as_str())?;
    prune_taken(files, store.as_str(), taken, &keep)?;
    Ok(())
}
