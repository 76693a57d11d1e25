//! `index-server -s FOLDER -l HOST:PORT -w`: the indexes of FOLDER over connections, one after the other.

ghost use Rattle.std.specs.Prelude.{◌≡◌, IsSome};
ghost use Rattle.dsy_base.specs.Disk.{Output};
ghost use Rattle.dsy_base.specs.Links.{DialState};
ghost use Rattle.command_worlds.specs.Worlds.{world};
ghost use Rattle.server_commands.specs.IndexServing.{IndexServerEnds, IndexesServed};
ghost use Rattle.server_commands.specs.Serving.{heard};

use crate::address::Address;
use crate::in_turn::{ended, serve_in_turn};
use command_outcome::outcome::Outcome;
use command_steps::taken_stores::{give_folder, take_folder};
use dir_store::store::DirStore;
use dsy_base::files::Files;
use dsy_base::folder::Folder;
use dsy_base::listen::Listen;
use dsy_base::look::Look;
use dsy_base::name::Name;
use index_server::index_service::IndexService;
use index_server::state::IndexState;
use std::alloc::Global;

// Serves the folder that was taken. It is always given back.
fn serve_taken<F: Files, L: Listen>(
    alloc: Global,
    files: &mut F,
    listen: &mut L,
    folder: &str,
    taken: DirStore<F::Folder>,
    address: &Address,
    writable: bool,
) -> Result<(), Outcome>
    requires folder { IsSome ((F.disk files.old).folder_counts folder.now) }
    requires named { F.Folder.place taken ≡ folder.now }
    requires fresh { F.Folder.faults taken ≡ 0 }
    ensures { IndexesServed (heard F.Folder.never_fails (L.state listen.old) (L.state listen.new)) writable folder.now
        (F.Folder.files taken) (F.disk files.old) result (F.disk files.new) }
{
    let mut desk = IndexState::new(alloc, taken.into_inner(), writable);
    let served = serve_in_turn::<L, IndexService<F::Folder>>(alloc, listen, address, &mut desk);
    give_folder(files, folder, DirStore::new(desk.into_inner()));
    ended(served)
}

/// Serves the indexes of FOLDER over the connections that come at an address, until no more come. With `writable`
/// indexes may be put.
pub fn index_server<F: Files, L: Listen>(
    alloc: Global,
    files: &mut F,
    listen: &mut L,
    folder: Name,
    address: Address,
    writable: bool,
) -> Result<(), Outcome>
    ensures ends { (k : DialState) (p : Output) →
        IndexServerEnds (heard F.Folder.never_fails (L.state listen.old) (L.state listen.new)) folder writable
        (world (F.disk files.old) k p) result (world (F.disk files.new) k p) }
{
    let taken = take_folder(alloc, files, folder.as_str())?;
    serve_taken(
        alloc,
        files,
        listen,
        folder.as_str(),
        taken,
        &address,
        writable,
    )?;
    Ok(())
}
