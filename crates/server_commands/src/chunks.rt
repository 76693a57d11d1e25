//! `chunk-server -s STORE -l HOST:PORT -w -n N`: the chunks of STORE over connections. Where N is 1 they are served one
//! after the other, else each in a thread of its own.

ghost use Rattle.std.specs.Prelude.{◌≡◌, ◌==◌, false, true, IsSome};
ghost use Rattle.command_worlds.specs.Worlds.{world};
ghost use Rattle.dsy_base.specs.Disk.{Output};
ghost use Rattle.dsy_base.specs.Links.{DialState};
ghost use Rattle.server_commands.specs.ChunkServing.{ChunkServerEnds, ChunksServed, answer_of_sharing};
ghost use Rattle.server_commands.specs.Serving.{heard};

use crate::address::Address;
use crate::in_turn::{ended, serve_in_turn};
use chunk_server::shelf_service::ShelfService;
use chunk_server::state::ShelfState;
use chunk_store::id::DigestKind;
use command_outcome::outcome::Outcome;
use command_steps::taken_stores::{give_folder, take_folder};
use dir_store::store::DirStore;
use dsy_base::files::Files;
use dsy_base::folder::Folder;
use dsy_base::listen::Listen;
use dsy_base::look::Look;
use dsy_base::name::Name;
use locked_shelf::serve_all::AllServed;
use locked_shelf::serve_folder::{ShelfRules, serve_folder};
use std::alloc::Global;
use std::sync::Wait;
use std::thread::Threads;

/// How chunks are served: at which address, which digest names them, whether they may be put, and by how many workers.
#[derive(Drop)]
pub struct ChunkService {
    pub address: Address,
    pub kind: DigestKind,
    pub writable: bool,
    pub workers: u32,
}

// Serves the store whose folder was taken, one connection after the other. The folder is always given back.
fn serve_taken<F: Files, L: Listen>(
    alloc: Global,
    files: &mut F,
    listen: &mut L,
    store: &str,
    taken: DirStore<F::Folder>,
    service: &ChunkService,
) -> Result<(), Outcome>
    requires folder { IsSome ((F.disk files.old).folder_counts store.now) }
    requires named { F.Folder.place taken ≡ store.now }
    requires fresh { F.Folder.faults taken ≡ 0 }
    ensures { ChunksServed service.now.kind true (heard F.Folder.never_fails (L.state listen.old) (L.state listen.new))
        service.now.writable store.now (F.Folder.files taken) (F.disk files.old) result (F.disk files.new) }
{
    let mut shelf = match ShelfState::with_kind(
        alloc,
        service.kind,
        taken.into_inner(),
        service.writable,
    ) {
        Ok(shelf) => shelf,
        Err((folder, _)) => {
            give_folder(files, store, DirStore::new(folder));
            return Err(Outcome::Memory);
        }
    };
    let served = serve_in_turn::<L, ShelfService<ShelfState<F::Folder>>>(
        alloc,
        listen,
        &service.address,
        &mut shelf,
    );
    give_folder(files, store, DirStore::new(shelf.into_inner()));
    ended(served)
}

/// How a command ends that serves by threads.
pub fn all_ended(served: AllServed) -> Result<(), Outcome>
    ensures { result ≡ answer_of_sharing served }
{
    match served {
        AllServed::Ended => Ok(()),
        AllServed::ListenFault => Err(Outcome::ListenFault),
        AllServed::Memory => Err(Outcome::Memory),
        AllServed::Short => Err(Outcome::Memory),
    }
}

// Serves the store whose folder was taken, each connection in a thread of its own. The folder is always given back.
fn share_taken<R: Threads + Wait + Sync, F: Files, L: Listen>(
    rt: &R,
    alloc: Global,
    files: &mut F,
    listen: &mut L,
    store: &str,
    taken: DirStore<F::Folder>,
    service: &ChunkService,
) -> Result<(), Outcome>
where
    F::Folder: Send,
    L::Link: Send,
    requires folder { IsSome ((F.disk files.old).folder_counts store.now) }
    requires named { F.Folder.place taken ≡ store.now }
    ensures { ChunksServed service.now.kind false (heard F.Folder.never_fails (L.state listen.old) (L.state listen.new))
        service.now.writable store.now (F.Folder.files taken) (F.disk files.old) result (F.disk files.new) }
{
    let rules = ShelfRules {
        kind: service.kind,
        writable: service.writable,
    };
    let (folder, served) = serve_folder(
        rt,
        alloc,
        listen,
        service.address.host.as_str(),
        service.address.port,
        taken.into_inner(),
        rules,
    );
    give_folder(files, store, DirStore::new(folder));
    all_ended(served)
}

// Serves the store whose folder was taken, by as many workers as the service has.
fn serve_by<R: Threads + Wait + Sync, F: Files, L: Listen>(
    rt: &R,
    alloc: Global,
    files: &mut F,
    listen: &mut L,
    store: &str,
    taken: DirStore<F::Folder>,
    service: &ChunkService,
) -> Result<(), Outcome>
where
    F::Folder: Send,
    L::Link: Send,
    requires folder { IsSome ((F.disk files.old).folder_counts store.now) }
    requires named { F.Folder.place taken ≡ store.now }
    requires fresh { F.Folder.faults taken ≡ 0 }
    ensures { ChunksServed service.now.kind (service.now.workers == 1)
        (heard F.Folder.never_fails (L.state listen.old) (L.state listen.new)) service.now.writable store.now
        (F.Folder.files taken) (F.disk files.old) result (F.disk files.new) }
{
    if service.workers == 1 {
        serve_taken(alloc, files, listen, store, taken, service)
    } else {
        share_taken(rt, alloc, files, listen, store, taken, service)
    }
}

/// Serves the chunks of STORE over the connections that come at an address, until no more come.
pub fn chunk_server<R: Threads + Wait + Sync, F: Files, L: Listen>(
    rt: &R,
    alloc: Global,
    files: &mut F,
    listen: &mut L,
    store: Name,
    service: ChunkService,
) -> Result<(), Outcome>
where
    F::Folder: Send,
    L::Link: Send,
    ensures ends { (k : DialState) (p : Output) →
        ChunkServerEnds service.kind (heard F.Folder.never_fails (L.state listen.old) (L.state listen.new)) store
        service.writable service.workers (world (F.disk files.old) k p) result (world (F.disk files.new) k p) }
{
    let taken = take_folder(alloc, files, store.as_str())?;
    serve_by(rt, alloc, files, listen, store.as_str(), taken, &service)?;
    Ok(())
}
