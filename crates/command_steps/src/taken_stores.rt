//! A store that is taken to be written, and given back.

ghost use Rattle.std.specs.Prelude.{◌≡◌, ◌∷◌, [], Ok, Err, IfOk, IfErr, OnOk, OnErr, IsSome};
ghost use Rattle.std.specs.Option.{option_map};
ghost use Rattle.command_steps.specs.AnyStores.{IsGiven, IsKnown, IsUnused, source_faults, source_files, location_in};
ghost use Rattle.command_steps.specs.AnyStores.{with_those};
ghost use Rattle.command_steps.specs.Sources.{DialsStores, storage};
ghost use Rattle.command_steps.specs.Stores.{IsStoreAt, IsTaken, NotReached};
ghost use Rattle.command_steps.specs.TakenStores.{SourceTaken, given_to};
ghost use Rattle.command_steps.specs.Uses.{Uses, folders_among};
ghost use Rattle.command_worlds.specs.Worlds.{Adds, Reads};
ghost use Rattle.dsy_base.specs.Disk.{GivesFolder};
ghost use Rattle.dsy_base.specs.Maps.{at_name};

use crate::any_store::AnyStore;
use crate::sources::server;
use crate::stores::{name_of, not_reached};
use command_outcome::outcome::Outcome;
use command_words::command::Location;
use dir_store::store::DirStore;
use dsy_base::dial::Dial;
use dsy_base::files::Files;
use dsy_base::folder::Folder;
use dsy_base::look::Look;
use std::alloc::Global;

/// Takes the folder of this name as a store.
pub fn take_folder<F: Files>(
    alloc: Global,
    files: &mut F,
    name: &str,
) -> Result<DirStore<F::Folder>, Outcome>
    ensures ok { IfOk result (IsStoreAt F.Folder.files F.Folder.place F.Folder.faults
        (F.disk files.old).folders name.now) }
    ensures known { OnOk result (IsSome ((F.disk files.new).folder_counts name.now)) }
    ensures changed { OnOk result (IsTaken (F.disk files.old) (F.disk files.new) name.now) }
    ensures err { IfErr result (NotReached (F.disk files.old) (F.disk files.new) name.now) }
    ensures kept { OnErr result (Reads (F.disk files.old) (F.disk files.new)) }
    ensures used { Uses [] (name.now ∷ []) (F.disk files.old) (F.disk files.new) }
{
    match files.take_folder(name) {
        Ok(folder) => Ok(DirStore::new(folder)),
        Err(fault) => Err(not_reached(alloc, name, fault)),
    }
}

/// Gives the folder of this name back.
pub fn give_folder<F: Files>(files: &mut F, name: &str, taken: DirStore<F::Folder>)
    requires named { F.Folder.place taken ≡ name.now }
    requires known { IsSome ((F.disk files.old).folder_counts name.now) }
    ensures folders { (F.disk files.new).folders ≡ option_map (λ m. at_name m name.now (F.Folder.files taken))
        (F.disk files.old).folders }
    ensures counts { GivesFolder (F.disk files.old) (F.disk files.new) name.now (F.Folder.faults taken) }
{
    files.give_folder(name, taken.into_inner())
}

/// Takes the store. No server is asked yet: its store gets a dialer of its own.
pub fn take_source<F: Files, D: Dial>(
    alloc: Global,
    files: &mut F,
    dial: &D,
    store: &Location,
) -> Result<AnyStore<F::Folder, D>, Outcome>
    ensures ok { IfOk result (λ s. SourceTaken [] store.now (F.disk files.old) (Ok (source_files F.Folder.files s))
        (F.disk files.new)) }
    ensures changed { OnOk result (Adds (F.disk files.old) (F.disk files.new)) }
    ensures located { IfOk result (λ s. location_in F.Folder.place s ≡ store.now) }
    ensures fresh { IfOk result (λ s. source_faults F.Folder.faults D.state s ≡ 0) }
    ensures unused { IfOk result (IsUnused D.state) }
    ensures known { OnOk result (IsKnown (F.disk files.new).folder_counts store.now) }
    ensures err { IfErr result (λ o. SourceTaken [] store.now (F.disk files.old) (Err o) (F.disk files.new)) }
{
    match store {
        Location::Folder(name) => {
            let folder = take_folder(alloc, files, name.as_str())?;
            Ok(AnyStore::Folder(folder))
        }
        Location::Http { host, port, prefix } => {
            let store = server(alloc, dial, host.as_str(), *port, prefix.as_str())?;
            Ok(AnyStore::Http(store))
        }
    }
}

/// Gives the store back. What a server's store has dialed and counted is joined.
pub fn give_source<F: Files, D: Dial>(
    files: &mut F,
    dial: &mut D,
    store: &Location,
    taken: AnyStore<F::Folder, D>,
)
    requires located { location_in F.Folder.place taken ≡ store.now }
    requires known { IsKnown (F.disk files.old).folder_counts store.now }
    ensures folders { (F.disk files.new).folders
        ≡ given_to store.now (source_files F.Folder.files taken) (F.disk files.old).folders }
    ensures changed { Adds (F.disk files.old) (F.disk files.new) }
    ensures counts { (F.disk files.new).file_counts ≡ (F.disk files.old).file_counts }
    ensures used { Uses [] (folders_among (store.now ∷ [])) (F.disk files.old) (F.disk files.new) }
    ensures dialed { DialsStores (store.now ∷ []) (D.state dial.old) (D.state dial.new) }
    ensures ended { (D.state dial.new).ended ≡ with_those D.state (D.state dial.old).ended taken }
    ensures given { IsGiven F.Folder.place F.Folder.faults D.state
        (storage (F.disk files.old) (D.state dial.old)) (storage (F.disk files.new) (D.state dial.new)) taken }
{
    match taken {
        AnyStore::Folder(folder) => give_folder(files, name_of(store), folder),
        AnyStore::Http(server) => dial.join(server.into_dial()),
    }
}
