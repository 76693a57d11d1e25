//! Stores that are opened in order, and given back.

ghost use Rattle.std.specs.Prelude.{◌≡◌, ℕ, List, ◌∷◌, [], ◌++◌, map, All, IfSome, IfOk, IfErr, OnOk, OnErr};
ghost use Rattle.std.specs.List.{fold};
ghost use Rattle.command_steps.specs.AnyStores.{IsGiven, IsKnown, IsUnused, source_faults, source_files, location_in};
ghost use Rattle.command_steps.specs.AnyStores.{with_those};
ghost use Rattle.command_steps.specs.Sources.{AllThere, ConsultsStores, FirstUnreached, IsSourceAt, OpensSources};
ghost use Rattle.command_steps.specs.Sources.{Unreached, server_at, storage, location_files};
ghost use Rattle.command_steps.specs.Uses.{IsNoneOf, Uses, folders_among};
ghost use Rattle.command_worlds.specs.Worlds.{Reads};
ghost use Rattle.dsy_base.specs.Counts.{raised};

use crate::any_store::AnyStore;
use crate::stores::not_reached;
use command_outcome::outcome::Outcome;
use command_words::command::Location;
use dir_store::store::DirStore;
use dsy_base::dial::Dial;
use dsy_base::files::Files;
use dsy_base::look::Look;
use dsy_base::name::Name;
use http_read::store::HttpStore;
use std::alloc::Global;

// The server as a store, with a dialer of its own. No connection is made yet.
pub(crate) fn server<D: Dial>(
    alloc: Global,
    dial: &D,
    host: &str,
    port: u16,
    prefix: &str,
) -> Result<HttpStore<D>, Outcome>
    ensures ok { IfOk result (λ r. (r.server ≡ server_at host.now port prefix.now)
        × (raised (D.state r.dial).faults r.refused ≡ 0)) }
    ensures unused { IfOk result (λ r. IfSome (D.state r.dial).ended (λ ended. ended ≡ [])) }
    ensures err { IfErr result (λ o. o ≡ Outcome.Memory) }
{
    let (Ok(host), Ok(prefix)) = (Name::of(alloc, host), Name::of(alloc, prefix)) else {
        return Err(Outcome::Memory);
    };
    match dial.fork() {
        Ok(dial) => Ok(HttpStore::new(alloc, dial, host, port, prefix)),
        Err(_) => Err(Outcome::Memory),
    }
}

// Opens one of them.
fn open<F: Files, D: Dial>(
    alloc: Global,
    files: &mut F,
    dial: &D,
    store: &Location,
) -> Result<AnyStore<F::Look, D>, Outcome>
    ensures ok { IfOk result (IsSourceAt (source_files F.Look.files) (location_in F.Look.place)
        (source_faults F.Look.faults D.state) (F.disk files.old).folders store.now) }
    ensures unused { IfOk result (IsUnused D.state) }
    ensures known { IfOk result (λ s. IsKnown (F.disk files.new).folder_counts (location_in F.Look.place s)) }
    ensures err { IfErr result (Unreached (F.disk files.old) (F.disk files.new) store.now) }
    ensures kept { Reads (F.disk files.old) (F.disk files.new) }
    ensures used { Uses [] (folders_among (store.now ∷ [])) (F.disk files.old) (F.disk files.new) }
{
    match store {
        Location::Folder(name) => match files.look(name.as_str()) {
            Ok(look) => Ok(AnyStore::Folder(DirStore::new(look))),
            Err(fault) => Err(not_reached(alloc, name.as_str(), fault)),
        },
        Location::Http { host, port, prefix } => {
            let store = server(alloc, dial, host.as_str(), *port, prefix.as_str())?;
            Ok(AnyStore::Http(store))
        }
    }
}

// Gives one back. What a server's store has dialed and counted is joined.
fn close<F: Files, D: Dial>(files: &mut F, dial: &mut D, store: AnyStore<F::Look, D>)
    requires known { IsKnown (F.disk files.old).folder_counts (location_in F.Look.place store) }
    ensures kept { ConsultsStores (location_in F.Look.place store ∷ [])
        (storage (F.disk files.old) (D.state dial.old)) (storage (F.disk files.new) (D.state dial.new)) }
    ensures ended { (D.state dial.new).ended ≡ with_those D.state (D.state dial.old).ended store }
    ensures counts { (F.disk files.new).file_counts ≡ (F.disk files.old).file_counts }
    ensures used { Uses [] (folders_among (location_in F.Look.place store ∷ [])) (F.disk files.old) (F.disk files.new) }
    ensures given { IsGiven F.Look.place F.Look.faults D.state
        (storage (F.disk files.old) (D.state dial.old)) (storage (F.disk files.new) (D.state dial.new)) store }
{
    match store {
        AnyStore::Folder(store) => files.end_look(store.into_inner()),
        AnyStore::Http(store) => dial.join(store.into_dial()),
    }
}

// Lets one go that was never asked.
fn drop_unasked<F: Files, D: Dial>(files: &mut F, store: AnyStore<F::Look, D>)
    requires known { IsKnown (F.disk files.old).folder_counts (location_in F.Look.place store) }
    ensures kept { Reads (F.disk files.old) (F.disk files.new) }
    ensures used { Uses [] (folders_among (location_in F.Look.place store ∷ [])) (F.disk files.old) (F.disk files.new) }
{
    match store {
        AnyStore::Folder(store) => files.end_look(store.into_inner()),
        AnyStore::Http(_) => (),
    }
}

/// Lets all of them go that were never asked.
pub fn drop_sources<F: Files, D: Dial>(files: &mut F, mut stores: Vec<AnyStore<F::Look, D>>)
    requires known { All (IsKnown (F.disk files.old).folder_counts) (map (location_in F.Look.place) stores.items) }
    ensures kept { Reads (F.disk files.old) (F.disk files.new) }
    ensures used { Uses [] (folders_among (map (location_in F.Look.place) stores.items)) (F.disk files.old)
        (F.disk files.new) }
{
    match stores.pop() {
        Some(store) => {
            drop_unasked(files, store);
            drop_sources(files, stores)
        }
        None => (),
    }
}

// Appends the store, or lets it go.
fn keep<F: Files, D: Dial>(
    files: &mut F,
    store: AnyStore<F::Look, D>,
    stores: &mut Vec<AnyStore<F::Look, D>>,
) -> Result<(), Outcome>
    requires known { IsKnown (F.disk files.old).folder_counts (location_in F.Look.place store) }
    ensures ok { OnOk result (stores.new.items ≡ stores.old.items ++ store ∷ []) }
    ensures err { OnErr result (stores.new.items ≡ stores.old.items) }
    ensures only { IfErr result (λ o. o ≡ Outcome.Memory) }
    ensures kept { Reads (F.disk files.old) (F.disk files.new) }
    ensures used { Uses [] (folders_among (location_in F.Look.place store ∷ [])) (F.disk files.old) (F.disk files.new) }
{
    match stores.push(store) {
        Ok(()) => Ok(()),
        Err(full) => {
            drop_unasked(files, full.value);
            Err(Outcome::Memory)
        }
    }
}

// Opens the rest of them.
fn open_each<F: Files, D: Dial>(
    alloc: Global,
    files: &mut F,
    dial: &D,
    names: &[Location],
    stores: &mut Vec<AnyStore<F::Look, D>>,
) -> Result<(), Outcome>
    requires known { All (IsKnown (F.disk files.old).folder_counts)
        (map (location_in F.Look.place) stores.old.items) }
    requires unused { All (IsUnused D.state) stores.old.items }
    ensures ok { OnOk result (OpensSources (source_files F.Look.files) (location_in F.Look.place)
        (source_faults F.Look.faults D.state) (F.disk files.old).folders names.now stores.old.items stores.new.items) }
    ensures err { IfErr result (FirstUnreached (F.disk files.old) (F.disk files.new) names.now) }
    ensures known { All (IsKnown (F.disk files.new).folder_counts)
        (map (location_in F.Look.place) stores.new.items) }
    ensures unused { All (IsUnused D.state) stores.new.items }
    ensures kept { Reads (F.disk files.old) (F.disk files.new) }
    ensures used { Uses [] (folders_among (names.now)) (F.disk files.old) (F.disk files.new) }
    ensures among { (q : List ℕ) → IsNoneOf q (folders_among (map (location_in F.Look.place) stores.old.items)) →
        IsNoneOf q (folders_among names.now) →
        IsNoneOf q (folders_among (map (location_in F.Look.place) stores.new.items)) }
{
    let Some((first, rest)) = names.split_first() else {
        return Ok(());
    };
    let store = open(alloc, files, dial, first)?;
    keep(files, store, stores)?;
    open_each(alloc, files, dial, rest, stores)?;
    Ok(())
}

/// Opens the stores in their order. Where one can't be opened, those before it are given back. No server is asked yet:
/// each gets a dialer of its own.
pub fn open_sources<F: Files, D: Dial>(
    alloc: Global,
    files: &mut F,
    dial: &D,
    names: &[Location],
) -> Result<Vec<AnyStore<F::Look, D>>, Outcome>
    ensures there { OnOk result (AllThere (F.disk files.old) names.now) }
    ensures found { IfOk result (λ v. IfSome (F.disk files.old).folders (λ m.
        map (source_files F.Look.files) v.items ≡ map (location_files m) names.now)) }
    ensures located { IfOk result (λ v. map (location_in F.Look.place) v.items ≡ names.now) }
    ensures fresh { IfOk result (λ v. map (source_faults F.Look.faults D.state) v.items ≡ map (λ q. 0) names.now) }
    ensures unused { IfOk result (λ v. All (IsUnused D.state) v.items) }
    ensures known { OnOk result (All (IsKnown (F.disk files.new).folder_counts) names.now) }
    ensures err { IfErr result (FirstUnreached (F.disk files.old) (F.disk files.new) names.now) }
    ensures kept { Reads (F.disk files.old) (F.disk files.new) }
    ensures used { Uses [] (folders_among (names.now)) (F.disk files.old) (F.disk files.new) }
{
    let mut stores = Vec::new(alloc);
    match open_each(alloc, files, dial, names, &mut stores) {
        Ok(()) => Ok(stores),
        Err(outcome) => {
            drop_sources(files, stores);
            Err(outcome)
        }
    }
}

/// Gives all of them back, and joins what servers' stores have dialed, in the order of the stores.
pub fn close_sources<F: Files, D: Dial>(
    files: &mut F,
    dial: &mut D,
    mut stores: Vec<AnyStore<F::Look, D>>,
)
    requires known { All (IsKnown (F.disk files.old).folder_counts) (map (location_in F.Look.place) stores.items) }
    ensures kept { ConsultsStores (map (location_in F.Look.place) stores.items)
        (storage (F.disk files.old) (D.state dial.old)) (storage (F.disk files.new) (D.state dial.new)) }
    ensures ended { (D.state dial.new).ended
        ≡ fold (with_those D.state) (D.state dial.old).ended stores.items }
    ensures counts { (F.disk files.new).file_counts ≡ (F.disk files.old).file_counts }
    ensures used { Uses [] (folders_among (map (location_in F.Look.place) stores.items)) (F.disk files.old)
        (F.disk files.new) }
    ensures given { All (IsGiven F.Look.place F.Look.faults D.state
        (storage (F.disk files.old) (D.state dial.old)) (storage (F.disk files.new) (D.state dial.new))) stores.items }
{
    match stores.pop() {
        Some(store) => {
            close_sources(files, dial, stores);
            close(files, dial, store)
        }
        None => (),
    }
}
