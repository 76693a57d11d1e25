//! The chunks of a folder over connections: the type of the folder names what it began with, and the digest of its
//! chunks.

ghost use Rattle.std.specs.Prelude.{◌≡◌, ◌≢◌, ◌≤◌, [], IfSome, Some};
ghost use Rattle.chunk_store.specs.Kinds.{kind_named};
ghost use Rattle.dsy_base.specs.Counts.{Rose};
ghost use Rattle.locked_shelf.specs.Endings.{EndsOver};
ghost use Rattle.locked_shelf.specs.Keepings.{KeepsOpening};
ghost use Rattle.locked_shelf.specs.Listening.{ServesAll, ServesSome};

use crate::door::LockedShelf;
use crate::serve_all::{AllServed, serve_all};
use chunk_server::state::ShelfState;
use chunk_store::id::DigestKind;
use dsy_base::fault::IoFault;
use dsy_base::folder::Folder;
use dsy_base::listen::Listen;
use named_folders::named_folder::{FolderName, NamedFolder};
use std::alloc::Global;
use std::marker::Brand;
use std::sync::Wait;
use std::thread::Threads;

/// How the chunks of a folder are served: which digest names them, and whether chunks may be put.
#[derive(Clone, Copy, Debug, PartialEq, Eq)]
pub struct ShelfRules {
    pub kind: DigestKind,
    pub writable: bool,
}

// Serves a folder whose type names its files and the digest of its chunks.
fn serve_named<L: Listen, F: Folder + Send, N: FolderName + Send, R: Threads + Wait + Sync>(
    rt: &R,
    alloc: Global,
    listen: &mut L,
    folder: F,
    rules: ShelfRules,
) -> (F, AllServed)
where
    L::Link: Send,
    requires opening { IfSome N.opening (λ first. F.files folder ≡ Some first) }
    requires place { F.place folder ≡ N.place }
    requires faults { N.faults ≤ F.faults folder }
    requires kind { rules.kind ≡ kind_named N.kind }
    ensures kept { IfSome N.opening (λ first. KeepsOpening (kind_named N.kind) first (F.files result.0)) }
    ensures place { F.place result.0 ≡ N.place }
    ensures end { result.1 ≡ AllServed.Ended → (L.state listen.new).coming ≡ Some [] }
    ensures served { result.1 ≢ AllServed.Short → result.1 ≢ AllServed.Memory →
        ServesAll (EndsOver (kind_named N.kind) N.opening F.never_fails rules.writable L.Link.tells)
        (L.state listen.old) (L.state listen.new) }
    ensures lacking { ServesSome (EndsOver (kind_named N.kind) N.opening F.never_fails rules.writable L.Link.tells)
        (L.state listen.old) (L.state listen.new) }
    ensures cause { result.1 ≡ AllServed.ListenFault → Rose (L.state listen.old).faults (L.state listen.new).faults }
    ensures unfailed { result.1 ≡ AllServed.Memory → (L.state listen.new).faults ≡ (L.state listen.old).faults }
    ensures faults { (L.state listen.old).faults ≤ (L.state listen.new).faults }
{
    let named: NamedFolder<F, N> = NamedFolder::new(folder);
    let state = match ShelfState::with_kind(alloc, rules.kind, named, rules.writable) {
        Ok(state) => state,
        Err((named, _)) => return (named.into_inner(), AllServed::Memory),
    };
    let shelf = LockedShelf::new(state);
    let served = serve_all(rt, alloc, listen, &shelf, false);
    (shelf.into_inner().into_inner().into_inner(), served)
}

/// Listens at an address, and serves the chunks of a folder over each connection that comes, by a thread for each,
/// until no more come. The folder is given back, with right chunks added or put in the place of others. `ListenFault`:
/// it can't listen there, or the next connection can't be taken.
pub fn serve_folder<L: Listen, F: Folder + Send, R: Threads + Wait + Sync>(
    rt: &R,
    alloc: Global,
    listen: &mut L,
    host: &str,
    port: u16,
    folder: F,
    rules: ShelfRules,
) -> (F, AllServed)
where
    L::Link: Send,
    ensures kept { IfSome (F.files folder) (λ first. KeepsOpening rules.kind first (F.files result.0)) }
    ensures place { F.place result.0 ≡ F.place folder }
    ensures end { result.1 ≡ AllServed.Ended → (L.state listen.new).coming ≡ Some [] }
    ensures served { result.1 ≢ AllServed.Short → result.1 ≢ AllServed.Memory →
        ServesAll (EndsOver rules.kind (F.files folder) F.never_fails rules.writable L.Link.tells)
        (L.state listen.old) (L.state listen.new) }
    ensures lacking { ServesSome (EndsOver rules.kind (F.files folder) F.never_fails rules.writable L.Link.tells)
        (L.state listen.old) (L.state listen.new) }
    ensures cause { result.1 ≡ AllServed.ListenFault → Rose (L.state listen.old).faults (L.state listen.new).faults }
    ensures unfailed { result.1 ≡ AllServed.Memory → (L.state listen.new).faults ≡ (L.state listen.old).faults }
{
    match listen.bind(host, port) {
        Ok(()) => serve_named::<L, F, Brand, R>(rt, alloc, listen, folder, rules),
        Err(IoFault::Failed) => (folder, AllServed::ListenFault),
        Err(IoFault::Memory) => (folder, AllServed::Memory),
    }
}
