//! Each connection that comes is served by a thread of its own, from a cache before stores.

ghost use Rattle.std.specs.Prelude.{◌≡◌, ◌≢◌, ◌≤◌, [], Some};
ghost use Rattle.chunk_store.specs.Kinds.{kind_named};
ghost use Rattle.dsy_base.specs.Counts.{Rose};
ghost use Rattle.locked_proxy.specs.Replies.{EndsThrough};
ghost use Rattle.locked_shelf.specs.Listening.{ServesAll, ServesSome};

use crate::proxy_name::ProxyName;
use crate::shelf::ProxyShelf;
use chunk_store::store::Store;
use dsy_base::folder::Folder;
use dsy_base::listen::Listen;
use locked_shelf::serve_all::{AllServed, serve_all};
use std::alloc::Global;
use std::sync::Wait;
use std::thread::Threads;

/// Serves each connection that comes by a thread of its own, until no more come. When it answers, all of them have
/// ended. A call that fails on a connection ends it alone.
pub fn serve_proxy<
    L: Listen,
    F: Folder + Send,
    S: Store + Send,
    N: ProxyName + Send,
    R: Threads + Wait + Sync,
>(rt: &R, alloc: Global, listen: &mut L, shelf: &ProxyShelf<F, S, N>) -> AllServed
where
    L::Link: Send,
    ensures end { result ≡ AllServed.Ended → (L.state listen.new).coming ≡ Some [] }
    ensures served { result ≢ AllServed.Short → result ≢ AllServed.Memory →
        ServesAll (EndsThrough (kind_named F.kind) F.opening N.maps F.never_fails S.never_fails L.Link.tells)
        (L.state listen.old) (L.state listen.new) }
    ensures lacking { ServesSome (EndsThrough (kind_named F.kind) F.opening N.maps F.never_fails S.never_fails
        L.Link.tells) (L.state listen.old) (L.state listen.new) }
    ensures cause { result ≡ AllServed.ListenFault → Rose (L.state listen.old).faults (L.state listen.new).faults }
    ensures unfailed { result ≡ AllServed.Memory → (L.state listen.new).faults ≡ (L.state listen.old).faults }
    ensures faults { (L.state listen.old).faults ≤ (L.state listen.new).faults }
{
    serve_all(rt, alloc, listen, shelf.locks(), false)
}
