//! A connection to a server of indexes is served to its end.

ghost use Rattle.std.specs.Prelude.{◌≡◌, ◌≢◌, ◌≤◌, IfSome};
ghost use Rattle.dsy_base.specs.Counts.{Rose};
ghost use Rattle.http_serve.specs.Streams.{given_in};
ghost use Rattle.http_serve.specs.Turns.{Cut, Lacking, Served as ServedWhole};
ghost use Rattle.index_server.specs.Answers.{index_folder};
ghost use Rattle.index_server.specs.Talks.{index_protocol};

use crate::index_service::IndexService;
use crate::state::IndexState;
use dsy_base::folder::Folder;
use dsy_base::link::Link;
use http_serve::connection::{Served, serve_connection};
use std::alloc::Global;

/// Serves a connection that is new to its end: each request is answered in the order in which they come. A request
/// that is refused, or whose head has no end within 16,384 bytes (431), is answered without the folder, and the
/// connection ends. So it does, without a reply, where the bytes end before a request does. `LinkFault`: a call on the
/// connection has failed.
pub fn serve_index<K: Link, F: Folder>(
    alloc: Global,
    link: &mut K,
    state: &mut IndexState<F>,
) -> Served
    ensures ok { result ≡ Served.Closed → IfSome (K.state link.old).traffic (λ t. IfSome (K.state link.new).traffic
        (λ u. ServedWhole (index_protocol state.old.writable) t (index_folder F.files F.faults state.old.folder) u
        (index_folder F.files F.faults state.new.folder))) }
    ensures cut { result ≡ Served.LinkFault → IfSome (K.state link.old).traffic (λ t. IfSome (K.state link.new).traffic
        (λ u. Cut (index_protocol state.old.writable) t (index_folder F.files F.faults state.old.folder) u
        (index_folder F.files F.faults state.new.folder))) }
    ensures lacking { result ≡ Served.Memory → IfSome (K.state link.old).traffic (λ t. IfSome (K.state link.new).traffic
        (λ u. Lacking (index_protocol state.old.writable) t (index_folder F.files F.faults state.old.folder) u
        (index_folder F.files F.faults state.new.folder))) }
    ensures cause { result ≡ Served.LinkFault → Rose (K.state link.old).faults (K.state link.new).faults }
    ensures unfailed { result ≢ Served.LinkFault → (K.state link.new).faults ≡ (K.state link.old).faults }
    ensures given { given_in (K.state link.new).traffic ≡ given_in (K.state link.old).traffic }
    ensures faults { (K.state link.old).faults ≤ (K.state link.new).faults }
    ensures kept { state.new.writable ≡ state.old.writable }
    ensures place { F.place state.new.folder ≡ F.place state.old.folder }
    ensures shelf_faults { F.faults state.old.folder ≤ F.faults state.new.folder }
{
    serve_connection::<K, IndexService<F>>(alloc, link, state)
}
