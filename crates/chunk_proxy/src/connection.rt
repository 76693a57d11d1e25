//! A connection to a cache before stores is served to its end.

ghost use Rattle.std.specs.Prelude.{◌≡◌, ◌≤◌, map, IfSome};
ghost use Rattle.dsy_base.specs.Counts.{Rose};
ghost use Rattle.chunk_proxy.specs.Leaving.{KeepsBehind};
ghost use Rattle.chunk_proxy.specs.States.{maps_in, proxy_state};
ghost use Rattle.chunk_proxy.specs.Talks.{TalksExactly, proxy_protocol};
ghost use Rattle.http_serve.specs.Streams.{given_in};
ghost use Rattle.http_serve.specs.Turns.{Cut, Lacking, Served as ServedWhole};

use crate::proxy_service::ProxyService;
use crate::state::ProxyState;
use chunk_store::store::Store;
use dsy_base::folder::Folder;
use dsy_base::link::Link;
use http_serve::connection::{Served, serve_connection};
use std::alloc::Global;

/// Serves a connection that is new to its end: each request is answered in the order in which they come. A request
/// that is refused, as each PUT is (405), or whose head has no end within 16,384 bytes (431), is answered without the
/// cache, and the connection ends. So it does, without a reply, where the bytes end before a request does. `LinkFault`:
/// a call on the connection has failed.
pub fn serve_proxy_connection<K: Link, F: Folder, S: Store>(
    alloc: Global,
    link: &mut K,
    state: &mut ProxyState<F, S>,
) -> Served
    ensures ok { result ≡ Served.Closed → IfSome (K.state link.old).traffic (λ t. IfSome (K.state link.new).traffic
        (λ u. ServedWhole (proxy_protocol state.old.chain.kind (maps_in S.Store state.old))
        t (proxy_state F.files F.never_fails S.Store state.old)
        u (proxy_state F.files F.never_fails S.Store state.new))) }

    // Where the cache and the stores tell what they hold, and never fail.
    ensures exactly { result ≡ Served.Closed → IfSome (K.state link.old).traffic (λ t.
        IfSome (K.state link.new).traffic (λ u. TalksExactly state.old.chain.kind (maps_in S.Store state.old)
        t (proxy_state F.files F.never_fails S.Store state.old)
        u (proxy_state F.files F.never_fails S.Store state.new))) }

    ensures cut { result ≡ Served.LinkFault → IfSome (K.state link.old).traffic (λ t. IfSome (K.state link.new).traffic
        (λ u. Cut (proxy_protocol state.old.chain.kind (maps_in S.Store state.old))
        t (proxy_state F.files F.never_fails S.Store state.old)
        u (proxy_state F.files F.never_fails S.Store state.new))) }
    ensures lacking { result ≡ Served.Memory → IfSome (K.state link.old).traffic (λ t. IfSome (K.state link.new).traffic
        (λ u. Lacking (proxy_protocol state.old.chain.kind (maps_in S.Store state.old))
        t (proxy_state F.files F.never_fails S.Store state.old)
        u (proxy_state F.files F.never_fails S.Store state.new))) }
    ensures cause { result ≡ Served.LinkFault → Rose (K.state link.old).faults (K.state link.new).faults }
    ensures given { given_in (K.state link.new).traffic ≡ given_in (K.state link.old).traffic }
    ensures faults { (K.state link.old).faults ≤ (K.state link.new).faults }
    ensures changed { KeepsBehind F.files F.place F.faults S.Store state.old state.new }
    ensures stores { map S.holds state.new.chain.stores ≡ map S.holds state.old.chain.stores }
    ensures place { F.place state.new.shelf.folder ≡ F.place state.old.shelf.folder }
    ensures kind { state.new.chain.kind ≡ state.old.chain.kind }
{
    serve_connection::<K, ProxyService<F, S>>(alloc, link, state)
}
