//! A connection is served to its end.

ghost use Rattle.std.specs.Prelude.{◌≡◌, ◌≢◌, ◌≤◌, IfSome};
ghost use Rattle.chunk_server.specs.Turns.{Cut, Lacking, Served as ServedWhole};
ghost use Rattle.dsy_base.specs.Counts.{Rose};
ghost use Rattle.http_serve.specs.Streams.{given_in};

use crate::shelf::Shelf;
use crate::shelf_service::ShelfService;
use dsy_base::link::Link;
pub use http_serve::connection::Served;
use http_serve::connection::serve_connection;
use std::alloc::Global;

/// Serves a connection that is new to its end: each request is answered by the shelf in the order in which they come. A
/// request that is refused, or whose head has no end within 16,384 bytes (431), is answered without the shelf, and the
/// connection ends. So it does, without a reply, where the bytes end before a request does. `LinkFault`: a call on the
/// connection has failed.
pub fn serve<K: Link, H: Shelf>(alloc: Global, link: &mut K, shelf: &mut H) -> Served
    ensures ok { result ≡ Served.Closed → IfSome (K.state link.old).traffic (λ t. IfSome (K.state link.new).traffic
        (λ u. ServedWhole (H.digest shelf.old) H.may (H.takes shelf.old) t (H.state shelf.old) u (H.state shelf.new))) }
    ensures cut { result ≡ Served.LinkFault → IfSome (K.state link.old).traffic (λ t. IfSome (K.state link.new).traffic
        (λ u. Cut (H.digest shelf.old) H.may (H.takes shelf.old) t (H.state shelf.old) u (H.state shelf.new))) }
    ensures lacking { result ≡ Served.Memory → IfSome (K.state link.old).traffic (λ t. IfSome (K.state link.new).traffic
        (λ u. Lacking (H.digest shelf.old) H.may (H.takes shelf.old) t (H.state shelf.old) u (H.state shelf.new))) }
    ensures cause { result ≡ Served.LinkFault → Rose (K.state link.old).faults (K.state link.new).faults }
    ensures unfailed { result ≢ Served.LinkFault → (K.state link.new).faults ≡ (K.state link.old).faults }
    ensures given { given_in (K.state link.new).traffic ≡ given_in (K.state link.old).traffic }
    ensures faults { (K.state link.old).faults ≤ (K.state link.new).faults }
    ensures kind { H.digest shelf.new ≡ H.digest shelf.old }
    ensures kept { H.takes shelf.new ≡ H.takes shelf.old }
    ensures place { H.place shelf.new ≡ H.place shelf.old }
    ensures shelf_faults { (H.state shelf.old).faults ≤ (H.state shelf.new).faults }
{
    serve_connection::<K, ShelfService<H>>(alloc, link, shelf)
}
