//! What threads share to answer requests for chunks, over connections that come.

ghost use Rattle.std.specs.Prelude.{◌≡◌, ℕ, Bool, List};
ghost use Rattle.chunk_server.specs.Answers.{Answer};
ghost use Rattle.chunk_store.specs.declared.id.DigestKind.{DigestKind};
ghost use Rattle.dsy_base.specs.Links.{IsFreshLink};
ghost use Rattle.http_wire.specs.declared.request.Act.{Act};
ghost use Rattle.locked_shelf.specs.Endings.{HasEndedSo};

use chunk_server::serve::{Served, serve};
use chunk_server::shelf::Shelf;
use dsy_base::link::Link;
use std::alloc::Global;
use std::sync::Wait;

/// What threads share to answer requests for chunks. Each connection is served by a shelf of its own, which reaches
/// what is shared through locks.
pub trait SharedShelf {
    /// Which digest names the chunks.
    ghost digest: { DigestKind };

    /// The replies that may be given to an act with a body, beside what holds of every shelf.
    ghost may: { Act → List ℕ → Answer → Type 0 };

    /// Whether chunks may be put.
    ghost takes: { Self → Bool };

    /// Serves a new connection to its end, and answers whether there was no memory for it. Connections are numbered
    /// from 0.
    fn serve_link<K: Link, R: Wait>(&self, rt: &R, alloc: Global, number: u64, link: &mut K) -> bool
        requires fresh { IsFreshLink (K.state link.old) }
        ensures ended { HasEndedSo digest may (takes self.now) result (K.state link.new) };
}

/// Serves a new connection to its end by a shelf of its own, and answers whether there was no memory for it.
pub fn serve_through<K: Link, H: Shelf>(alloc: Global, link: &mut K, shelf: &mut H) -> bool
    requires fresh { IsFreshLink (K.state link.old) }
    ensures ended { HasEndedSo (H.digest shelf.old) H.may (H.takes shelf.old) result (K.state link.new) }
{
    match serve(alloc, link, shelf) {
        Served::Closed => false,
        Served::LinkFault => false,
        Served::Memory => true,
    }
}
