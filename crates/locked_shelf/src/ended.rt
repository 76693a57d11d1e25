//! A connection is served to its end, and what its type then tells of it.

ghost use Rattle.std.specs.Prelude.{◌≡◌, Bool, true};
ghost use Rattle.dsy_base.specs.Links.{IsFreshLink};
ghost use Rattle.locked_shelf.specs.Endings.{EndsServing};

use crate::shared_shelf::SharedShelf;
use dsy_base::link::Link;
use std::alloc::Global;
use std::marker::{Brand, Model, PhantomData};
use std::sync::Wait;

/// Whether chunks may be put, named by a type. Each call of a program picks it.
pub(crate) trait Mode {
    ghost writable: { Bool };
}

impl Mode for Brand {
    ghost writable = { true };
}

/// A connection that has ended. All its requests were answered, or a call on it has failed, or there was no memory.
#[derive(Drop)]
pub(crate) struct EndedLink<K: Link, D: SharedShelf, M: Mode> {
    link: K,
    lacking: bool,
    shelf: PhantomData<D>,
    mode: PhantomData<M>,
}

impl<K: Link, D: SharedShelf, M: Mode> Model for EndedLink<K, D, M> {
    ghost use Rattle.locked_shelf.specs.Endings.{EndsServing, Gone};

    ghost Value = { Gone K };

    ghost view = { λ s. record { link = s.link; lacking = s.lacking } };

    ghost invariant = { λ s. EndsServing D.digest D.may M.writable K.tells s.lacking (K.state s.link) };
}

impl<K: Link, D: SharedShelf, M: Mode> EndedLink<K, D, M> {
    /// The connection, and whether there was no memory for it.
    pub fn into_parts(self) -> (K, bool)
        ensures value { result ≡ (self.link, self.lacking) }
        ensures ended { EndsServing D.digest D.may M.writable K.tells result.1 (K.state result.0) }
    {
        (self.link, self.lacking)
    }
}

/// Serves a connection to its end.
pub(crate) fn serve_new<K: Link, D: SharedShelf, M: Mode, R: Wait>(
    rt: &R,
    alloc: Global,
    shelf: &D,
    number: u64,
    mut link: K,
) -> EndedLink<K, D, M>
    requires mode { D.takes shelf.now ≡ M.writable }
    requires fresh { IsFreshLink (K.state link) }
{
    let lacking = shelf.serve_link(rt, alloc, number, &mut link);
    link.finish();
    EndedLink {
        link,
        lacking,
        shelf: PhantomData,
        mode: PhantomData,
    }
}
