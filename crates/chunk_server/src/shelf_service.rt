//! Shelves as what answers on a connection.

ghost use Rattle.std.specs.Prelude.{◌≡◌, ◌≤◌, false};
ghost use Rattle.caibx_fields.specs.Limits.{size_limit};

use crate::shelf::{Reply, Shelf};
use dsy_base::fault::Memory;
use http_serve::service::Service;
use http_wire::request::{Act, Request, read_request};
use std::alloc::Global;
use std::marker::PhantomData;

/// How requests for chunks are read, and answered by a shelf. One that is refused isn't shown to it.
pub struct ShelfService<H: Shelf> {
    shelf: PhantomData<H>,
}

impl<H: Shelf> Service for ShelfService<H> {
    ghost use Rattle.std.specs.Prelude.{refl, ℕ, List};
    ghost use Rattle.caibx_fields.specs.Limits.{size_limit};
    ghost use Rattle.chunk_server.specs.States.{ShelfSetting};
    ghost use Rattle.chunk_server.specs.Turns.{protocol};
    ghost use Rattle.dsy_base.specs.Maps.{Map};

    type Desk = H;

    type Request = Request;

    ghost Files = { Map (List ℕ) };

    ghost Setting = { ShelfSetting };

    ghost state = { λ s. H.state s };

    ghost setting = { λ s. record { kind = H.digest s; writable = H.takes s; place = H.place s } };

    ghost protocol = { λ x. protocol x.kind H.may x.writable };

    ghost limit = { size_limit };

    ghost leaves = { λ s t. Unit {0} };

    ghost same = { λ x m q h. refl };

    ghost leaves_none = { λ s. tt };

    ghost leaves_more = { λ s t u one more. tt };

    fn read(desk: &H, _alloc: Global, head: &[u8]) -> Result<Request, Memory> {
        Ok(read_request(head, desk.writable()))
    }

    fn endless(_desk: &H) -> Request {
        Request {
            act: Act::Refuse(431),
            close: true,
            body: 0,
        }
    }

    fn size(_desk: &H, request: &Request) -> usize {
        match request.act {
            Act::Refuse(_) => 0,
            _ => request.body as usize,
        }
    }

    fn closes(_desk: &H, request: &Request) -> bool {
        request.close
    }

    fn answer(
        desk: &mut H,
        alloc: Global,
        request: &Request,
        body: &[u8],
    ) -> Result<Reply, Memory> {
        match request.act {
            Act::Refuse(status) => Ok(Reply::bare(alloc, status)),
            act => desk.answer(&act, body),
        }
    }

    fn take_back(_desk: &mut H, _room: Vec<u8>) {}
}
