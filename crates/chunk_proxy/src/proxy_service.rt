//! A cache before stores as what answers on a connection.

ghost use Rattle.std.specs.Prelude.{◌≡◌, ◌≤◌, false};
ghost use Rattle.caibx_fields.specs.Limits.{size_limit};

use crate::state::ProxyState;
use chunk_store::store::Store;
use dsy_base::fault::Memory;
use dsy_base::folder::Folder;
use http_serve::service::{Reply, Service};
use http_wire::request::{Act, Request, read_request};
use std::alloc::Global;
use std::marker::PhantomData;

/// How requests for chunks are read, and answered by a cache before stores. One that is refused, as each PUT is, isn't
/// shown to it.
pub struct ProxyService<F: Folder, S: Store> {
    folder: PhantomData<F>,
    store: PhantomData<S>,
}

impl<F: Folder, S: Store> Service for ProxyService<F, S> {
    ghost use Rattle.std.specs.Prelude.{refl, ℕ, List, map};
    ghost use Rattle.caibx_fields.specs.Limits.{size_limit};
    ghost use Rattle.chunk_proxy.specs.Leaving.{KeepsBehind, leaves_on, leaves_same};
    ghost use Rattle.chunk_proxy.specs.States.{ProxyFiles, ProxySetting, proxy_state, told_of};
    ghost use Rattle.chunk_proxy.specs.Talks.{proxy_protocol};

    type Desk = ProxyState<F, S>;

    type Request = Request;

    ghost Files = { ProxyFiles };

    ghost Setting = { ProxySetting };

    ghost state = { λ s. proxy_state F.files F.never_fails S.Store s };

    ghost setting = { λ s. record {
      kind = s.chain.kind;
      place = F.place s.shelf.folder;
      holds = map S.holds s.chain.stores;
    } };

    ghost protocol = { λ x. proxy_protocol x.kind (told_of x.holds) };

    ghost limit = { size_limit };

    ghost leaves = { λ s t. KeepsBehind F.files F.place F.faults S.Store s t };

    ghost same = { λ x m q h. refl };

    ghost leaves_none = { λ s. leaves_same F.files F.place F.faults _ s };

    ghost leaves_more = { λ s t u one more. leaves_on F.files F.place F.faults _ s t u one more };

    fn read(_desk: &ProxyState<F, S>, _alloc: Global, head: &[u8]) -> Result<Request, Memory> {
        Ok(read_request(head, false))
    }

    fn endless(_desk: &ProxyState<F, S>) -> Request {
        Request {
            act: Act::Refuse(431),
            close: true,
            body: 0,
        }
    }

    fn size(_desk: &ProxyState<F, S>, request: &Request) -> usize {
        match request.act {
            Act::Refuse(_) => 0,
            _ => request.body as usize,
        }
    }

    fn closes(_desk: &ProxyState<F, S>, request: &Request) -> bool {
        request.close
    }

    fn answer(
        desk: &mut ProxyState<F, S>,
        alloc: Global,
        request: &Request,
        _body: &[u8],
    ) -> Result<Reply, Memory> {
        match request.act {
            Act::Refuse(status) => Ok(Reply::bare(alloc, status)),
            act => desk.answer(&act),
        }
    }

    fn take_back(_desk: &mut ProxyState<F, S>, _room: Vec<u8>) {}
}
