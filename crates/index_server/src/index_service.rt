//! A folder of indexes as what answers on a connection.

ghost use Rattle.std.specs.Prelude.{◌≡◌, ◌≤◌, false};
ghost use Rattle.caibx_fields.specs.Limits.{file_limit};

use crate::state::IndexState;
use dsy_base::fault::Memory;
use dsy_base::folder::Folder;
use http_serve::service::{Reply, Service};
use http_wire::index_request::{IndexAct, IndexRequest, read_index_request};
use std::alloc::Global;
use std::marker::PhantomData;

/// How requests for indexes are read, and answered by a folder of them. One that is refused isn't shown to it.
pub struct IndexService<F: Folder> {
    folder: PhantomData<F>,
}

impl<F: Folder> Service for IndexService<F> {
    ghost use Rattle.std.specs.Prelude.{refl, ℕ, List};
    ghost use Rattle.caibx_fields.specs.Limits.{file_limit};
    ghost use Rattle.dsy_base.specs.Maps.{Map};
    ghost use Rattle.index_server.specs.Answers.{index_folder};
    ghost use Rattle.index_server.specs.States.{IndexSetting};
    ghost use Rattle.index_server.specs.Talks.{index_protocol};

    type Desk = IndexState<F>;

    type Request = IndexRequest;

    ghost Files = { Map (List ℕ) };

    ghost Setting = { IndexSetting };

    ghost state = { λ s. index_folder F.files F.faults s.folder };

    ghost setting = { λ s. record { writable = s.writable; place = F.place s.folder } };

    ghost protocol = { λ x. index_protocol x.writable };

    ghost limit = { file_limit };

    ghost leaves = { λ s t. Unit {0} };

    ghost same = { λ x m q h. refl };

    ghost leaves_none = { λ s. tt };

    ghost leaves_more = { λ s t u one more. tt };

    fn read(desk: &IndexState<F>, alloc: Global, head: &[u8]) -> Result<IndexRequest, Memory> {
        read_index_request(alloc, head, desk.writable())
    }

    fn endless(_desk: &IndexState<F>) -> IndexRequest {
        IndexRequest {
            act: IndexAct::Refuse(431),
            close: true,
            body: 0,
        }
    }

    fn size(_desk: &IndexState<F>, request: &IndexRequest) -> usize {
        match request.act {
            IndexAct::Refuse(_) => 0,
            _ => request.body as usize,
        }
    }

    fn closes(_desk: &IndexState<F>, request: &IndexRequest) -> bool {
        request.close
    }

    fn answer(
        desk: &mut IndexState<F>,
        alloc: Global,
        request: &IndexRequest,
        body: &[u8],
    ) -> Result<Reply, Memory> {
        match request.act {
            IndexAct::Refuse(status) => Ok(Reply::bare(alloc, status)),
            _ => desk.apply(&request.act, body),
        }
    }

    fn take_back(desk: &mut IndexState<F>, room: Vec<u8>) {
        desk.take_back(room);
    }
}
