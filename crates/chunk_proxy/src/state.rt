//! A cache before stores that answers requests for chunks. Sizes are in bytes.

ghost use Rattle.std.specs.Prelude.{◌≡◌, ◌≤◌, length, map, false, None, IfOk, IfSome, OnErr};
ghost use Rattle.cache_store.specs.Shelves.{Stocks, shelf_of};
ghost use Rattle.chunk_proxy.specs.Answers.{AnswersThrough, IsProxyAnswer, LacksThrough};
ghost use Rattle.chunk_proxy.specs.Leaving.{AsksForChunks};
ghost use Rattle.chunk_proxy.specs.Obtaining.{IsRightChunk, RepliesSo};
ghost use Rattle.chunk_proxy.specs.States.{maps_in, proxy_state};
ghost use Rattle.http_serve.specs.Answers.{answer_in};
ghost use Rattle.http_wire.specs.Request.{is_refusal};

use crate::fetch::fetch;
use cache_store::cached::Cached;
use chunk_server::chunk_file::ReadMethod;
use chunk_store::store::Store;
use dir_store::laws::put_leaves_a_temporary;
use dsy_base::fault::Memory;
use dsy_base::folder::Folder;
use http_serve::service::Reply;
use http_wire::request::Act;
use std::alloc::Global;
use std::marker::Model;

/// A cache before stores, which answers requests one by one. Contracts see it as the cache and the stores.
#[derive(Drop)]
pub struct ProxyState<F: Folder, S: Store> {
    alloc: Global,
    cached: Cached<F, S>,
    buffer: Vec<u8>,
}

impl<F: Folder, S: Store> Model for ProxyState<F, S> {
    ghost use Rattle.std.specs.Prelude.{◌≡◌, ◌≤◌, length, None};
    ghost use Rattle.cache_store.specs.Through.{Behind};
    ghost use Rattle.caibx_fields.specs.Limits.{size_limit};

    ghost Value = { Behind F S };

    ghost view = { λ s. s.cached };

    ghost invariant = { λ s. (length s.buffer.items ≤ size_limit) × (F.pairs ≡ None) × (F.stores ≡ None) };
}

impl<F: Folder, S: Store> ProxyState<F, S> {
    /// Room for a chunk is taken by the first request for one.
    pub fn new(alloc: Global, cached: Cached<F, S>) -> ProxyState<F, S>
        requires unnamed { (F.pairs ≡ None) × (F.stores ≡ None) }
        ensures value { result ≡ cached }
    {
        ProxyState {
            alloc,
            cached,
            buffer: Vec::new(alloc),
        }
    }

    pub fn into_inner(self) -> Cached<F, S>
        ensures value { result ≡ self }
    {
        self.cached
    }

    /// Answers a request. GET: 200 with the chunk where the cache holds it, or else one of the stores, which then is
    /// added to the cache; 404 where none holds it; 500 where none gives it, and a store has failed. HEAD: the same
    /// without the chunk. A target that is no chunk's path, and a PUT: 404. A fault of the cache is passed over.
    pub fn answer(&mut self, act: &Act) -> Result<Reply, Memory>
        requires taken { is_refusal act.now ≡ false }
        ensures only { IfOk result (λ r. IsProxyAnswer self.old.chain.kind act.now (answer_in r)) }
        ensures cause { IfOk result (λ r. RepliesSo F.files F.place F.faults S.Store act.now self.old self.new
            (answer_in r)) }

        // Where the cache and the stores tell what they hold, and never fail.
        ensures ok { IfOk result (λ r. IfSome (proxy_state F.files F.never_fails S.Store self.old).files (λ _.
            AnswersThrough self.old.chain.kind (maps_in S.Store self.old)
            (proxy_state F.files F.never_fails S.Store self.old) act.now (answer_in r)
            (proxy_state F.files F.never_fails S.Store self.new))) }
        ensures err { OnErr result (IfSome (proxy_state F.files F.never_fails S.Store self.old).files (λ _.
            LacksThrough self.old.chain.kind (maps_in S.Store self.old)
            (proxy_state F.files F.never_fails S.Store self.old) act.now
            (proxy_state F.files F.never_fails S.Store self.new))) }

        // Under each id the cache holds what it held, or right bytes, whatever fails. Files of other names stay.
        ensures stocks { Stocks (IsRightChunk self.old.chain.kind) (shelf_of F.files F.place F.faults self.old.shelf)
            (shelf_of F.files F.place F.faults self.new.shelf) }

        // The stores are asked for chunks alone.
        ensures asks { AsksForChunks S.Store self.old.chain.stores self.new.chain.stores }

        ensures stores { map S.holds self.new.chain.stores ≡ map S.holds self.old.chain.stores }
        ensures place { F.place self.new.shelf.folder ≡ F.place self.old.shelf.folder }
        ensures kind { self.new.chain.kind ≡ self.old.chain.kind }
    {
        put_leaves_a_temporary();
        match act {
            Act::Get(id) => fetch(
                self.alloc,
                &mut self.cached,
                &mut self.buffer,
                ReadMethod::Get,
                id,
            ),
            Act::Head(id) => fetch(
                self.alloc,
                &mut self.cached,
                &mut self.buffer,
                ReadMethod::Head,
                id,
            ),
            Act::Put(_) => Ok(Reply::bare(self.alloc, 404)),
            Act::Lost => Ok(Reply::bare(self.alloc, 404)),
            Act::Refuse(_) => unreachable!(),
        }
    }
}
