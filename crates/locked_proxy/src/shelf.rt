//! A cache before stores that threads share, and the door by which a connection reaches them.

ghost use Rattle.std.specs.Prelude.{◌≡◌, ◌<◌, ◌≤◌, ◌+◌, ◌++◌, [], ◌∷◌, vec_capacity, vec_len, true, All, IfErr, IfOk};
ghost use Rattle.std.specs.Prelude.{IfSome, Some};
ghost use Rattle.chunk_proxy.specs.Obtaining.{IsRightChunk};
ghost use Rattle.chunk_server.specs.Reads.{answer_by, asked_by};
ghost use Rattle.chunk_store.specs.Kinds.{kind_named};
ghost use Rattle.http_serve.specs.Answers.{answer_in};
ghost use Rattle.locked_proxy.specs.Chains.{IsChainOf, Withholds};
ghost use Rattle.locked_proxy.specs.Replies.{MayProxy, Supplies};
ghost use Rattle.locked_shelf.specs.Keepings.{KeepsOpening};

use crate::chain::KeptChain;
use crate::proxy_name::ProxyName;
use cache_store::shelf::CacheShelf;
use chunk_proxy::upstream::tell_refused;
use chunk_server::chunk_file::{ChunkFile, ReadMethod};
use chunk_server::shelf::{Reply, Shelf};
use chunk_server::state::ShelfState;
use chunk_store::id::{ChunkId, DigestKind};
use chunk_store::store::Store;
use dsy_base::fault::Memory;
use dsy_base::folder::Folder;
use dsy_base::link::Link;
use http_wire::request::Act;
use locked_shelf::door::LockedShelf;
use locked_shelf::shared_shelf::{SharedShelf, serve_through};
use one_lock::hand::{Hand, HandLock};
use std::alloc::Global;
use std::marker::Model;
use std::sync::Wait;
use store_chain::chain::Chain;
use store_chain::refused::Refused;

type ChainLock<F, S, N> = HandLock<KeptChain<F, S, N>>;

/// The locks of a cache and of chains of stores, which threads share. The cache's lock is held while a chunk's file is
/// read or written, a chain's while its stores are asked, and no longer.
#[derive(Drop)]
pub struct ProxyLocks<F: Folder, S: Store, N: ProxyName> {
    alloc: Global,
    cache: LockedShelf<F>,
    // The last chain's first.
    chains: Vec<ChainLock<F, S, N>>,
}

impl<F: Folder, S: Store, N: ProxyName> Model for ProxyLocks<F, S, N> {
    ghost use Rattle.std.specs.Prelude.{◌<◌, length};
    ghost use Rattle.locked_proxy.specs.Chains.{ProxyRules};

    ghost Value = { ProxyRules };

    ghost view = { λ s. record { chains = length s.chains.items } };

    ghost invariant = { λ s. 0 < length s.chains.items };
}

/// A cache and chains of stores behind locks, with the room in which the chains are given back.
#[derive(Drop)]
pub struct ProxyShelf<F: Folder, S: Store, N: ProxyName> {
    locks: ProxyLocks<F, S, N>,
    room: Vec<Chain<S>>,
}

impl<F: Folder, S: Store, N: ProxyName> Model for ProxyShelf<F, S, N> {
    ghost use Rattle.std.specs.Prelude.{◌≡◌, ◌≤◌, [], vec_capacity};
    ghost use Rattle.locked_proxy.specs.Chains.{ProxyRules};

    ghost Value = { ProxyRules };

    ghost view = { λ s. s.locks };

    ghost invariant = { λ s. (s.room.items ≡ []) × (s.locks.chains ≤ vec_capacity s.room) };
}

/// The cache and the stores as one connection sees them. It holds one lock at a time, in no call but its own, and has
/// let it go when that ends.
#[derive(Drop)]
pub struct ProxyDoor<'a, R: Wait, F: Folder, S: Store, N: ProxyName> {
    rt: &'a R,
    shelf: &'a ProxyLocks<F, S, N>,
    connection: u64,
    hand: Hand,
    file: ChunkFile,
}

impl<'a, R: Wait, F: Folder, S: Store, N: ProxyName> Model for ProxyDoor<'a, R, F, S, N> {
    ghost use Rattle.std.specs.Prelude.{◌≡◌, true};
    ghost use Rattle.locked_proxy.specs.Chains.{ProxyRules};

    ghost Value = { ProxyRules };

    ghost view = { λ s. s.shelf.now };

    ghost invariant = { λ s. s.hand.is_free ≡ true };
}

// Puts a value behind those for which room was taken.
fn put_back<X: Drop>(values: &mut Vec<X>, value: X)
    requires room { vec_len values.old < vec_capacity values.old }
    ensures items { values.new.items ≡ values.old.items ++ value ∷ [] }
    ensures size { vec_len values.new ≡ vec_len values.old + 1 }
    ensures kept { vec_capacity values.old ≤ vec_capacity values.new }
{
    let _ = values.push(value);
}

// A lock for each chain, the last chain's first, and the room of the chains.
fn lock_all<F: Folder, S: Store, N: ProxyName>(
    alloc: Global,
    chains: Vec<Chain<S>>,
    locks: Vec<ChainLock<F, S, N>>,
) -> (Vec<ChainLock<F, S, N>>, Vec<Chain<S>>)
    requires named { All (IsChainOf S.Store (kind_named F.kind) N.maps N.places) chains.items }
    requires none { locks.items ≡ [] }
    requires room { vec_len chains ≤ vec_capacity locks }
    ensures number { vec_len result.0 ≡ vec_len chains }
    ensures none { result.1.items ≡ [] }
    ensures room { vec_len chains ≤ vec_capacity result.1 }
{
    let mut chains = chains;
    let mut locks = locks;
    while let Some(chain) = chains.pop() {
        put_back(&mut locks, HandLock::new(KeptChain::new(alloc, chain)));
    }
    (locks, chains)
}

// The chains behind these locks, the last lock's first.
fn unlock_all<F: Folder, S: Store, N: ProxyName>(
    locks: Vec<ChainLock<F, S, N>>,
    room: Vec<Chain<S>>,
) -> Vec<Chain<S>>
    requires none { room.items ≡ [] }
    requires room { vec_len locks ≤ vec_capacity room }
    ensures number { vec_len result ≡ vec_len locks }
    ensures named { All (IsChainOf S.Store (kind_named F.kind) N.maps N.places) result.items }
{
    let mut locks = locks;
    let mut chains = room;
    while let Some(lock) = locks.pop() {
        put_back(&mut chains, lock.into_inner().into_inner());
    }
    chains
}

impl<F: Folder, S: Store, N: ProxyName> ProxyShelf<F, S, N> {
    /// The cache's kind is the one that its folder's type names, and the folder holds what the type names, where that
    /// names something. The chains are what N names.
    pub fn new(
        alloc: Global,
        cache: CacheShelf<F>,
        chains: Vec<Chain<S>>,
    ) -> Result<ProxyShelf<F, S, N>, (CacheShelf<F>, Vec<Chain<S>>, Memory)>
        requires some { 0 < vec_len chains }
        requires kind { cache.kind ≡ kind_named F.kind }
        requires opening { IfSome F.opening (λ first. F.files cache.folder ≡ Some first) }
        requires named { All (IsChainOf S.Store (kind_named F.kind) N.maps N.places) chains.items }
        ensures ok { IfOk result (λ s. s.chains ≡ vec_len chains) }
        ensures err { IfErr result (λ e. (e.0 ≡ cache) × (e.1.items ≡ chains.items)) }
    {
        let Ok(locks) = Vec::with_capacity(alloc, chains.len()) else {
            return Err((cache, chains, Memory));
        };
        let kind = cache.kind();
        match ShelfState::with_kind(alloc, kind, cache.into_inner(), false) {
            Ok(state) => {
                let (chains, room) = lock_all(alloc, chains, locks);
                let locks = ProxyLocks {
                    alloc,
                    cache: LockedShelf::new(state),
                    chains,
                };
                Ok(ProxyShelf { locks, room })
            }
            Err((folder, fault)) => Err((CacheShelf::with_kind(kind, folder), chains, fault)),
        }
    }

    /// The cache, with right chunks added or put in the place of others, and the chains.
    pub fn into_parts(self) -> (CacheShelf<F>, Vec<Chain<S>>)
        ensures kind { result.0.kind ≡ kind_named F.kind }
        ensures kept { IfSome F.opening
            (λ first. KeepsOpening (kind_named F.kind) first (F.files result.0.folder)) }
        ensures number { vec_len result.1 ≡ self.chains }
        ensures named { All (IsChainOf S.Store (kind_named F.kind) N.maps N.places) result.1.items }
    {
        let ProxyShelf { locks, room } = self;
        let ProxyLocks { cache, chains, .. } = locks;
        let kind = cache.kind();
        let folder = cache.into_inner().into_inner();
        (
            CacheShelf::with_kind(kind, folder),
            unlock_all(chains, room),
        )
    }

    /// The door of a connection, which asks the chain whose number is what is left of its own when it is divided by how
    /// many there are.
    pub fn door<'a, R: Wait>(&'a self, rt: &'a R, connection: u64) -> ProxyDoor<'a, R, F, S, N>
        ensures { result ≡ self.now }
    {
        self.locks.door(rt, connection)
    }

    /// What threads share of it.
    pub(crate) fn locks(&self) -> &ProxyLocks<F, S, N>
        ensures { result.now ≡ self.now }
    {
        &self.locks
    }
}

impl<F: Folder, S: Store, N: ProxyName> ProxyLocks<F, S, N> {
    fn door<'a, R: Wait>(&'a self, rt: &'a R, connection: u64) -> ProxyDoor<'a, R, F, S, N>
        ensures { result ≡ self.now }
    {
        ProxyDoor {
            rt,
            shelf: self,
            connection,
            hand: Hand::new(),
            file: ChunkFile::new(self.alloc),
        }
    }

    // The lock of the chain that this connection asks.
    fn chain_of(&self, connection: u64) -> &ChainLock<F, S, N> {
        let count = self.chains.len();
        let number = (connection % count as u64) as usize;
        &self.chains[count - 1 - number]
    }
}

// The reply that tells of this chunk.
fn reply_with(alloc: Global, method: ReadMethod, chunk: Vec<u8>) -> Reply
    ensures { answer_in result ≡ answer_by method (Some chunk.items) }
{
    let length = chunk.len() as u64;
    let body = match method {
        ReadMethod::Get => chunk,
        ReadMethod::Head => Vec::new(alloc),
    };
    Reply {
        status: 200,
        length,
        body,
    }
}

impl<'a, R: Wait, F: Folder, S: Store, N: ProxyName> ProxyDoor<'a, R, F, S, N> {
    // The chunk, as the stores of this connection's chain give it. The chain's lock alone is held meanwhile.
    fn obtain(&mut self, id: &ChunkId) -> Result<Vec<u8>, Refused>
        ensures ok { IfOk result (λ v. IsRightChunk (kind_named F.kind) id.now.0 v.items) }
        ensures err { IfErr result (Withholds (kind_named F.kind) N.maps S.never_fails id.now.0) }
        ensures kept { self.new ≡ self.old }
    {
        let shelf = self.shelf;
        let mut chain = shelf
            .chain_of(self.connection)
            .take(self.rt, &mut self.hand);
        let obtained = chain.obtain(id);
        self.hand.let_go(chain);
        obtained
    }

    // The reply where the cache doesn't give the chunk: the stores are asked, and what they give is added to the cache.
    // That the cache doesn't take it is passed over.
    fn supply(&mut self, method: ReadMethod, id: &ChunkId) -> Result<Reply, Memory>
        ensures ok { IfOk result (λ r. Supplies (kind_named F.kind) N.maps S.never_fails method id.now (answer_in r)) }
        ensures kept { self.new ≡ self.old }
    {
        let shelf = self.shelf;
        match self.obtain(id) {
            Ok(chunk) => {
                let _ = shelf
                    .cache
                    .add(self.rt, &mut self.hand, id, chunk.as_slice());
                Ok(reply_with(shelf.alloc, method, chunk))
            }
            Err(refused) => tell_refused(shelf.alloc, &refused),
        }
    }

    // The answer to a GET or a HEAD.
    fn fetch(&mut self, method: ReadMethod, id: &ChunkId) -> Result<Reply, Memory>
        ensures ok { IfOk result (λ r. MayProxy (kind_named F.kind) F.opening N.maps F.never_fails S.never_fails
            (asked_by method id.now) (answer_in r)) }
        ensures kept { self.new ≡ self.old }
    {
        let shelf = self.shelf;
        let found = shelf
            .cache
            .find(self.rt, &mut self.hand, &mut self.file, method, id)?;
        if found.status == 200 {
            return Ok(found);
        }
        self.supply(method, id)
    }
}

impl<'a, R: Wait, F: Folder, S: Store, N: ProxyName> Shelf for ProxyDoor<'a, R, F, S, N> {
    ghost use Rattle.std.specs.Prelude.{[], None, false};
    ghost use Rattle.chunk_store.specs.Kinds.{kind_named};
    ghost use Rattle.locked_proxy.specs.Replies.{MayProxy};

    ghost state = { λ _. record { files = None; faults = 0 } };

    ghost place = { λ _. [] };

    ghost digest = { λ _. kind_named F.kind };

    ghost takes = { λ _. false };

    ghost may = { λ a _ r. MayProxy (kind_named F.kind) F.opening N.maps F.never_fails S.never_fails a r };

    fn answer(&mut self, act: &Act, _body: &[u8]) -> Result<Reply, Memory> {
        let shelf = self.shelf;
        match act {
            Act::Get(id) => self.fetch(ReadMethod::Get, id),
            Act::Head(id) => self.fetch(ReadMethod::Head, id),
            Act::Put(_) => Ok(Reply::bare(shelf.alloc, 404)),
            Act::Lost => Ok(Reply::bare(shelf.alloc, 404)),
            Act::Refuse(_) => unreachable!(),
        }
    }

    fn kind(&self) -> DigestKind {
        let shelf = self.shelf;
        shelf.cache.kind()
    }

    fn writable(&self) -> bool {
        false
    }
}

impl<F: Folder, S: Store, N: ProxyName> SharedShelf for ProxyLocks<F, S, N> {
    ghost use Rattle.std.specs.Prelude.{false};
    ghost use Rattle.chunk_store.specs.Kinds.{kind_named};
    ghost use Rattle.locked_proxy.specs.Replies.{MayProxy};

    ghost digest = { kind_named F.kind };

    ghost may = { λ a _ r. MayProxy (kind_named F.kind) F.opening N.maps F.never_fails S.never_fails a r };

    ghost takes = { λ _. false };

    fn serve_link<K: Link, R: Wait>(
        &self,
        rt: &R,
        alloc: Global,
        number: u64,
        link: &mut K,
    ) -> bool {
        let mut door = self.door(rt, number);
        serve_through(alloc, link, &mut door)
    }
}
