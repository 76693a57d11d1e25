//! A shelf behind a lock, and the door by which a connection reaches it.

ghost use Rattle.std.specs.Prelude.{◌≡◌, ◌≢◌, ℕ, ◌≤◌, List, length, true, Err, IfOk, IfSome, OnErr, Some};
ghost use Rattle.caibx_fields.specs.Limits.{size_limit};
ghost use Rattle.chunk_server.specs.Reads.{asked_by};
ghost use Rattle.chunk_server.specs.Shelves.{IsAnswer, answer_in};
ghost use Rattle.chunk_store.specs.Kinds.{kind_named};
ghost use Rattle.chunk_store.specs.Digests.{digest_of};
ghost use Rattle.http_wire.specs.declared.request.Act.TheVariants as act;
ghost use Rattle.locked_shelf.specs.Keepings.{KeepsOpening};
ghost use Rattle.locked_shelf.specs.Replies.{MayReply};

use crate::kept::Kept;
use crate::shared_shelf::{SharedShelf, serve_through};
use chunk_server::chunk_file::{ChunkFile, ReadMethod};
use chunk_server::shelf::{Reply, Shelf};
use chunk_server::state::ShelfState;
use chunk_store::id::{ChunkId, DigestKind};
use chunk_store::store::GetFault;
use dsy_base::fault::Memory;
use dsy_base::folder::Folder;
use dsy_base::link::Link;
use http_wire::request::Act;
use one_lock::hand::{Hand, HandLock};
use std::alloc::Global;
use std::marker::Model;
use std::sync::Wait;

/// A folder of chunks that threads share. Its lock is held while a chunk's file is read or written, and no longer.
#[derive(Drop)]
pub struct LockedShelf<F: Folder> {
    alloc: Global,
    kept: HandLock<Kept<F>>,
    kind: DigestKind,
    writable: bool,
}

impl<F: Folder> Model for LockedShelf<F> {
    ghost use Rattle.std.specs.Prelude.{◌≡◌};
    ghost use Rattle.chunk_store.specs.Kinds.{kind_named};
    ghost use Rattle.locked_shelf.specs.Keepings.{LockedRules};

    ghost Value = { LockedRules };

    ghost view = { λ s. record { kind = s.kind; writable = s.writable } };

    ghost invariant = { λ s. s.kind ≡ kind_named F.kind };
}

/// The shelf as one connection sees it. The connection has a buffer of its own, so that digests are computed while
/// others have the lock. It holds the lock in no call but its own, and has let it go when that ends.
#[derive(Drop)]
pub struct ShelfDoor<'a, R: Wait, F: Folder> {
    rt: &'a R,
    shelf: &'a LockedShelf<F>,
    hand: Hand,
    file: ChunkFile,
}

impl<'a, R: Wait, F: Folder> Model for ShelfDoor<'a, R, F> {
    ghost use Rattle.std.specs.Prelude.{◌≡◌, true};
    ghost use Rattle.locked_shelf.specs.Keepings.{LockedRules};

    ghost Value = { LockedRules };

    ghost view = { λ s. s.shelf.now };

    ghost invariant = { λ s. s.hand.is_free ≡ true };
}

impl<F: Folder> LockedShelf<F> {
    /// The shelf is of the kind that its folder's type names, and the folder holds what the type names, where that
    /// names something.
    pub fn new(state: ShelfState<F>) -> LockedShelf<F>
        requires kind { state.kind ≡ kind_named F.kind }
        requires opening { IfSome F.opening (λ first. F.files state.folder ≡ Some first) }
        ensures kept { result.writable ≡ state.writable }
    {
        let alloc = state.alloc();
        let kind = state.kind();
        let writable = state.writable();
        LockedShelf {
            alloc,
            kept: HandLock::new(Kept::new(state)),
            kind,
            writable,
        }
    }

    pub fn door<'a, R: Wait>(&'a self, rt: &'a R) -> ShelfDoor<'a, R, F>
        ensures { result ≡ self.now }
    {
        ShelfDoor {
            rt,
            shelf: self,
            hand: Hand::new(),
            file: ChunkFile::new(self.alloc),
        }
    }

    /// Whether chunks may be put.
    pub fn writable(&self) -> bool
        ensures { result ≡ self.now.writable }
    {
        self.writable
    }

    /// The kind that the folder's type names.
    pub fn kind(&self) -> DigestKind
        ensures value { result ≡ kind_named F.kind }
    {
        self.kind
    }

    /// The answer to a GET or a HEAD. The file is read under the lock, and the digest is computed once the lock is
    /// given back.
    pub fn find<R: Wait>(
        &self,
        rt: &R,
        hand: &mut Hand,
        file: &mut ChunkFile,
        method: ReadMethod,
        id: &ChunkId,
    ) -> Result<Reply, Memory>
        requires free { hand.old.is_free ≡ true }
        ensures only { IfOk result (λ r. IsAnswer (kind_named F.kind) (asked_by method id.now) (answer_in r)) }
        ensures may { IfOk result (λ r. (body : List ℕ) →
            MayReply (kind_named F.kind) F.opening F.never_fails (asked_by method id.now) body (answer_in r)) }
        // So where there was no memory, no call on the folder has failed.
        ensures unfailed { OnErr result (file.new.outcome ≢ Err GetFault.Failed) }
        ensures free { hand.new.is_free ≡ true }
    {
        file.make_room()?;
        let mut guard = self.kept.take(rt, hand);
        guard.read(id, file);
        hand.let_go(guard);
        file.reply(self.alloc, self.kind, method, id)
    }

    /// Puts a body under its digest, in the place of what stood there.
    pub fn add<R: Wait>(
        &self,
        rt: &R,
        hand: &mut Hand,
        id: &ChunkId,
        body: &[u8],
    ) -> Result<Reply, Memory>
        requires free { hand.old.is_free ≡ true }
        requires named { digest_of (kind_named F.kind) body.now ≡ id.now.0 }
        requires size { length body.now ≤ size_limit }
        ensures only { IfOk result (λ r. IsAnswer (kind_named F.kind) (act.Put id.now) (answer_in r)) }
        ensures may { IfOk result (λ r. MayReply (kind_named F.kind) F.opening F.never_fails (act.Put id.now) body.now
            (answer_in r)) }
        ensures free { hand.new.is_free ≡ true }
    {
        let mut held = self.kept.take(rt, hand);
        let put = held.put(id, body);
        hand.let_go(held);
        put
    }

    pub fn into_inner(self) -> ShelfState<F>
        ensures kind { result.kind ≡ kind_named F.kind }
        ensures kept { IfSome F.opening (λ first. KeepsOpening (kind_named F.kind) first (F.files result.folder)) }
    {
        self.kept.into_inner().into_inner()
    }
}

impl<'a, R: Wait, F: Folder> ShelfDoor<'a, R, F> {
    // The answer to a GET or a HEAD.
    fn find(&mut self, method: ReadMethod, id: &ChunkId) -> Result<Reply, Memory>
        ensures only { IfOk result (λ r. IsAnswer (kind_named F.kind) (asked_by method id.now) (answer_in r)) }
        ensures may { IfOk result (λ r. (body : List ℕ) →
            MayReply (kind_named F.kind) F.opening F.never_fails (asked_by method id.now) body (answer_in r)) }
        ensures kept { self.new ≡ self.old }
    {
        let shelf = self.shelf;
        shelf.find(self.rt, &mut self.hand, &mut self.file, method, id)
    }

    // The answer to a PUT. The digest is computed before the lock is taken.
    fn put(&mut self, id: &ChunkId, body: &[u8]) -> Result<Reply, Memory>
        requires size { length body.now ≤ size_limit }
        ensures only { IfOk result (λ r. IsAnswer (kind_named F.kind) (act.Put id.now) (answer_in r)) }
        ensures may { IfOk result (λ r. MayReply (kind_named F.kind) F.opening F.never_fails (act.Put id.now) body.now
            (answer_in r)) }
        ensures kept { self.new ≡ self.old }
    {
        let shelf = self.shelf;
        if !id.is_of(shelf.kind(), body) {
            return Ok(Reply::bare(shelf.alloc, 400));
        }
        shelf.add(self.rt, &mut self.hand, id, body)
    }
}

impl<F: Folder> SharedShelf for LockedShelf<F> {
    ghost use Rattle.chunk_store.specs.Kinds.{kind_named};

    ghost digest = { kind_named F.kind };

    ghost may = { MayReply (kind_named F.kind) F.opening F.never_fails };

    ghost takes = { λ s. s.writable };

    fn serve_link<K: Link, R: Wait>(
        &self,
        rt: &R,
        alloc: Global,
        _number: u64,
        link: &mut K,
    ) -> bool {
        let mut door = self.door(rt);
        serve_through(alloc, link, &mut door)
    }
}

impl<'a, R: Wait, F: Folder> Shelf for ShelfDoor<'a, R, F> {
    ghost use Rattle.std.specs.Prelude.{[], None};
    ghost use Rattle.chunk_store.specs.Kinds.{kind_named};

    ghost state = { λ _. record { files = None; faults = 0 } };

    ghost place = { λ _. [] };

    ghost digest = { λ _. kind_named F.kind };

    ghost takes = { λ s. s.writable };

    ghost may = { MayReply (kind_named F.kind) F.opening F.never_fails };

    fn answer(&mut self, act: &Act, body: &[u8]) -> Result<Reply, Memory> {
        let shelf = self.shelf;
        match act {
            Act::Get(id) => self.find(ReadMethod::Get, id),
            Act::Head(id) => self.find(ReadMethod::Head, id),
            Act::Put(id) => self.put(id, body),
            Act::Lost => Ok(Reply::bare(shelf.alloc, 404)),
            Act::Refuse(_) => unreachable!(),
        }
    }

    fn kind(&self) -> DigestKind {
        self.shelf.kind()
    }

    fn writable(&self) -> bool {
        self.shelf.writable()
    }
}
