//! A folder of chunks as a shelf. Sizes are in bytes.

ghost use Rattle.std.specs.Prelude.{◌≡◌, ℕ, ◌≤◌, List, length, false, IfErr, IfOk, IfSome, OnErr, Some};
ghost use Rattle.caibx_fields.specs.Limits.{size_limit};
ghost use Rattle.chunk_server.specs.Reads.{ReadsFile};
ghost use Rattle.chunk_server.specs.Shelves.{AreAlikeButTemporaries, IsAnswer, RefusesOtherDigest, ServesOrFails};
ghost use Rattle.chunk_server.specs.Shelves.{answer_in, shelved};
ghost use Rattle.chunk_store.specs.Kinds.{kind_named};
ghost use Rattle.chunk_store.specs.Digests.{digest_of};
ghost use Rattle.chunk_store.specs.declared.id.DigestKind.TheVariants as kinds;
ghost use Rattle.http_wire.specs.Request.{is_refusal};

use crate::chunk_file::{ChunkFile, ReadMethod};
use crate::shelf::{Reply, Shelf};
use chunk_store::id::{ChunkId, DigestKind};
use dir_store::laws::put_leaves_a_temporary;
use dir_store::store::DirStore;
use dsy_base::fault::{IoFault, Memory};
use dsy_base::folder::Folder;
use http_wire::request::Act;
use std::alloc::Global;
use std::marker::Model;

/// A folder of chunks, which answers requests one by one. Contracts see it as the folder, the digest that names its
/// chunks, and whether chunks may be put.
#[derive(Drop)]
pub struct ShelfState<F: Folder> {
    alloc: Global,
    store: DirStore<F>,
    kind: DigestKind,
    writable: bool,
    file: ChunkFile,
}

impl<F: Folder> Model for ShelfState<F> {
    ghost use Rattle.chunk_server.specs.States.{Standing};

    ghost Value = { Standing F };

    ghost view = { λ s. record { folder = s.store; kind = s.kind; writable = s.writable } };
}

impl<F: Folder> ShelfState<F> {
    /// The chunks of this folder, which are named by SHA-512/256. Where nothing may be put, a PUT is refused before its
    /// body is read.
    pub fn new(alloc: Global, folder: F, writable: bool) -> Result<ShelfState<F>, (F, Memory)>
        requires opening { IfSome F.opening (λ m. F.files folder ≡ Some m) }
        requires kind { IfSome F.opening (λ m. kinds.Sha512T256 ≡ kind_named F.kind) }
        ensures ok { IfOk result (λ s. s ≡ record { folder = folder; kind = kinds.Sha512T256; writable = writable }) }
        ensures err { IfErr result (λ e. e.0 ≡ folder) }
    {
        ShelfState::with_kind(alloc, DigestKind::Sha512T256, folder, writable)
    }

    /// The chunks of this folder, which are named by this digest. Where the type of the folder names what it began
    /// with, it names the digest too. Where nothing may be put, a PUT is refused before its body is read.
    pub fn with_kind(
        alloc: Global,
        kind: DigestKind,
        folder: F,
        writable: bool,
    ) -> Result<ShelfState<F>, (F, Memory)>
        requires opening { IfSome F.opening (λ m. F.files folder ≡ Some m) }
        requires kind { IfSome F.opening (λ m. kind ≡ kind_named F.kind) }
        ensures ok { IfOk result (λ s. s ≡ record { folder = folder; kind = kind; writable = writable }) }
        ensures err { IfErr result (λ e. e.0 ≡ folder) }
    {
        let mut file = ChunkFile::new(alloc);
        match file.make_room() {
            Ok(()) => Ok(ShelfState {
                alloc,
                store: DirStore::new(folder),
                kind,
                writable,
                file,
            }),
            Err(fault) => Err((folder, fault)),
        }
    }

    pub fn into_inner(self) -> F
        ensures { result ≡ self.folder }
    {
        self.store.into_inner()
    }

    /// The allocator that its replies are made with.
    pub fn alloc(&self) -> Global {
        self.alloc
    }

    /// Reads the file of this id: the half of the answer to a GET or a HEAD for which the folder is needed. The other
    /// half is `ChunkFile::reply`.
    pub fn read(&mut self, id: &ChunkId, file: &mut ChunkFile)
        ensures bytes { ReadsFile id.now.0 (shelved F.files F.faults self.old.folder) file.new
            (shelved F.files F.faults self.new.folder) }
        ensures place { F.place self.new.folder ≡ F.place self.old.folder }
        ensures kind { self.new.kind ≡ self.old.kind }
        ensures kept { self.new.writable ≡ self.old.writable }
    {
        file.read(&mut self.store, id);
    }

    /// Puts a body under its digest: the half of the answer to a PUT for which the folder is needed.
    pub fn put(&mut self, id: &ChunkId, body: &[u8]) -> Result<Reply, Memory>
        requires named { digest_of self.old.kind body.now ≡ id.now.0 }
        ensures only { IfOk result (λ r. IsAnswer self.old.kind (Act.Put id.now) (answer_in r)) }
        ensures ok { IfOk result (λ r. ServesOrFails self.old.kind
            (shelved F.files F.faults self.old.folder) (Act.Put id.now) body.now
            (answer_in r) (shelved F.files F.faults self.new.folder)) }
        ensures err { OnErr result (AreAlikeButTemporaries (F.files self.old.folder) (F.files self.new.folder)) }
        ensures unfailed { OnErr result (F.faults self.new.folder ≡ F.faults self.old.folder) }
        ensures place { F.place self.new.folder ≡ F.place self.old.folder }
        ensures faults { F.faults self.old.folder ≤ F.faults self.new.folder }
        ensures kind { self.new.kind ≡ self.old.kind }
        ensures kept { self.new.writable ≡ self.old.writable }
    {
        put_leaves_a_temporary();
        match self.store.write(id, body) {
            Ok(()) => Ok(Reply::bare(self.alloc, 200)),
            Err(IoFault::Failed) => Ok(Reply::bare(self.alloc, 500)),
            Err(IoFault::Memory) => Err(Memory),
        }
    }

    /// Answers a request. GET: 200 with the chunk where bytes of its digest are held under the id, at most 64 MiB, else
    /// 404. HEAD: the same without the chunk. PUT: 400 where the body has another digest than the id, else 200 once it
    /// is held. A target that is no chunk's path: 404. 500: a call on the folder has failed.
    pub fn apply(&mut self, act: &Act, body: &[u8]) -> Result<Reply, Memory>
        requires taken { is_refusal act.now ≡ false }
        requires size { length body.now ≤ size_limit }
        ensures only { IfOk result (λ r. IsAnswer self.old.kind act.now (answer_in r)) }
        ensures ok { IfOk result (λ r. ServesOrFails self.old.kind
            (shelved F.files F.faults self.old.folder) act.now body.now
            (answer_in r) (shelved F.files F.faults self.new.folder)) }
        ensures refused { IfOk result (λ r. RefusesOtherDigest self.old.kind act.now body.now (answer_in r)) }
        ensures err { OnErr result (AreAlikeButTemporaries (F.files self.old.folder) (F.files self.new.folder)) }
        ensures unfailed { OnErr result (F.faults self.new.folder ≡ F.faults self.old.folder) }
        ensures place { F.place self.new.folder ≡ F.place self.old.folder }
        ensures faults { F.faults self.old.folder ≤ F.faults self.new.folder }
        ensures kind { self.new.kind ≡ self.old.kind }
        ensures kept { self.new.writable ≡ self.old.writable }
    {
        match act {
            Act::Get(id) => {
                self.file.read(&mut self.store, id);
                self.file.reply(self.alloc, self.kind, ReadMethod::Get, id)
            }
            Act::Head(id) => {
                self.file.read(&mut self.store, id);
                self.file.reply(self.alloc, self.kind, ReadMethod::Head, id)
            }
            Act::Put(id) => {
                if !id.is_of(self.kind, body) {
                    return Ok(Reply::bare(self.alloc, 400));
                }
                self.put(id, body)
            }
            Act::Lost => Ok(Reply::bare(self.alloc, 404)),
            Act::Refuse(_) => unreachable!(),
        }
    }
}

impl<F: Folder> Shelf for ShelfState<F> {
    ghost use Rattle.chunk_server.specs.Shelves.{shelved};

    ghost state = { λ s. shelved F.files F.faults s.folder };

    ghost place = { λ s. F.place s.folder };

    ghost digest = { λ s. s.kind };

    ghost takes = { λ s. s.writable };

    ghost may = { λ _ _ _. Unit {0} };

    fn answer(&mut self, act: &Act, body: &[u8]) -> Result<Reply, Memory> {
        self.apply(act, body)
    }

    fn kind(&self) -> DigestKind {
        self.kind
    }

    fn writable(&self) -> bool {
        self.writable
    }
}
