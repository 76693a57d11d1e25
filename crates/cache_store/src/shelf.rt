//! A folder of chunks as a shelf: what is found on it is named first, and what is added has its name.
//! Sizes are in bytes.

ghost use Rattle.std.specs.Prelude.{◌≡◌, ℕ, ◌≤◌, List, length, Err, Ok, Some, IfSome, IfOk, OnOk, OnErr};
ghost use Rattle.std.specs.List.{Any};
ghost use Rattle.std.specs.Option.{option_map};
ghost use Rattle.cache_store.specs.Shelves.{Finds, IsPair};
ghost use Rattle.chunk_store.specs.Folders.{chunks};
ghost use Rattle.chunk_store.specs.Gets.{GetGives};
ghost use Rattle.chunk_store.specs.Digests.{digest_of};
ghost use Rattle.chunk_store.specs.declared.id.DigestKind.TheVariants as kinds;
ghost use Rattle.dir_store.specs.Puts.{LeavesTemporary, PutsAtPath};
ghost use Rattle.dsy_base.specs.Counts.{CountsFaults};
ghost use Rattle.dsy_base.specs.Maps.{Map};
ghost use Rattle.store_chain.specs.Queries.{FillsQuery, query_of};

use chunk_store::id::{ChunkId, DigestKind};
use chunk_store::shows::Shows;
use chunk_store::store::{GetFault, Store};
use dir_store::store::DirStore;
use dsy_base::fault::IoFault;
use dsy_base::folder::Folder;
use std::marker::Model;
use store_chain::query::Query;

/// Why a shelf doesn't give a chunk.
#[derive(Clone, Copy, Debug, PartialEq, Eq)]
pub enum CacheMiss {
    /// It has no file of this chunk.
    Absent,
    /// The file holds something else, and what that shows.
    Wrong(Shows),
    Failed,
    Memory,
}

/// The chunk files of a folder, which is asked before stores.
#[derive(Drop)]
pub struct CacheShelf<F: Folder> {
    store: DirStore<F>,
    kind: DigestKind,
}

impl<F: Folder> Model for CacheShelf<F> {
    ghost use Rattle.cache_store.specs.Shelves.{Shelved};

    ghost Value = { Shelved F };

    ghost view = { λ s. record { folder = s.store; kind = s.kind } };
}

/// What a look for the chunk has found, by what reading its file has answered and by the bytes that were read, which
/// are all that was lent. Here the digest is computed.
pub fn judge(
    query: &Query,
    answer: Result<usize, GetFault>,
    lent: &[u8],
) -> Result<usize, CacheMiss>
    requires size { query.now.lent ≡ length lent.now }
    requires inside { IfOk answer (λ n. n ≤ length lent.now) }
    ensures ok { IfOk result (λ n. (answer ≡ Ok n) × FillsQuery query.now n lent.now) }
    ensures found { (m : Map (List ℕ)) → GetGives (m query.now.id.0) answer lent.now
        → Finds query.now m result lent.now }
    ensures only { result ≡ Err CacheMiss.Failed → answer ≡ Err GetFault.Failed }
    ensures memory { result ≡ Err CacheMiss.Memory → answer ≡ Err GetFault.Memory }
{
    match answer {
        Ok(n) => {
            let (bytes, _) = lent.split_at(n);
            match query.shown(bytes) {
                None => Ok(n),
                Some(shows) => Err(CacheMiss::Wrong(shows)),
            }
        }
        Err(GetFault::Missing) => Err(CacheMiss::Absent),
        Err(GetFault::Longer) => Err(CacheMiss::Wrong(Shows::Longer)),
        Err(GetFault::Failed) => Err(CacheMiss::Failed),
        Err(GetFault::Memory) => Err(CacheMiss::Memory),
    }
}

impl<F: Folder> CacheShelf<F> {
    /// Chunks are named by SHA-512/256.
    pub fn new(folder: F) -> CacheShelf<F>
        ensures { result ≡ record { folder = folder; kind = kinds.Sha512T256 } }
    {
        CacheShelf::with_kind(DigestKind::Sha512T256, folder)
    }

    /// Chunks are named by this digest.
    pub fn with_kind(kind: DigestKind, folder: F) -> CacheShelf<F>
        ensures { result ≡ record { folder = folder; kind = kind } }
    {
        CacheShelf {
            store: DirStore::new(folder),
            kind,
        }
    }

    pub fn into_inner(self) -> F
        ensures { result ≡ self.folder }
    {
        self.store.into_inner()
    }

    /// Which digest names the chunks.
    pub fn kind(&self) -> DigestKind
        ensures { result ≡ self.now.kind }
    {
        self.kind
    }

    /// Reads the file of this id to the front of `lent`, and answers how many bytes it has. No digest is computed: what
    /// was read has to be judged.
    pub fn read(&mut self, id: &ChunkId, lent: &mut [u8]) -> Result<usize, GetFault>
        ensures bytes { IfSome (option_map chunks (F.files self.old.folder))
            (λ m. GetGives (m id.now.0) result lent.new) }
        ensures inside { IfOk result (λ n. n ≤ length lent.new) }
        ensures kept { F.files self.new.folder ≡ F.files self.old.folder }
        ensures place { F.place self.new.folder ≡ F.place self.old.folder }
        ensures kind { self.new.kind ≡ self.old.kind }
        ensures faults { CountsFaults GetFault.Failed GetFault.Memory
            (F.faults self.old.folder) (F.faults self.new.folder) result }
    {
        self.store.get(id, lent)
    }

    /// Fills the front of `out` with the chunk of this id, and of this size where one is given, and answers its size.
    /// Where a size is given, the folder is lent only that much of `out`.
    pub fn find(
        &mut self,
        id: &ChunkId,
        size: Option<usize>,
        out: &mut [u8],
    ) -> Result<usize, CacheMiss>
        requires inside { IfSome size (λ n. n ≤ length out.old) }
        ensures ok { IfOk result (λ n. FillsQuery (query_of self.old.kind id.now size (length out.old)) n out.new) }
        ensures found { IfSome (option_map chunks (F.files self.old.folder))
            (λ m. Finds (query_of self.old.kind id.now size (length out.old)) m result out.new) }
        ensures kept { F.files self.new.folder ≡ F.files self.old.folder }
        ensures place { F.place self.new.folder ≡ F.place self.old.folder }
        ensures kind { self.new.kind ≡ self.old.kind }
        ensures faults { CountsFaults CacheMiss.Failed CacheMiss.Memory
            (F.faults self.old.folder) (F.faults self.new.folder) result }
    {
        let query = Query::of(self.kind, id, size, out.len());
        let (lent, _) = out.split_at_mut(query.lent);
        let answer = self.read(id, lent);
        judge(&query, answer, lent)
    }

    /// Puts the chunk of this id there, in the place of what stood there. Where the type of the folder names the chunks
    /// that it may hold, or stores, this has to be one of those chunks, and held by one of the stores.
    pub fn add(&mut self, id: &ChunkId, b: &[u8]) -> Result<(), IoFault>
        requires named { digest_of self.old.kind b.now ≡ id.now.0 }
        requires listed { IfSome F.pairs (IsPair id.now.0 (length b.now)) }
        requires held { IfSome F.stores (Any (λ m. m id.now.0 ≡ Some b.now)) }
        ensures ok { OnOk result (PutsAtPath id.now.0 b.now (F.files self.old.folder) (F.files self.new.folder)) }
        ensures err { OnErr result (LeavesTemporary id.now.0 (F.files self.old.folder) (F.files self.new.folder)) }
        ensures place { F.place self.new.folder ≡ F.place self.old.folder }
        ensures kind { self.new.kind ≡ self.old.kind }
        ensures faults { CountsFaults IoFault.Failed IoFault.Memory
            (F.faults self.old.folder) (F.faults self.new.folder) result }
    {
        self.store.write(id, b)
    }
}
