//! What stands behind a cache's lock: a shelf whose folder has kept what its type names. Sizes are in bytes.

ghost use Rattle.std.specs.Prelude.{◌≡◌, ◌≤◌, length, Some, IfOk, IfSome, OnErr, OnOk};
ghost use Rattle.cache_store.specs.Shelves.{MayAdd, shelf_of};
ghost use Rattle.chunk_store.specs.Kinds.{kind_named};
ghost use Rattle.dir_store.specs.Puts.{LeavesTemporary, PutsAtPath};
ghost use Rattle.dsy_base.specs.Counts.{CountsFaults};
ghost use Rattle.locked_cache.specs.Additions.{ReadsStocked, StocksSince};

use cache_store::shelf::CacheShelf;
use chunk_store::id::ChunkId;
use chunk_store::laws::id_has_32_bytes;
use chunk_store::store::GetFault;
use dir_store::laws::{chunk_names, put_changes_one_chunk, put_leaves_a_temporary};
use dsy_base::fault::IoFault;
use dsy_base::folder::Folder;
use std::marker::Model;

/// A shelf of the kind that its folder's type names, whose folder began with the files that this type names, and to
/// which only chunks were added that the type allows.
#[derive(Drop)]
pub struct StockedShelf<F: Folder> {
    shelf: CacheShelf<F>,
}

impl<F: Folder> Model for StockedShelf<F> {
    ghost use Rattle.std.specs.Prelude.{◌≡◌};
    ghost use Rattle.cache_store.specs.Shelves.{MayAdd, Shelved, shelf_of};
    ghost use Rattle.chunk_store.specs.Kinds.{kind_named};
    ghost use Rattle.locked_cache.specs.Additions.{StocksSince};

    ghost Value = { Shelved F };

    ghost view = { λ s. s.shelf };

    ghost invariant = { λ s. (s.shelf.kind ≡ kind_named F.kind)
        × StocksSince (MayAdd (kind_named F.kind) F.pairs F.stores) F.opening
        (shelf_of F.files F.place F.faults s.shelf) };
}

impl<F: Folder> StockedShelf<F> {
    pub fn new(shelf: CacheShelf<F>) -> StockedShelf<F>
        requires kind { shelf.kind ≡ kind_named F.kind }
        requires opening { IfSome F.opening (λ first. F.files shelf.folder ≡ Some first) }
        ensures { result ≡ shelf }
    {
        StockedShelf { shelf }
    }

    pub fn into_inner(self) -> CacheShelf<F>
        ensures same { result ≡ self }
        ensures kind { result.kind ≡ kind_named F.kind }
        ensures stocked { StocksSince (MayAdd (kind_named F.kind) F.pairs F.stores) F.opening
            (shelf_of F.files F.place F.faults result) }
    {
        self.shelf
    }

    /// Reads the file of this id. No digest is computed, since others wait for the lock meanwhile.
    pub fn read(&mut self, id: &ChunkId, lent: &mut [u8]) -> Result<usize, GetFault>
        ensures bytes { ReadsStocked (MayAdd (kind_named F.kind) F.pairs F.stores) F.opening id.now.0 result lent.new }
        ensures inside { IfOk result (λ n. n ≤ length lent.new) }
        ensures kept { F.files self.new.folder ≡ F.files self.old.folder }
        ensures place { F.place self.new.folder ≡ F.place self.old.folder }
        ensures faults { CountsFaults GetFault.Failed GetFault.Memory
            (F.faults self.old.folder) (F.faults self.new.folder) result }
    {
        self.shelf.read(id, lent)
    }

    /// Puts a chunk there that may be added, in the place of what stood there.
    pub fn add(&mut self, id: &ChunkId, b: &[u8]) -> Result<(), IoFault>
        requires may { MayAdd (kind_named F.kind) F.pairs F.stores id.now.0 b.now }
        ensures ok { OnOk result (PutsAtPath id.now.0 b.now (F.files self.old.folder) (F.files self.new.folder)) }
        ensures err { OnErr result (LeavesTemporary id.now.0 (F.files self.old.folder) (F.files self.new.folder)) }
        ensures place { F.place self.new.folder ≡ F.place self.old.folder }
        ensures faults { CountsFaults IoFault.Failed IoFault.Memory
            (F.faults self.old.folder) (F.faults self.new.folder) result }
    {
        id_has_32_bytes(id);
        chunk_names();
        put_leaves_a_temporary();
        put_changes_one_chunk();
        self.shelf.add(id, b)
    }
}
