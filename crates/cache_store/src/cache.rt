//! What is asked for a chunk before a chain of stores, and filled with what they give. Sizes are in bytes.

ghost use Rattle.std.specs.Prelude.{◌≡◌, ◌≢◌, ℕ, ◌≤◌, List, length, take, Option, Some, IfErr, IfOk, IfSome, Result};
ghost use Rattle.std.specs.List.{Any};
ghost use Rattle.cache_store.specs.Shelves.{IsPair, KeepsShelf, MayHold, Shelf, Stocks, held_on, shelf_of};
ghost use Rattle.cache_store.specs.Through.{AddedTo, Unfound, kept_by};
ghost use Rattle.cache_store.specs.declared.cached.Kept.{Kept};
ghost use Rattle.chunk_store.specs.Digests.{digest_of};
ghost use Rattle.dsy_base.specs.Maps.{Map};
ghost use Rattle.store_chain.specs.Queries.{FillsQuery, query_of};

use crate::shelf::{CacheMiss, CacheShelf};
use chunk_store::id::ChunkId;
use chunk_store::laws::id_has_32_bytes;
use dir_store::laws::{chunk_names, put_changes_one_chunk, put_leaves_a_temporary};
use dsy_base::fault::IoFault;
use dsy_base::folder::Folder;

/// A shelf of one's own, or one that others ask and fill meanwhile. Its type names what may be added.
pub trait Cache: Drop {
    /// The shelf as contracts see it.
    ghost shelf: { Self → Shelf };

    /// The ids of the chunks that may be added, each with its size, where the type names them.
    ghost pairs: { Option (List (List ℕ × ℕ)) };

    /// The maps of the stores of which one has to hold what is added, where the type names them.
    ghost stores: { Option (List (Map (List ℕ))) };

    /// What one look leaves. A caller that is generic in the cache can show it only by a call of `look`.
    ghost looks: { Self → Self → Type 0 };

    /// What one addition of these bytes under this id leaves, which ended so. Such a caller can show it only by a call
    /// of `keep`.
    ghost adds: { List ℕ → List ℕ → Kept → Self → Self → Type 0 };

    /// Fills the front of `out` with the chunk of this id, and of this size where one is given, and answers its size.
    fn look(
        &mut self,
        id: &ChunkId,
        size: Option<usize>,
        out: &mut [u8],
    ) -> Result<usize, CacheMiss>
        requires inside { IfSome size (λ n. n ≤ length out.old) }
        ensures ok { IfOk result (λ n. FillsQuery (query_of (shelf self.old).kind id.now size (length out.old)) n
            out.new) }
        ensures found { IfOk result (λ n. IfSome (held_on (shelf self.old))
            (λ m. MayHold (shelf self.old).others m id.now.0 (take n out.new))) }
        ensures absent { IfErr result (λ m. m ≢ CacheMiss.Memory →
            Unfound (query_of (shelf self.old).kind id.now size (length out.old)) (shelf self.old) (shelf self.new)) }
        ensures changed { looks self.old self.new }
        ensures kept { KeepsShelf (shelf self.old) (shelf self.new) };

    /// Adds the chunk of this id, in the place of what stood there.
    fn keep(&mut self, id: &ChunkId, b: &[u8]) -> Result<(), IoFault>
        requires named { digest_of (shelf self.old).kind b.now ≡ id.now.0 }
        requires listed { IfSome pairs (IsPair id.now.0 (length b.now)) }
        requires held { IfSome stores (Any (λ m. m id.now.0 ≡ Some b.now)) }
        ensures stocks { Stocks (λ q x. (q ≡ id.now.0) × (x ≡ b.now)) (shelf self.old) (shelf self.new) }
        ensures added { AddedTo id.now.0 b.now (kept_by result) (shelf self.old) (shelf self.new) }
        ensures changed { adds id.now.0 b.now (kept_by result) self.old self.new };

    /// A shared shelf names its chunks as others do who add to it.
    ghost digest: { (s : Self) → IfSome (shelf s).others (λ o. (shelf s).kind ≡ o.kind) };
}

impl<F: Folder> Cache for CacheShelf<F> {
    ghost use Rattle.cache_store.specs.Shelves.{KeepsShelf, shelf_of};
    ghost use Rattle.cache_store.specs.Through.{AddedTo};

    ghost shelf = { λ s. shelf_of F.files F.place F.faults s };

    ghost pairs = { F.pairs };

    ghost stores = { F.stores };

    ghost looks = { λ s t. KeepsShelf (shelf_of F.files F.place F.faults s) (shelf_of F.files F.place F.faults t) };

    ghost adds = { λ id b k s t.
        AddedTo id b k (shelf_of F.files F.place F.faults s) (shelf_of F.files F.place F.faults t) };

    fn look(
        &mut self,
        id: &ChunkId,
        size: Option<usize>,
        out: &mut [u8],
    ) -> Result<usize, CacheMiss> {
        self.find(id, size, out)
    }

    fn keep(&mut self, id: &ChunkId, b: &[u8]) -> Result<(), IoFault> {
        id_has_32_bytes(id);
        put_changes_one_chunk();
        put_leaves_a_temporary();
        chunk_names();
        self.add(id, b)
    }

    ghost digest = { λ _. tt };
}
