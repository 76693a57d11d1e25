//! Laws of the names and files in a folder store, for the crates above. Nothing is done: each function's contract is
//! the law.

ghost use Rattle.std.specs.Prelude.{◌≡◌, ◌↔◌, ℕ, List, IsTrue, false, Option, Some};
ghost use Rattle.chunk_store.specs.Folders.{chunks};
ghost use Rattle.chunk_store.specs.Digests.{IsId};
ghost use Rattle.chunk_store.specs.Paths.{path_of};
ghost use Rattle.dir_store.specs.Names.{id_at_path, is_temporary};
ghost use Rattle.dsy_base.specs.Folders.{temporary_of, put_in};
ghost use Rattle.dsy_base.specs.Maps.{Map, at_name};

use chunk_store::laws::{path_names_one_id, temporary_is_no_path};

/// A name is a chunk file's exactly where it is the path of an id, and then of that one.
pub fn chunk_names()
    ensures exactly { (q id : List ℕ) → (id_at_path q ≡ Some id) ↔ (IsId id × (path_of id ≡ q)) }
{}

/// No chunk file has a temporary file's name.
pub fn chunk_is_no_temporary()
    ensures only { (id : List ℕ) → is_temporary (path_of id) ≡ false }
{}

/// The file into which a put writes first has a temporary file's name.
pub fn put_leaves_a_temporary()
    ensures named { (q : List ℕ) → IsTrue (is_temporary (temporary_of q)) }
{}

/// A chunk's file that is put changes what is held under its id alone, and its temporary file changes nothing of that.
pub fn put_changes_one_chunk()
    ensures holds { (id b : List ℕ) (m : Map (List ℕ)) → IsId id →
        chunks (put_in m (path_of id) b) ≡ at_name (chunks m) id (Some b) }
    ensures kept { (id : List ℕ) (x : Option (List ℕ)) (m : Map (List ℕ)) →
        chunks (at_name m (temporary_of (path_of id)) x) ≡ chunks m }
{
    path_names_one_id();
    temporary_is_no_path();
}
