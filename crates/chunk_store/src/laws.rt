//! Laws of ids and their paths, for the crates above. Nothing is done: each function's contract is the law.

ghost use Rattle.std.specs.Prelude.{◌≡◌, ◌≢◌, ℕ, List, IsTrue};
ghost use Rattle.chunk_store.specs.Digests.{IsId};
ghost use Rattle.chunk_store.specs.Paths.{path_of};
ghost use Rattle.dsy_base.specs.Folders.{temporary_of};
ghost use Rattle.dsy_base.specs.Maps.{is_listed};

use crate::id::ChunkId;

fn array_is_id(bytes: &[u8; 32])
    ensures size { IsId bytes.now }
{
    let _first = bytes[0];
}

/// Every id is 32 bytes.
pub fn id_has_32_bytes(id: &ChunkId)
    ensures size { IsId id.now.0 }
{
    array_is_id(&id.0);
}

/// A path is that of one id: no other list of numbers has it.
pub fn path_names_one_id()
    ensures named { (a b : List ℕ) → IsId b → path_of a ≡ path_of b → a ≡ b }
{}

/// A temporary file is at no path.
pub fn temporary_is_no_path()
    ensures only { (q id : List ℕ) → temporary_of q ≢ path_of id }
{}

/// A folder lists the paths, and a temporary file exactly where it lists the file.
pub fn path_is_listed()
    ensures listed { (id : List ℕ) → IsTrue (is_listed (path_of id)) }
    ensures taken { (q : List ℕ) → is_listed (temporary_of q) ≡ is_listed q }
{}
