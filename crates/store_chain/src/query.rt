//! What is asked of each store of a chain: a chunk by its id. Sizes are in bytes.

ghost use Rattle.std.specs.Prelude.{◌≡◌, ◌≢◌, ◌≤◌, length, true, false, MatchOption};
ghost use Rattle.store_chain.specs.Queries.{query_of, IsWanted, ShowsElse};

use chunk_store::id::{ChunkId, DigestKind};
use chunk_store::shows::Shows;

/// What is asked of each store.
#[derive(Clone, Copy, Debug)]
pub struct Query {
    pub kind: DigestKind,
    pub id: ChunkId,
    /// The size of the chunk, where one is asked.
    pub size: Option<usize>,
    /// So many bytes are lent to each store.
    pub lent: usize,
}

// Whether the two ids differ.
fn differ(a: &ChunkId, b: &ChunkId) -> bool
    ensures yes { result ≡ true → a.now.0 ≢ b.now.0 }
    ensures no { result ≡ false → a.now.0 ≡ b.now.0 }
{
    a.0.as_slice() != b.0.as_slice()
}

impl Query {
    /// Where a size is asked, a store is lent only that much of the room.
    pub fn of(kind: DigestKind, id: &ChunkId, size: Option<usize>, room: usize) -> Query
        ensures { result ≡ query_of kind id.now size room }
    {
        Query {
            kind,
            id: *id,
            size,
            lent: size.unwrap_or(room),
        }
    }

    /// What the bytes show, if they aren't what is asked.
    pub fn shown(&self, bytes: &[u8]) -> Option<Shows>
        requires inside { length bytes.now ≤ self.now.lent }
        ensures { MatchOption result (IsWanted self.now bytes.now) (ShowsElse self.now bytes.now) }
    {
        let name = ChunkId::of(self.kind, bytes);
        if differ(&name, &self.id) {
            return Some(Shows::Digest(name));
        }
        match self.size {
            Some(size) if size != bytes.len() => Some(Shows::Length(bytes.len() as u64)),
            _ => None,
        }
    }
}
