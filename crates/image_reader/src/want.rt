//! What is asked of the stores: a chunk by its id and its size in bytes.

ghost use Rattle.std.specs.Prelude.{◌≡◌, ◌<◌};
ghost use Rattle.caibx_codec.specs.Listing.{count_of};
ghost use Rattle.image_reader.specs.Covered.{want_of};

use caibx_codec::index::Index;
use chunk_store::id::ChunkId;

/// A chunk by its id and its size.
#[derive(Clone, Copy, Debug, PartialEq, Eq, Hash)]
pub struct Want {
    pub id: ChunkId,
    pub size: usize,
}

impl Want {
    /// The chunk of entry i.
    pub(crate) fn of(index: &Index, i: usize) -> Want
        requires { i < count_of index.now }
        ensures { result ≡ want_of index.now i }
    {
        let listed = index.entry(i);
        Want {
            id: listed.id,
            size: listed.size,
        }
    }
}
