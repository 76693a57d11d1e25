//! Why a range of an image isn't read. Entries and stores are numbered from 0.

ghost use Rattle.std.specs.Prelude.{◌≡◌};
ghost use Rattle.image_reader.specs.Refusals.{read_refused_of};

use chunk_store::id::ChunkId;
use chunk_store::shows::Shows;
use chunk_store::store::Giver;
use store_chain::refused::Refused;

/// Why a range of an image isn't read.
#[derive(Clone, Copy, Debug, PartialEq, Eq)]
pub enum ReadRefused {
    /// The chunk of this entry isn't kept, and no store holds anything under its id.
    Missing {
        entry: u64,
        id: ChunkId,
    },
    /// The chunk of this entry isn't kept, the first store that holds something under its id holds something else, and
    /// what that shows.
    Damaged {
        entry: u64,
        id: ChunkId,
        store: Giver,
        shows: Shows,
    },
    /// The first store that failed.
    StoreFault {
        store: u32,
    },
    Memory,
}

impl ReadRefused {
    /// The refusal where the stores refuse the chunk of an entry.
    pub(crate) fn of(entry: u64, id: ChunkId, refused: Refused) -> ReadRefused
        ensures { result ≡ read_refused_of entry id refused }
    {
        match refused {
            Refused::Missing => ReadRefused::Missing { entry, id },
            Refused::Damaged { store, shows } => ReadRefused::Damaged {
                entry,
                id,
                store,
                shows,
            },
            Refused::StoreFault { store } => ReadRefused::StoreFault { store },
            Refused::Memory => ReadRefused::Memory,
        }
    }
}
