//! Why an image can't be assembled. Entries and stores count from 0.

ghost use Rattle.std.specs.Prelude.{◌≡◌, ◌≢◌, true, false};
ghost use Rattle.assembler.specs.Faults.{fault_of};

use chunk_store::id::ChunkId;
use chunk_store::shows::Shows;
use chunk_store::store::Giver;
use store_chain::refused::Refused;

/// Why an assembly was refused.
#[derive(Clone, Copy, Debug, PartialEq, Eq)]
pub enum ExtractFault {
    /// No source has the chunk of this entry, and no store holds anything under its id.
    Missing {
        entry: u64,
        id: ChunkId,
    },
    /// No source has the chunk of this entry. The first store that holds something under its id, and what that shows.
    Damaged {
        entry: u64,
        id: ChunkId,
        store: Giver,
        shows: Shows,
    },
    /// The first store that failed, where no source gave a chunk.
    StoreFault {
        store: u32,
    },
    TargetFault,
    Memory,
}

/// An entry whose chunk no source gave, and what the stores answered.
#[derive(Clone, Copy, Debug, PartialEq, Eq)]
pub struct Lost {
    pub entry: usize,
    pub id: ChunkId,
    pub refused: Refused,
}

/// Why open entries of a want stay open.
#[derive(Clone, Copy, Debug, PartialEq, Eq)]
pub(crate) enum Unsettled {
    /// The first of them, whose chunk no source gave.
    Lost(Lost),
    /// A write failed.
    TargetFault,
}

impl Lost {
    /// Whether the stores had no memory.
    pub(crate) fn lacked_memory(&self) -> bool
        ensures yes { result ≡ true → self.now.refused ≡ Refused.Memory }
        ensures no { result ≡ false → self.now.refused ≢ Refused.Memory }
    {
        self.refused == Refused::Memory
    }

    /// The answer of an assembly whose first lost entry this is.
    pub(crate) fn fault(&self) -> ExtractFault
        ensures { result ≡ fault_of self.now.entry self.now.id self.now.refused }
    {
        let entry = self.entry as u64;
        let id = self.id;
        match self.refused {
            Refused::Missing => ExtractFault::Missing { entry, id },
            Refused::Damaged { store, shows } => ExtractFault::Damaged {
                entry,
                id,
                store,
                shows,
            },
            Refused::StoreFault { store } => ExtractFault::StoreFault { store },
            Refused::Memory => ExtractFault::Memory,
        }
    }
}
