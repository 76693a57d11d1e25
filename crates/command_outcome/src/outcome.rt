//! How a command ends.

ghost use Rattle.std.specs.Prelude.{◌≡◌};
ghost use Rattle.command_outcome.specs.Statuses.{status_of};

use caibx_fields::fault::IndexFault;
use chunk_ends::sizes::SizeFault;
use chunk_store::id::ChunkId;
use chunk_store::shows::Shows;
use chunk_store::store::Giver;
use command_words::usage::UsageWhy;
use dsy_base::name::Name;

/// How a command ended. Numbers of entries, stores and words are from 0.
#[derive(Debug, Drop)]
pub enum Outcome {
    Done,
    /// The words are no command; `place` is the word at which that shows.
    Usage {
        place: u64,
        why: UsageWhy,
    },
    NoFile {
        name: Name,
    },
    NoFolder {
        name: Name,
    },
    /// The file is no index.
    BadIndex {
        name: Name,
        fault: IndexFault,
    },
    /// Images can't be cut by the sizes.
    Sizes(SizeFault),
    /// The store holds nothing under the id.
    Missing {
        entry: u64,
        id: ChunkId,
    },
    /// The store holds other bytes under the id: the one of this number, where its `member` is 0.
    Damaged {
        entry: u64,
        id: ChunkId,
        store: Giver,
        shows: Shows,
    },
    /// The chunk of this entry has the digest `got`, and the index lists another.
    Mismatch {
        entry: u64,
        got: ChunkId,
    },
    /// The file's size in bytes, where the index lists another.
    Length {
        size: u64,
    },
    /// A chunk of the image had this id, and another when it was read again.
    Changed {
        entry: u64,
        was: ChunkId,
        got: ChunkId,
    },
    StoreFault {
        store: u32,
    },
    /// A chunk couldn't be put into the cache.
    CacheFault,
    TargetFault,
    /// A call on the file or folder of this name failed.
    FileFault {
        name: Name,
    },
    /// The output took not all of what was printed.
    OutFault,
    /// Opening or reading the image failed.
    ImageFault,
    /// Listening at an address, or taking the next connection there, failed.
    ListenFault,
    /// So many damaged chunk files were found and left.
    DamagedLeft {
        count: u64,
    },
    /// The image has more chunks than an index may list; or the indexes of the seeds, or those by which a store is
    /// pruned, list more than 2^23 together.
    TooManyItems,
    Memory,
}

/// How a command ended, and the status that the program ends with: 0 where it is done, else 1.
#[derive(Debug, Drop)]
pub struct Ended {
    pub status: u8,
    pub outcome: Outcome,
}

impl Outcome {
    /// The status that the program ends with: 0 where the command is done, else 1.
    pub fn status(&self) -> u8
        ensures { result ≡ status_of self.now }
    {
        match self {
            Outcome::Done => 0,
            _ => 1,
        }
    }
}
