//! Why an image wasn't made. Entries count from 0.

use chunk_store::id::ChunkId;

/// Why an image wasn't made from its chunks.
#[derive(Clone, Copy, Debug, PartialEq, Eq)]
pub enum DemoFault {
    /// What was made isn't the image, or couldn't be: two unequal pieces of bytes have this id, which the entry lists.
    Mismatch { entry: u64, id: ChunkId },
    Memory,
}
