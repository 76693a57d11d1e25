//! What bytes show that aren't the chunk that was asked for.

use crate::id::ChunkId;

/// What bytes that a store holds under an id show where they aren't the chunk.
#[derive(Clone, Copy, Debug, PartialEq, Eq)]
pub enum Shows {
    /// They have this digest, which isn't the id.
    Digest(ChunkId),
    /// They have the digest, but another size than was asked for: this many bytes.
    Length(u64),
    /// They are more bytes than were asked for.
    Longer,
}
