//! Which body follows the head of a message (RFC 9112, section 6.3).

/// How long a body is, in bytes.
#[derive(Clone, Copy, Debug, PartialEq, Eq)]
pub enum BodyKind {
    /// There is none.
    None,
    /// So many bytes.
    Length(u64),
    /// Chunks up to one of size 0, and the lines after it (section 7.1).
    Chunked,
    /// All bytes up to the end of the connection.
    ToEnd,
}
