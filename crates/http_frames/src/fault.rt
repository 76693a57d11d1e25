//! Why no message was read.

/// Why the head of a reply, or a body, wasn't read.
#[derive(Clone, Copy, Debug, PartialEq, Eq)]
pub enum WireFault {
    /// The first 16,384 bytes have no head end. Who receives the bytes answers it, and no call of this crate.
    HeadTooLong,
    /// The bytes are no head of a reply, or one of more than 64 header lines.
    BadHead,
    /// The head doesn't say in a right way which body follows.
    Framing,
    /// A size line, the end of a chunk or what follows the last one isn't spelled as it has to be, or is too long.
    BadChunk,
    /// The body has more bytes than the slice holds.
    BodyTooLong,
    /// The bytes end before the head or the body does.
    CutShort,
}
