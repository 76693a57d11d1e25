//! Why a reply wasn't taken.

use http_frames::fault::WireFault;

/// Why a reply wasn't taken.
#[derive(Clone, Copy, Debug, PartialEq, Eq)]
pub enum BadReply {
    /// It has this status, which isn't one of those that are wanted.
    Status(u16),
    /// It isn't a whole reply of HTTP.
    Wire(WireFault),
}

/// Why what comes on a connection isn't read.
#[derive(Clone, Copy, Debug, PartialEq, Eq)]
pub enum Unread {
    Wire(WireFault),
    /// The connection failed.
    Failed,
}

/// Why an ask has no answer.
#[derive(Clone, Copy, Debug, PartialEq, Eq)]
pub enum Unanswered {
    Bad(BadReply),
    /// The connection failed.
    Failed,
    Memory,
}
