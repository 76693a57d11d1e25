//! Which body follows a head by its header lines (RFC 9112, sections 6.1 to 6.3).

ghost use Rattle.std.specs.Prelude.{◌≡◌, ℕ, ◌≤◌, length, map, All};
ghost use Rattle.httparse.specs.Spans.{header_bytes, IsHeaderWithin};
ghost use Rattle.http_wire.specs.Reply.{agreed, by_coding, coded, length_read, note, notes, unframed};

use crate::words::is_word;
use http_frames::body::BodyKind;
use http_frames::fault::WireFault;
use httparse::spans::HeaderSpan;

/// How many digits a `Content-Length` may have. More could pass the range of 64 bits.
const DIGIT_LIMIT: usize = 18;

/// What the lines `Transfer-Encoding` come to.
#[derive(Clone, Copy, Debug, PartialEq, Eq)]
pub enum Coding {
    Absent,
    /// There is one, and it is `chunked`.
    Chunked,
    /// There is another one, or more than one.
    Other,
}

/// What the lines `Content-Length` come to.
#[derive(Clone, Copy, Debug, PartialEq, Eq)]
pub enum ContentLength {
    Absent,
    /// Each of them is this number.
    Number(u64),
    /// One is no number, or two are unequal.
    Wrong,
}

/// What both come to.
#[derive(Clone, Copy, Debug, PartialEq, Eq)]
pub struct Framing {
    pub coding: Coding,
    pub told: ContentLength,
}

// The number that digits write, at least one and not too many.
fn length_in(value: &[u8]) -> Option<u64>
    ensures { result ≡ length_read value.now }
{
    if value.is_empty() {
        return None;
    }
    if value.len() > DIGIT_LIMIT {
        return None;
    }
    let mut number = 0u64;
    for byte in value {
        if !byte.is_ascii_digit() {
            return None;
        }
        number = number * 10 + (*byte - b'0') as u64;
    }
    Some(number)
}

impl ContentLength {
    // One value more.
    fn and(self, length: Option<u64>) -> ContentLength
        ensures { result ≡ agreed self length }
    {
        match (self, length) {
            (ContentLength::Absent, Some(number)) => ContentLength::Number(number),
            (ContentLength::Number(before), Some(number)) if before == number =>
                ContentLength::Number(before),
            _ => ContentLength::Wrong,
        }
    }
}

impl Coding {
    // One value more.
    fn and(self, value: &[u8]) -> Coding
        ensures { result ≡ coded self value.now }
    {
        match self {
            Coding::Absent if is_word(value, b"chunked") => Coding::Chunked,
            _ => Coding::Other,
        }
    }
}

impl Framing {
    // One line more. Other lines say nothing of the body.
    #[tactic(auto, unfolding(crate::specs::Reply::note))]
    fn note(self, name: &[u8], value: &[u8]) -> Framing
        ensures { result ≡ note self (name.now, value.now) }
    {
        if is_word(name, b"transfer-encoding") {
            return Framing {
                coding: self.coding.and(value),
                told: self.told,
            };
        }
        if is_word(name, b"content-length") {
            return Framing {
                coding: self.coding,
                told: self.told.and(length_in(value)),
            };
        }
        self
    }

    /// What these lines of the head come to. Places count from the head's first byte.
    pub fn of(head: &[u8], lines: &[HeaderSpan]) -> Framing
        requires inside { All (IsHeaderWithin (length head.now)) lines.now }
        ensures { result ≡ notes unframed (map (header_bytes head.now) lines.now) }
    {
        let mut framing = Framing {
            coding: Coding::Absent,
            told: ContentLength::Absent,
        };
        for line in lines {
            framing = framing.note(line.name.of(head), line.value.of(head));
        }
        framing
    }

    /// The body that follows. A `Transfer-Encoding` overrides each `Content-Length` (section 6.3, rule 3).
    pub fn kind(self) -> Result<BodyKind, WireFault>
        ensures { result ≡ by_coding self.coding self.told }
    {
        match (self.coding, self.told) {
            (Coding::Chunked, _) => Ok(BodyKind::Chunked),
            (Coding::Absent, ContentLength::Absent) => Ok(BodyKind::ToEnd),
            (Coding::Absent, ContentLength::Number(number)) => Ok(BodyKind::Length(number)),
            _ => Err(WireFault::Framing),
        }
    }
}
