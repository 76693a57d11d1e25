//! How far the reading of a body has come (RFC 9112, sections 6.3, 7.1 and 8). Everything is counted in bytes.

ghost use Rattle.std.specs.Prelude.{◌≡◌, ℕ, ◌+◌, ◌<◌, ◌≤◌, ◌++◌, ◌∷◌, [], List, length, take, IfOk};
ghost use Rattle.http_frames.specs.Body.{push_to_body, reads_body, body_start, is_whole, may_end, sized, in_line};
ghost use Rattle.http_frames.specs.Body.{trailed, expected};
ghost use Rattle.http_frames.specs.Seen.{reading_seen, with_body, IsBetween, Misses};
ghost use Rattle.http_frames.specs.SizeLine.{size_in};
ghost use Rattle.http_frames.specs.Standing.{BodyGoes, StepsOverFront, TakesCounted};

use crate::body::BodyKind;
use crate::fault::WireFault;
use httparse::{Status, parse_chunk_size};
use std::marker::Model;

/// How many bytes a size line may have, its end included.
const LINE_LIMIT: usize = 256;

/// How many bytes the lines after the last chunk may have together, up to the end of the empty one.
const TRAILER_LIMIT: usize = 16_384;

/// What comes next of a body.
#[derive(Clone, Copy, Debug, PartialEq, Eq)]
pub enum Next {
    /// Nothing: the body is whole.
    Whole,
    /// Bytes up to the end of the connection.
    ToEnd,
    /// Bytes of a body by length.
    Length,
    /// The line that tells a chunk's size.
    SizeLine,
    /// Bytes of a chunk.
    Chunk,
    /// The CR after a chunk.
    ChunkCr,
    /// The LF after a chunk.
    ChunkLf,
    /// The first byte of a line of the trailer.
    Trailer,
    /// The second byte of one that begins with CR.
    TrailerCr,
    /// A later byte of one that isn't empty.
    TrailerLine,
}

/// How far the reading has come: what comes next, the bytes missing of the length or of the open
/// chunk, the unfinished size line, the trailer bytes, and how much of the body is filled in.
#[derive(Debug, Drop)]
pub struct Progress {
    next: Next,
    left: u64,
    line: [u8; LINE_LIMIT],
    used: usize,
    trailer: usize,
    filled: usize,
}

impl Model for Progress {
    ghost use Rattle.http_frames.specs.Seen.{ReaderKept};

    ghost Value = { ReaderKept };

    ghost use Rattle.http_frames.specs.Seen.{kept_of, HasRoomForByte};

    ghost view = { λ p. kept_of p };

    ghost invariant = { λ p. HasRoomForByte p };
}

// Puts the bytes into the slice, from this place on.
fn put(out: &mut [u8], at: usize, bytes: &[u8])
    requires { at + length bytes.now ≤ length out.old }
    ensures { take (at + length bytes.now) out.new ≡ take at out.old ++ bytes.now }
{
    let (_, back) = out.split_at_mut(at);
    let (place, _) = back.split_at_mut(bytes.len());
    place.copy_from_slice(bytes);
}

// The size that a size line tells, where it is one.
fn size_of(line: &[u8]) -> Option<u64>
    ensures { result ≡ size_in line.now }
{
    match parse_chunk_size(line) {
        Ok(Status::Complete((_, size))) => Some(size),
        Ok(Status::Partial) => None,
        Err(_) => None,
    }
}

impl Progress {
    /// Nothing is read yet.
    #[tactic(auto, unfolding(crate::specs::Body::body_start))]
    pub fn new(kind: BodyKind) -> Progress
        ensures value { (out : List ℕ) → reading_seen result out ≡ body_start kind }
        ensures size { result.filled ≡ 0 }
    {
        let (next, left) = match kind {
            BodyKind::None | BodyKind::Length(0) => (Next::Whole, 0),
            BodyKind::Length(size) => (Next::Length, size),
            BodyKind::Chunked => (Next::SizeLine, 0),
            BodyKind::ToEnd => (Next::ToEnd, 0),
        };
        Progress {
            next,
            left,
            line: [0; LINE_LIMIT],
            used: 0,
            trailer: 0,
            filled: 0,
        }
    }

    // Takes a whole size line that tells this size, or none.
    #[tactic(auto, unfolding(crate::specs::Body::sized))]
    fn open_chunk(&mut self, size: Option<u64>, room: usize) -> Result<(), WireFault>
        requires inside { self.old.filled ≤ room }
        ensures kept { self.new.filled ≡ self.old.filled }
        ensures value { (body : List ℕ) → length body ≡ self.old.filled
            → BodyGoes (sized room (with_body self.old body) size) result (with_body self.new body) }
    {
        let Some(size) = size else {
            return Err(WireFault::BadChunk);
        };
        if size == 0 {
            self.next = Next::Trailer;
            self.used = 0;
            return Ok(());
        }
        if size > (room - self.filled) as u64 {
            return Err(WireFault::BodyTooLong);
        }
        self.next = Next::Chunk;
        self.left = size;
        self.used = 0;
        Ok(())
    }

    // Takes a byte of a size line.
    #[tactic(auto, unfolding(crate::specs::Body::in_line))]
    fn take_line_byte(&mut self, byte: u8, room: usize) -> Result<(), WireFault>
        requires inside { self.old.filled ≤ room }
        ensures kept { self.new.filled ≡ self.old.filled }
        ensures value { (body : List ℕ) → length body ≡ self.old.filled
            → BodyGoes (in_line room (with_body self.old body) byte) result (with_body self.new body) }
    {
        let used = self.used;
        self.line[used] = byte;
        if byte == b'\n' {
            let size = size_of(&self.line[..used + 1]);
            return self.open_chunk(size, room);
        }
        if used + 1 >= LINE_LIMIT {
            return Err(WireFault::BadChunk);
        }
        self.used = used + 1;
        Ok(())
    }

    // Takes a byte of the trailer that doesn't end it.
    #[tactic(auto, unfolding(crate::specs::Body::trailed))]
    fn take_trailer_byte(&mut self, after: Next) -> Result<(), WireFault>
        requires between { IsBetween after }
        ensures kept { self.new.filled ≡ self.old.filled }
        ensures value { (body : List ℕ) →
            BodyGoes (trailed after (with_body self.old body)) result (with_body self.new body) }
    {
        if self.trailer >= TRAILER_LIMIT - 1 {
            return Err(WireFault::BadChunk);
        }
        self.trailer += 1;
        self.next = after;
        Ok(())
    }

    // Takes the byte where it is the wanted one.
    #[tactic(auto, unfolding(crate::specs::Body::expected))]
    fn expect(&mut self, byte: u8, wanted: u8, after: Next) -> Result<(), WireFault>
        requires between { IsBetween after }
        ensures kept { self.new.filled ≡ self.old.filled }
        ensures value { (body : List ℕ) →
            BodyGoes (expected wanted after (with_body self.old body) byte) result (with_body self.new body) }
    {
        if byte != wanted {
            return Err(WireFault::BadChunk);
        }
        self.next = after;
        Ok(())
    }

    // Takes a byte that isn't one of the body.
    #[tactic(auto, unfolding(crate::specs::Body::push_at))]
    fn take_between(&mut self, byte: u8, room: usize) -> Result<(), WireFault>
        requires inside { self.old.filled ≤ room }
        requires between { IsBetween self.old.next }
        ensures kept { self.new.filled ≡ self.old.filled }
        ensures value { (body : List ℕ) → length body ≡ self.old.filled
            → BodyGoes (push_to_body room (with_body self.old body) byte) result (with_body self.new body) }
    {
        match self.next {
            Next::SizeLine => self.take_line_byte(byte, room),
            Next::ChunkCr => self.expect(byte, b'\r', Next::ChunkLf),
            Next::ChunkLf => self.expect(byte, b'\n', Next::SizeLine),
            Next::Trailer | Next::TrailerCr if byte == b'\n' => {
                self.next = Next::Whole;
                Ok(())
            }
            Next::Trailer if byte == b'\r' => self.take_trailer_byte(Next::TrailerCr),
            Next::TrailerLine if byte == b'\n' => self.take_trailer_byte(Next::Trailer),
            _ => self.take_trailer_byte(Next::TrailerLine),
        }
    }

    // Takes the bytes that are missing, as many as are there, and tells their number.
    fn take_counted(
        &mut self,
        after: Next,
        bytes: &[u8],
        out: &mut [u8],
    ) -> Result<usize, WireFault>
        requires inside { self.old.filled ≤ length out.old }
        requires some { 0 < length bytes.now }
        requires left { 0 < self.old.left }
        requires after { Misses after 0 }
        ensures inside { self.new.filled ≤ length out.new }
        ensures size { IfOk result (λ n. (0 < n) × (n ≤ length bytes.now)) }
        ensures value { TakesCounted (length out.old) after (reading_seen self.old out.old) bytes.now result
            (reading_seen self.new out.new) }
    {
        if self.left > (out.len() - self.filled) as u64 {
            return Err(WireFault::BodyTooLong);
        }
        let count = self.left.min(bytes.len() as u64) as usize;
        put(out, self.filled, &bytes[..count]);
        self.filled += count;
        if self.left == count as u64 {
            self.next = after;
        }
        self.left -= count as u64;
        Ok(count)
    }

    // Takes all bytes, and tells their number.
    fn take_all(&mut self, bytes: &[u8], out: &mut [u8]) -> Result<usize, WireFault>
        requires inside { self.old.filled ≤ length out.old }
        requires next { self.old.next ≡ Next.ToEnd }
        ensures inside { self.new.filled ≤ length out.new }
        ensures size { IfOk result (λ n. n ≡ length bytes.now) }
        ensures value { StepsOverFront (length out.old) (reading_seen self.old out.old) bytes.now result
            (reading_seen self.new out.new) }
    {
        if bytes.len() > out.len() - self.filled {
            return Err(WireFault::BodyTooLong);
        }
        put(out, self.filled, bytes);
        self.filled += bytes.len();
        Ok(bytes.len())
    }

    // Takes the bytes at the front that are of one kind, at least one, and tells their number.
    fn step(&mut self, bytes: &[u8], out: &mut [u8]) -> Result<usize, WireFault>
        requires inside { self.old.filled ≤ length out.old }
        requires some { 0 < length bytes.now }
        ensures inside { self.new.filled ≤ length out.new }
        ensures size { IfOk result (λ n. (0 < n) × (n ≤ length bytes.now)) }
        ensures value { StepsOverFront (length out.old) (reading_seen self.old out.old) bytes.now result
            (reading_seen self.new out.new) }
    {
        match self.next {
            Next::Whole => Ok(bytes.len()),
            Next::ToEnd => self.take_all(bytes, out),
            Next::Length => self.take_counted(Next::Whole, bytes, out),
            Next::Chunk => self.take_counted(Next::ChunkCr, bytes, out),
            _ => {
                self.take_between(bytes[0], out.len())?;
                Ok(1)
            }
        }
    }

    /// Takes the next bytes, and fills in those of the body.
    pub fn feed(&mut self, piece: &[u8], out: &mut [u8]) -> Result<(), WireFault>
        requires inside { self.old.filled ≤ length out.old }
        ensures inside { self.new.filled ≤ length out.new }
        ensures value { BodyGoes (reads_body (length out.old) (reading_seen self.old out.old) piece.now) result
            (reading_seen self.new out.new) }
    {
        let mut at = 0;
        while at < piece.len() {
            at += self.step(&piece[at..], out)?;
        }
        Ok(())
    }

    /// Whether the body is whole.
    pub fn is_whole(&self) -> bool
        ensures { result ≡ is_whole self.now.next }
    {
        matches!(self.next, Next::Whole)
    }

    /// Whether the body is whole if the bytes end.
    pub fn may_end(&self) -> bool
        ensures { result ≡ may_end self.now.next }
    {
        matches!(self.next, Next::Whole | Next::ToEnd)
    }

    /// How many bytes were filled in.
    pub fn filled(&self) -> usize
        ensures { result ≡ self.now.filled }
    {
        self.filled
    }
}
