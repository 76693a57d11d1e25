//! The body of a reply is received. Everything is counted in bytes.

ghost use Rattle.std.specs.Prelude.{◌≡◌, ◌≢◌, ◌<◌, ◌≤◌, ℕ, [], length, take, Err, IfOk, IfSome, Ok, OnOk, Option};
ghost use Rattle.std.specs.Prelude.{List, drop, false, true};
ghost use Rattle.dsy_base.specs.Links.{ReadsNext, Traffic};
ghost use Rattle.http_read.specs.Reads.{CountsRead, Fed, IfWire, IsBody, IsFault, Receives, is_over, left_in};
ghost use Rattle.http_frames.specs.declared.body.BodyKind.{BodyKind};

use crate::fault::Unread;
use crate::receiving::Received;
use dsy_base::link::Link;
use http_frames::body::BodyKind;
use http_frames::laws::bodies_end;
use http_frames::reader::BodyReader;

// Feeds a piece of the body.
fn feed(reader: &mut BodyReader, piece: &[u8], out: &mut [u8]) -> Result<(), Unread>
    requires inside { IfOk reader.old (λ h. h.filled ≤ length out.old) }
    ensures inside { IfOk reader.new (λ h. h.filled ≤ length out.new) }
    ensures fed { OnOk result ((k : BodyKind) (head : ℕ) (old new : Option Traffic) → Fed k head old reader.old out.old
        → ReadsNext piece.now old new → Fed k head new reader.new out.new) }
    ensures first { IfWire result (λ f. (k : BodyKind) (head : ℕ) (old new : Option Traffic)
        → Fed k head old reader.old out.old → ReadsNext piece.now old new
        → IfSome new (λ t. IsFault k head (length out.new) t f)) }
    ensures only { result ≢ Err Unread.Failed }
    ensures less { OnOk result ((k : BodyKind) (head : ℕ) (old : Option Traffic) → Fed k head old reader.old out.old
        → 0 < length piece.now → is_over reader.old ≡ false
        → left_in (length out.new) reader.new < left_in (length out.old) reader.old) }
{
    bodies_end();
    match reader.feed(piece, out) {
        Ok(()) => Ok(()),
        Err(fault) => Err(Unread::Wire(fault)),
    }
}

// Reads a piece of the body, and answers whether there was one.
fn feed_next<K: Link>(
    link: &mut K,
    reader: &mut BodyReader,
    buffer: &mut [u8],
    out: &mut [u8],
) -> Result<bool, Unread>
    requires size { 0 < length buffer.old }
    requires inside { IfOk reader.old (λ h. h.filled ≤ length out.old) }
    ensures inside { IfOk reader.new (λ h. h.filled ≤ length out.new) }
    ensures fed { IfOk result (λ _. (k : BodyKind) (head : ℕ) → Fed k head (K.state link.old).traffic reader.old out.old
        → Fed k head (K.state link.new).traffic reader.new out.new) }
    ensures end { result ≡ Ok false → IfSome (K.state link.new).traffic (λ t. t.coming ≡ []) }
    ensures first { IfWire result (λ f. (k : BodyKind) (head : ℕ)
        → Fed k head (K.state link.old).traffic reader.old out.old
        → IfSome (K.state link.new).traffic (λ t. IsFault k head (length out.new) t f)) }
    ensures less { result ≡ Ok true → (k : BodyKind) (head : ℕ)
        → Fed k head (K.state link.old).traffic reader.old out.old → is_over reader.old ≡ false
        → left_in (length out.new) reader.new < left_in (length out.old) reader.old }
    ensures kept { Receives (K.state link.old).traffic (K.state link.new).traffic }
    ensures faults { CountsRead (K.state link.old).faults (K.state link.new).faults result }
{
    match link.read(buffer) {
        Ok(0) => Ok(false),
        Ok(n) => {
            let (piece, _) = buffer.split_at(n);
            match feed(reader, piece, out) {
                Ok(()) => Ok(true),
                Err(unread) => Err(unread),
            }
        }
        Err(_) => Err(Unread::Failed),
    }
}

// A reader that was fed these bytes.
fn reader_of(kind: BodyKind, bytes: &[u8], out: &mut [u8]) -> Result<BodyReader, Unread>
    ensures inside { IfOk result (λ r. IfOk r (λ h. h.filled ≤ length out.new)) }
    ensures fed { IfOk result (λ r. (head : ℕ) (traffic : Option Traffic)
        → IfSome traffic (λ t. (head ≤ length t.received) × (drop head t.received ≡ bytes.now))
        → Fed kind head traffic r out.new) }
    ensures first { IfWire result (λ f. (head : ℕ) (traffic : Option Traffic)
        → IfSome traffic (λ t. (head ≤ length t.received) × (drop head t.received ≡ bytes.now))
        → IfSome traffic (λ t. IsFault kind head (length out.new) t f)) }
    ensures only { result ≢ Err Unread.Failed }
{
    let mut reader = BodyReader::new(kind);
    match reader.feed(bytes, out) {
        Ok(()) => Ok(reader),
        Err(fault) => Err(Unread::Wire(fault)),
    }
}

// The size of the body, where no more comes.
fn ended(reader: &mut BodyReader) -> Result<usize, Unread>
    ensures size { IfOk result (λ n. IfOk reader.old (λ h. n ≡ h.filled)) }
    ensures ok { IfOk result (λ n. (k : BodyKind) (head : ℕ) (traffic : Option Traffic) (out : List ℕ)
        → Fed k head traffic reader.old out → IfSome traffic (λ t. t.coming ≡ [])
        → IfSome traffic (λ t. IsBody k head (length out) t (take n out))) }
    ensures first { IfWire result (λ f. (k : BodyKind) (head : ℕ) (traffic : Option Traffic) (out : List ℕ)
        → Fed k head traffic reader.old out → IfSome traffic (λ t. t.coming ≡ [])
        → IfSome traffic (λ t. IsFault k head (length out) t f)) }
    ensures only { result ≢ Err Unread.Failed }
{
    match reader.finish() {
        Ok(n) => Ok(n),
        Err(fault) => Err(Unread::Wire(fault)),
    }
}

// Reads on up to the end of the body, and answers its size. Once it is whole no more is read.
fn read_on<K: Link>(
    link: &mut K,
    reader: &mut BodyReader,
    buffer: &mut [u8],
    out: &mut [u8],
) -> Result<usize, Unread>
    requires size { 0 < length buffer.old }
    requires inside { IfOk reader.old (λ h. h.filled ≤ length out.old) }
    requires fed { (k : BodyKind) × (head : ℕ) × Fed k head (K.state link.old).traffic reader.old out.old }
    ensures size { IfOk result (λ n. n ≤ length out.new) }
    ensures ok { IfOk result (λ n. (k : BodyKind) (head : ℕ)
        → Fed k head (K.state link.old).traffic reader.old out.old
        → IfSome (K.state link.new).traffic (λ t. IsBody k head (length out.new) t (take n out.new))) }
    ensures first { IfWire result (λ f. (k : BodyKind) (head : ℕ)
        → Fed k head (K.state link.old).traffic reader.old out.old
        → IfSome (K.state link.new).traffic (λ t. IsFault k head (length out.new) t f)) }
    ensures kept { Receives (K.state link.old).traffic (K.state link.new).traffic }
    ensures faults { CountsRead (K.state link.old).faults (K.state link.new).faults result }
{
    'pieces: while !reader.done() {
        match feed_next(link, reader, buffer, out) {
            Ok(true) => {}
            Ok(false) => return ended(reader),
            Err(unread) => return Err(unread),
        }
    }
    Ok(reader.filled())
}

/// Reads the body behind the head that was received, of which the buffer holds what came with the head. Fills the front
/// of `out` with it, and answers its size.
pub fn read_body<K: Link>(
    link: &mut K,
    kind: BodyKind,
    received: Received,
    buffer: &mut [u8],
    out: &mut [u8],
) -> Result<usize, Unread>
    requires inside { (received.head ≤ received.filled) × (received.filled ≤ length buffer.old) }
    requires size { 0 < length buffer.old }
    requires bytes { IfSome (K.state link.old).traffic (λ t. t.received ≡ take received.filled buffer.old) }
    ensures size { IfOk result (λ n. n ≤ length out.new) }
    ensures ok { IfOk result (λ n. IfSome (K.state link.new).traffic
        (λ t. IsBody kind received.head (length out.new) t (take n out.new))) }
    ensures first { IfWire result (λ f. IfSome (K.state link.new).traffic
        (λ t. IsFault kind received.head (length out.new) t f)) }
    ensures kept { Receives (K.state link.old).traffic (K.state link.new).traffic }
    ensures faults { CountsRead (K.state link.old).faults (K.state link.new).faults result }
{
    let piece = &buffer[received.head..received.filled];
    match reader_of(kind, piece, out) {
        Ok(mut reader) => read_on(link, &mut reader, buffer, out),
        Err(unread) => Err(unread),
    }
}
