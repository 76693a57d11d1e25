//! A body by length is taken piece by piece (RFC 9112, section 6.3). Everything is counted in bytes.

ghost use Rattle.std.specs.Prelude.{◌≡◌, ◌≢◌, ◌-◌, ◌<◌, ◌≤◌, ℕ, [], length, take, Err, IfOk, IfSome, OnOk};
ghost use Rattle.http_fetch.specs.Taking.{IsShort, TakesBodyFront};
ghost use Rattle.http_read.specs.Reads.{CountsRead, IfWire, Receives};

use crate::taker::Taker;
use dsy_base::link::Link;
use http_frames::fault::WireFault;
use http_read::fault::Unread;
use http_read::receiving::Received;

/// How many bytes are received at a time.
const PIECE: usize = 65_536;

// Receives the next bytes of a body that has at least as many more as there is room for, and answers how many came.
// `CutShort`: no more comes.
fn take_next<K: Link, T: Taker>(
    link: &mut K,
    room: &mut [u8],
    taker: &mut T,
) -> Result<usize, Unread>
    requires size { 0 < length room.old }
    ensures size { IfOk result (λ n. (0 < n) × (n ≤ length room.new)) }
    ensures ok { IfOk result (λ n. (head size left : ℕ) → length room.old ≤ left
        → IfSome (K.state link.old).traffic (TakesBodyFront (T.has_taken taker.old) head size left)
        → IfSome (K.state link.new).traffic (TakesBodyFront (T.has_taken taker.new) head size (left - n))) }
    ensures first { IfWire result (λ f. (f ≡ WireFault.CutShort) × ((head size left : ℕ) → length room.old ≤ left
        → IfSome (K.state link.old).traffic (TakesBodyFront (T.has_taken taker.old) head size left)
        → IfSome (K.state link.new).traffic (IsShort head size))) }
    ensures kept { Receives (K.state link.old).traffic (K.state link.new).traffic }
    ensures faults { CountsRead (K.state link.old).faults (K.state link.new).faults result }
{
    match link.read(room) {
        Ok(0) => Err(Unread::Wire(WireFault::CutShort)),
        Ok(n) => {
            let (piece, _) = room.split_at(n);
            taker.take(piece);
            Ok(n)
        }
        Err(_) => Err(Unread::Failed),
    }
}

// Receives the last `left` bytes of a body.
fn take_rest<K: Link, T: Taker>(
    link: &mut K,
    left: u64,
    buffer: &mut [u8],
    taker: &mut T,
) -> Result<(), Unread>
    requires size { 0 < length buffer.old }
    ensures ok { OnOk result ((head size : ℕ)
        → IfSome (K.state link.old).traffic (TakesBodyFront (T.has_taken taker.old) head size left)
        → IfSome (K.state link.new).traffic (TakesBodyFront (T.has_taken taker.new) head size 0)) }
    ensures first { IfWire result (λ f. (f ≡ WireFault.CutShort) × ((head size : ℕ)
        → IfSome (K.state link.old).traffic (TakesBodyFront (T.has_taken taker.old) head size left)
        → IfSome (K.state link.new).traffic (IsShort head size))) }
    ensures kept { Receives (K.state link.old).traffic (K.state link.new).traffic }
    ensures faults { CountsRead (K.state link.old).faults (K.state link.new).faults result }
{
    let mut missing = left;
    'pieces: while missing > 0 {
        let len = missing.min(buffer.len() as u64) as usize;
        let (room, _) = buffer.split_at_mut(len);
        match take_next(link, room, taker) {
            Ok(n) => missing -= n as u64,
            Err(unread) => return Err(unread),
        }
    }
    Ok(())
}

/// Receives a body of this size behind the head that was received, of which the buffer holds what came with the head.
/// What follows the body is left alone. `CutShort`: fewer bytes came.
pub(crate) fn take_counted<K: Link, T: Taker>(
    link: &mut K,
    size: u64,
    received: Received,
    buffer: &[u8],
    taker: &mut T,
) -> Result<(), Unread>
    requires inside { (received.head ≤ received.filled) × (received.filled ≤ length buffer.now) }
    requires bytes { IfSome (K.state link.old).traffic (λ t. t.received ≡ take received.filled buffer.now) }
    requires fresh { T.has_taken taker.old [] }
    ensures ok { OnOk result (IfSome (K.state link.new).traffic
        (TakesBodyFront (T.has_taken taker.new) received.head size 0)) }
    ensures first { IfWire result (λ f. (f ≡ WireFault.CutShort)
        × IfSome (K.state link.new).traffic (IsShort received.head size)) }
    ensures kept { Receives (K.state link.old).traffic (K.state link.new).traffic }
    ensures faults { CountsRead (K.state link.old).faults (K.state link.new).faults result }
{
    let came = &buffer[received.head..received.filled];
    let len = size.min(came.len() as u64) as usize;
    let (piece, _) = came.split_at(len);
    taker.take(piece);
    let mut room = [0u8; PIECE];
    take_rest(link, size - len as u64, &mut room, taker)
}
