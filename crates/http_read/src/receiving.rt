//! The head of a reply is received. Everything is counted in bytes.

ghost use Rattle.std.specs.Prelude.{◌≡◌, ◌<◌, ◌≤◌, [], length, take, IfOk, IfSome};
ghost use Rattle.http_read.specs.Reads.{CountsRead, IfWire, Receives};
ghost use Rattle.http_read.specs.Refusals.{HasNoHead};
ghost use Rattle.http_frames.specs.HeadEnd.{IsFirstEnd, head_limit};

use crate::fault::Unread;
use dsy_base::link::Link;
use http_frames::fault::WireFault;
use http_frames::head::head_end;

/// What was received up to the read in which the head ended: the size of the head, and of all of it.
#[derive(Clone, Copy, Debug, PartialEq, Eq)]
pub struct Received {
    pub head: usize,
    pub filled: usize,
}

// Reads into the buffer behind its first `filled` bytes, and answers how many are filled then. `CutShort`: no more
// comes.
fn read_on<K: Link>(link: &mut K, buffer: &mut [u8], filled: usize) -> Result<usize, Unread>
    requires inside { filled < length buffer.old }
    requires bytes { IfSome (K.state link.old).traffic (λ t. t.received ≡ take filled buffer.old) }
    ensures size { IfOk result (λ n. (filled < n) × (n ≤ length buffer.new)) }
    ensures bytes { IfOk result (λ n. IfSome (K.state link.new).traffic (λ t. t.received ≡ take n buffer.new)) }
    ensures end { IfWire result (λ f. (f ≡ WireFault.CutShort) × IfSome (K.state link.new).traffic
        (λ t. (t.received ≡ take filled buffer.old) × (t.coming ≡ []))) }
    ensures kept { Receives (K.state link.old).traffic (K.state link.new).traffic }
    ensures faults { CountsRead (K.state link.old).faults (K.state link.new).faults result }
{
    let (_, rest) = buffer.split_at_mut(filled);
    match link.read(rest) {
        Ok(0) => Err(Unread::Wire(WireFault::CutShort)),
        Ok(n) => Ok(filled + n),
        Err(_) => Err(Unread::Failed),
    }
}

// Receives bytes up to the end of a head, and what came with it.
pub(crate) fn receive<K: Link>(link: &mut K, buffer: &mut [u8]) -> Result<Received, Unread>
    requires size { length buffer.old ≡ head_limit }
    requires fresh { IfSome (K.state link.old).traffic (λ t. t.received ≡ []) }
    ensures inside { IfOk result (λ r. (r.head ≤ r.filled) × (r.filled ≤ length buffer.new)) }
    ensures found { IfOk result (λ r. IsFirstEnd (take r.filled buffer.new) r.head) }
    ensures bytes { IfOk result (λ r. IfSome (K.state link.new).traffic (λ t. t.received ≡ take r.filled buffer.new)) }
    ensures absent { IfWire result (λ f. IfSome (K.state link.new).traffic (λ t. HasNoHead t f)) }
    ensures kept { Receives (K.state link.old).traffic (K.state link.new).traffic }
    ensures faults { CountsRead (K.state link.old).faults (K.state link.new).faults result }
{
    let mut filled = 0;
    while filled < buffer.len() {
        filled = read_on(link, buffer, filled)?;
        let (front, _) = buffer.split_at(filled);
        if let Some(head) = head_end(front) {
            return Ok(Received { head, filled });
        }
    }
    Err(Unread::Wire(WireFault::HeadTooLong))
}
