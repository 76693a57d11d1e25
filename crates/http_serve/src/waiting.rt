//! Bytes that were received and wait to be looked at. They are no more than a head may have.

ghost use Rattle.std.specs.Prelude.{◌≡◌, ◌<◌, ◌≤◌, [], length, drop, true, false, IfSome, Ok, OnOk};
ghost use Rattle.http_serve.specs.Streams.{given_in, sent_in, stream_in};
ghost use Rattle.dsy_base.specs.Counts.{CountsFaults};
ghost use Rattle.http_frames.specs.HeadEnd.{head_limit};

use dsy_base::fault::IoFault;
use dsy_base::link::Link;
use http_frames::head::HEAD_LIMIT;

// The first n bytes were looked at.
pub(crate) fn skip(waiting: &mut Vec<u8>, n: usize)
    requires inside { n ≤ length waiting.old.items }
    ensures { waiting.new.items ≡ drop n waiting.old.items }
{
    let rest = waiting.len() - n;
    waiting.as_mut_slice().rotate_left(n);
    waiting.truncate(rest);
}

// Reads on, and answers whether anything came.
pub(crate) fn read_on<K: Link>(link: &mut K, waiting: &mut Vec<u8>) -> Result<bool, IoFault>
    requires room { length waiting.old.items < head_limit }
    ensures size { length waiting.new.items ≤ head_limit }
    ensures ok { OnOk result (stream_in waiting.new.items (K.state link.new).traffic
        ≡ stream_in waiting.old.items (K.state link.old).traffic) }
    ensures more { result ≡ Ok true → length waiting.old.items < length waiting.new.items }
    ensures end { result ≡ Ok false → (waiting.new.items ≡ waiting.old.items)
        × IfSome (K.state link.new).traffic (λ t. t.coming ≡ []) }
    ensures kept { sent_in (stream_in waiting.new.items (K.state link.new).traffic)
        ≡ sent_in (stream_in waiting.old.items (K.state link.old).traffic) }
    ensures given { given_in (K.state link.new).traffic ≡ given_in (K.state link.old).traffic }
    ensures faults { CountsFaults IoFault.Failed IoFault.Memory
        (K.state link.old).faults (K.state link.new).faults result }
{
    let mut buffer = [0u8; HEAD_LIMIT];
    let (room, _) = buffer.split_at_mut(HEAD_LIMIT - waiting.len());
    match link.read(room) {
        Ok(0) => Ok(false),
        Ok(n) => {
            let (piece, _) = room.split_at(n);
            match waiting.extend_from_slice(piece) {
                Ok(()) => Ok(true),
                Err(_) => Err(IoFault::Memory),
            }
        }
        Err(_) => Err(IoFault::Failed),
    }
}
