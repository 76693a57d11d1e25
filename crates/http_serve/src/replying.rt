//! Replies are sent. Everything is counted in bytes.

ghost use Rattle.std.specs.Prelude.{◌≡◌, ◌++◌, OnErr, OnOk, false, true};
ghost use Rattle.std.specs.Option.{option_map};
ghost use Rattle.http_serve.specs.Streams.{SendsSomeFront, given_in};
ghost use Rattle.dsy_base.specs.Counts.{CountsFaults};
ghost use Rattle.dsy_base.specs.Links.{sends};
ghost use Rattle.http_wire.specs.ReplyText.{reply_head};

use crate::service::{Reply, Service};
use dsy_base::fault::IoFault;
use dsy_base::link::Link;
use http_wire::reply_text::reply_text;
use std::alloc::Global;

/// The longest body that leaves with its head in one write: 256 KiB, the size of the greatest chunk that is made by
/// default. To move a longer one takes longer than a second write.
const AT_ONCE: usize = 262_144;

// Puts the head in front of a body that isn't too long, where there is memory. Answers whether it stands there.
fn put_in_front(body: &mut Vec<u8>, head: &[u8]) -> bool
    ensures yes { result ≡ true → body.new.items ≡ head.now ++ body.old.items }
    ensures no { result ≡ false → body.new.items ≡ body.old.items }
{
    if body.len() > AT_ONCE || body.extend_from_slice(head).is_err() {
        return false;
    }
    body.rotate_right(head.len());
    true
}

// Sends a head, and its body in a write of its own.
fn send_apart<K: Link>(link: &mut K, head: &[u8], body: &[u8]) -> Result<(), IoFault>
    ensures ok { OnOk result ((K.state link.new).traffic
        ≡ option_map (sends (head.now ++ body.now)) (K.state link.old).traffic) }
    ensures err { OnErr result (SendsSomeFront (head.now ++ body.now)
        (K.state link.old).traffic (K.state link.new).traffic) }
    ensures given { given_in (K.state link.new).traffic ≡ given_in (K.state link.old).traffic }
    ensures faults { CountsFaults IoFault.Failed IoFault.Memory
        (K.state link.old).faults (K.state link.new).faults result }
{
    match link.write(head) {
        Ok(()) => link.write(body),
        Err(fault) => Err(fault),
    }
}

// Sends a head, and the body behind it, whose room has the head in front of the body afterwards, or not.
fn send_both<K: Link>(link: &mut K, head: &[u8], body: &mut Vec<u8>) -> Result<(), IoFault>
    ensures ok { OnOk result ((K.state link.new).traffic
        ≡ option_map (sends (head.now ++ body.old.items)) (K.state link.old).traffic) }
    ensures err { OnErr result (SendsSomeFront (head.now ++ body.old.items)
        (K.state link.old).traffic (K.state link.new).traffic) }
    ensures given { given_in (K.state link.new).traffic ≡ given_in (K.state link.old).traffic }
    ensures faults { CountsFaults IoFault.Failed IoFault.Memory
        (K.state link.old).faults (K.state link.new).faults result }
{
    if put_in_front(body, head) {
        link.write(body.as_slice())
    } else {
        send_apart(link, head, body.as_slice())
    }
}

// Sends a reply, behind which the connection is closed or isn't, and gives the desk the room of its body back.
pub(crate) fn send_reply<K: Link, S: Service>(
    alloc: Global,
    link: &mut K,
    desk: &mut S::Desk,
    reply: Reply,
    close: bool,
) -> Result<(), IoFault>
    ensures ok { OnOk result ((K.state link.new).traffic
        ≡ option_map (sends (reply_head reply.status reply.length close ++ reply.body.items))
        (K.state link.old).traffic) }
    ensures err { OnErr result (SendsSomeFront (reply_head reply.status reply.length close ++ reply.body.items)
        (K.state link.old).traffic (K.state link.new).traffic) }
    ensures given { given_in (K.state link.new).traffic ≡ given_in (K.state link.old).traffic }
    ensures faults { CountsFaults IoFault.Failed IoFault.Memory
        (K.state link.old).faults (K.state link.new).faults result }
    ensures untouched { desk.new ≡ desk.old }
{
    let Ok(head) = reply_text(alloc, reply.status, reply.length, close) else {
        return Err(IoFault::Memory);
    };
    let mut body = reply.body;
    let sent = send_both(link, head.as_bytes(), &mut body);
    S::take_back(desk, body);
    sent
}
