//! A connection is served to its end.

ghost use Rattle.std.specs.Prelude.{◌≡◌, ◌≢◌, ◌≤◌, length, false, true, IfOk, IfSome, OnErr, Ok, Err};
ghost use Rattle.dsy_base.specs.Counts.{CountsFaults, Rose};
ghost use Rattle.http_frames.specs.HeadEnd.{head_limit};
ghost use Rattle.http_serve.specs.Answers.{answer_in};
ghost use Rattle.http_serve.specs.Received.{asked_of};
ghost use Rattle.http_serve.specs.Steps.{StepLacks, Steps};
ghost use Rattle.http_serve.specs.Streams.{given_in, stream_in};
ghost use Rattle.http_serve.specs.Turns.{Cut, ConnectionFails, Lacking, Lingers, Served as ServedWhole};
ghost use Rattle.http_serve.specs.Turns.{Stays, RequestsStop, turn_of};

use crate::receiving::{Received, receive_request};
use crate::replying::send_reply;
use crate::service::{Reply, Service};
use dsy_base::fault::{IoFault, Memory};
use dsy_base::link::Link;
use std::alloc::Global;

/// How a connection ended.
#[derive(Clone, Copy, Debug, PartialEq, Eq)]
pub enum Served {
    /// It was served to its end: the peer sends no more, or asked for it to be closed, or sent what isn't taken.
    Closed,
    /// A call on it has failed.
    LinkFault,
    /// There was no memory.
    Memory,
}

// The answer to a request that was received.
fn answer<S: Service>(
    alloc: Global,
    desk: &mut S::Desk,
    received: &Received<S::Request>,
) -> Result<Reply, Memory>
    requires size { length received.now.body.items ≤ S.limit }
    ensures may { IfOk result (λ r. (S.protocol (S.setting desk.old)).fair
        (turn_of (asked_of received.now) (answer_in r))) }
    ensures ok { IfOk result (λ r. IfSome (S.state desk.old).files
        (λ _. Steps (S.protocol (S.setting desk.old)).answering (S.state desk.old)
        received.now.request received.now.body.items (answer_in r) (S.state desk.new))) }
    ensures err { OnErr result (IfSome (S.state desk.old).files
        (λ _. StepLacks (S.protocol (S.setting desk.old)).answering (S.state desk.old)
        received.now.request received.now.body.items (S.state desk.new))) }
    ensures unfailed { OnErr result ((S.state desk.new).faults ≡ (S.state desk.old).faults) }
    ensures kept { S.setting desk.new ≡ S.setting desk.old }
    ensures changed { S.leaves desk.old desk.new }
    ensures faults { (S.state desk.old).faults ≤ (S.state desk.new).faults }
{
    S::answer(desk, alloc, &received.request, received.body.as_slice())
}

// Takes one turn: a request is received and answered, and the reply is sent. Answers whether the connection stays open.
fn take_turn<K: Link, S: Service>(
    alloc: Global,
    link: &mut K,
    waiting: &mut Vec<u8>,
    desk: &mut S::Desk,
) -> Result<bool, IoFault>
    requires size { length waiting.old.items ≤ head_limit }
    ensures size { length waiting.new.items ≤ head_limit }
    ensures open { result ≡ Ok true → Stays (S.protocol (S.setting desk.old))
        (stream_in waiting.old.items (K.state link.old).traffic) (S.state desk.old)
        (stream_in waiting.new.items (K.state link.new).traffic) (S.state desk.new) }
    ensures closed { result ≡ Ok false → RequestsStop (S.protocol (S.setting desk.old))
        (stream_in waiting.old.items (K.state link.old).traffic) (S.state desk.old)
        (stream_in waiting.new.items (K.state link.new).traffic) (S.state desk.new) }
    ensures cut { result ≡ Err IoFault.Failed → ConnectionFails (S.protocol (S.setting desk.old))
        (stream_in waiting.old.items (K.state link.old).traffic) (S.state desk.old)
        (stream_in waiting.new.items (K.state link.new).traffic) (S.state desk.new) }
    ensures lacking { result ≡ Err IoFault.Memory → Lingers (S.protocol (S.setting desk.old))
        (stream_in waiting.old.items (K.state link.old).traffic) (S.state desk.old)
        (stream_in waiting.new.items (K.state link.new).traffic) (S.state desk.new) }
    ensures kept { S.setting desk.new ≡ S.setting desk.old }
    ensures changed { S.leaves desk.old desk.new }
    ensures served_faults { (S.state desk.old).faults ≤ (S.state desk.new).faults }
    ensures given { given_in (K.state link.new).traffic ≡ given_in (K.state link.old).traffic }
    ensures faults { CountsFaults IoFault.Failed IoFault.Memory
        (K.state link.old).faults (K.state link.new).faults result }
{
    let received = match receive_request::<K, S>(alloc, link, waiting, desk) {
        Ok(Some(received)) => received,
        Ok(None) => return Ok(false),
        Err(fault) => return Err(fault),
    };
    let close = S::closes(desk, &received.request);
    let reply = match answer::<S>(alloc, desk, &received) {
        Ok(reply) => reply,
        Err(_) => return Err(IoFault::Memory),
    };
    match send_reply::<K, S>(alloc, link, desk, reply, close) {
        Ok(()) => Ok(!close),
        Err(fault) => Err(fault),
    }
}

/// Serves a connection that is new to its end: each request is answered by the desk in the order in which they come. A
/// request that is refused, or whose head has no end within 16,384 bytes (431), is answered without the shelf, and the
/// connection ends. So it does, without a reply, where the bytes end before a request does. `LinkFault`: a call on the
/// connection has failed.
pub fn serve_connection<K: Link, S: Service>(
    alloc: Global,
    link: &mut K,
    desk: &mut S::Desk,
) -> Served
    ensures ok { result ≡ Served.Closed → IfSome (K.state link.old).traffic (λ t. IfSome (K.state link.new).traffic
        (λ u. ServedWhole (S.protocol (S.setting desk.old)) t (S.state desk.old) u (S.state desk.new))) }
    ensures cut { result ≡ Served.LinkFault → IfSome (K.state link.old).traffic (λ t. IfSome (K.state link.new).traffic
        (λ u. Cut (S.protocol (S.setting desk.old)) t (S.state desk.old) u (S.state desk.new))) }
    ensures lacking { result ≡ Served.Memory → IfSome (K.state link.old).traffic (λ t. IfSome (K.state link.new).traffic
        (λ u. Lacking (S.protocol (S.setting desk.old)) t (S.state desk.old) u (S.state desk.new))) }
    ensures cause { result ≡ Served.LinkFault → Rose (K.state link.old).faults (K.state link.new).faults }
    ensures unfailed { result ≢ Served.LinkFault → (K.state link.new).faults ≡ (K.state link.old).faults }
    ensures given { given_in (K.state link.new).traffic ≡ given_in (K.state link.old).traffic }
    ensures faults { (K.state link.old).faults ≤ (K.state link.new).faults }
    ensures kept { S.setting desk.new ≡ S.setting desk.old }
    ensures changed { S.leaves desk.old desk.new }
    ensures served_faults { (S.state desk.old).faults ≤ (S.state desk.new).faults }
{
    let mut waiting = Vec::new(alloc);
    'turns: for _ in 0..u64::MAX {
        match take_turn::<K, S>(alloc, link, &mut waiting, desk) {
            Ok(true) => {}
            Ok(false) => return Served::Closed,
            Err(IoFault::Failed) => return Served::LinkFault,
            Err(IoFault::Memory) => return Served::Memory,
        }
    }
    // More requests than 64 bits count.
    Served::Memory
}
