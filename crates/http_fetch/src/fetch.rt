//! One GET, and the body of its reply. Sizes are in bytes.

ghost use Rattle.std.specs.Prelude.{◌≡◌, ◌≢◌, ◌≤◌, ◌<◌, ◌⊎◌, ℕ, [], length, take, Err, IfErr, IfOk};
ghost use Rattle.std.specs.Prelude.{IfSome, None, Ok, OnOk};
ghost use Rattle.dsy_base.specs.Links.{IsFreshLink};
ghost use Rattle.http_frames.specs.HeadEnd.{head_limit};
ghost use Rattle.http_read.specs.Asks.{IsFront};
ghost use Rattle.http_fetch.specs.Fetching.{CountsFetch, OnRefusal, RefusesGet, unfetched_of};
ghost use Rattle.http_fetch.specs.Taking.{HasToldSize, TakesBody};
ghost use Rattle.http_read.specs.Reads.{Receives};
ghost use Rattle.http_read.specs.Remotes.{AddsOne};
ghost use Rattle.http_read.specs.Replies.{SaysHead, SaysStatus};
ghost use Rattle.http_wire.specs.Ask.{ask};

use crate::counted::take_counted;
use crate::taker::Taker;
use dsy_base::dial::Dial;
use dsy_base::fault::IoFault;
use dsy_base::link::Link;
use http_frames::body::BodyKind;
use http_frames::fault::WireFault;
use http_frames::head::HEAD_LIMIT;
use http_read::body::read_body;
use http_read::exchange::{Reply, reply_to_get, send, unanswered};
use http_read::fault::{BadReply, Unanswered};
use http_wire::ask::ask_text;
use http_wire::reply::Method;
use std::alloc::Global;

/// Why no body was fetched.
#[derive(Clone, Copy, Debug, PartialEq, Eq)]
pub enum Unfetched {
    /// The status is 404.
    Absent,
    /// The status is neither 200 nor 404.
    Status(u16),
    /// The reply isn't a whole one of HTTP. `BodyTooLong`: its body has more bytes than the caller takes.
    Wire(WireFault),
    /// The dialer or the connection failed.
    Failed,
    Memory,
}

// What is answered where there is no answer.
fn unfetched_of(refused: Unanswered) -> Unfetched
    ensures { result ≡ unfetched_of refused }
{
    match refused {
        Unanswered::Bad(BadReply::Status(status)) => Unfetched::Status(status),
        Unanswered::Bad(BadReply::Wire(fault)) => Unfetched::Wire(fault),
        Unanswered::Failed => Unfetched::Failed,
        Unanswered::Memory => Unfetched::Memory,
    }
}

// The size of a body that is told by its head. A body that isn't there has the size 0.
fn told_size(kind: BodyKind) -> Option<u64>
    ensures found { IfSome result (λ size. HasToldSize kind size) }
    ensures absent { result ≡ None → (size : ℕ) → HasToldSize kind size → ⊥ }
{
    match kind {
        BodyKind::None => Some(0),
        BodyKind::Length(size) => Some(size),
        BodyKind::Chunked | BodyKind::ToEnd => None,
    }
}

// Takes a body of this size behind the head as it comes.
fn counted_behind<K: Link, T: Taker>(
    link: &mut K,
    reply: Reply,
    size: u64,
    buffer: &[u8],
    most: usize,
    taker: &mut T,
) -> Result<(), Unfetched>
    requires inside { (reply.received.head ≤ reply.received.filled)
        × (reply.received.filled ≤ length buffer.now) }
    requires bytes { IfSome (K.state link.old).traffic (λ t. t.received ≡ take reply.received.filled buffer.now) }
    requires status { reply.head.status ≡ 200 }
    requires says { IfSome (K.state link.old).traffic
        (λ t. SaysHead Method.Get t.received reply.received.head (Ok reply.head)) }
    requires size { HasToldSize reply.head.body size }
    requires fresh { T.has_taken taker.old [] }
    ensures ok { OnOk result (IfSome (K.state link.new).traffic (TakesBody most (T.has_taken taker.new))) }
    ensures err { IfErr result (λ why. OnRefusal why (IfSome (K.state link.new).traffic
        (λ t. RefusesGet most t why))) }
    ensures only { result ≢ Err Unfetched.Memory }
    ensures kept { Receives (K.state link.old).traffic (K.state link.new).traffic }
    ensures faults { CountsFetch Unfetched.Failed (K.state link.old).faults (K.state link.new).faults result }
{
    if size > most as u64 {
        return Err(Unfetched::Wire(WireFault::BodyTooLong));
    }
    match take_counted(link, size, reply.received, buffer, taker) {
        Ok(()) => Ok(()),
        Err(unread) => Err(unfetched_of(unanswered(unread))),
    }
}

// Receives a body whose size isn't told, and then hands it on.
fn framed_into<K: Link, T: Taker>(
    link: &mut K,
    reply: Reply,
    buffer: &mut [u8],
    out: &mut [u8],
    taker: &mut T,
) -> Result<(), Unfetched>
    requires inside { (reply.received.head ≤ reply.received.filled)
        × (reply.received.filled ≤ length buffer.old) }
    requires size { 0 < length buffer.old }
    requires bytes { IfSome (K.state link.old).traffic (λ t. t.received ≡ take reply.received.filled buffer.old) }
    requires status { reply.head.status ≡ 200 }
    requires says { IfSome (K.state link.old).traffic
        (λ t. SaysHead Method.Get t.received reply.received.head (Ok reply.head)) }
    requires untold { (size : ℕ) → HasToldSize reply.head.body size → ⊥ }
    requires fresh { T.has_taken taker.old [] }
    ensures ok { OnOk result (IfSome (K.state link.new).traffic (TakesBody (length out.old) (T.has_taken taker.new))) }
    ensures err { IfErr result (λ why. OnRefusal why (IfSome (K.state link.new).traffic
        (λ t. RefusesGet (length out.old) t why))) }
    ensures only { result ≢ Err Unfetched.Memory }
    ensures kept { Receives (K.state link.old).traffic (K.state link.new).traffic }
    ensures faults { CountsFetch Unfetched.Failed (K.state link.old).faults (K.state link.new).faults result }
{
    match read_body(link, reply.head.body, reply.received, buffer, out) {
        Ok(n) => {
            let (body, _) = out.split_at(n);
            taker.take(body);
            Ok(())
        }
        Err(unread) => Err(unfetched_of(unanswered(unread))),
    }
}

// Room for so many bytes.
fn room_of(alloc: Global, most: usize) -> Result<Vec<u8>, Unfetched>
    ensures ok { IfOk result (λ v. length v.items ≡ most) }
    ensures err { IfErr result (λ why. why ≡ Unfetched.Memory) }
{
    match vec![in alloc; 0u8; most] {
        Ok(room) => Ok(room),
        Err(_) => Err(Unfetched::Memory),
    }
}

// Takes the room for a body whose size isn't told, receives it, and then hands it on.
fn framed_behind<K: Link, T: Taker>(
    alloc: Global,
    link: &mut K,
    reply: Reply,
    buffer: &mut [u8],
    most: usize,
    taker: &mut T,
) -> Result<(), Unfetched>
    requires inside { (reply.received.head ≤ reply.received.filled)
        × (reply.received.filled ≤ length buffer.old) }
    requires size { 0 < length buffer.old }
    requires bytes { IfSome (K.state link.old).traffic (λ t. t.received ≡ take reply.received.filled buffer.old) }
    requires status { reply.head.status ≡ 200 }
    requires says { IfSome (K.state link.old).traffic
        (λ t. SaysHead Method.Get t.received reply.received.head (Ok reply.head)) }
    requires untold { (size : ℕ) → HasToldSize reply.head.body size → ⊥ }
    requires fresh { T.has_taken taker.old [] }
    ensures ok { OnOk result (IfSome (K.state link.new).traffic (TakesBody most (T.has_taken taker.new))) }
    ensures err { IfErr result (λ why. OnRefusal why (IfSome (K.state link.new).traffic
        (λ t. RefusesGet most t why))) }
    ensures lacking { result ≡ Err Unfetched.Memory → IfSome (K.state link.new).traffic
        (λ t. SaysStatus Method.Get t 200) }
    ensures kept { Receives (K.state link.old).traffic (K.state link.new).traffic }
    ensures faults { CountsFetch Unfetched.Failed (K.state link.old).faults (K.state link.new).faults result }
{
    match room_of(alloc, most) {
        Ok(mut out) => framed_into(link, reply, buffer, &mut out, taker),
        Err(why) => Err(why),
    }
}

// Takes the body behind this head.
fn body_behind<K: Link, T: Taker>(
    alloc: Global,
    link: &mut K,
    reply: Reply,
    buffer: &mut [u8],
    most: usize,
    taker: &mut T,
) -> Result<(), Unfetched>
    requires inside { (reply.received.head ≤ reply.received.filled)
        × (reply.received.filled ≤ length buffer.old) }
    requires size { 0 < length buffer.old }
    requires bytes { IfSome (K.state link.old).traffic (λ t. t.received ≡ take reply.received.filled buffer.old) }
    requires status { reply.head.status ≡ 200 }
    requires says { IfSome (K.state link.old).traffic
        (λ t. SaysHead Method.Get t.received reply.received.head (Ok reply.head)) }
    requires fresh { T.has_taken taker.old [] }
    ensures ok { OnOk result (IfSome (K.state link.new).traffic (TakesBody most (T.has_taken taker.new))) }
    ensures err { IfErr result (λ why. OnRefusal why (IfSome (K.state link.new).traffic
        (λ t. RefusesGet most t why))) }
    ensures lacking { result ≡ Err Unfetched.Memory → IfSome (K.state link.new).traffic
        (λ t. SaysStatus Method.Get t 200) }
    ensures kept { Receives (K.state link.old).traffic (K.state link.new).traffic }
    ensures faults { CountsFetch Unfetched.Failed (K.state link.old).faults (K.state link.new).faults result }
{
    match told_size(reply.head.body) {
        Some(size) => counted_behind(link, reply, size, buffer, most, taker),
        None => framed_behind(alloc, link, reply, buffer, most, taker),
    }
}

// Receives the reply to a GET, and takes its body. There is no room taken for the body before its head has come.
fn body_on<K: Link, T: Taker>(
    alloc: Global,
    link: &mut K,
    most: usize,
    taker: &mut T,
) -> Result<(), Unfetched>
    requires received { IfSome (K.state link.old).traffic (λ t. t.received ≡ []) }
    requires fresh { T.has_taken taker.old [] }
    ensures ok { OnOk result (IfSome (K.state link.new).traffic (TakesBody most (T.has_taken taker.new))) }
    ensures err { IfErr result (λ why. OnRefusal why (IfSome (K.state link.new).traffic
        (λ t. RefusesGet most t why))) }
    ensures lacking { result ≡ Err Unfetched.Memory → IfSome (K.state link.new).traffic
        (λ t. SaysStatus Method.Get t 200) }
    ensures kept { Receives (K.state link.old).traffic (K.state link.new).traffic }
    ensures faults { CountsFetch Unfetched.Failed (K.state link.old).faults (K.state link.new).faults result }
{
    let mut buffer = [0u8; HEAD_LIMIT];
    match reply_to_get(link, &mut buffer) {
        Ok(Some(reply)) => body_behind(alloc, link, reply, &mut buffer, most, taker),
        Ok(None) => Err(Unfetched::Absent),
        Err(refused) => Err(unfetched_of(refused)),
    }
}

// Sends the ask, and receives its reply.
fn fetch_on<K: Link, T: Taker>(
    alloc: Global,
    link: &mut K,
    ask: &str,
    most: usize,
    taker: &mut T,
) -> Result<(), Unfetched>
    requires new { IsFreshLink (K.state link.old) }
    requires fresh { T.has_taken taker.old [] }
    ensures sent { IfSome (K.state link.new).traffic (λ t. IsFront ask.now t.sent) }
    ensures ok { OnOk result (IfSome (K.state link.new).traffic
        (λ t. (t.sent ≡ ask.now) × TakesBody most (T.has_taken taker.new) t)) }
    ensures err { IfErr result (λ why. OnRefusal why (IfSome (K.state link.new).traffic
        (λ t. (t.sent ≡ ask.now) × RefusesGet most t why))) }
    ensures lacking { result ≡ Err Unfetched.Memory → IfSome (K.state link.new).traffic
        (λ t. (t.sent ≡ []) ⊎ SaysStatus Method.Get t 200) }
    ensures faults { CountsFetch Unfetched.Failed (K.state link.old).faults (K.state link.new).faults result }
{
    match send(link, ask.as_bytes()) {
        Ok(()) => body_on(alloc, link, most, taker),
        Err(refused) => Err(unfetched_of(refused)),
    }
}

/// Has the body of the reply to one GET of this path taken, where the status is 200 and the body has at most `most`
/// bytes. Host and path are those of `write_ask`. One by length is taken as it comes. For another the room for `most`
/// bytes is taken once the head of the reply has come, and it is handed on once it is whole.
pub fn fetch<D: Dial, T: Taker>(
    alloc: Global,
    dial: &mut D,
    host: &str,
    port: u16,
    path: &str,
    most: usize,
    taker: &mut T,
) -> Result<(), Unfetched>
    requires fresh { T.has_taken taker.old [] }
    ensures ok { OnOk result (AddsOne
        (λ t. (t.sent ≡ ask Method.Get host.now port path.now None) × TakesBody most (T.has_taken taker.new) t)
        (D.state dial.old).ended (D.state dial.new).ended) }
    ensures err { IfErr result (λ why. OnRefusal why (AddsOne
        (λ t. (t.sent ≡ ask Method.Get host.now port path.now None) × RefusesGet most t why)
        (D.state dial.old).ended (D.state dial.new).ended)) }
    // Before the ask was sent, or for the body of a 200.
    ensures lacking { result ≡ Err Unfetched.Memory
        → ((D.state dial.new).ended ≡ (D.state dial.old).ended) ⊎ AddsOne
        (λ t. (t.sent ≡ []) ⊎ SaysStatus Method.Get t 200) (D.state dial.old).ended (D.state dial.new).ended }
    ensures calls { ((D.state dial.new).ended ≡ (D.state dial.old).ended) ⊎ AddsOne
        (λ t. IsFront (ask Method.Get host.now port path.now None) t.sent)
        (D.state dial.old).ended (D.state dial.new).ended }
    ensures faults { CountsFetch Unfetched.Failed (D.state dial.old).faults (D.state dial.new).faults result }
{
    let Ok(ask) = ask_text(alloc, Method::Get, host, port, path, None) else {
        return Err(Unfetched::Memory);
    };
    let mut link = match dial.dial(host, port) {
        Ok(link) => link,
        Err(IoFault::Failed) => return Err(Unfetched::Failed),
        Err(IoFault::Memory) => return Err(Unfetched::Memory),
    };
    let answer = fetch_on(alloc, &mut link, ask.as_str(), most, taker);
    dial.hang_up(link);
    answer
}
