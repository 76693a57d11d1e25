//! One ask and its answer, on a connection that is new.

ghost use Rattle.std.specs.Prelude.{◌≡◌, ◌≢◌, ◌<◌, ◌≤◌, ◌⊎◌, [], ◌++◌, length, take, Err, IfOk, IfSome, None, Ok, OnOk};
ghost use Rattle.std.specs.Prelude.{true, false};
ghost use Rattle.std.specs.Option.{option_map};
ghost use Rattle.dsy_base.specs.Links.{IsFreshLink, sends};
ghost use Rattle.http_frames.specs.HeadEnd.{head_limit};
ghost use Rattle.http_read.specs.Asks.{IsFront};
ghost use Rattle.http_read.specs.Answers.{AnswersGet, AnswersHead, AnswersPut, got_of};
ghost use Rattle.http_read.specs.Reads.{CountsReply, IfBad, Receives, SendsFront, unanswered_of};
ghost use Rattle.http_read.specs.Refusals.{IsBadReply, IsRefused, IsRefusedByHead};
ghost use Rattle.http_read.specs.Replies.{SaysHead, SaysStatus};

use crate::body::read_body;
use crate::fault::{BadReply, Unanswered, Unread};
use crate::receiving::{Received, receive};
use dsy_base::fault::IoFault;
use dsy_base::link::Link;
use http_frames::fault::WireFault;
use http_frames::head::HEAD_LIMIT;
use http_wire::reply::{Method, ReplyHead, read_reply};

// What is said of a chunk that was asked for.
#[derive(Clone, Copy, Debug, PartialEq, Eq)]
pub(crate) enum Got {
    /// So many bytes.
    Chunk(usize),
    Missing,
    Longer,
}

/// The head of a reply, and what was received with it.
#[derive(Clone, Copy, Debug, PartialEq, Eq)]
pub struct Reply {
    pub head: ReplyHead,
    pub received: Received,
}

/// Why there is no answer where something isn't read.
pub fn unanswered(unread: Unread) -> Unanswered
    ensures { result ≡ unanswered_of unread }
{
    match unread {
        Unread::Wire(fault) => Unanswered::Bad(BadReply::Wire(fault)),
        Unread::Failed => Unanswered::Failed,
    }
}

// What a body that was read is.
fn chunk_of(read: Result<usize, Unread>) -> Result<Got, Unanswered>
    ensures { result ≡ got_of read }
{
    match read {
        Ok(n) => Ok(Got::Chunk(n)),
        Err(Unread::Wire(WireFault::BodyTooLong)) => Ok(Got::Longer),
        Err(unread) => Err(unanswered(unread)),
    }
}

/// Sends these bytes.
pub fn send<K: Link>(link: &mut K, b: &[u8]) -> Result<(), Unanswered>
    ensures ok { OnOk result ((K.state link.new).traffic ≡ option_map (sends b.now) (K.state link.old).traffic) }
    ensures sends { SendsFront b.now (K.state link.old).traffic (K.state link.new).traffic }
    ensures kept { result ≡ Err Unanswered.Memory → (K.state link.new).traffic ≡ (K.state link.old).traffic }
    ensures only { IfBad result (λ reason. ⊥) }
    ensures faults { CountsReply (K.state link.old).faults (K.state link.new).faults result }
{
    match link.write(b) {
        Ok(()) => Ok(()),
        Err(IoFault::Failed) => Err(Unanswered::Failed),
        Err(IoFault::Memory) => Err(Unanswered::Memory),
    }
}

// Receives the head of the reply to an ask by this method.
fn receive_reply<K: Link>(
    link: &mut K,
    method: Method,
    buffer: &mut [u8],
) -> Result<Reply, Unanswered>
    requires size { length buffer.old ≡ head_limit }
    requires fresh { IfSome (K.state link.old).traffic (λ t. t.received ≡ []) }
    ensures inside { IfOk result (λ r. (r.received.head ≤ r.received.filled)
        × (r.received.filled ≤ length buffer.new)) }
    ensures ok { IfOk result (λ r. IfSome (K.state link.new).traffic
        (λ t. SaysHead method t.received r.received.head (Ok r.head))) }
    ensures bytes { IfOk result (λ r. IfSome (K.state link.new).traffic
        (λ t. t.received ≡ take r.received.filled buffer.new)) }
    ensures bad { IfBad result (λ reason. IfSome (K.state link.new).traffic (λ t. IsRefusedByHead method t reason)) }
    ensures only { result ≢ Err Unanswered.Memory }
    ensures kept { Receives (K.state link.old).traffic (K.state link.new).traffic }
    ensures faults { CountsReply (K.state link.old).faults (K.state link.new).faults result }
{
    let received = match receive(link, buffer) {
        Ok(received) => received,
        Err(unread) => return Err(unanswered(unread)),
    };
    let (head, _) = buffer.split_at(received.head);
    match read_reply(head, method) {
        Ok(head) => Ok(Reply { head, received }),
        Err(fault) => Err(Unanswered::Bad(BadReply::Wire(fault))),
    }
}

/// Receives the head of the reply to a GET. `None`: the status is 404. Any other that isn't 200 is refused.
pub fn reply_to_get<K: Link>(link: &mut K, buffer: &mut [u8]) -> Result<Option<Reply>, Unanswered>
    requires size { length buffer.old ≡ head_limit }
    requires fresh { IfSome (K.state link.old).traffic (λ t. t.received ≡ []) }
    ensures inside { IfOk result (λ o. IfSome o (λ r. (r.received.head ≤ r.received.filled)
        × (r.received.filled ≤ length buffer.new))) }
    ensures ok { IfOk result (λ o. IfSome o (λ r. (r.head.status ≡ 200) × IfSome (K.state link.new).traffic
        (λ t. SaysHead Method.Get t.received r.received.head (Ok r.head)))) }
    ensures bytes { IfOk result (λ o. IfSome o (λ r. IfSome (K.state link.new).traffic
        (λ t. t.received ≡ take r.received.filled buffer.new))) }
    ensures absent { result ≡ Ok None → IfSome (K.state link.new).traffic (λ t. SaysStatus Method.Get t 404) }
    ensures err { IfBad result (λ reason. IfSome (K.state link.new).traffic
        (λ t. IsRefusedByHead Method.Get t reason)) }
    ensures only { result ≢ Err Unanswered.Memory }
    ensures kept { Receives (K.state link.old).traffic (K.state link.new).traffic }
    ensures faults { CountsReply (K.state link.old).faults (K.state link.new).faults result }
{
    let reply = match receive_reply(link, Method::Get, buffer) {
        Ok(reply) => reply,
        Err(refused) => return Err(refused),
    };
    let status = reply.head.status;
    if status == 404 {
        return Ok(None);
    }
    if status != 200 {
        return Err(Unanswered::Bad(BadReply::Status(status)));
    }
    Ok(Some(reply))
}

// The answer to a GET.
fn chunk_in<K: Link>(link: &mut K, out: &mut [u8]) -> Result<Got, Unanswered>
    requires fresh { IfSome (K.state link.old).traffic (λ t. t.received ≡ []) }
    ensures ok { IfOk result (λ got. AnswersGet got out.new (K.state link.new).traffic) }
    ensures bad { IfBad result (λ reason. IfSome (K.state link.new).traffic
        (λ t. IsRefused Method.Get (length out.new) t reason)) }
    ensures kept { Receives (K.state link.old).traffic (K.state link.new).traffic }
    ensures faults { CountsReply (K.state link.old).faults (K.state link.new).faults result }
{
    let mut buffer = [0u8; HEAD_LIMIT];
    let reply = match reply_to_get(link, &mut buffer) {
        Ok(Some(reply)) => reply,
        Ok(None) => return Ok(Got::Missing),
        Err(refused) => return Err(refused),
    };
    let read = read_body(link, reply.head.body, reply.received, &mut buffer, out);
    chunk_of(read)
}

/// Asks for a chunk, and fills the front of `out` with it.
pub(crate) fn get_on<K: Link>(link: &mut K, ask: &str, out: &mut [u8]) -> Result<Got, Unanswered>
    requires fresh { IsFreshLink (K.state link.old) }
    ensures sent { IfSome (K.state link.new).traffic (λ t. IsFront ask.now t.sent) }
    ensures ok { IfOk result (λ got. IfSome (K.state link.new).traffic (λ t. t.sent ≡ ask.now)
        × AnswersGet got out.new (K.state link.new).traffic) }
    ensures bad { IfBad result (λ reason. IfSome (K.state link.new).traffic
        (λ t. IsBadReply Method.Get ask.now (length out.new) t reason)) }
    ensures faults { CountsReply (K.state link.old).faults (K.state link.new).faults result }
{
    send(link, ask.as_bytes())?;
    chunk_in(link, out)
}

// The answer to a HEAD. Its body isn't waited for.
fn presence_in<K: Link>(link: &mut K) -> Result<bool, Unanswered>
    requires fresh { IfSome (K.state link.old).traffic (λ t. t.received ≡ []) }
    ensures ok { IfOk result (λ b. AnswersHead b (K.state link.new).traffic) }
    ensures bad { IfBad result (λ reason. IfSome (K.state link.new).traffic
        (λ t. IsRefused Method.Head 0 t reason)) }
    ensures kept { Receives (K.state link.old).traffic (K.state link.new).traffic }
    ensures faults { CountsReply (K.state link.old).faults (K.state link.new).faults result }
{
    let mut buffer = [0u8; HEAD_LIMIT];
    let reply = match receive_reply(link, Method::Head, &mut buffer) {
        Ok(reply) => reply,
        Err(refused) => return Err(refused),
    };
    let status = reply.head.status;
    if status == 200 {
        return Ok(true);
    }
    if status == 404 {
        return Ok(false);
    }
    Err(Unanswered::Bad(BadReply::Status(status)))
}

/// Asks whether there is a chunk.
pub(crate) fn has_on<K: Link>(link: &mut K, ask: &str) -> Result<bool, Unanswered>
    requires fresh { IsFreshLink (K.state link.old) }
    ensures sent { IfSome (K.state link.new).traffic (λ t. IsFront ask.now t.sent) }
    ensures ok { IfOk result (λ b. IfSome (K.state link.new).traffic (λ t. t.sent ≡ ask.now)
        × AnswersHead b (K.state link.new).traffic) }
    ensures bad { IfBad result (λ reason. IfSome (K.state link.new).traffic
        (λ t. IsBadReply Method.Head ask.now 0 t reason)) }
    ensures faults { CountsReply (K.state link.old).faults (K.state link.new).faults result }
{
    send(link, ask.as_bytes())?;
    presence_in(link)
}

// Whether a status says that a chunk was taken.
fn is_success(status: u16) -> bool
    ensures yes { result ≡ true → (200 ≤ status) × (status < 300) }
    ensures no { result ≡ false → (status < 200) ⊎ (300 ≤ status) }
{
    200 <= status && status < 300
}

// The answer to a PUT. No more than its head is read.
fn taken_in<K: Link>(link: &mut K) -> Result<(), Unanswered>
    requires fresh { IfSome (K.state link.old).traffic (λ t. t.received ≡ []) }
    ensures ok { OnOk result (AnswersPut (K.state link.new).traffic) }
    ensures bad { IfBad result (λ reason. IfSome (K.state link.new).traffic
        (λ t. IsRefused Method.Put 0 t reason)) }
    ensures kept { Receives (K.state link.old).traffic (K.state link.new).traffic }
    ensures faults { CountsReply (K.state link.old).faults (K.state link.new).faults result }
{
    let mut buffer = [0u8; HEAD_LIMIT];
    let reply = match receive_reply(link, Method::Put, &mut buffer) {
        Ok(reply) => reply,
        Err(refused) => return Err(refused),
    };
    let status = reply.head.status;
    let taken = is_success(status);
    if taken {
        return Ok(());
    }
    Err(Unanswered::Bad(BadReply::Status(status)))
}

/// Sends a chunk behind its ask.
pub(crate) fn put_on<K: Link>(link: &mut K, ask: &str, b: &[u8]) -> Result<(), Unanswered>
    requires fresh { IsFreshLink (K.state link.old) }
    ensures sent { IfSome (K.state link.new).traffic (λ t. IsFront (ask.now ++ b.now) t.sent) }
    ensures ok { OnOk result (IfSome (K.state link.new).traffic (λ t. t.sent ≡ ask.now ++ b.now)
        × AnswersPut (K.state link.new).traffic) }
    ensures bad { IfBad result (λ reason. IfSome (K.state link.new).traffic
        (λ t. IsBadReply Method.Put (ask.now ++ b.now) 0 t reason)) }
    ensures faults { CountsReply (K.state link.old).faults (K.state link.new).faults result }
{
    send(link, ask.as_bytes())?;
    send(link, b)?;
    taken_in(link)
}
