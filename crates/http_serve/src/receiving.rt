//! Requests are received, head and body. Everything is counted in bytes.

ghost use Rattle.std.specs.Prelude.{◌≡◌, ℕ, ◌<◌, ◌≤◌, List, [], ◌++◌, length, take, false, true, IfOk, IfSome, None};
ghost use Rattle.std.specs.Prelude.{Ok, OnOk, Some};
ghost use Rattle.http_serve.specs.Received.{asked_of};
ghost use Rattle.http_serve.specs.Requests.{HasNone, Heads, IsRequestHead, IsInside, IsNextRequest, endless_asked};
ghost use Rattle.http_serve.specs.Coming.{ComesFirst, ComesNext};
ghost use Rattle.http_serve.specs.Streams.{Moves, given_in, sent_in, skips, stream_in};
ghost use Rattle.http_serve.specs.Turns.{asked_with};
ghost use Rattle.dsy_base.specs.Counts.{CountsFaults};
ghost use Rattle.http_frames.specs.HeadEnd.{IsFirstEnd, head_limit};

use crate::service::Service;
use crate::waiting::{read_on, skip};
use dsy_base::fault::{IoFault, Memory};
use dsy_base::link::Link;
use http_frames::head::{HEAD_LIMIT, head_end};
use std::alloc::Global;

// How a head comes.
#[derive(Clone, Copy, Debug, PartialEq, Eq)]
pub(crate) enum Heading {
    // It is so long.
    Ends(usize),
    // It has no end where it may have one.
    Endless,
    // The bytes end before it does.
    Cut,
}

// A request, and its body.
#[derive(Drop)]
pub(crate) struct Received<R: Drop> {
    pub(crate) request: R,
    pub(crate) body: Vec<u8>,
}

// Receives bytes up to the end of a head.
fn receive_head<K: Link>(link: &mut K, waiting: &mut Vec<u8>) -> Result<Heading, IoFault>
    requires size { length waiting.old.items ≤ head_limit }
    ensures size { length waiting.new.items ≤ head_limit }
    ensures ok { OnOk result (stream_in waiting.new.items (K.state link.new).traffic
        ≡ stream_in waiting.old.items (K.state link.old).traffic) }
    ensures kept { sent_in (stream_in waiting.new.items (K.state link.new).traffic)
        ≡ sent_in (stream_in waiting.old.items (K.state link.old).traffic) }
    ensures inside { IfOk result (IsInside waiting.new.items) }
    ensures found { IfOk result (λ h. IfSome (stream_in waiting.new.items (K.state link.new).traffic)
        (λ s. Heads s.left h)) }
    ensures given { given_in (K.state link.new).traffic ≡ given_in (K.state link.old).traffic }
    ensures faults { CountsFaults IoFault.Failed IoFault.Memory
        (K.state link.old).faults (K.state link.new).faults result }
{
    while waiting.len() < HEAD_LIMIT {
        if let Some(head) = head_end(waiting.as_slice()) {
            return Ok(Heading::Ends(head));
        }
        match read_on(link, waiting) {
            Ok(true) => {}
            Ok(false) => return Ok(Heading::Cut),
            Err(fault) => return Err(fault),
        }
    }
    match head_end(waiting.as_slice()) {
        Some(head) => Ok(Heading::Ends(head)),
        None => Ok(Heading::Endless),
    }
}

// Reads on where no bytes wait, and answers whether some wait then.
fn read_where_none<K: Link>(link: &mut K, waiting: &mut Vec<u8>) -> Result<bool, IoFault>
    requires size { length waiting.old.items ≤ head_limit }
    ensures size { length waiting.new.items ≤ head_limit }
    ensures ok { OnOk result (stream_in waiting.new.items (K.state link.new).traffic
        ≡ stream_in waiting.old.items (K.state link.old).traffic) }
    ensures some { result ≡ Ok true → 0 < length waiting.new.items }
    ensures end { result ≡ Ok false → IfSome (stream_in waiting.new.items (K.state link.new).traffic)
        (λ s. s.left ≡ []) }
    ensures kept { sent_in (stream_in waiting.new.items (K.state link.new).traffic)
        ≡ sent_in (stream_in waiting.old.items (K.state link.old).traffic) }
    ensures given { given_in (K.state link.new).traffic ≡ given_in (K.state link.old).traffic }
    ensures faults { CountsFaults IoFault.Failed IoFault.Memory
        (K.state link.old).faults (K.state link.new).faults result }
{
    if waiting.is_empty() {
        read_on(link, waiting)
    } else {
        Ok(true)
    }
}

// Takes bytes of a body of this size that have come, after some have if none had, and answers whether there were any.
fn receive_more<K: Link>(
    link: &mut K,
    waiting: &mut Vec<u8>,
    body: &mut Vec<u8>,
    size: usize,
) -> Result<bool, IoFault>
    requires size { length waiting.old.items ≤ head_limit }
    requires room { length body.old.items < size }
    ensures size { length waiting.new.items ≤ head_limit }
    ensures ok { OnOk result (Moves (stream_in waiting.old.items (K.state link.old).traffic)
        (stream_in waiting.new.items (K.state link.new).traffic) body.old.items body.new.items) }
    ensures kept { sent_in (stream_in waiting.new.items (K.state link.new).traffic)
        ≡ sent_in (stream_in waiting.old.items (K.state link.old).traffic) }
    ensures more { result ≡ Ok true → length body.old.items < length body.new.items }
    ensures room { length body.new.items ≤ size }
    ensures end { result ≡ Ok false → (body.new.items ≡ body.old.items)
        × IfSome (stream_in waiting.new.items (K.state link.new).traffic) (λ s. s.left ≡ []) }
    ensures given { given_in (K.state link.new).traffic ≡ given_in (K.state link.old).traffic }
    ensures faults { CountsFaults IoFault.Failed IoFault.Memory
        (K.state link.old).faults (K.state link.new).faults result }
{
    match read_where_none(link, waiting) {
        Ok(true) => {}
        answer => return answer,
    }
    let n = waiting.len().min(size - body.len());
    let (piece, _) = waiting.as_slice().split_at(n);
    match body.extend_from_slice(piece) {
        Ok(()) => {
            skip(waiting, n);
            Ok(true)
        }
        Err(_) => Err(IoFault::Memory),
    }
}

// Receives a body of this size. None: the bytes end before it does.
fn receive_body<K: Link>(
    alloc: Global,
    link: &mut K,
    waiting: &mut Vec<u8>,
    size: usize,
) -> Result<Option<Vec<u8>>, IoFault>
    requires size { length waiting.old.items ≤ head_limit }
    ensures size { length waiting.new.items ≤ head_limit }
    ensures found { IfOk result (λ o. IfSome o (λ body.
        IfSome (stream_in waiting.old.items (K.state link.old).traffic) (λ s.
        (size ≤ length s.left) × (body.items ≡ take size s.left)
        × (stream_in waiting.new.items (K.state link.new).traffic ≡ Some (skips size s))))) }
    ensures room { IfOk result (λ o. IfSome o (λ body. length body.items ≡ size)) }
    ensures absent { result ≡ Ok None → IfSome (stream_in waiting.old.items (K.state link.old).traffic)
        (λ s. length s.left < size) }
    ensures kept { sent_in (stream_in waiting.new.items (K.state link.new).traffic)
        ≡ sent_in (stream_in waiting.old.items (K.state link.old).traffic) }
    ensures given { given_in (K.state link.new).traffic ≡ given_in (K.state link.old).traffic }
    ensures faults { CountsFaults IoFault.Failed IoFault.Memory
        (K.state link.old).faults (K.state link.new).faults result }
{
    let mut body = Vec::new(alloc);
    'pieces: while body.len() < size {
        match receive_more(link, waiting, &mut body, size) {
            Ok(true) => {}
            Ok(false) => return Ok(None),
            Err(fault) => return Err(fault),
        }
    }
    Ok(Some(body))
}

// What is answered where a head has no end.
fn endless<S: Service>(alloc: Global, desk: &S::Desk) -> Received<S::Request>
    ensures { asked_of result ≡ endless_asked (S.protocol (S.setting desk.now)).reading }
{
    Received {
        request: S::endless(desk),
        body: Vec::new(alloc),
    }
}

// The request whose head is the first n of these bytes.
fn read_head<S: Service>(
    alloc: Global,
    desk: &S::Desk,
    bytes: &[u8],
    n: usize,
) -> Result<S::Request, Memory>
    requires inside { n ≤ length bytes.now }
    requires near { n ≤ head_limit }
    ensures found { IfOk result (λ r. (more : List ℕ) → IsFirstEnd (bytes.now ++ more) n
        → IsRequestHead (S.protocol (S.setting desk.now)).reading (bytes.now ++ more) n r) }
    ensures size { IfOk result (λ r. (S.protocol (S.setting desk.now)).reading.size r ≤ S.limit) }
{
    let (head, _) = bytes.split_at(n);
    S::read(desk, alloc, head)
}

// Receives the body of this request. None: the bytes end before it does.
fn receive_rest<K: Link, S: Service>(
    alloc: Global,
    link: &mut K,
    waiting: &mut Vec<u8>,
    desk: &S::Desk,
    request: S::Request,
) -> Result<Option<Received<S::Request>>, IoFault>
    requires size { length waiting.old.items ≤ head_limit }
    ensures size { length waiting.new.items ≤ head_limit }
    ensures found { IfOk result (λ o. IfSome o (λ r. (asked_of r ≡ asked_with request r.body.items)
        × IfSome (stream_in waiting.old.items (K.state link.old).traffic)
        (ComesNext r.body.items ((S.protocol (S.setting desk.now)).reading.size request)
        (stream_in waiting.new.items (K.state link.new).traffic)))) }
    ensures room { IfOk result (λ o. IfSome o (λ r. length r.body.items
        ≡ (S.protocol (S.setting desk.now)).reading.size request)) }
    ensures absent { result ≡ Ok None → IfSome (stream_in waiting.old.items (K.state link.old).traffic)
        (λ s. length s.left < (S.protocol (S.setting desk.now)).reading.size request) }
    ensures kept { sent_in (stream_in waiting.new.items (K.state link.new).traffic)
        ≡ sent_in (stream_in waiting.old.items (K.state link.old).traffic) }
    ensures given { given_in (K.state link.new).traffic ≡ given_in (K.state link.old).traffic }
    ensures faults { CountsFaults IoFault.Failed IoFault.Memory
        (K.state link.old).faults (K.state link.new).faults result }
{
    let size = S::size(desk, &request);
    match receive_body(alloc, link, waiting, size) {
        Ok(Some(body)) => Ok(Some(Received { request, body })),
        Ok(None) => Ok(None),
        Err(fault) => Err(fault),
    }
}

// Receives the next request with its body. None: the bytes end before it does.
pub(crate) fn receive_request<K: Link, S: Service>(
    alloc: Global,
    link: &mut K,
    waiting: &mut Vec<u8>,
    desk: &S::Desk,
) -> Result<Option<Received<S::Request>>, IoFault>
    requires size { length waiting.old.items ≤ head_limit }
    ensures size { length waiting.new.items ≤ head_limit }
    ensures found { IfOk result (λ o. IfSome o (λ r. ComesFirst (S.protocol (S.setting desk.now)).reading (asked_of r)
        (stream_in waiting.old.items (K.state link.old).traffic)
        (stream_in waiting.new.items (K.state link.new).traffic))) }
    ensures room { IfOk result (λ o. IfSome o (λ r. length r.body.items ≤ S.limit)) }
    ensures absent { result ≡ Ok None → IfSome (stream_in waiting.old.items (K.state link.old).traffic)
        (λ s. HasNone (S.protocol (S.setting desk.now)).reading s.left) }
    ensures kept { sent_in (stream_in waiting.new.items (K.state link.new).traffic)
        ≡ sent_in (stream_in waiting.old.items (K.state link.old).traffic) }
    ensures given { given_in (K.state link.new).traffic ≡ given_in (K.state link.old).traffic }
    ensures faults { CountsFaults IoFault.Failed IoFault.Memory
        (K.state link.old).faults (K.state link.new).faults result }
{
    let head = match receive_head(link, waiting) {
        Ok(Heading::Ends(head)) => head,
        Ok(Heading::Endless) => {
            skip(waiting, HEAD_LIMIT);
            return Ok(Some(endless::<S>(alloc, desk)));
        }
        Ok(Heading::Cut) => return Ok(None),
        Err(fault) => return Err(fault),
    };
    let request = match read_head::<S>(alloc, desk, waiting.as_slice(), head) {
        Ok(request) => request,
        Err(_) => return Err(IoFault::Memory),
    };
    skip(waiting, head);
    receive_rest::<K, S>(alloc, link, waiting, desk, request)
}
