//! The heads of requests (RFC 9112, sections 3, 6 and 9.6), whatever their targets name.

ghost use Rattle.std.specs.Prelude.{◌≡◌, ℕ, ◌≤◌, length, map, All, IfSome, None, Some, is_err, true, false};
ghost use Rattle.std.specs.List.{list_any};
ghost use Rattle.std.specs.Option.{option_map};
ghost use Rattle.httparse.specs.Grammar.{RequestHead};
ghost use Rattle.httparse.specs.Spans.{header_bytes, IsHeaderWithin};
ghost use Rattle.http_wire.specs.Judging.{IsRequest, allowed, asks_close, body_told, has_close, head_of, judged_length};
ghost use Rattle.http_wire.specs.Judging.{judged_method, method_of, uncoded};
ghost use Rattle.http_wire.specs.Heads.{head_in};

use crate::framing::{Coding, ContentLength, Framing};
use crate::reply::{FIELD_LIMIT, Method};
use crate::words::{is_word, trimmed};
use httparse::Status;
use httparse::spans::{EMPTY_HEADER_SPAN, HeaderSpan, parse_request};

/// What the head of a request says: the method, or the status of the refusal; the target; whether the connection is to
/// be closed behind the reply; and how many bytes follow as the body of a PUT.
#[derive(Clone, Copy)]
pub(crate) struct Judged<'a> {
    pub(crate) method: Result<Method, u16>,
    pub(crate) target: &'a [u8],
    pub(crate) close: bool,
    pub(crate) body: u64,
}

// The method of this name, in just these letters.
fn method_of(name: &[u8]) -> Option<Method>
    ensures { result ≡ method_of name.now }
{
    if name == b"GET".as_slice() {
        Some(Method::Get)
    } else if name == b"HEAD".as_slice() {
        Some(Method::Head)
    } else if name == b"PUT".as_slice() {
        Some(Method::Put)
    } else {
        None
    }
}

// The method where it is taken, or the status of the refusal.
fn allowed(writable: bool, method: Option<Method>) -> Result<Method, u16>
    ensures { result ≡ allowed writable method }
{
    match method {
        None => Err(405),
        Some(Method::Put) if !writable => Err(405),
        Some(method) => Ok(method),
    }
}

// Whether the body comes as it is.
fn uncoded(coding: Coding) -> Result<(), u16>
    ensures { result ≡ uncoded coding }
{
    match coding {
        Coding::Absent => Ok(()),
        _ => Err(411),
    }
}

// Whether the length of the body is right for the method.
fn sized(limit: u64, method: Method, told: ContentLength) -> Result<(), u16>
    ensures { result ≡ judged_length limit method told }
{
    match (method, told) {
        (_, ContentLength::Wrong) => Err(400),
        (Method::Put, ContentLength::Absent) => Err(411),
        (Method::Put, ContentLength::Number(number)) if number > limit => Err(413),
        (Method::Put, ContentLength::Number(_)) => Ok(()),
        (_, ContentLength::Number(number)) if number > 0 => Err(400),
        _ => Ok(()),
    }
}

// The method of a request that is taken, or the status of the refusal, by the first that holds.
#[tactic(auto, unfolding(crate::specs::Judging::judged_method))]
fn judged_method(
    limit: u64,
    writable: bool,
    method: Option<Method>,
    framing: Framing,
) -> Result<Method, u16>
    ensures { result ≡ judged_method limit writable method framing }
{
    let method = allowed(writable, method)?;
    uncoded(framing.coding)?;
    sized(limit, method, framing.told)?;
    Ok(method)
}

// The length of the body that follows.
fn body_told(method: Option<Method>, told: ContentLength) -> u64
    ensures { result ≡ body_told method told }
{
    match (method, told) {
        (Some(Method::Put), ContentLength::Number(number)) => number,
        _ => 0,
    }
}

// Whether a value of `Connection` has the word `close`.
#[tactic(auto, unfolding(crate::specs::Judging::has_close))]
fn has_close(value: &[u8]) -> bool
    ensures { result ≡ has_close value.now }
{
    value
        .split(|byte| *byte == b',')
        .any(|word| is_word(trimmed(word), b"close"))
}

// Whether the connection is to be closed by one of these lines. Places count from the head's first byte.
fn ask_close(head: &[u8], lines: &[HeaderSpan]) -> bool
    requires inside { All (IsHeaderWithin (length head.now)) lines.now }
    ensures { result ≡ list_any asks_close (map (header_bytes head.now) lines.now) }
{
    for line in lines {
        if is_word(line.name.of(head), b"connection") && has_close(line.value.of(head)) {
            return true;
        }
    }
    false
}

/// Reads the head of a request to a server that takes PUT only where it is writable, with a body of at most `limit`
/// bytes. All of the bytes have to be one head, as `head_end` bounds it. A request is refused, with the status of the
/// first that holds: 400 where the bytes aren't a head, or one of more than 64 header lines; 405 where the method isn't
/// taken; 411 where there is a `Transfer-Encoding`; 400 where a `Content-Length` isn't 1 to 18 digits, contradicts
/// another one, or isn't 0 for GET or HEAD; 411 where a PUT has none; 413 where it is above the limit. Behind a refusal
/// the connection is closed. None: the bytes aren't such a head.
#[tactic(auto, unfolding(crate::specs::Judging::judged_head))]
pub(crate) fn read_head(head: &[u8], writable: bool, limit: u64) -> Option<Judged<'_>>
    ensures found { (h : RequestHead) → IsRequest head.now h
        → option_map head_in result ≡ Some (head_of limit writable h) }
    ensures absent { ((h : RequestHead) → ¬ (IsRequest head.now h)) → result ≡ None }
    ensures closes { IfSome result (λ j. is_err j.method ≡ true → j.close ≡ true) }
    ensures size { IfSome result (λ j. is_err j.method ≡ false → j.body ≤ limit) }
{
    let mut lines = [EMPTY_HEADER_SPAN; FIELD_LIMIT];
    let Ok(Status::Complete(spans)) = parse_request(head, &mut lines) else {
        return None;
    };
    if spans.len < head.len() {
        return None;
    }
    let lines = &lines[..spans.headers];
    let named = method_of(spans.method.of(head));
    let framing = Framing::of(head, lines);
    let method = judged_method(limit, writable, named, framing);
    Some(Judged {
        method,
        target: spans.path.of(head),
        close: method.is_err() || spans.version == 0 || ask_close(head, lines),
        body: body_told(named, framing.told),
    })
}
