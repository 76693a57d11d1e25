//! The heads of replies (RFC 9112, sections 4 and 6.3).

ghost use Rattle.std.specs.Prelude.{◌≡◌, ℕ, map, Err};
ghost use Rattle.httparse.specs.Grammar.{ResponseHead, status_code};
ghost use Rattle.httparse.specs.Spans.{name_and_value};
ghost use Rattle.http_wire.specs.Reply.{has_no_body, reply_of, IsReplyHead};

use crate::framing::Framing;
use http_frames::body::BodyKind;
use http_frames::fault::WireFault;
use httparse::Status;
use httparse::spans::{EMPTY_HEADER_SPAN, parse_response};

/// How many header lines a head may have.
pub(crate) const FIELD_LIMIT: usize = 64;

/// The methods of asks (RFC 9110, section 9.3).
#[derive(Clone, Copy, Debug, PartialEq, Eq)]
pub enum Method {
    Get,
    Head,
    Put,
}

/// What the head of a reply says: its status, and which body follows it.
#[derive(Clone, Copy, Debug, PartialEq, Eq)]
pub struct ReplyHead {
    pub status: u16,
    pub body: BodyKind,
}

// Whether a reply has no body whatever its lines say (RFC 9112, section 6.3, rule 1).
fn has_no_body(method: Method, status: u16) -> bool
    ensures { result ≡ has_no_body method status }
{
    method == Method::Head || status < 200 || status == 204 || status == 304
}

/// Reads the head of a reply to an ask with this method. All of the bytes have to be one head, as `head_end` bounds it.
/// `BadHead`: they aren't, or there are more than 64 header lines. `Framing`: a `Content-Length` isn't 1 to 18 digits
/// or contradicts another one, or there is a `Transfer-Encoding` other than one `chunked`.
#[tactic(auto, unfolding(crate::specs::Reply::body_of))]
pub fn read_reply(head: &[u8], method: Method) -> Result<ReplyHead, WireFault>
    ensures found { (h : ResponseHead) → IsReplyHead head.now h
        → result ≡ reply_of method (status_code h) (map name_and_value h.fields) }
    ensures absent { ((h : ResponseHead) → ¬ (IsReplyHead head.now h)) → result ≡ Err WireFault.BadHead }
{
    let mut lines = [EMPTY_HEADER_SPAN; FIELD_LIMIT];
    let Ok(Status::Complete(spans)) = parse_response(head, &mut lines) else {
        return Err(WireFault::BadHead);
    };
    if spans.len < head.len() {
        return Err(WireFault::BadHead);
    }
    if has_no_body(method, spans.code) {
        return Ok(ReplyHead {
            status: spans.code,
            body: BodyKind::None,
        });
    }
    let body = Framing::of(head, &lines[..spans.headers]).kind()?;
    Ok(ReplyHead {
        status: spans.code,
        body,
    })
}
