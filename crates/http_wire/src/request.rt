//! The heads of requests to a server of chunks (RFC 9112, sections 3, 6 and 9.6).

ghost use Rattle.std.specs.Prelude.{◌≡◌, ◌≤◌, true, false};
ghost use Rattle.std.specs.Option.{option_map};
ghost use Rattle.caibx_fields.specs.Limits.{size_limit};
ghost use Rattle.httparse.specs.Grammar.{RequestHead};
ghost use Rattle.http_wire.specs.Judging.{IsRequest};
ghost use Rattle.http_wire.specs.Request.{act_of, bad_request, is_refusal, request_of};

use crate::judging::read_head;
use crate::reply::Method;
use crate::target::id_in;
use caibx_fields::format::SIZE_LIMIT;
use chunk_store::id::ChunkId;

/// What a request asks for.
#[derive(Clone, Copy, Debug, PartialEq, Eq)]
pub enum Act {
    /// The chunk of this id.
    Get(ChunkId),
    /// How large the chunk of this id is.
    Head(ChunkId),
    /// That the body be kept as the chunk of this id.
    Put(ChunkId),
    /// What isn't there: the target is no path of a chunk.
    Lost,
    /// The request isn't taken, and the reply has this status.
    Refuse(u16),
}

/// What the head of a request says: what it asks for, whether the connection is to be closed behind the reply, and how
/// many bytes follow as the body of a PUT.
#[derive(Clone, Copy, Debug, PartialEq, Eq)]
pub struct Request {
    pub act: Act,
    pub close: bool,
    pub body: u64,
}

// The answer where there is no head that is right.
const BAD_REQUEST: Request = Request {
    act: Act::Refuse(400),
    close: true,
    body: 0,
};

// What is asked for.
fn act_of(judged: Result<Method, u16>, id: Option<ChunkId>) -> Act
    ensures { result ≡ act_of judged (option_map (λ x. x.0) id) }
{
    match (judged, id) {
        (Err(status), _) => Act::Refuse(status),
        (Ok(_), None) => Act::Lost,
        (Ok(Method::Get), Some(id)) => Act::Get(id),
        (Ok(Method::Head), Some(id)) => Act::Head(id),
        (Ok(Method::Put), Some(id)) => Act::Put(id),
    }
}

/// Reads the head of a request to a server of chunks, which takes PUT only where it is writable. All of the bytes have
/// to be one head, as `head_end` bounds it. A request is refused, with the status of the first that holds: 400 where
/// the bytes aren't a head, or one of more than 64 header lines; 405 where the method isn't taken; 411 where there is a
/// `Transfer-Encoding`; 400 where a `Content-Length` isn't 1 to 18 digits, contradicts another one, or isn't 0 for GET
/// or HEAD; 411 where a PUT has none; 413 where it is above `SIZE_LIMIT`. Behind a refusal the connection is closed.
pub fn read_request(head: &[u8], writable: bool) -> Request
    ensures found { (h : RequestHead) → IsRequest head.now h → result ≡ request_of writable h }
    ensures absent { ((h : RequestHead) → ¬ (IsRequest head.now h)) → result ≡ bad_request }
    ensures closes { is_refusal result.act ≡ true → result.close ≡ true }
    ensures size { is_refusal result.act ≡ false → result.body ≤ size_limit }
{
    let Some(judged) = read_head(head, writable, SIZE_LIMIT) else {
        return BAD_REQUEST;
    };
    Request {
        act: act_of(judged.method, id_in(judged.target)),
        close: judged.close,
        body: judged.body,
    }
}
