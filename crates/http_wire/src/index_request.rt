//! The heads of requests to a server of indexes (RFC 9112, sections 3, 6 and 9.6).

ghost use Rattle.std.specs.Prelude.{◌≡◌, ◌≤◌, IfOk, true, false};
ghost use Rattle.caibx_fields.specs.Limits.{file_limit};
ghost use Rattle.httparse.specs.Grammar.{RequestHead};
ghost use Rattle.http_wire.specs.IndexRequest.{bad_index_request, index_act_of, index_request_of, is_refused};
ghost use Rattle.http_wire.specs.IndexTarget.{name_in_target};
ghost use Rattle.http_wire.specs.Judging.{IsRequest};

use crate::index_target::name_in_target;
use crate::judging::read_head;
use crate::reply::Method;
use caibx_fields::format::FILE_LIMIT;
use dsy_base::fault::Memory;
use dsy_base::name::Name;
use std::alloc::Global;

/// What a request asks for.
#[derive(Debug, Drop)]
pub enum IndexAct {
    /// The index of this name.
    Get(Name),
    /// How large the index of this name is.
    Head(Name),
    /// That the body be kept as the index of this name.
    Put(Name),
    /// What isn't there: the target is no path of an index.
    Lost,
    /// The request isn't taken, and the reply has this status.
    Refuse(u16),
}

/// What the head of a request says: what it asks for, whether the connection is to be closed behind the reply, and how
/// many bytes follow as the body of a PUT.
#[derive(Debug, Drop)]
pub struct IndexRequest {
    pub act: IndexAct,
    pub close: bool,
    pub body: u64,
}

// What is asked for.
fn index_act_of(
    alloc: Global,
    judged: Result<Method, u16>,
    target: &[u8],
) -> Result<IndexAct, Memory>
    ensures { IfOk result (λ a. a ≡ index_act_of judged (name_in_target target.now)) }
{
    let method = match judged {
        Ok(method) => method,
        Err(status) => return Ok(IndexAct::Refuse(status)),
    };
    match (method, name_in_target(alloc, target)) {
        (_, Err(_)) => Err(Memory),
        (_, Ok(None)) => Ok(IndexAct::Lost),
        (Method::Get, Ok(Some(name))) => Ok(IndexAct::Get(name)),
        (Method::Head, Ok(Some(name))) => Ok(IndexAct::Head(name)),
        (Method::Put, Ok(Some(name))) => Ok(IndexAct::Put(name)),
    }
}

/// Reads the head of a request to a server of indexes, which takes PUT only where it is writable. A request is refused
/// as `read_request` refuses it, but 413 comes where the `Content-Length` of a PUT is above the size of the longest
/// index file.
pub fn read_index_request(
    alloc: Global,
    head: &[u8],
    writable: bool,
) -> Result<IndexRequest, Memory>
    ensures found { IfOk result (λ r. (h : RequestHead) → IsRequest head.now h → r ≡ index_request_of writable h) }
    ensures absent { IfOk result (λ r. ((h : RequestHead) → ¬ (IsRequest head.now h)) → r ≡ bad_index_request) }
    ensures closes { IfOk result (λ r. is_refused r.act ≡ true → r.close ≡ true) }
    ensures size { IfOk result (λ r. is_refused r.act ≡ false → r.body ≤ file_limit) }
{
    let Some(judged) = read_head(head, writable, FILE_LIMIT) else {
        return Ok(IndexRequest {
            act: IndexAct::Refuse(400),
            close: true,
            body: 0,
        });
    };
    Ok(IndexRequest {
        act: index_act_of(alloc, judged.method, judged.target)?,
        close: judged.close,
        body: judged.body,
    })
}
