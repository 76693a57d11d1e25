//! The heads of replies that this side writes (RFC 9112, section 4; RFC 9110, section 15).

ghost use Rattle.std.specs.Prelude.{◌≡◌, ◌++◌, IfOk, OnOk, Err, string_bytes};
ghost use Rattle.std.specs.Option.{option_map};
ghost use Rattle.dsy_base.specs.Counts.{CountsFaults};
ghost use Rattle.dsy_base.specs.Disk.{PutsFront};
ghost use Rattle.http_wire.specs.ReplyText.{close_text, reply_of_parts, phrase_of, reply_head};

use dsy_base::fault::IoFault;
use dsy_base::sink::Sink;
use std::alloc::{AllocError, Global};

// The phrase of the status. Another one has none, which is right too (RFC 9112, section 4).
fn phrase_of(status: u16) -> &'static str
    ensures { result.now ≡ phrase_of status }
{
    match status {
        200 => "OK",
        400 => "Bad Request",
        404 => "Not Found",
        405 => "Method Not Allowed",
        411 => "Length Required",
        413 => "Content Too Large",
        431 => "Request Header Fields Too Large",
        500 => "Internal Server Error",
        _ => "",
    }
}

// The line that tells that the connection is closed, where it is.
fn close_text(close: bool) -> &'static str
    ensures { result.now ≡ close_text close }
{
    if close { "Connection: close\r\n" } else { "" }
}

// The parts of the head put together. Of the phrase and of `close` these are the texts above.
fn joined(
    alloc: Global,
    status: u16,
    phrase: &str,
    length: u64,
    close: &str,
) -> Result<String, AllocError>
    ensures { IfOk result (λ t. string_bytes t ≡ reply_of_parts status phrase.now length close.now) }
{
    format!(in alloc; "HTTP/1.1 {status} {phrase}\r\nContent-Length: {length}\r\n{close}\r\n")
}

/// The head of a reply, up to its empty line, as `write_reply` writes it.
#[tactic(auto, unfolding(crate::specs::ReplyText::reply_head))]
pub fn reply_text(
    alloc: Global,
    status: u16,
    length: u64,
    close: bool,
) -> Result<String, AllocError>
    ensures ok { IfOk result (λ t. string_bytes t ≡ reply_head status length close) }
{
    joined(alloc, status, phrase_of(status), length, close_text(close))
}

/// Writes the head of a reply, up to its empty line. The length is the number of bytes of the body, which the caller
/// writes after the head unless the method was HEAD. With `close` the head tells that the connection is closed, which
/// the caller does. `Failed` comes where the sink failed.
pub fn write_reply<S: Sink>(
    alloc: Global,
    status: u16,
    length: u64,
    close: bool,
    out: &mut S,
) -> Result<(), IoFault>
    ensures ok { OnOk result ((S.output out.new).taken
        ≡ option_map (λ t. t ++ reply_head status length close) (S.output out.old).taken) }
    // A front of it was put.
    ensures err { result ≡ Err IoFault.Failed → PutsFront (reply_head status length close)
        (S.output out.old).taken (S.output out.new).taken }
    ensures kept { result ≡ Err IoFault.Memory → (S.output out.new).taken ≡ (S.output out.old).taken }
    ensures faults { CountsFaults IoFault.Failed IoFault.Memory
        (S.output out.old).faults (S.output out.new).faults result }
{
    match reply_text(alloc, status, length, close) {
        Ok(text) => out.put(text.as_bytes()),
        Err(_) => Err(IoFault::Memory),
    }
}
