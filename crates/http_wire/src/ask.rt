//! The heads of asks, which are the requests of this side (RFC 9112, section 3; RFC 9110, sections 7.2 and 12.5.3).

ghost use Rattle.std.specs.Prelude.{◌≡◌, ◌++◌, IfOk, OnOk, Err, string_bytes};
ghost use Rattle.std.specs.Option.{option_map};
ghost use Rattle.dsy_base.specs.Counts.{CountsFaults};
ghost use Rattle.dsy_base.specs.Disk.{PutsFront};
ghost use Rattle.http_wire.specs.Ask.{ask, ask_of_parts, length_text, method_name, port_text};

use crate::reply::Method;
use dsy_base::fault::IoFault;
use dsy_base::sink::Sink;
use std::alloc::{AllocError, Global};

// The name of the method.
fn method_name(method: Method) -> &'static str
    ensures { result.now ≡ method_name method }
{
    match method {
        Method::Get => "GET",
        Method::Head => "HEAD",
        Method::Put => "PUT",
    }
}

// The port as it stands behind the host: nothing where it is 80, the port of HTTP.
#[tactic(auto, unfolding(crate::specs::Ask::port_text))]
fn port_text(alloc: Global, port: u16) -> Result<String, AllocError>
    ensures { IfOk result (λ t. string_bytes t ≡ port_text port) }
{
    if port == 80 {
        return Ok(String::new(alloc));
    }
    format!(in alloc; ":{port}")
}

// The line that tells the length, where there is one.
fn length_text(alloc: Global, length: Option<u64>) -> Result<String, AllocError>
    ensures { IfOk result (λ t. string_bytes t ≡ length_text length) }
{
    match length {
        Some(length) => format!(in alloc; "Content-Length: {length}\r\n"),
        None => Ok(String::new(alloc)),
    }
}

// The parts of the head put together. Of port and length these are the texts above.
fn joined(
    alloc: Global,
    name: &str,
    path: &str,
    host: &str,
    port: &str,
    length: &str,
) -> Result<String, AllocError>
    ensures { IfOk result (λ t. string_bytes t
        ≡ ask_of_parts name.now path.now host.now port.now length.now) }
{
    format!(in alloc;
        "{name} {path} HTTP/1.1\r\nHost: {host}{port}\r\nAccept-Encoding: identity\r\nConnection: close\r\n{length}\r\n"
    )
}

/// The head of an ask, up to its empty line. Host, path and length are those of `write_ask`.
#[tactic(auto, unfolding(crate::specs::Ask::ask))]
pub fn ask_text(
    alloc: Global,
    method: Method,
    host: &str,
    port: u16,
    path: &str,
    length: Option<u64>,
) -> Result<String, AllocError>
    ensures ok { IfOk result (λ t. string_bytes t ≡ ask method host.now port path.now length) }
{
    let port = port_text(alloc, port)?;
    let length = length_text(alloc, length)?;
    joined(
        alloc,
        method_name(method),
        path,
        host,
        port.as_str(),
        length.as_str(),
    )
}

/// Writes the head of an ask, up to its empty line. Host and path are written as they stand: the caller makes sure that
/// the path begins with `/`, and that neither has a space or the end of a line in it. The length is the number of bytes
/// of the body, which the caller writes after the head. `Failed` comes where the sink failed.
pub fn write_ask<S: Sink>(
    alloc: Global,
    method: Method,
    host: &str,
    port: u16,
    path: &str,
    length: Option<u64>,
    out: &mut S,
) -> Result<(), IoFault>
    ensures ok { OnOk result ((S.output out.new).taken
        ≡ option_map (λ t. t ++ ask method host.now port path.now length) (S.output out.old).taken) }
    // A front of it was put.
    ensures err { result ≡ Err IoFault.Failed → PutsFront (ask method host.now port path.now length)
        (S.output out.old).taken (S.output out.new).taken }
    ensures kept { result ≡ Err IoFault.Memory → (S.output out.new).taken ≡ (S.output out.old).taken }
    ensures faults { CountsFaults IoFault.Failed IoFault.Memory
        (S.output out.old).faults (S.output out.new).faults result }
{
    match ask_text(alloc, method, host, port, path, length) {
        Ok(text) => out.put(text.as_bytes()),
        Err(_) => Err(IoFault::Memory),
    }
}
