//! Targets of requests (RFC 9112, section 3.2.1), as names of indexes.

ghost use Rattle.std.specs.Prelude.{◌≡◌, IfOk, true};
ghost use Rattle.std.specs.List.{list_all};
ghost use Rattle.http_wire.specs.IndexTarget.{index_name, is_index_name, is_name_byte, name_in_target};

use dsy_base::name::Name;
use std::alloc::{AllocError, Global};

/// How many bytes the name of an index may have.
const NAME_LIMIT: usize = 128;

/// What the name of an index ends in.
const ENDING: &[u8] = b".caibx";

// Whether the name of an index may have this byte.
#[tactic(auto, unfolding(crate::specs::IndexTarget::is_name_byte))]
fn is_name_byte(byte: u8) -> bool
    ensures { result ≡ is_name_byte byte }
{
    byte.is_ascii_alphanumeric() || byte == b'.' || byte == b'_' || byte == b'-'
}

// Whether the name of an index may have these bytes.
fn are_name_bytes(bytes: &[u8]) -> bool
    ensures { result ≡ list_all is_name_byte bytes.now }
{
    for byte in bytes {
        if !is_name_byte(*byte) {
            return false;
        }
    }
    true
}

// Whether this is the name of an index.
#[tactic(auto, unfolding(crate::specs::IndexTarget::is_index_name))]
fn is_index_name(name: &[u8]) -> bool
    ensures { result ≡ is_index_name name.now }
{
    ENDING.len() < name.len()
        && name.len() <= NAME_LIMIT
        && !name.starts_with(b".")
        && name.ends_with(ENDING)
        && are_name_bytes(name)
}

// The bytes as a name.
fn name_of(alloc: Global, name: &[u8]) -> Result<Name, AllocError>
    requires named { is_index_name name.now ≡ true }
    ensures value { IfOk result (λ n. n ≡ name.now) }
{
    let Ok(text) = str::from_utf8(name) else {
        unreachable!();
    };
    Name::of(alloc, text)
}

// The name, if it is one of an index.
fn name_at(alloc: Global, name: &[u8]) -> Result<Option<Name>, AllocError>
    ensures value { IfOk result (λ n. n ≡ index_name name.now) }
{
    if !is_index_name(name) {
        return Ok(None);
    }
    match name_of(alloc, name) {
        Ok(name) => Ok(Some(name)),
        Err(fault) => Err(fault),
    }
}

/// The name of the index whose path the target is: `/`, and 1 to 128 letters, digits, points, underscores and hyphens,
/// of which the first is no point, and which end in `.caibx` with more before it.
pub fn name_in_target(alloc: Global, target: &[u8]) -> Result<Option<Name>, AllocError>
    ensures value { IfOk result (λ n. n ≡ name_in_target target.now) }
{
    let Some((slash, name)) = target.split_first() else {
        return Ok(None);
    };
    if *slash == b'/' {
        name_at(alloc, name)
    } else {
        Ok(None)
    }
}
