//! The names of temporary files. A name is its bytes, with `/` between components.

ghost use Rattle.std.specs.Prelude.{◌≡◌, IfOk, string_bytes};
ghost use Rattle.std.specs.Str.{IsCharBoundary};
ghost use Rattle.dsy_base.specs.Folders.{stem, temporary_of};

use std::alloc::{AllocError, Global};

/// The temporary file beside a file of this name, into which its bytes are written first.
pub fn temporary_name(alloc: Global, name: &str) -> Result<String, AllocError>
    ensures { IfOk result (λ t. string_bytes t ≡ temporary_of name.now) }
{
    let (front, last) = name.split_at(stem_of(name));
    let mut temporary = String::from_str(alloc, front)?;
    temporary.push_str(".tmp-cacnk")?;
    temporary.push_str(last)?;
    Ok(temporary)
}

// How many bytes stand before the last component.
fn stem_of(name: &str) -> usize
    ensures value { result ≡ stem name.now }
    ensures whole { IsCharBoundary name.now result }
{
    match name.rfind('/') {
        Some(slash) => slash + 1,
        None => 0,
    }
}
