//! How the script writes bytes, and the pieces in which they come.

ghost use Rattle.std.specs.Prelude.{◌<◌};

use std::alloc::{AllocError, Global};
use std::test::Fail;

/// The first word of a text, and what follows the space after it.
pub fn parted(text: &str) -> (&str, &str) {
    text.split_once(' ').unwrap_or((text, ""))
}

/// Adds bytes that hexadecimal digits are.
pub fn add_digits(alloc: Global, bytes: &mut Vec<u8>, digits: &str) -> Result<(), Fail> {
    bytes.extend_from_slice(&hex::decode(alloc, digits)?)?;
    Ok(())
}

/// Adds a text and its end, this many times.
pub fn add_texts(bytes: &mut Vec<u8>, times: u32, text: &str, end: &str) -> Result<(), AllocError> {
    for _ in 0..times {
        bytes.extend_from_slice(text.as_bytes())?;
        bytes.extend_from_slice(end.as_bytes())?;
    }
    Ok(())
}

/// Adds a text and its end as often as the number before it says.
pub fn add_counted(bytes: &mut Vec<u8>, rest: &str, end: &str) -> Result<(), Fail> {
    let (times, text) = parted(rest);
    add_texts(bytes, times.parse::<u32>()?, text, end)?;
    Ok(())
}

/// The bytes in pieces of this size.
pub fn pieces_of(alloc: Global, bytes: &[u8], size: usize) -> Result<Vec<Vec<u8>>, AllocError>
    requires { 0 < size }
{
    let mut pieces = Vec::new(alloc);
    for piece in bytes.chunks(size) {
        pieces.push(Vec::from_slice(alloc, piece)?)?;
    }
    Ok(pieces)
}

/// Prints what came of bytes in one piece, and of pieces of one byte where it is another.
pub fn print_both(rt: &impl Print, what: &str, whole: &str, single: &str) -> Result<(), Fail> {
    println!(rt; "{what}: {whole}")?;
    if whole != single {
        println!(rt; "{what}, in pieces of one byte: {single}")?;
    }
    Ok(())
}
