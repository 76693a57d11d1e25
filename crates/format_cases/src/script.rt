//! The lines of the script.

use crate::bytes::{add_counted, add_digits, add_texts, parted};
use crate::indexes::{fronts, read, spoiled};
use crate::replies::{get, get_fronts};
use crate::requests::served;
use std::alloc::Global;
use std::test::Fail;

// Lines that do something with the bytes.
fn told(rt: &impl Print, alloc: Global, bytes: &[u8], word: &str, rest: &str) -> Result<(), Fail> {
    match word {
        "read" => read(rt, alloc, "read", bytes),
        "fronts" => fronts(rt, alloc, bytes),
        "spoiled" => spoiled(rt, alloc, bytes),
        "get" => get(rt, alloc, bytes, rest),
        "get-fronts" => get_fronts(rt, alloc, bytes, rest),
        "serve" => served(rt, alloc, bytes),
        _ => Err(Fail::new(format_args!("no line begins with {word}"))),
    }
}

/// Does what a line says.
pub fn perform(
    rt: &impl Print,
    alloc: Global,
    bytes: &mut Vec<u8>,
    line: &str,
) -> Result<(), Fail> {
    if line.is_empty() || line.starts_with('#') {
        return Ok(());
    }
    let (word, rest) = parted(line);
    match word {
        "case" => {
            bytes.clear();
            println!(rt; "\n{line}")?;
            Ok(())
        }
        "hex" => add_digits(alloc, bytes, rest),
        "text" => Ok(add_texts(bytes, 1, rest, "")?),
        "line" => Ok(add_texts(bytes, 1, rest, "\r\n")?),
        "texts" => add_counted(bytes, rest, ""),
        "lines" => add_counted(bytes, rest, "\r\n"),
        _ => told(rt, alloc, bytes, word, rest),
    }
}
