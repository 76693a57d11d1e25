//! How the script writes words, numbers and bytes.

use chunk_store::id::{ChunkId, DigestKind};
use chunk_store::path::ChunkPath;
use std::alloc::Global;
use std::test::Fail;

/// The first word of a text, and what follows the space after it.
pub fn parted(text: &str) -> (&str, &str) {
    text.split_once(' ').unwrap_or((text, ""))
}

/// The words of a text, which are parted by spaces.
pub fn words_of(alloc: Global, text: &str) -> Result<Vec<String>, Fail> {
    let mut words = Vec::new(alloc);
    for word in text.split(' ') {
        if !word.is_empty() {
            words.push(String::from_str(alloc, word)?)?;
        }
    }
    Ok(words)
}

/// The number that a text is.
pub fn number_of(text: &str) -> Result<u32, Fail> {
    Ok(text.parse::<u32>()?)
}

/// The numbers of calls.
pub fn calls_of(alloc: Global, text: &str) -> Result<Vec<u64>, Fail> {
    let mut calls = Vec::new(alloc);
    for word in words_of(alloc, text)?.iter() {
        calls.push(u64::from(number_of(word.as_str())?))?;
    }
    Ok(calls)
}

// The byte that an escape stands for, without its backslash, and what follows it.
fn escaped(escape: &str) -> Result<(u8, &str), Fail> {
    for (letter, byte) in [('n', b'\n'), ('r', b'\r'), ('0', 0), ('1', 1), ('2', 2)] {
        if let Some(rest) = escape.strip_prefix(letter) {
            return Ok((byte, rest));
        }
    }
    Err(Fail::new("no escape"))
}

// How often an escape stands there, and what follows that.
fn repeated(text: &str) -> Result<(u32, &str), Fail> {
    let Some(braced) = text.strip_prefix('{') else {
        return Ok((1, text));
    };
    let (digits, rest) = braced.split_once('}').ok_or("no brace")?;
    Ok((number_of(digits)?, rest))
}

// Adds what an escape stands for, and the plain text after it.
fn add_escape(bytes: &mut Vec<u8>, escape: &str) -> Result<(), Fail> {
    let (byte, rest) = escaped(escape)?;
    let (times, plain) = repeated(rest)?;
    for _ in 0..times {
        bytes.push(byte)?;
    }
    bytes.extend_from_slice(plain.as_bytes())?;
    Ok(())
}

/// The bytes that a text stands for.
pub fn bytes_of(alloc: Global, text: &str) -> Result<Vec<u8>, Fail> {
    let Some((plain, escapes)) = text.split_once('\\') else {
        return Ok(Vec::from_slice(alloc, text.as_bytes())?);
    };
    let mut bytes = Vec::from_slice(alloc, plain.as_bytes())?;
    for escape in escapes.split('\\') {
        add_escape(&mut bytes, escape)?;
    }
    Ok(bytes)
}

/// The digest that a text names.
pub fn kind_of(text: &str) -> Result<DigestKind, Fail> {
    match text {
        "sha512-256" => Ok(DigestKind::Sha512T256),
        "sha256" => Ok(DigestKind::Sha256),
        _ => Err(Fail::new("no digest")),
    }
}

/// Where the chunk of these bytes lies in a store.
pub fn path_of(alloc: Global, kind: DigestKind, text: &str) -> Result<ChunkPath, Fail> {
    let bytes = bytes_of(alloc, text)?;
    Ok(ChunkId::of(kind, &bytes).path())
}
