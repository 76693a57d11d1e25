//! Bytes that come as requests to a store that is served.

ghost use Rattle.std.specs.Prelude.{◌<◌};

use crate::bytes::pieces_of;
use chunk_server::serve::serve;
use chunk_server::state::ShelfState;
use dsy_base::folder::Folder;
use dsy_base::look::Look;
use dsy_forms::mem_folder::MemFolder;
use link_forms::mem_link::MemLink;
use std::alloc::Global;
use std::test::Fail;

// The path of the bytes "abc" (FIPS 180-4, the example of SHA-512/256).
const ABC: &str = "5304/53048e2681941ef99b2e29b76b4c7dabe4c2d0c634fc6d46e0e2f13107e7af23";

// A store that has "abc" alone, and takes chunks.
fn shelf_of(alloc: Global) -> Result<ShelfState<MemFolder>, Fail> {
    let mut folder = MemFolder::new(alloc, Vec::new(alloc));
    folder.put(ABC, b"abc")?;
    match ShelfState::new(alloc, folder, true) {
        Ok(shelf) => Ok(shelf),
        Err(_) => Err(Fail::new("no memory")),
    }
}

// Adds a line for each line of some bytes.
fn add_lines(text: &mut String, what: &str, bytes: &[u8]) -> Result<(), Fail> {
    for line in bytes.split_inclusive(|b| *b == b'\n') {
        text.push_str(what)?;
        for letter in line.escape_ascii() {
            text.push(char::from(letter))?;
        }
        text.push('\n')?;
    }
    Ok(())
}

// Adds a line for each file of a folder, and the first bytes that it holds.
fn add_files(alloc: Global, text: &mut String, folder: &mut MemFolder) -> Result<(), Fail> {
    for name in folder.names()?.iter() {
        let mut room = [0; 16];
        let n = folder.read(name.as_str(), &mut room)?;
        let held = format!(in alloc; "{} holds ", name.as_str())?;
        add_lines(text, held.as_str(), &room[..n])?;
    }
    Ok(())
}

// What is replied to requests that come in pieces of this size, how it ends, and what the store has then.
fn replied(alloc: Global, requests: &[u8], size: usize) -> Result<String, Fail>
    requires { 0 < size }
{
    let mut shelf = shelf_of(alloc)?;
    let mut link = MemLink::new(alloc, pieces_of(alloc, requests, size)?, Vec::new(alloc));
    let ended = serve(alloc, &mut link, &mut shelf);
    let mut text = String::new(alloc);
    add_lines(&mut text, "replied: ", link.sent())?;
    text.push_str(format!(in alloc; "ended: {ended:?}\n")?.as_str())?;
    add_files(alloc, &mut text, &mut shelf.into_inner())?;
    Ok(text)
}

/// `serve`
pub fn served(rt: &impl Print, alloc: Global, requests: &[u8]) -> Result<(), Fail> {
    let whole = replied(alloc, requests, requests.len().max(1))?;
    let single = replied(alloc, requests, 1)?;
    print!(rt; "{whole}")?;
    if whole != single {
        print!(rt; "in pieces of one byte:\n{single}")?;
    }
    Ok(())
}
