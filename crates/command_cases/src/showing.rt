//! Lines that show what is there afterwards: each gives bytes, or nothing where nothing is there.

use crate::notation::{number_of, parted, path_of};
use crate::world::World;
use dsy_base::fault::FileFault;
use dsy_base::files::Files;
use dsy_base::look::Look;
use dsy_forms::memory_files::MemoryFiles;
use link_forms::mem_link::MemLink;
use std::alloc::{AllocError, Global};
use std::test::Fail;

/// Prints bytes after what they are of, a line for each of theirs.
pub fn print_bytes(rt: &impl Print, what: &str, bytes: &[u8]) -> Result<(), Fail> {
    for line in bytes.split_inclusive(|b| *b == b'\n') {
        println!(rt; "{what}: {}", line.escape_ascii())?;
    }
    Ok(())
}

/// Prints what a line shows.
pub fn print_found(rt: &impl Print, line: &str, found: Option<Vec<u8>>) -> Result<(), Fail> {
    match found {
        None => println!(rt; "{line} is absent")?,
        Some(bytes) if bytes.is_empty() => println!(rt; "{line} is empty")?,
        Some(bytes) => print_bytes(rt, line, &bytes)?,
    }
    Ok(())
}

/// A copy of bytes, where there are any.
pub fn copied(alloc: Global, bytes: Option<&[u8]>) -> Result<Option<Vec<u8>>, AllocError> {
    match bytes {
        Some(bytes) => Ok(Some(Vec::from_slice(alloc, bytes)?)),
        None => Ok(None),
    }
}

// What was sent on a connection.
fn sent_on(alloc: Global, link: Option<&MemLink>) -> Result<Option<Vec<u8>>, AllocError> {
    match link {
        Some(link) => copied(alloc, Some(link.sent())),
        None => Ok(None),
    }
}

/// `show NAME`: the bytes of a file.
pub fn file_shown(world: &World, name: &str) -> Result<Option<Vec<u8>>, Fail> {
    Ok(copied(world.alloc, world.memory.files.file(name))?)
}

/// `hex NAME`: the same in hexadecimal digits.
pub fn digits_shown(world: &World, name: &str) -> Result<Option<Vec<u8>>, Fail> {
    let bytes = world.memory.files.file(name).ok_or("no file")?;
    Ok(Some(hex::encode(world.alloc, bytes)?.into_bytes()))
}

/// `same NAME NAME`: whether two files hold the same bytes.
pub fn sameness_shown(world: &World, names: &str) -> Result<Option<Vec<u8>>, Fail> {
    let (one, other) = parted(names);
    let one = world.memory.files.file(one).ok_or("no file")?;
    let other = world.memory.files.file(other).ok_or("no file")?;
    let answer = if one == other {
        b"yes".as_slice()
    } else {
        b"no"
    };
    Ok(copied(world.alloc, Some(answer))?)
}

/// `chunk FOLDER PIECE`: what a folder holds under the id of a piece.
pub fn chunk_shown(world: &mut World, rest: &str) -> Result<Option<Vec<u8>>, Fail> {
    let (folder, piece) = parted(rest);
    let path = path_of(world.alloc, world.kind, piece)?;
    let mut room = [0; 16];
    match world
        .memory
        .files
        .look(folder)?
        .read(path.as_str(), &mut room)
    {
        Ok(n) => Ok(copied(world.alloc, Some(&room[..n]))?),
        Err(FileFault::Absent) => Ok(None),
        Err(fault) => Err(Fail::from(fault)),
    }
}

/// `names FOLDER`: the names of its files, one a line.
pub fn names_shown(world: &mut World, folder: &str) -> Result<Option<Vec<u8>>, Fail> {
    let mut shown = Vec::new(world.alloc);
    for name in world.memory.files.look(folder)?.names()?.iter() {
        shown.extend_from_slice(name.as_str().as_bytes())?;
        shown.push(b'\n')?;
    }
    Ok(Some(shown))
}

/// `sent NUMBER`: what was sent to a server on the connection that ended after this many others.
pub fn sent_shown(world: &World, number: &str) -> Result<Option<Vec<u8>>, Fail> {
    Ok(sent_on(
        world.alloc,
        world.memory.dial.ended(number_of(number)? as usize),
    )?)
}

/// `replied NUMBER`: the same of a client.
pub fn replies_shown(world: &World, number: &str) -> Result<Option<Vec<u8>>, Fail> {
    Ok(sent_on(
        world.alloc,
        world.memory.listen.inner.ended(number_of(number)? as usize),
    )?)
}
