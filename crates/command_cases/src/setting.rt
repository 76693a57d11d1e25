//! Lines that say what is there.

use crate::index_files::index_of;
use crate::notation::{bytes_of, calls_of, kind_of, number_of, parted, path_of, words_of};
use crate::world::World;
use byte_forms::ranges::RangeFails;
use chunk_store::id::DigestKind;
use dsy_base::folder::Folder;
use dsy_forms::mem_files::MemFiles;
use dsy_forms::mem_folder::MemFolder;
use dsy_forms::memory_files::MemoryFiles;
use std::alloc::Global;
use std::test::Fail;

/// `file NAME BYTES`
pub fn file(world: &mut World, rest: &str) -> Result<(), Fail> {
    let (name, text) = parted(rest);
    let bytes = bytes_of(world.alloc, text)?;
    world
        .memory
        .files
        .set_file(name, bytes, RangeFails::none(world.alloc))?;
    Ok(())
}

/// `index NAME PIECE..`
pub fn index(world: &mut World, rest: &str) -> Result<(), Fail> {
    let (name, pieces) = parted(rest);
    let bytes = index_of(world.alloc, world.kind, world.flags, pieces)?;
    world
        .memory
        .files
        .set_file(name, bytes, RangeFails::none(world.alloc))?;
    Ok(())
}

// An offset, and how often calls that cover it fail.
fn offset_of(text: &str) -> Result<(u64, u32), Fail> {
    let (offset, times) = parted(text);
    Ok((u64::from(number_of(offset)?), number_of(times)?))
}

// Puts a file anew, with the calls on it that are to fail.
fn put_again(world: &mut World, name: &str, fails: RangeFails) -> Result<(), Fail> {
    let held = world.memory.files.file(name).ok_or("no file")?;
    let bytes = Vec::from_slice(world.alloc, held)?;
    world.memory.files.set_file(name, bytes, fails)?;
    Ok(())
}

/// `failing-reads NAME OFFSET TIMES`
pub fn failing_reads(world: &mut World, rest: &str) -> Result<(), Fail> {
    let (name, pair) = parted(rest);
    let mut fails = RangeFails::none(world.alloc);
    fails.reads.push(offset_of(pair)?)?;
    put_again(world, name, fails)
}

/// `failing-writes NAME OFFSET TIMES`
pub fn failing_writes(world: &mut World, rest: &str) -> Result<(), Fail> {
    let (name, pair) = parted(rest);
    let mut fails = RangeFails::none(world.alloc);
    fails.writes.push(offset_of(pair)?)?;
    put_again(world, name, fails)
}

/// `failing-files CALL..`
pub fn failing_files(world: &mut World, calls: &str) -> Result<(), Fail> {
    world.memory.files = MemFiles::new(world.alloc, calls_of(world.alloc, calls)?);
    Ok(())
}

// Puts a file of a folder.
fn put(alloc: Global, folder: &mut MemFolder, name: &str, text: &str) -> Result<(), Fail> {
    let bytes = bytes_of(alloc, text)?;
    folder.put(name, &bytes)?;
    Ok(())
}

// Puts a chunk, `PIECE` or `PIECE=BYTES`, or any file, `NAME:BYTES`.
fn put_chunk(
    alloc: Global,
    kind: DigestKind,
    folder: &mut MemFolder,
    word: &str,
) -> Result<(), Fail> {
    if let Some((name, text)) = word.split_once(':') {
        return put(alloc, folder, name, text);
    }
    let (piece, text) = word.split_once('=').unwrap_or((word, word));
    put(alloc, folder, path_of(alloc, kind, piece)?.as_str(), text)
}

/// `store NAME CHUNK..`
pub fn store(world: &mut World, rest: &str) -> Result<(), Fail> {
    let (name, chunks) = parted(rest);
    let mut folder = MemFolder::new(world.alloc, Vec::new(world.alloc));
    for chunk in words_of(world.alloc, chunks)?.iter() {
        put_chunk(world.alloc, world.kind, &mut folder, chunk.as_str())?;
    }
    world.memory.files.set_folder(name, folder)?;
    Ok(())
}

/// `failing-store NAME CALL..`
pub fn failing_store(world: &mut World, rest: &str) -> Result<(), Fail> {
    let (name, calls) = parted(rest);
    let folder = MemFolder::new(world.alloc, calls_of(world.alloc, calls)?);
    world.memory.files.set_folder(name, folder)?;
    Ok(())
}

/// `server BYTES`
pub fn server(world: &mut World, text: &str) -> Result<(), Fail> {
    world.servers.push(bytes_of(world.alloc, text)?)?;
    Ok(())
}

/// `served NAME`, `served NAME LENGTH`
pub fn served(world: &mut World, rest: &str) -> Result<(), Fail> {
    let (name, length) = parted(rest);
    let held = world.memory.files.file(name).ok_or("no file")?;
    let length = if length.is_empty() {
        held.len()
    } else {
        number_of(length)? as usize
    };
    let part = held.get(..length).ok_or("no such length")?;
    let mut sent = world.servers.pop().ok_or("no server")?;
    sent.extend_from_slice(part)?;
    world.servers.push(sent)?;
    Ok(())
}

/// `client BYTES`
pub fn client(world: &mut World, text: &str) -> Result<(), Fail> {
    world.clients.push(bytes_of(world.alloc, text)?)?;
    Ok(())
}

// Adds to what the last client sends.
fn add_to_client(world: &mut World, bytes: &[u8]) -> Result<(), Fail> {
    let mut sent = world.clients.pop().ok_or("no client")?;
    sent.extend_from_slice(bytes)?;
    world.clients.push(sent)?;
    Ok(())
}

/// `more BYTES`
pub fn more(world: &mut World, text: &str) -> Result<(), Fail> {
    let bytes = bytes_of(world.alloc, text)?;
    add_to_client(world, &bytes)
}

/// `more-file NAME`
pub fn more_file(world: &mut World, name: &str) -> Result<(), Fail> {
    let held = world.memory.files.file(name).ok_or("no file")?;
    let bytes = Vec::from_slice(world.alloc, held)?;
    add_to_client(world, &bytes)
}

/// `failing-listener CALL..`
pub fn failing_listener(world: &mut World, calls: &str) -> Result<(), Fail> {
    world.listener_fails = calls_of(world.alloc, calls)?;
    Ok(())
}

/// `digest KIND`, `digest KIND FLAGS`
pub fn digest(world: &mut World, rest: &str) -> Result<(), Fail> {
    let (kind, flags) = parted(rest);
    world.kind = kind_of(kind)?;
    world.flags = if flags.is_empty() {
        world.kind
    } else {
        kind_of(flags)?
    };
    Ok(())
}
