//! Lines that run words.

use crate::index_files::index_of;
use crate::notation::{bytes_of, parted, path_of, words_of};
use crate::showing::{copied, print_bytes, print_found};
use crate::world::World;
use chunk_store::id::DigestKind;
use desync_cli::in_memory::{MemWorld, desync_in_memory, make_then_extract};
use desync_cli::run::desync;
use dsy_base::folder::Folder;
use dsy_forms::memory_files::MemoryFiles;
use dsy_sure::sure_files::SureFiles;
use dsy_sure::sure_folder::SureFolder;
use dsy_sure::sure_sink::SureSink;
use std::alloc::Global;
use std::sync::Wait;
use std::test::Fail;
use std::thread::Threads;

// Prints how a run ended, where it listened, what it printed, and what it told.
fn print_ended(
    rt: &impl Print,
    world: &World,
    line: &str,
    status: u8,
    out: &[u8],
    err: &[u8],
) -> Result<(), Fail> {
    println!(rt; "{line}: status {status}")?;
    for place in world.memory.listen.places.iter() {
        println!(rt; "listens: {place}")?;
    }
    print_bytes(rt, "printed", out)?;
    print_bytes(rt, "told", err)
}

/// `run WORD..`
pub fn run<R: Print + Threads + Wait + Sync>(
    rt: &R,
    world: &mut World,
    line: &str,
    words: &str,
) -> Result<(), Fail> {
    let alloc = world.alloc;
    let words = words_of(alloc, words)?;
    world.connect()?;
    let ended = desync_in_memory(rt, alloc, &words, &mut world.memory);
    let MemWorld { out, err, .. } = &world.memory;
    print_ended(rt, world, line, ended.status, out.taken(), err.taken())
}

/// `both WORD.. & WORD..`
pub fn both<R: Print + Threads + Wait + Sync>(
    rt: &R,
    world: &mut World,
    line: &str,
    words: &str,
) -> Result<(), Fail> {
    let alloc = world.alloc;
    let (make, extract) = words.split_once('&').ok_or("no second words")?;
    let make = words_of(alloc, make)?;
    let extract = words_of(alloc, extract)?;
    world.connect()?;
    let (made, extracted) = make_then_extract(rt, alloc, &make, &extract, &mut world.memory);
    println!(rt; "{line}: status {}", made.status)?;
    let MemWorld { out, err, .. } = &world.memory;
    print_ended(rt, world, line, extracted.status, out.taken(), err.taken())
}

// Files that never fail: a store `st` of one chunk, and its index `i`.
fn sure_files_of(alloc: Global, kind: DigestKind, piece: &str) -> Result<SureFiles, Fail> {
    let mut files = SureFiles::new(alloc);
    let mut folder = SureFolder::new(alloc);
    let path = path_of(alloc, kind, piece)?;
    folder.put(path.as_str(), &bytes_of(alloc, piece)?)?;
    files.set_folder("st", folder)?;
    files.set_file("i", index_of(alloc, kind, kind, piece)?)?;
    Ok(files)
}

/// `surely PIECE WORD..`
pub fn surely<R: Print + Threads + Wait + Sync>(
    rt: &R,
    world: &mut World,
    line: &str,
    rest: &str,
) -> Result<(), Fail> {
    let alloc = world.alloc;
    let (piece, words) = parted(rest);
    let words = words_of(alloc, words)?;
    let mut files = sure_files_of(alloc, world.kind, piece)?;
    let mut out = SureSink::new(alloc);
    let mut err = SureSink::new(alloc);
    world.connect()?;
    let ended = desync(
        rt,
        alloc,
        &words,
        &mut files,
        &mut world.memory.dial,
        &mut world.memory.listen,
        &mut out,
        &mut err,
    );
    print_ended(rt, world, line, ended.status, out.taken(), err.taken())?;
    print_found(rt, "o", copied(alloc, files.file("o"))?)
}
