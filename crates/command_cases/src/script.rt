//! The lines of the script.

use crate::notation::parted;
use crate::running::{both, run, surely};
use crate::setting::{
    client, digest, failing_files, failing_listener, failing_reads, failing_store, failing_writes,
    file, index, more, more_file, served, server, store,
};
use crate::showing::{
    chunk_shown, digits_shown, file_shown, names_shown, print_found, replies_shown, sameness_shown,
    sent_shown,
};
use crate::world::World;
use std::sync::Wait;
use std::test::Fail;
use std::thread::Threads;

// Lines that say what is there, and then those that show it.
fn set_up_or_show(rt: &impl Print, world: &mut World, line: &str) -> Result<(), Fail> {
    let (word, rest) = parted(line);
    match word {
        "file" => file(world, rest),
        "index" => index(world, rest),
        "failing-reads" => failing_reads(world, rest),
        "failing-writes" => failing_writes(world, rest),
        "failing-files" => failing_files(world, rest),
        "store" => store(world, rest),
        "failing-store" => failing_store(world, rest),
        "server" => server(world, rest),
        "served" => served(world, rest),
        "client" => client(world, rest),
        "more" => more(world, rest),
        "more-file" => more_file(world, rest),
        "failing-listener" => failing_listener(world, rest),
        "digest" => digest(world, rest),
        _ => print_found(rt, line, shown(world, word, rest)?),
    }
}

// What a line shows, where it is one that shows anything.
fn shown(world: &mut World, word: &str, rest: &str) -> Result<Option<Vec<u8>>, Fail> {
    match word {
        "show" => file_shown(world, rest),
        "hex" => digits_shown(world, rest),
        "same" => sameness_shown(world, rest),
        "chunk" => chunk_shown(world, rest),
        "names" => names_shown(world, rest),
        "sent" => sent_shown(world, rest),
        "replied" => replies_shown(world, rest),
        _ => Err(Fail::new(format_args!("no line begins with {word}"))),
    }
}

/// Does what a line says.
pub fn perform<R: Print + Threads + Wait + Sync>(
    rt: &R,
    world: &mut World,
    line: &str,
) -> Result<(), Fail> {
    if line.is_empty() || line.starts_with('#') {
        return Ok(());
    }
    let (word, rest) = parted(line);
    match word {
        "case" => {
            *world = World::new(world.alloc);
            println!(rt; "\n{line}")?;
            Ok(())
        }
        "run" => run(rt, world, line, rest),
        "both" => both(rt, world, line, rest),
        "surely" => surely(rt, world, line, rest),
        _ => set_up_or_show(rt, world, line),
    }
}
