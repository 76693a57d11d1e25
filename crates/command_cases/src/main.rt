//! Cases of the commands, over files and connections in memory. They stand in a script, which is read from standard
//! input; what is printed is compared with the transcript beside it, whose values come from outside.
//!
//! Each line of the script begins with the word that says what it does. An empty line, and one that begins with `#`,
//! does nothing. A line that begins with a space goes on with the line before it.
//!
//! `case NAME` begins a case, in a world in which nothing is.
//!
//! What is there (calls are numbered from 0):
//!
//! - `file NAME BYTES`: a file.
//! - `index NAME PIECE..`: a file that is the index of these pieces, by the format and not by our writer.
//! - `failing-reads NAME OFFSET TIMES`, `failing-writes NAME OFFSET TIMES`: a file that is there, of which the reads or
//!   writes that cover the offset fail this often.
//! - `failing-files CALL..`: no files and folders; calls of these numbers that open, replace or rename one will fail.
//! - `store NAME CHUNK..`: a folder that holds chunks. `PIECE` is a chunk, and `PIECE=BYTES` other bytes under its id;
//!   `NAME:BYTES` is any file.
//! - `failing-store NAME CALL..`: an empty folder, of which the calls of these numbers fail.
//! - `server BYTES`: a connection to a server, on which these bytes come. `served NAME`, `served NAME LENGTH`: those of
//!   a file, or the first LENGTH of them, come besides.
//! - `client BYTES`: a client that sends these. `more BYTES`, `more-file NAME`: it sends these, or those of a file,
//!   besides. Each run has all connections of the case, in their order.
//! - `failing-listener CALL..`: the calls of the listener that fail.
//! - `digest KIND`, `digest KIND FLAGS`: chunks are named by this digest from here on, `sha512-256` (as where no such
//!   line stands) or `sha256`. The flags of an index say the same, or what stands behind it.
//!
//! What is run; how it ended is printed, where it listened, and what it printed and told:
//!
//! - `run WORD..`: a command.
//! - `both WORD.. & WORD..`: two commands, by one call of `make_then_extract`.
//! - `surely PIECE WORD..`: a command over files that never fail, with a store `st` that has the piece, and its index
//!   `i`. What then stands under `o` is printed too.
//!
//! What is shown, or told to be absent:
//!
//! - `show NAME`: a file. `hex NAME`: the same in hexadecimal digits. `same NAME NAME`: whether two files are alike.
//! - `chunk FOLDER PIECE`: what a folder holds under the id of a piece. `names FOLDER`: the names of its files.
//! - `sent NUMBER`, `replied NUMBER`: what went to a server, or to a client, on the connection that ended after so
//!   many others.
//!
//! In bytes and pieces `\n` and `\r` are the ends of a line, `\0`, `\1` and `\2` the bytes of these numbers, and
//! `\0{5}` is five of them.
#![tactic(auto)]

mod index_files;
mod listening;
mod notation;
mod running;
mod script;
mod setting;
mod showing;
mod world;

use script::perform;
use std::test::Fail;
use world::World;

fn main(rt: HostRuntime) -> Result<(), Fail> {
    let alloc = rt.alloc();
    let mut world = World::new(alloc);
    let mut said = String::new(alloc);
    for line in rt.lines(alloc) {
        let line = line?;
        match line.as_str().strip_prefix(' ') {
            Some(more) => said.push_str(more)?,
            None => {
                perform(&rt, &mut world, said.as_str())?;
                said = line;
            }
        }
    }
    perform(&rt, &mut world, said.as_str())
}
