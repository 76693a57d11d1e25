//! Cases of bytes that come from strangers: index files, replies of servers, and requests. They stand in a script,
//! which is read from standard input; what is printed is compared with the transcript beside it, whose values come
//! from outside.
//!
//! Each line of the script begins with the word that says what it does. An empty line, and one that begins with `#`,
//! does nothing. `case NAME` begins a case, which has no bytes.
//!
//! What the bytes are, each after those before:
//!
//! - `hex DIGITS`: bytes by hexadecimal digits.
//! - `text TEXT`: the bytes of a text. `line TEXT`: the same, and CR LF.
//! - `texts NUMBER TEXT`, `lines NUMBER TEXT`: the same this many times.
//!
//! What is done with them. It is done twice, with the bytes in one piece and with pieces of one byte, and both answers
//! are printed where they differ:
//!
//! - `read`: they are read as an index. What it lists, or its fault, is printed.
//! - `fronts`: so is each front of them that is shorter.
//! - `spoiled`: so are they for each byte, with all bits of this byte turned.
//! - `get ROOM`: they are a server's reply where the chunk "abc" is asked for, with room for this many bytes. The
//!   answer and why the reply was refused are printed.
//! - `get-fronts ROOM`: so is each front of them that is shorter.
//! - `serve`: they are requests at a store that has the chunk "abc" and takes chunks. The replies are printed, how the
//!   connection ended, and which files the store has then.
#![tactic(auto)]

mod bytes;
mod indexes;
mod replies;
mod requests;
mod script;

use script::perform;
use std::test::Fail;

fn main(rt: HostRuntime) -> Result<(), Fail> {
    let alloc = rt.alloc();
    let mut bytes = Vec::new(alloc);
    for line in rt.lines(alloc) {
        perform(&rt, alloc, &mut bytes, line?.as_str())?;
    }
    Ok(())
}
