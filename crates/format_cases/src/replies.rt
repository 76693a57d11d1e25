//! Bytes that come in reply to a store over HTTP.

ghost use Rattle.std.specs.Prelude.{◌<◌};

use crate::bytes::{pieces_of, print_both};
use chunk_store::id::{ChunkId, DigestKind};
use chunk_store::store::Store;
use dsy_base::name::Name;
use http_read::store::HttpStore;
use link_forms::mem_dial::MemDial;
use link_forms::mem_link::MemLink;
use std::alloc::Global;
use std::test::Fail;

// A store at a server whose reply comes in pieces of this size.
fn store_of(alloc: Global, reply: &[u8], size: usize) -> Result<HttpStore<MemDial>, Fail>
    requires { 0 < size }
{
    let pieces = pieces_of(alloc, reply, size)?;
    let mut links = Vec::new(alloc);
    links.push(MemLink::new(alloc, pieces, Vec::new(alloc)))?;
    let dial = MemDial::new(alloc, links, Vec::new(alloc));
    let host = Name::of(alloc, "localhost")?;
    let prefix = Name::of(alloc, "")?;
    Ok(HttpStore::new(alloc, dial, host, 80, prefix))
}

// What is got where the reply comes in pieces of this size.
fn got(alloc: Global, reply: &[u8], size: usize, room: usize) -> Result<String, Fail>
    requires { 0 < size }
{
    let mut store = store_of(alloc, reply, size)?;
    let mut out = vec![in alloc; 0u8; room]?;
    let id = ChunkId::of(DigestKind::Sha512T256, b"abc");
    match store.get(&id, out.as_mut_slice()) {
        Ok(n) => Ok(format!(in alloc; "{}", out[..n].escape_ascii())?),
        Err(fault) => Ok(format!(in alloc; "{fault:?}, {:?}", store.last_bad())?),
    }
}

// One reply, of which `what` tells the bytes.
fn tell(rt: &impl Print, alloc: Global, what: &str, reply: &[u8], room: usize) -> Result<(), Fail> {
    let whole = got(alloc, reply, reply.len().max(1), room)?;
    let single = got(alloc, reply, 1, room)?;
    print_both(rt, what, whole.as_str(), single.as_str())
}

/// `get ROOM`
pub fn get(rt: &impl Print, alloc: Global, reply: &[u8], room: &str) -> Result<(), Fail> {
    let what = format!(in alloc; "get {room}")?;
    tell(
        rt,
        alloc,
        what.as_str(),
        reply,
        room.parse::<u32>()? as usize,
    )
}

/// `get-fronts ROOM`
pub fn get_fronts(rt: &impl Print, alloc: Global, reply: &[u8], room: &str) -> Result<(), Fail> {
    let size = room.parse::<u32>()? as usize;
    for end in 0..reply.len() {
        let what = format!(in alloc; "get {room} of a front of {end}")?;
        tell(rt, alloc, what.as_str(), &reply[..end], size)?;
    }
    Ok(())
}
