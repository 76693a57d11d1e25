//! Bytes that are read as an index.

ghost use Rattle.std.specs.Prelude.{◌<◌};

use crate::bytes::print_both;
use caibx_codec::reader::IndexReader;
use caibx_codec::reading::ReadFault;
use std::alloc::Global;
use std::test::Fail;

// How many chunks the index lists that comes in pieces of this size.
fn listed(alloc: Global, bytes: &[u8], size: usize) -> Result<usize, ReadFault>
    requires { 0 < size }
{
    let mut reader = IndexReader::new(alloc);
    for piece in bytes.chunks(size) {
        reader.feed(piece)?;
    }
    Ok(reader.finish()?.count())
}

/// `read`, of which `what` tells the bytes.
pub fn read(rt: &impl Print, alloc: Global, what: &str, bytes: &[u8]) -> Result<(), Fail> {
    let whole = format!(in alloc; "{:?}", listed(alloc, bytes, bytes.len().max(1)))?;
    let single = format!(in alloc; "{:?}", listed(alloc, bytes, 1))?;
    print_both(rt, what, whole.as_str(), single.as_str())
}

/// `fronts`
pub fn fronts(rt: &impl Print, alloc: Global, bytes: &[u8]) -> Result<(), Fail> {
    for end in 0..bytes.len() {
        let what = format!(in alloc; "front of {end}")?;
        read(rt, alloc, what.as_str(), &bytes[..end])?;
    }
    Ok(())
}

/// `spoiled`
pub fn spoiled(rt: &impl Print, alloc: Global, bytes: &[u8]) -> Result<(), Fail> {
    for at in 0..bytes.len() {
        let mut changed = Vec::from_slice(alloc, bytes)?;
        if let Some(byte) = changed.get_mut(at) {
            *byte ^= 0xff;
        }
        let what = format!(in alloc; "byte {at} spoiled")?;
        read(rt, alloc, what.as_str(), &changed)?;
    }
    Ok(())
}
