//! The ids of an index as text, a line an entry.

ghost use Rattle.std.specs.Prelude.{◌≡◌, [], ◌∷◌, ◌++◌, OnOk, OnErr};
ghost use Rattle.hex.specs.Hex.{encode_lower};
ghost use Rattle.dsy_base.specs.Counts.{CountsFaults};
ghost use Rattle.dsy_base.specs.Texts.{Puts};
ghost use Rattle.verify_tool.specs.Texts.{text_of_chunks};
ghost use Rattle.verify_tool.specs.Blocks.{PutsBlock};

use caibx_codec::index::Index;
use chunk_store::id::ChunkId;
use dsy_base::fault::IoFault;
use dsy_base::sink::Sink;
use std::alloc::{AllocError, Global};

/// How many bytes are gathered before they are put: 512 lines.
const BLOCK: usize = 33_280;

/// Appends the line of an id.
pub fn push_line(block: &mut Vec<u8>, id: &ChunkId) -> Result<(), AllocError>
    ensures ok { OnOk result (block.new.items ≡ block.old.items ++ (encode_lower id.now.0 ++ 10 ∷ [])) }
{
    block.extend_from_slice(id.to_hex().as_slice())?;
    block.push(b'\n')?;
    Ok(())
}

// Puts the block once it is full, and begins it anew.
fn put_full<S: Sink>(out: &mut S, block: &mut Vec<u8>) -> Result<(), IoFault>
    ensures bytes { PutsBlock block.old.items (S.output out.old).taken (S.output out.new).taken block.new.items result }
    ensures faults { CountsFaults IoFault.Failed IoFault.Memory (S.output out.old).faults (S.output out.new).faults
        result }
{
    if block.len() < BLOCK {
        return Ok(());
    }
    out.put(block)?;
    block.clear();
    Ok(())
}

/// Puts the id of each entry on a line of its own, in order, repeats included.
pub fn list_chunks<S: Sink>(alloc: Global, index: &Index, out: &mut S) -> Result<(), IoFault>
    ensures bytes { Puts (text_of_chunks index.now) (S.output out.old).taken (S.output out.new).taken result }
    ensures faults { CountsFaults IoFault.Failed IoFault.Memory (S.output out.old).faults (S.output out.new).faults
        result }
{
    let mut block = Vec::new(alloc);
    for i in 0..index.count() {
        match put_full(out, &mut block) {
            Ok(()) => {}
            Err(fault) => return Err(fault),
        }
        match push_line(&mut block, &index.id(i)) {
            Ok(()) => {}
            Err(_) => return Err(IoFault::Memory),
        }
    }
    out.put(&block)
}
