//! Chains of stores that become readers, and come back.

ghost use Rattle.std.specs.Prelude.{◌≡◌, ◌≤◌, [], map, All};
ghost use Rattle.std.specs.Prelude.{vec_capacity, vec_len};
ghost use Rattle.cache_fill.specs.FillProgress.{RiseByOne, IsHired};

use crate::want_reader::WantReader;
use caibx_codec::index::Index;
use chunk_store::store::Store;
use std::alloc::{AllocError, Global};
use store_chain::chain::Chain;

/// So many buffers of this size.
pub(crate) fn buffers(
    alloc: Global,
    count: usize,
    size: usize,
) -> Result<Vec<Vec<u8>>, AllocError> {
    let mut buffers = Vec::with_capacity(alloc, count)?;
    for _buffer in 0..count {
        buffers.push(vec![in alloc; 0u8; size]?)?;
    }
    Ok(buffers)
}

/// Makes a reader of each chain, which has one of the buffers. The first of them is worker 1.
pub(crate) fn hire<'a, S: Store>(
    chains: &mut Vec<Chain<S>>,
    index: &'a Index,
    owners: &'a [u8],
    buffers: &mut Vec<Vec<u8>>,
    readers: &mut Vec<WantReader<'a, S>>,
)
    requires none { readers.old.items ≡ [] }
    requires room { vec_len chains.old ≤ vec_capacity readers.old }
    ensures kept { chains.old.items ≡ map (λ r. r.chain) readers.new.items }
    ensures hired { All (IsHired index.now owners.now) readers.new.items }
    ensures numbered { RiseByOne 1 readers.new.items }
    ensures none { chains.new.items ≡ [] }
    ensures room { vec_len readers.new ≤ vec_capacity chains.new }
{
    let alloc = *readers.allocator();
    chains.reverse();
    while let Some(chain) = chains.pop() {
        let buf = match buffers.pop() {
            Some(buf) => buf,
            None => Vec::new(alloc),
        };
        let number = readers.len() + 1;
        let Ok(()) = readers.push(WantReader {
            chain,
            index,
            owners,
            number,
            buf,
            next: 0,
            lost: None,
        }) else {
            unreachable!();
        };
    }
}

/// Takes the chains back, in their order.
pub(crate) fn dismiss<S: Store>(readers: &mut Vec<WantReader<S>>, chains: &mut Vec<Chain<S>>)
    requires none { chains.old.items ≡ [] }
    requires room { vec_len readers.old ≤ vec_capacity chains.old }
    ensures kept { chains.new.items ≡ map (λ r. r.chain) readers.old.items }
{
    while let Some(reader) = readers.pop() {
        let Ok(()) = chains.push(reader.chain) else {
            unreachable!();
        };
    }
    chains.reverse();
}
