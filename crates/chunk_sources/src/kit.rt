//! The store chain, the opened seeds and the chunk buffer of one worker.

ghost use Rattle.std.specs.Prelude.{◌≡◌, []};

use chunk_store::store::Store;
use dsy_base::view::View;
use extract_plan::seed::Seed;
use std::alloc::Global;
use store_chain::chain::Chain;

/// Where chunks come from, and the room that they are read into.
#[derive(Drop)]
pub struct Kit<S: Store, V: View> {
    pub chain: Chain<S>,
    pub seeds: Vec<Seed<V>>,
    pub buffer: Vec<u8>,
}

impl<S: Store, V: View> Kit<S, V> {
    /// The buffer is empty: an assembly makes it as large as the largest chunk.
    pub fn new(alloc: Global, chain: Chain<S>, seeds: Vec<Seed<V>>) -> Kit<S, V>
        ensures chain { result.chain ≡ chain }
        ensures seeds { result.seeds ≡ seeds }
        ensures size { result.buffer.items ≡ [] }
    {
        Kit {
            chain,
            seeds,
            buffer: Vec::new(alloc),
        }
    }
}
