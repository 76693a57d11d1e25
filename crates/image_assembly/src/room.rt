//! How many workers there is memory for. Sizes are in bytes.

ghost use Rattle.std.specs.Prelude.{◌≤◌};

use caibx_codec::index::Index;
use std::alloc::Global;

/// How much address space a worker takes beside its buffer: the stack of its thread, which is 8 MiB unless the system
/// is told otherwise, and its stores, seeds, shards and lanes.
const WORKER: usize = 9_437_184;

/// How many bytes preparing an assembly takes for each entry, beside one for each worker: for the plan, while it is
/// made, and for what became of the entry.
const ENTRY: usize = 96;

/// How many bytes the assembly takes besides, whatever the index lists.
const ASSEMBLY: usize = 262_144;

// How many bytes an assembly with this many workers takes at most. More than there can be, where that isn't a number.
fn assembly_size(index: &Index, workers: usize) -> usize {
    let entry = ENTRY.saturating_add(workers);
    let worker = index.largest().saturating_add(WORKER);
    index
        .count()
        .saturating_mul(entry)
        .saturating_add(worker.saturating_mul(workers))
        .saturating_add(ASSEMBLY)
}

// Whether there is memory for an assembly with this many workers. It is free again afterwards.
fn is_room(alloc: Global, index: &Index, workers: usize) -> bool {
    let room: Result<Vec<u8>, _> = Vec::with_capacity(alloc, assembly_size(index, workers));
    room.is_ok()
}

/// How many of these workers there is memory for: all of them, or as many as can be obtained, and one at least. No
/// memory is looked for where there is one.
pub fn workers_with_room(alloc: Global, index: &Index, workers: usize) -> usize
    requires { 1 ≤ workers }
    ensures size { (1 ≤ result) × (result ≤ workers) }
{
    for fewer in 0..workers - 1 {
        let count = workers - fewer;
        if is_room(alloc, index, count) {
            return count;
        }
    }
    1
}
