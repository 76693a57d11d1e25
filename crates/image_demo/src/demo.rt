//! The whole of it: an image is made of a number, cut, stored, and extracted into an empty target, with a seed.

ghost use Rattle.std.specs.Prelude.{◌≤◌, ◌^◌};
ghost use Rattle.image_demo.specs.Figures.{Rehearses};

use crate::bytes;
use crate::chunk_map::ChunkMap;
use crate::compare::compare;
use crate::cut::{Indexed, cut};
use crate::fault::DemoFault;
use crate::figures::Figures;
use crate::make::make;
use crate::shared_bytes::SharedBytes;
use crate::stock::stock;
use buzhash_cut::laws::image_is_right;
use chunk_store::id::DigestKind;
use dsy_sure::sure_bytes::SureBytes;
use std::alloc::Global;
use std::sync::Wait;
use std::thread::Threads;

// The greatest number of workers that an index is dealt to.
const MOST_WORKERS: usize = 32;

/// The figures of the image that the number makes, of this many bytes. Its chunks are named by this digest. The seed is
/// the same but for up to 2^20 bytes from the middle on, of which all bits are turned round. There are 1 to 32 workers:
/// what is beyond that counts as the nearer of the two, and those for which there is no memory are left out.
pub fn demo_figures<R: Threads + Wait + Sync>(
    rt: &R,
    alloc: Global,
    number: u64,
    size: u64,
    workers: usize,
    kind: DigestKind,
) -> Result<Figures, DemoFault>
    requires { size ≤ 2 ^ 29 }
    ensures { Rehearses kind number size result }
{
    image_is_right();
    let Ok(image) = bytes::image(alloc, number, size as usize) else {
        return Err(DemoFault::Memory);
    };
    let Ok(turned) = bytes::seed(alloc, &image) else {
        return Err(DemoFault::Memory);
    };
    let indexed = cut(rt, alloc, SharedBytes::new(&image), kind)?;
    let Indexed { mut view, index } = indexed;
    let seed = cut(rt, alloc, SharedBytes::new(&turned), kind)?;
    let mut chunks = ChunkMap::new(alloc);
    stock(alloc, &index, &mut view, &mut chunks)?;
    let target = SureBytes::new(alloc, Vec::new(alloc));
    let workers = workers.clamp(1, MOST_WORKERS);
    let made = make(rt, alloc, &index, target, chunks.shared(), seed, workers)?;
    compare(&index, made.target.bytes(), &image)?;
    Ok(made.figures)
}
