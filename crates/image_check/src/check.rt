//! An image held against an index. Offsets and sizes are in bytes, entries are numbered from 0.

ghost use Rattle.std.specs.Prelude.{◌≡◌, ℕ, ◌<◌, ◌≤◌, All, length, IfErr, IfSome, map};
ghost use Rattle.caibx_codec.specs.Listing.{count_of, size_of, image_length};
ghost use Rattle.dsy_base.specs.Counts.{CountsFaults};
ghost use Rattle.image_slices.specs.Consumers.{IsAlike, NoFaultCountFalls};
ghost use Rattle.image_check.specs.Checks.{TellsSize, TellsChunks, NamesEntry};
ghost use Rattle.image_check.specs.CheckProgress.{CheckEnds};

use crate::checking::Checking;
use caibx_codec::index::Index;
use chunk_store::id::ChunkId;
use dsy_base::view::View;
use image_slices::consumer::take_slices;
use image_slices::subfolders::NoSubfolders;
use std::alloc::Global;
use std::thread::Threads;

/// Why an image isn't known to be the one that an index lists.
#[derive(Clone, Copy, Debug, PartialEq, Eq)]
pub enum CheckFault {
    /// The image has this many bytes, and the index lists another number.
    Length { size: u64 },
    /// The chunk of this entry has the digest `got`, and the index lists another.
    Mismatch { entry: u64, got: ChunkId },
    /// The image couldn't be read.
    ImageFault,
    Memory,
}

// Holds all chunks against the index.
fn check_beside<R: Threads + Sync, V: View + Send>(
    rt: &R,
    index: &Index,
    view: V,
    others: &mut Vec<V>,
    buf: Vec<u8>,
) -> (V, Result<(), CheckFault>)
    requires size { image_length index.now ≡ (V.held view).size }
    requires alike { All (IsAlike (V.held view)) (map V.held others.old.items) }
    requires room { (i : ℕ) → i < count_of index.now → size_of index.now i ≤ length buf.items }
    ensures ends { CheckEnds index.now (V.held view).bytes (V.held view).size result.1 }
    ensures kept { V.held result.0 ≡ V.held view }
    ensures faults { CountsFaults CheckFault.ImageFault CheckFault.Memory (V.faults view) (V.faults result.0)
        result.1 }
    ensures others { map V.held others.new.items ≡ map V.held others.old.items }
    ensures other_faults { NoFaultCountFalls (map V.faults others.old.items) (map V.faults others.new.items) }
{
    let alloc = *buf.allocator();
    let largest = buf.len();
    let checking = Checking::new(view, buf);
    let none: Option<NoSubfolders> = None;
    let (checking, checked) = take_slices(rt, alloc, index, largest, checking, others, &none);
    (checking.end(), checked)
}

/// Holds an image against the index: first its length, then each chunk in order. The other views of the image read and
/// name chunks ahead, each in a thread of its own where there is memory for its rooms. The view comes back, whatever
/// the answer is.
pub fn verify_index<R: Threads + Sync, V: View + Send>(
    rt: &R,
    alloc: Global,
    index: &Index,
    view: V,
    others: &mut Vec<V>,
) -> (V, Result<(), CheckFault>)
    requires alike { All (IsAlike (V.held view)) (map V.held others.old.items) }
    ensures size { TellsSize index.now (V.held view).size result.1 }
    ensures exactly { IfSome (V.held view).bytes (λ t. TellsChunks index.now t result.1) }
    ensures inside { IfErr result.1 (NamesEntry index.now) }
    ensures kept { V.held result.0 ≡ V.held view }
    ensures faults { CountsFaults CheckFault.ImageFault CheckFault.Memory (V.faults view) (V.faults result.0)
        result.1 }

    // The other views.
    ensures others { map V.held others.new.items ≡ map V.held others.old.items }
    ensures other_faults { NoFaultCountFalls (map V.faults others.old.items) (map V.faults others.new.items) }
{
    let size = view.size();
    if size != index.length() {
        return (view, Err(CheckFault::Length { size }));
    }
    match index.room(alloc) {
        Ok(buf) => check_beside(rt, index, view, others, buf),
        Err(_) => (view, Err(CheckFault::Memory)),
    }
}
