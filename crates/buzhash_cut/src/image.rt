//! The index of an image. Offsets and sizes are in bytes.

ghost use Rattle.std.specs.Prelude.{◌≡◌, ◌≤◌, ◌<◌, map, reverse, vec_len, All, IfOk, IfSome};
ghost use Rattle.buzhash_cut.specs.Image.{AreOfOneImage, IndexGiven, CountsViews, flags_of};
ghost use Rattle.buzhash_cut.specs.Runs.{IsReady};
ghost use Rattle.caibx_codec.specs.Listing.{count_of, image_length, kind_of};
ghost use Rattle.caibx_fields.specs.Limits.{item_limit};

use crate::worker::Worker;
use crate::workers::{dismiss, entries_by, hire};
use caibx_codec::index::Index;
use chunk_ends::sizes::CutSizes;
use chunk_store::id::DigestKind;
use dsy_base::view::View;
use std::alloc::{AllocError, Global};
use std::thread::Threads;

/// Why no index of an image was made.
#[derive(Clone, Copy, Debug, PartialEq, Eq)]
pub enum CutFault {
    /// The image couldn't be read.
    ImageFault,
    /// The image has more chunks than an index may list.
    TooManyItems,
    Memory,
}

impl From<AllocError> for CutFault {
    ghost use Rattle.buzhash_cut.specs.declared.image.CutFault.TheVariants.{Memory};

    ghost from_gives = { λ _ e. e ≡ Memory };

    fn from(_e: AllocError) -> CutFault {
        CutFault::Memory
    }
}

// The flags of an index whose chunks are named by this digest, as casync writes them.
fn head_flags(kind: DigestKind) -> u64
    ensures value { result ≡ flags_of kind }
{
    match kind {
        DigestKind::Sha512T256 => 0xa000_0000_0000_0000,
        DigestKind::Sha256 => 0x8000_0000_0000_0000,
    }
}

// The index of the image that the workers cut.
fn index_by<R: Threads + Sync, V: View + Send>(
    rt: &R,
    alloc: Global,
    workers: &mut Vec<Worker<V>>,
    kind: DigestKind,
    sizes: &CutSizes,
) -> Result<Index, CutFault>
    requires some { 0 < vec_len workers.old }
    requires alike { AreOfOneImage (map (λ w. V.held w.view) workers.old.items) }
    requires none { All (IsReady V.held kind sizes.now) workers.old.items }
    ensures exactly { All (λ h. IfSome h.bytes (λ t. IndexGiven kind sizes.now t result))
        (map (λ w. V.held w.view) workers.old.items) }
    ensures size { IfOk result (λ l. All (λ h. image_length l ≡ h.size) (map (λ w. V.held w.view) workers.old.items)) }
    ensures kind { IfOk result (λ l. kind_of l ≡ kind) }
    ensures few { IfOk result (λ l. count_of l ≤ item_limit) }
    ensures kept { map (λ w. V.held w.view) workers.new.items ≡ map (λ w. V.held w.view) workers.old.items }
    ensures len { vec_len workers.new ≡ vec_len workers.old }
    ensures faults { CountsViews CutFault.ImageFault CutFault.Memory
        (reverse (map (λ w. V.faults w.view) workers.old.items))
        (reverse (map (λ w. V.faults w.view) workers.new.items)) result }
{
    let entries = match entries_by(rt, alloc, workers, kind, sizes) {
        Ok(entries) => entries,
        Err(fault) => return Err(fault),
    };
    sizes.rules();
    let flags = head_flags(kind);
    let Ok(index) = Index::new(flags, sizes.min(), sizes.avg(), sizes.max(), entries) else {
        unreachable!();
    };
    index.rules();
    Ok(index)
}

/// The index of an image, cut by these sizes with as many workers as there are views, and its chunks named by this
/// digest. The views come back in their order, whatever the answer is.
pub fn index_view_as<R: Threads + Sync, V: View + Send>(
    rt: &R,
    alloc: Global,
    views: Vec<V>,
    sizes: &CutSizes,
    kind: DigestKind,
) -> (Vec<V>, Result<Index, CutFault>)
    requires some { 0 < vec_len views }
    requires alike { AreOfOneImage (map V.held views.items) }
    ensures exactly { All (λ v. IfSome (V.held v).bytes (λ t. IndexGiven kind sizes.now t result.1)) views.items }
    ensures size { IfOk result.1 (λ l. All (λ v. image_length l ≡ (V.held v).size) views.items) }
    ensures kind { IfOk result.1 (λ l. kind_of l ≡ kind) }
    ensures kept { map V.held result.0.items ≡ map V.held views.items }
    ensures few { IfOk result.1 (λ l. count_of l ≤ item_limit) }
    ensures faults { CountsViews CutFault.ImageFault CutFault.Memory
        (map V.faults views.items) (map V.faults result.0.items) result.1 }
{
    let mut views = views;
    let Ok(mut workers) = Vec::with_capacity(alloc, views.len()) else {
        return (views, Err(CutFault::Memory));
    };
    hire(alloc, kind, sizes, &mut views, &mut workers);
    let made = index_by(rt, alloc, &mut workers, kind, sizes);
    dismiss(&mut workers, &mut views);
    (views, made)
}

/// The same with SHA-512/256, by which images are indexed where no digest is said.
pub fn index_view<R: Threads + Sync, V: View + Send>(
    rt: &R,
    alloc: Global,
    views: Vec<V>,
    sizes: &CutSizes,
) -> (Vec<V>, Result<Index, CutFault>)
    requires some { 0 < vec_len views }
    requires alike { AreOfOneImage (map V.held views.items) }
    ensures exactly { All (λ v. IfSome (V.held v).bytes
        (λ t. IndexGiven DigestKind.Sha512T256 sizes.now t result.1)) views.items }
    ensures size { IfOk result.1 (λ l. All (λ v. image_length l ≡ (V.held v).size) views.items) }
    ensures kind { IfOk result.1 (λ l. kind_of l ≡ DigestKind.Sha512T256) }
    ensures kept { map V.held result.0.items ≡ map V.held views.items }
    ensures few { IfOk result.1 (λ l. count_of l ≤ item_limit) }
    ensures faults { CountsViews CutFault.ImageFault CutFault.Memory
        (map V.faults views.items) (map V.faults result.0.items) result.1 }
{
    index_view_as(rt, alloc, views, sizes, DigestKind::Sha512T256)
}
