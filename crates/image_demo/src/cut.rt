//! Images in memory with their indexes.

ghost use Rattle.std.specs.Prelude.{◌≡◌, ◌≤◌, IfOk, IfErr, IfSome};
ghost use Rattle.buzhash_cut.specs.Image.{IndexGiven, IsIndexOfImage};
ghost use Rattle.caibx_codec.specs.Listing.{count_of, image_length, kind_of};
ghost use Rattle.caibx_fields.specs.Limits.{item_limit};
ghost use Rattle.dsy_base.specs.Counts.{CountsFaults};
ghost use Rattle.image_demo.specs.Images.{usual_sizes};

use crate::fault::DemoFault;
use buzhash_cut::image::{CutFault, index_view_as};
use buzhash_cut::sizes::CutSizes;
use caibx_codec::index::Index;
use chunk_store::id::DigestKind;
use dsy_base::view::View;
use std::alloc::Global;
use std::thread::Threads;

/// An image and its index.
#[derive(Drop)]
pub struct Indexed<V: View> {
    pub view: V,
    pub index: Index,
}

// The sizes by which images are cut where none are said.
fn usual() -> CutSizes
    ensures { result ≡ usual_sizes }
{
    let Ok(sizes) = CutSizes::new(16_384, 65_536, 262_144) else {
        unreachable!();
    };
    sizes
}

// Indexes the image behind one view, and hands the view back.
fn index_one<R: Threads + Sync, V: View + Send>(
    rt: &R,
    alloc: Global,
    view: V,
    kind: DigestKind,
) -> (V, Result<Index, CutFault>)
    ensures exactly { IfSome (V.held view).bytes (λ t. IndexGiven kind usual_sizes t result.1) }
    ensures kind { IfOk result.1 (λ l. kind_of l ≡ kind) }
    ensures size { IfOk result.1 (λ l. image_length l ≡ (V.held view).size) }
    ensures kept { V.held result.0 ≡ V.held view }
    ensures few { IfOk result.1 (λ l. count_of l ≤ item_limit) }
    ensures faults { CountsFaults CutFault.ImageFault CutFault.Memory (V.faults view) (V.faults result.0) result.1 }
{
    let mut views = Vec::new(alloc);
    if let Err(refused) = views.push(view) {
        return (refused.value, Err(CutFault::Memory));
    }
    let sizes = usual();
    let (mut views, made) = index_view_as(rt, alloc, views, &sizes, kind);
    let Some(view) = views.pop() else {
        unreachable!();
    };
    (view, made)
}

/// Cuts an image of at most 2^29 bytes by the usual sizes, and names its chunks by this digest.
pub fn cut<R: Threads + Sync, V: View + Send>(
    rt: &R,
    alloc: Global,
    view: V,
    kind: DigestKind,
) -> Result<Indexed<V>, DemoFault>
    ensures exactly { IfOk result (λ x. IfSome (V.held view).bytes (λ t. IsIndexOfImage kind usual_sizes t x.index)) }
    ensures kind { IfOk result (λ x. kind_of x.index ≡ kind) }
    ensures size { IfOk result (λ x. image_length x.index ≡ (V.held view).size) }
    ensures few { IfOk result (λ x. count_of x.index ≤ item_limit) }
    ensures kept { IfOk result (λ x. V.held x.view ≡ V.held view) }
    ensures err { IfErr result (λ e. e ≡ DemoFault.Memory) }
{
    let (view, made) = index_one(rt, alloc, view, kind);
    match made {
        Ok(index) => Ok(Indexed { view, index }),
        // The view never fails, and so few bytes have few chunks, so it is for want of memory.
        Err(_) => Err(DemoFault::Memory),
    }
}
