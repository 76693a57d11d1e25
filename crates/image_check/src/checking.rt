//! The check of an image's chunks, one after another. Entries are numbered from 0.

ghost use Rattle.std.specs.Prelude.{◌≡◌, ℕ, ◌+◌, ◌<◌, ◌≤◌, All, IfErr, IfSome, OnOk, length};
ghost use Rattle.caibx_codec.specs.Listing.{Listing, count_of, image_length, size_of};
ghost use Rattle.caibx_codec.specs.Right.{IsRightAt};
ghost use Rattle.dsy_base.specs.Counts.{CountsFaults};
ghost use Rattle.image_slices.specs.Ahead.{IsAhead, TellsSlice};
ghost use Rattle.image_check.specs.CheckProgress.{ChecksOn, IsChecking, IsWrongAt};

use crate::check::CheckFault;
use caibx_codec::index::Index;
use chunk_store::range::name_range;
use dsy_base::fault::Failed;
use dsy_base::view::View;
use image_slices::ahead::{Ahead, slice_among};
use image_slices::consumer::EntryConsumer;

// Reads chunk i and names it.
fn check_chunk<V: View>(
    index: &Index,
    i: usize,
    view: &mut V,
    buf: &mut [u8],
) -> Result<(), CheckFault>
    requires listed { i < count_of index.now }
    requires size { image_length index.now ≡ (V.held view.old).size }
    requires room { size_of index.now i ≤ length buf.old }
    ensures right { OnOk result (IfSome (V.held view.old).bytes (λ t. IsRightAt t index.now i)) }
    ensures wrong { IfErr result (IsWrongAt index.now i (V.held view.old).bytes) }
    ensures kept { V.held view.new ≡ V.held view.old }
    ensures faults { CountsFaults CheckFault.ImageFault CheckFault.Memory (V.faults view.old) (V.faults view.new)
        result }
{
    let listed = index.entry(i);
    let (chunk, _) = buf.split_at_mut(listed.size);
    let got = match name_range(view, index.kind(), listed.start, chunk) {
        Ok(name) => name,
        Err(Failed) => return Err(CheckFault::ImageFault),
    };
    if !got.is(&listed.id) {
        let entry = i as u64;
        return Err(CheckFault::Mismatch { entry, got });
    }
    Ok(())
}

/// A view of the image, room for its largest chunk, and how far the check has come: the chunks before `at` are right.
#[derive(Drop)]
pub(crate) struct Checking<V> {
    pub view: V,
    pub buf: Vec<u8>,
    pub at: usize,
}

impl<V: View> Checking<V> {
    /// Nothing is checked yet.
    pub(crate) fn new(view: V, buf: Vec<u8>) -> Checking<V>
        ensures checking { (l : Listing) → image_length l ≡ (V.held view).size
            → ((i : ℕ) → i < count_of l → size_of l i ≤ length buf.items) → IsChecking V.View l result }
        ensures view { result.view ≡ view }
    {
        Checking { view, buf, at: 0 }
    }

    // Reads the next chunk and names it, unless it was found right.
    fn see_next(&mut self, index: &Index, ready: &[Ahead]) -> Result<(), CheckFault>
        requires more { self.old.at < count_of index.now }
        requires checking { IsChecking V.View index.now self.old }
        requires ready { All (IsAhead index.now (TellsSlice index.now (V.held self.old.view).bytes)) ready.now }
        ensures right { OnOk result (IfSome (V.held self.old.view).bytes (λ t. IsRightAt t index.now self.old.at)) }
        ensures wrong { IfErr result (IsWrongAt index.now self.old.at (V.held self.old.view).bytes) }
        ensures at { self.new.at ≡ self.old.at }
        ensures room { length self.new.buf.items ≡ length self.old.buf.items }
        ensures kept { V.held self.new.view ≡ V.held self.old.view }
        ensures faults { CountsFaults CheckFault.ImageFault CheckFault.Memory
            (V.faults self.old.view) (V.faults self.new.view) result }
    {
        index.rules();
        if let Some(_slice) = slice_among(ready, index, self.at) {
            return Ok(());
        }
        check_chunk(index, self.at, &mut self.view, &mut self.buf)
    }

    // Checks the next chunk, which may have been found right.
    fn check_next(&mut self, index: &Index, ready: &[Ahead]) -> Result<(), CheckFault>
        requires more { self.old.at < count_of index.now }
        requires checking { IsChecking V.View index.now self.old }
        requires ready { All (IsAhead index.now (TellsSlice index.now (V.held self.old.view).bytes)) ready.now }
        ensures on { ChecksOn V.View index.now self.old self.new result }
        ensures next { OnOk result (self.new.at ≡ self.old.at + 1) }
    {
        index.rules();
        self.see_next(index, ready)?;
        self.at += 1;
        Ok(())
    }

    /// Hands the view back.
    pub(crate) fn end(self) -> V
        ensures { result ≡ self.view }
    {
        self.view
    }
}

impl<V: View> EntryConsumer for Checking<V> {
    ghost use Rattle.image_check.specs.CheckProgress.{ChecksOn, IsChecking};

    type Fault = CheckFault;

    ghost image = { λ s. V.held s.view };

    ghost taken = { λ s. s.at };

    ghost can_go_on = { λ l s. IsChecking V.View l s };

    ghost goes = { λ l a b r. ChecksOn V.View l a b r };

    fn at(&self) -> usize {
        self.at
    }

    fn take_next(&mut self, index: &Index, ready: &[Ahead]) -> Result<(), CheckFault> {
        self.check_next(index, ready)
    }
}
