//! The chunks of an image put into a store.

ghost use Rattle.std.specs.Prelude.{◌≡◌, OnOk, IfErr, IfSome, Some, None};
ghost use Rattle.caibx_codec.specs.Listing.{image_length};
ghost use Rattle.image_demo.specs.Stocks.{IsStocked};

use crate::fault::DemoFault;
use caibx_codec::index::Index;
use chunk_store::store::StoreWrite;
use dsy_base::view::View;
use image_store::put_chunks::put_chunks;
use std::alloc::Global;

/// Puts each chunk of the image into an empty store.
pub fn stock<V: View, S: StoreWrite>(
    alloc: Global,
    index: &Index,
    image: &mut V,
    store: &mut S,
) -> Result<(), DemoFault>
    requires size { image_length index.now ≡ (V.held image.old).size }
    requires none { S.holds store.old ≡ Some (λ _. None) }
    ensures ok { OnOk result (IfSome (V.held image.old).bytes (λ t. IsStocked index.now t (S.holds store.new))) }
    ensures err { IfErr result (λ e. e ≡ DemoFault.Memory) }
    ensures kept { V.held image.new ≡ V.held image.old }
{
    match put_chunks(alloc, index, image, store) {
        Ok(()) => Ok(()),
        // The image is read again as it was, and neither it nor the store fails, so it is for want of memory.
        Err(_) => Err(DemoFault::Memory),
    }
}
