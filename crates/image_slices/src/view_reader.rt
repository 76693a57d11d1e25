//! Views that read slices of an image ahead. Entries are numbered from 0.

ghost use Rattle.std.specs.Prelude.{◌≡◌, ◌≤◌};
ghost use Rattle.caibx_codec.specs.Listing.{count_of, image_length};
ghost use Rattle.image_slices.specs.Ahead.{IsAhead, TellsSlice};

use crate::ahead::Ahead;
use crate::plan::repeats;
use caibx_codec::index::Index;
use chunk_store::id::ChunkId;
use dsy_base::inner_folders::InnerFolders;
use dsy_base::view::View;
use read_ahead::reader::Reader;

/// A view of the image that the index lists, and the subfolders of the store that its chunks are put into, if they are
/// created ahead.
#[derive(Drop)]
pub struct ViewReader<'a, V, I> {
    pub view: V,
    pub index: &'a Index,
    pub inner: &'a Option<I>,
}

// Creates the subfolder of the chunk's file, where the store's subfolders are known.
fn make_subfolder<I: InnerFolders>(inner: &Option<I>, id: &ChunkId) {
    if let Some(inner) = inner {
        let path = id.path();
        inner.make_for(path.as_str());
    }
}

impl<V: View, I: InnerFolders> Reader<Ahead> for ViewReader<'_, V, I> {
    ghost use Rattle.std.specs.Prelude.{◌≡◌, ◌≤◌};
    ghost use Rattle.caibx_codec.specs.Listing.{count_of, image_length};
    ghost use Rattle.image_slices.specs.Ahead.{IsAhead, TellsSlice};

    ghost count = { λ r. count_of r.index.now };

    ghost can_read = { λ r. image_length r.index.now ≡ (V.held r.view).size };

    ghost is_right = { λ r a. IsAhead r.index.now (TellsSlice r.index.now (V.held r.view).bytes) a };

    ghost went = { λ old new. (V.held new.view ≡ V.held old.view) × (V.faults old.view ≤ V.faults new.view)
        × (new.index.now ≡ old.index.now) };

    fn begin(&self, room: &mut Ahead) {
        room.clear();
    }

    // The slice is kept if it has its digest, and then the subfolder of its chunk's file is created. One that repeats
    // the entry before it, or that the whole room can't hold, is left out.
    fn read_item(&mut self, i: usize, room: &mut Ahead) -> bool {
        let index = self.index;
        if repeats(index, i) || !room.could_take(index, i) {
            return true;
        }
        if !room.fits(index, i) || !room.read(index, i, &mut self.view) {
            return false;
        }
        make_subfolder(self.inner, &index.id(i));
        true
    }
}
