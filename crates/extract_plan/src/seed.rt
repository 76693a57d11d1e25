//! Chunks from seeds: other images at hand, with their indexes. Offsets are bytes from 0, and seeds count from 0.

ghost use Rattle.std.specs.Prelude.{◌≡◌, Some, length};
ghost use Rattle.std.specs.Option.{option_map};
ghost use Rattle.extract_plan.specs.Seeds.{SeedAnswersSo, CountsAnswer};

use chunk_store::id::{ChunkId, DigestKind};
use chunk_store::range::name_range;
use dsy_base::fault::Failed;
use dsy_base::view::View;

/// Where a seed lists a chunk: the number of the seed, the offset and the size in its image, and the kind of digest
/// that names the chunk.
#[derive(Clone, Copy, Debug, PartialEq, Eq)]
pub struct SeedPlace {
    pub seed: u32,
    pub start: u64,
    pub size: u32,
    pub kind: DigestKind,
}

/// The image of a seed, where it could be opened.
#[derive(Debug, Drop)]
pub struct Seed<V: View> {
    pub view: Option<V>,
}

/// What a seed answers when it is asked for a chunk.
#[derive(Clone, Copy, Debug, PartialEq, Eq)]
pub enum SeedAnswer {
    /// The chunk is in the room that was lent.
    Given,
    /// There is no image, it ends before the place does, or it has other bytes there.
    Wrong,
    /// The image couldn't be read.
    Failed,
}

// Reads a place of an image into `out`. Given where the bytes have the id.
fn view_gives<V: View>(view: &mut V, place: &SeedPlace, id: &ChunkId, out: &mut [u8]) -> SeedAnswer
    requires { length out.old ≡ place.now.size }
    ensures value { SeedAnswersSo (Some (V.held view.old)) place.now id.now.0 out.new result }
    ensures kept { V.held view.new ≡ V.held view.old }
    ensures faults { CountsAnswer (Some (V.faults view.old)) (Some (V.faults view.new)) result }
{
    let size = view.size();
    if size < place.start || size - place.start < place.size as u64 {
        return SeedAnswer::Wrong;
    }
    match name_range(view, place.kind, place.start, out) {
        Ok(name) => {
            if name.is(id) {
                SeedAnswer::Given
            } else {
                SeedAnswer::Wrong
            }
        }
        Err(Failed) => SeedAnswer::Failed,
    }
}

/// Reads a chunk from its place in a seed into `out`, which has the place's size. After another answer than `Given`
/// it holds any bytes.
pub fn seed_gives<V: View>(
    seed: &mut Seed<V>,
    place: &SeedPlace,
    id: &ChunkId,
    out: &mut [u8],
) -> SeedAnswer
    requires { length out.old ≡ place.now.size }
    ensures value { SeedAnswersSo (option_map V.held seed.old.view) place.now id.now.0 out.new result }
    ensures kept { option_map V.held seed.new.view ≡ option_map V.held seed.old.view }
    ensures faults { CountsAnswer (option_map V.faults seed.old.view) (option_map V.faults seed.new.view) result }
{
    match &mut seed.view {
        Some(view) => view_gives(view, place, id, out),
        None => SeedAnswer::Wrong,
    }
}
