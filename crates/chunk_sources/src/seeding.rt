//! Chunks from seeds. Seeds count from 0.

ghost use Rattle.std.specs.Prelude.{◌≡◌, ◌<◌, length, map, slice_index, true, false};
ghost use Rattle.std.specs.List.{All};
ghost use Rattle.chunk_sources.specs.Sources.{HeldAt, SeedsFailed, SeedsGive, Telling, counts_of, views_of};
ghost use Rattle.chunk_store.specs.Digests.{digest_of};
ghost use Rattle.chunk_store.specs.declared.id.DigestKind.{DigestKind};
ghost use Rattle.dsy_base.specs.Counts.{Rose};
ghost use Rattle.store_chain.specs.Faults.{NoneFalls};

use chunk_store::id::ChunkId;
use dsy_base::view::View;
use extract_plan::seed::{Seed, SeedAnswer, SeedPlace, seed_gives};

// Asks the seed of one place for the chunk of this id, named by the place's kind. Whether it gave it.
fn from_seed<V: View>(
    place: &SeedPlace,
    seeds: &mut [Seed<V>],
    id: &ChunkId,
    chunk: &mut [u8],
) -> bool
    requires seed { place.now.seed < length seeds.old }
    requires size { place.now.size ≡ length chunk.old }
    ensures ok { result ≡ true → digest_of place.now.kind chunk.new ≡ id.now.0 }
    ensures found { result ≡ true → Telling V.tells (views_of V.View seeds.old) →
        HeldAt (views_of V.View seeds.old) place.now id.now.0 }
    ensures absent { result ≡ false → HeldAt (views_of V.View seeds.old) place.now id.now.0 → Rose
        (slice_index (counts_of V.View seeds.old) place.now.seed)
        (slice_index (counts_of V.View seeds.new) place.now.seed) }
    ensures kept { views_of V.View seeds.new ≡ views_of V.View seeds.old }
    ensures faults { NoneFalls (counts_of V.View seeds.old) (counts_of V.View seeds.new) }
{
    match seed_gives(&mut seeds[place.seed as usize], place, id, chunk) {
        SeedAnswer::Given => true,
        SeedAnswer::Wrong | SeedAnswer::Failed => false,
    }
}

/// Fills `chunk` with the chunk of this id from the first of the places that gives it. Whether one did. What a seed
/// gives is named before it is used, by the kind of its place.
pub fn from_seeds<V: View>(
    places: &[SeedPlace],
    seeds: &mut [Seed<V>],
    id: &ChunkId,
    chunk: &mut [u8],
) -> bool
    requires { All (λ p. (p.seed < length seeds.old) × (p.size ≡ length chunk.old)) places.now }
    ensures ok { result ≡ true → (kind : DigestKind) → All (λ p. p.kind ≡ kind) places.now →
        digest_of kind chunk.new ≡ id.now.0 }
    ensures found { result ≡ true → Telling V.tells (views_of V.View seeds.old) →
        SeedsGive (views_of V.View seeds.old) places.now id.now.0 }
    ensures absent { result ≡ false → SeedsFailed (views_of V.View seeds.old) places.now id.now.0
        (counts_of V.View seeds.old) (counts_of V.View seeds.new) }
    ensures kept { views_of V.View seeds.new ≡ views_of V.View seeds.old }
    ensures faults { NoneFalls (counts_of V.View seeds.old) (counts_of V.View seeds.new) }
{
    for place in places {
        if from_seed(place, seeds, id, chunk) {
            return true;
        }
    }
    false
}
