//! Getting the chunk of a want: from an entry of the target that has it, from a seed, from the cache, or from a store.

ghost use Rattle.std.specs.Prelude.{◌≡◌, ◌≢◌, ◌⊎◌, ◌++◌, ℕ, List, ◌≤◌, length, map, true, None, Some};
ghost use Rattle.std.specs.Prelude.{IfSome, IfOk, IfErr, IsTrue, Ok, OnOk};
ghost use Rattle.cache_store.specs.Shelves.{MayAdd};
ghost use Rattle.caibx_codec.specs.Listing.{kind_of};
ghost use Rattle.chunk_sources.specs.AnyCaches.{IsAddedOnce, seen_in};
ghost use Rattle.chunk_sources.specs.Caches.{OthersAddOnly, CacheLacks, IfShared};
ghost use Rattle.chunk_sources.specs.Caches.{IsAlone, Stocked, TakesChunk, given_maps};
ghost use Rattle.chunk_sources.specs.Economy.{AnsweredAs, ObtainedBy, as_upstream, source_among};
ghost use Rattle.chunk_sources.specs.Losses.{AskedLast, Had, MayLack, RefusedBy, chunk_of};
ghost use Rattle.chunk_sources.specs.Sources.{IsThis, KeepsSeeds, SourcesQuiet, Telling, sources, views_of};
ghost use Rattle.chunk_sources.specs.Wants.{AllOf, sought_chunk};
ghost use Rattle.chunk_store.specs.Asks.{Get};
ghost use Rattle.chunk_store.specs.Digests.{digest_of};
ghost use Rattle.chunk_store.specs.Members.{maps_of};
ghost use Rattle.dsy_base.specs.Maps.{Map};
ghost use Rattle.extract_plan.specs.Places.{PlacesFit};
ghost use Rattle.range_survey.specs.Fates.{is_made, is_settled, settled};
ghost use Rattle.store_chain.specs.Chains.{KeepsStores};

use crate::copy::copy;
use crate::seeding::from_seeds;
use crate::upstream::from_upstream;
use cache_store::cache::Cache;
use chunk_store::id::ChunkId;
use chunk_store::store::Store;
use dsy_base::view::View;
use extract_plan::seed::{Seed, SeedPlace};
use range_ledger::ledger::Ledger;
use range_survey::fate::Fate;
use store_chain::chain::Chain;
use store_chain::refused::Refused;

/// What is looked for: the chunk of a want, the want's entries, and where seeds list the chunk.
#[derive(Clone, Copy)]
pub struct Sought<'a> {
    pub id: ChunkId,
    pub entries: &'a [u32],
    pub places: &'a [SeedPlace],
}

/// Fills `chunk` with the chunk that is sought, which has its size, and answers where it came from. The cache and then
/// the stores are asked only where no entry of the target and no seed gave it.
pub fn obtain<E: Ledger, S: Store, V: View, C: Cache>(
    sought: &Sought<'_>,
    ledger: &mut E,
    seeds: &mut [Seed<V>],
    cache: &mut Option<C>,
    chain: &mut Chain<S>,
    chunk: &mut [u8],
) -> Result<Fate, Refused>
    requires entries { AllOf E.run.listing sought.now.id.0 (length chunk.old) sought.now.entries.now }
    requires places { PlacesFit (kind_of E.run.listing) (length seeds.old) (length chunk.old) sought.now.places.now }
    requires kind { chain.old.kind ≡ kind_of E.run.listing }
    requires own { IfSome (seen_in C.Cache cache.old)
        (λ s. s.others ≡ None → (C.pairs ≡ None) × (C.stores ≡ None)) }
    requires takes { IfShared (seen_in C.Cache cache.old) ((b : List ℕ) → TakesChunk S.Store chain.old.kind
        sought.now.id.0 (length chunk.old) chain.old.stores sought.now.id.0 b → MayAdd chain.old.kind C.pairs
        C.stores sought.now.id.0 b) }
    requires cache { IfSome (seen_in C.Cache cache.old) (λ s. s.kind ≡ chain.old.kind) }
    ensures ok { OnOk result (IsTrue E.tells → digest_of (kind_of E.run.listing) chunk.new ≡ sought.now.id.0) }
    ensures origin { IfOk result (λ f. is_settled f ≡ true) }
    ensures made { IfOk result (λ f. is_made f ≡ true) }
    ensures had { Telling V.tells (views_of V.View seeds.old) → (cached maps : List (Map (List ℕ))) →
        given_maps (seen_in C.Cache cache.old) ≡ Some cached → maps_of S.members chain.old.stores ≡ Some maps →
        OnOk result (Had (E.fates ledger.old) (sought_chunk (kind_of E.run.listing) sought.now (length chunk.old))
        (views_of V.View seeds.old) (cached ++ maps)) }
    ensures refused { IfErr result (λ r. r ≢ Refused.Memory → RefusedBy S.Store
        (chunk_of (kind_of E.run.listing) sought.now.id (length chunk.old)) chain.old.stores chain.new.stores r) }
    ensures memory { IfErr result (λ r. r ≡ Refused.Memory → MayLack S.Store (seen_in C.Cache cache.old)) }
    ensures missed { IfErr result (λ r. r ≢ Refused.Memory → IsAlone (seen_in C.Cache cache.old) →
        CacheLacks (kind_of E.run.listing) sought.now.id.0 (length chunk.old) (seen_in C.Cache cache.old)
        (seen_in C.Cache cache.new)) }
    // The chain is asked where no other source gave the chunk, and always before a refusal.
    ensures asks { (chain.new ≡ chain.old) ⊎ AskedLast S.Store V.View
        (sought_chunk (kind_of E.run.listing) sought.now (length chunk.old)) (E.fates ledger.old)
        (sources (E.faults ledger.old) seeds.old (seen_in C.Cache cache.old) chain.old)
        (sources (E.faults ledger.new) seeds.new (seen_in C.Cache cache.new) chain.new) }
    ensures asked { IfErr result (λ r. r ≢ Refused.Memory → AskedLast S.Store V.View
        (sought_chunk (kind_of E.run.listing) sought.now (length chunk.old)) (E.fates ledger.old)
        (sources (E.faults ledger.old) seeds.old (seen_in C.Cache cache.old) chain.old)
        (sources (E.faults ledger.new) seeds.new (seen_in C.Cache cache.new) chain.new)) }

    // Where nothing fails, and nobody else adds to the cache.
    ensures exactly { IsAlone (seen_in C.Cache cache.old) → (cached maps : List (Map (List ℕ))) →
        SourcesQuiet S.Store V.View (kind_of E.run.listing) (IsThis sought.now.id.0 (length chunk.old))
        (sources (E.faults ledger.old) seeds.old (seen_in C.Cache cache.old) chain.old)
        (sources (E.faults ledger.new) seeds.new (seen_in C.Cache cache.new) chain.new) cached maps →
        ObtainedBy (source_among (settled (E.fates ledger.old))
        (sought_chunk (kind_of E.run.listing) sought.now (length chunk.old)) (views_of V.View seeds.old) cached maps)
        chain.old chain.new result }
    // Where nothing fails, whoever adds to the cache: which of cache and stores gave the chunk isn't said.
    ensures shared { (cached maps : List (Map (List ℕ))) → OthersAddOnly (kind_of E.run.listing) sought.now.id.0
        (length chunk.old) (seen_in C.Cache cache.old) cached maps → SourcesQuiet S.Store V.View
        (kind_of E.run.listing) (IsThis sought.now.id.0 (length chunk.old))
        (sources (E.faults ledger.old) seeds.old (seen_in C.Cache cache.old) chain.old)
        (sources (E.faults ledger.new) seeds.new (seen_in C.Cache cache.new) chain.new) cached maps →
        AnsweredAs as_upstream (source_among (settled (E.fates ledger.old))
        (sought_chunk (kind_of E.run.listing) sought.now (length chunk.old)) (views_of V.View seeds.old) cached maps)
        result }

    ensures kept { E.held ledger.new ≡ E.held ledger.old }
    ensures fates { E.fates ledger.new ≡ E.fates ledger.old }
    ensures faults { E.faults ledger.old ≤ E.faults ledger.new }
    ensures seeds { KeepsSeeds V.View seeds.old seeds.new }
    ensures added { result ≡ Ok Fate.Fetched →
        IsAddedOnce C.Cache sought.now.id.0 chunk.new cache.old cache.new }
    ensures stocked { Stocked (TakesChunk S.Store (kind_of E.run.listing) sought.now.id.0 (length chunk.old)
        chain.old.stores) (seen_in C.Cache cache.old) (seen_in C.Cache cache.new) }
    ensures stores { KeepsStores S.Store (λ a. a ≡ Get sought.now.id.0) chain.old.stores chain.new.stores }
    ensures same_kind { chain.new.kind ≡ chain.old.kind }
{
    // Only for its contract: the count of calls fits its type.
    chain.asks();
    if copy(sought.entries, ledger, chunk) {
        return Ok(Fate::Copied);
    }
    if from_seeds(sought.places, seeds, &sought.id, chunk) {
        return Ok(Fate::Seeded);
    }
    from_upstream(&sought.id, chain, cache, chunk)
}
