//! Chunks from the cache, and else from the chain of stores.

ghost use Rattle.std.specs.Prelude.{◌≡◌, ◌≢◌, ◌⊎◌, ◌++◌, ℕ, List, ◌<◌, ◌^◌, length, map, true, None, Some, IfSome};
ghost use Rattle.std.specs.Prelude.{IfOk, IfErr, Ok, OnOk};
ghost use Rattle.cache_store.specs.Giving.{SomeGives};
ghost use Rattle.cache_store.specs.Shelves.{MayAdd};
ghost use Rattle.chunk_sources.specs.Caches.{OthersAddOnly, CacheFailed, CacheLacks};
ghost use Rattle.chunk_sources.specs.Caches.{IfShared, IsAlone, Stocked, TakesChunk};
ghost use Rattle.chunk_sources.specs.AnyCaches.{IsAddedOnce, seen_in};
ghost use Rattle.chunk_sources.specs.Caches.{cache_faults, cached_in, given_maps};
ghost use Rattle.chunk_sources.specs.Economy.{AnsweredAs, ObtainedBy, as_upstream, source_behind};
ghost use Rattle.chunk_sources.specs.Losses.{MayLack, RefusedBy, chunk_of};
ghost use Rattle.chunk_store.specs.Asks.{Get};
ghost use Rattle.chunk_sources.specs.Sources.{Agree};
ghost use Rattle.chunk_store.specs.Digests.{digest_of};
ghost use Rattle.chunk_store.specs.Members.{maps_of};
ghost use Rattle.dsy_base.specs.Counts.{Quiet};
ghost use Rattle.dsy_base.specs.Maps.{Map};
ghost use Rattle.range_survey.specs.Fates.{is_made, is_settled};
ghost use Rattle.store_chain.specs.Chains.{AsksOnce, KeepsStores};
ghost use Rattle.store_chain.specs.Faults.{EachQuiet};

use cache_store::cache::Cache;
use cache_store::cached::obtain_through;
use chunk_store::id::ChunkId;
use chunk_store::store::Store;
use range_survey::fate::Fate;
use store_chain::chain::Chain;
use store_chain::refused::Refused;

// Fills `chunk` with the chunk of this id, which has its size, from the cache or else from a store, and answers which
// of them gave it. What a store gave is added to the cache. A fault of the cache makes no refusal. Where a look into it
// finds no memory, the stores aren't asked.
fn from_cache<S: Store, C: Cache>(
    id: &ChunkId,
    chain: &mut Chain<S>,
    cache: &mut C,
    chunk: &mut [u8],
) -> Result<Fate, Refused>
    requires kind { (C.shelf cache.old).kind ≡ chain.old.kind }
    requires asks { chain.old.asks < 2 ^ 64 }
    // One that nobody else fills names nothing in its type.
    requires own { (C.shelf cache.old).others ≡ None → (C.pairs ≡ None) × (C.stores ≡ None) }
    requires takes { IfShared (Some (C.shelf cache.old)) ((b : List ℕ) → TakesChunk S.Store chain.old.kind id.now.0
        (length chunk.old) chain.old.stores id.now.0 b → MayAdd chain.old.kind C.pairs C.stores id.now.0 b) }
    ensures ok { OnOk result (digest_of chain.old.kind chunk.new ≡ id.now.0) }
    ensures origin { IfOk result (λ f. is_settled f ≡ true) }
    ensures made { IfOk result (λ f. is_made f ≡ true) }
    ensures had { (cached maps : List (Map (List ℕ))) → given_maps (Some (C.shelf cache.old)) ≡ Some cached →
        maps_of S.members chain.old.stores ≡ Some maps →
        OnOk result (SomeGives chain.old.kind id.now.0 (length chunk.old) (cached ++ maps)) }
    ensures refused { IfErr result (λ r. r ≢ Refused.Memory → RefusedBy S.Store
        (chunk_of chain.old.kind id.now (length chunk.old)) chain.old.stores chain.new.stores r) }
    ensures missed { IfErr result (λ r. r ≢ Refused.Memory → IsAlone (Some (C.shelf cache.old)) →
        CacheLacks chain.old.kind id.now.0 (length chunk.old) (Some (C.shelf cache.old))
        (Some (C.shelf cache.new))) }
    ensures asks { (chain.new ≡ chain.old) ⊎ (AsksOnce S.asked S.queried id.now.0 chain.old chain.new
        × CacheFailed chain.old.kind id.now.0 (length chunk.old) (Some (C.shelf cache.old))
        (Some (C.shelf cache.new))) }
    ensures asked { IfErr result (λ r. r ≢ Refused.Memory →
        AsksOnce S.asked S.queried id.now.0 chain.old chain.new × CacheFailed chain.old.kind id.now.0
        (length chunk.old) (Some (C.shelf cache.old)) (Some (C.shelf cache.new))) }

    // Where nothing fails, and nobody else adds to it.
    ensures exactly { IsAlone (Some (C.shelf cache.old)) → (cached maps : List (Map (List ℕ))) →
        cached_in (Some (C.shelf cache.old)) ≡ Some cached → Quiet (cache_faults (Some (C.shelf cache.old)))
        (cache_faults (Some (C.shelf cache.new))) → maps_of S.members chain.old.stores ≡ Some maps →
        Agree S.Store chain.old.kind id.now.0 (length chunk.old) chain.old.stores →
        EachQuiet (map S.faults chain.old.stores) (map S.faults chain.new.stores) → ObtainedBy
        (source_behind chain.old.kind id.now.0 (length chunk.old) cached maps) chain.old chain.new result }
    // Where nothing fails, whoever adds to it.
    ensures shared { (cached maps : List (Map (List ℕ))) → OthersAddOnly chain.old.kind id.now.0 (length chunk.old)
        (Some (C.shelf cache.old)) cached maps → cached_in (Some (C.shelf cache.old)) ≡ Some cached →
        Quiet (cache_faults (Some (C.shelf cache.old))) (cache_faults (Some (C.shelf cache.new))) →
        maps_of S.members chain.old.stores ≡ Some maps →
        Agree S.Store chain.old.kind id.now.0 (length chunk.old) chain.old.stores →
        EachQuiet (map S.faults chain.old.stores) (map S.faults chain.new.stores) → AnsweredAs as_upstream
        (source_behind chain.old.kind id.now.0 (length chunk.old) cached maps) result }

    ensures added { result ≡ Ok Fate.Fetched → IsAddedOnce C.Cache id.now.0 chunk.new (Some cache.old)
        (Some cache.new) }
    ensures stocked { Stocked (TakesChunk S.Store chain.old.kind id.now.0 (length chunk.old) chain.old.stores)
        (Some (C.shelf cache.old)) (Some (C.shelf cache.new)) }
    ensures stores { KeepsStores S.Store (λ a. a ≡ Get id.now.0) chain.old.stores chain.new.stores }
    ensures same_kind { chain.new.kind ≡ chain.old.kind }
{
    let got = obtain_through(cache, chain, id, Some(chunk.len()), chunk)?;
    if got.upstream {
        Ok(Fate::Fetched)
    } else {
        Ok(Fate::Cached)
    }
}

/// Fills `chunk` with the chunk of this id, which has its size, from the cache or else from a store, and answers which
/// of them gave it. What a store gave is added to the cache.
pub(crate) fn from_upstream<S: Store, C: Cache>(
    id: &ChunkId,
    chain: &mut Chain<S>,
    cache: &mut Option<C>,
    chunk: &mut [u8],
) -> Result<Fate, Refused>
    requires own { IfSome (seen_in C.Cache cache.old)
        (λ s. s.others ≡ None → (C.pairs ≡ None) × (C.stores ≡ None)) }
    requires takes { IfShared (seen_in C.Cache cache.old) ((b : List ℕ) → TakesChunk S.Store chain.old.kind id.now.0
        (length chunk.old) chain.old.stores id.now.0 b → MayAdd chain.old.kind C.pairs C.stores id.now.0 b) }
    requires kind { IfSome (seen_in C.Cache cache.old) (λ s. s.kind ≡ chain.old.kind) }
    requires asks { chain.old.asks < 2 ^ 64 }
    ensures ok { OnOk result (digest_of chain.old.kind chunk.new ≡ id.now.0) }
    ensures origin { IfOk result (λ f. is_settled f ≡ true) }
    ensures made { IfOk result (λ f. is_made f ≡ true) }
    ensures had { (cached maps : List (Map (List ℕ))) → given_maps (seen_in C.Cache cache.old) ≡ Some
        cached → maps_of S.members chain.old.stores ≡ Some maps →
        OnOk result (SomeGives chain.old.kind id.now.0 (length chunk.old) (cached ++ maps)) }
    ensures refused { IfErr result (λ r. r ≢ Refused.Memory → RefusedBy S.Store
        (chunk_of chain.old.kind id.now (length chunk.old)) chain.old.stores chain.new.stores r) }
    ensures memory { IfErr result (λ r. r ≡ Refused.Memory → MayLack S.Store (seen_in C.Cache cache.old)) }
    ensures missed { IfErr result (λ r. r ≢ Refused.Memory → IsAlone (seen_in C.Cache cache.old) →
        CacheLacks chain.old.kind id.now.0 (length chunk.old) (seen_in C.Cache cache.old)
        (seen_in C.Cache cache.new)) }
    ensures asks { (chain.new ≡ chain.old) ⊎ (AsksOnce S.asked S.queried id.now.0 chain.old chain.new
        × CacheFailed chain.old.kind id.now.0 (length chunk.old) (seen_in C.Cache cache.old)
        (seen_in C.Cache cache.new)) }
    ensures asked { IfErr result (λ r. r ≢ Refused.Memory → AsksOnce S.asked S.queried id.now.0 chain.old chain.new
        × CacheFailed chain.old.kind id.now.0 (length chunk.old) (seen_in C.Cache cache.old)
        (seen_in C.Cache cache.new)) }

    // Where nothing fails, and nobody else adds to the cache.
    ensures exactly { IsAlone (seen_in C.Cache cache.old) → (cached maps : List (Map (List ℕ))) →
        cached_in (seen_in C.Cache cache.old) ≡ Some cached → Quiet (cache_faults (seen_in C.Cache cache.old))
        (cache_faults (seen_in C.Cache cache.new)) → maps_of S.members chain.old.stores ≡ Some maps →
        Agree S.Store chain.old.kind id.now.0 (length chunk.old) chain.old.stores →
        EachQuiet (map S.faults chain.old.stores) (map S.faults chain.new.stores) →
        ObtainedBy (source_behind chain.old.kind id.now.0 (length chunk.old) cached maps) chain.old chain.new result }
    // Where nothing fails, whoever adds to the cache.
    ensures shared { (cached maps : List (Map (List ℕ))) → OthersAddOnly chain.old.kind id.now.0 (length chunk.old)
        (seen_in C.Cache cache.old) cached maps → cached_in (seen_in C.Cache cache.old) ≡ Some cached →
        Quiet (cache_faults (seen_in C.Cache cache.old)) (cache_faults (seen_in C.Cache cache.new)) →
        maps_of S.members chain.old.stores ≡ Some maps →
        Agree S.Store chain.old.kind id.now.0 (length chunk.old) chain.old.stores →
        EachQuiet (map S.faults chain.old.stores) (map S.faults chain.new.stores) → AnsweredAs as_upstream
        (source_behind chain.old.kind id.now.0 (length chunk.old) cached maps) result }

    ensures added { result ≡ Ok Fate.Fetched → IsAddedOnce C.Cache id.now.0 chunk.new cache.old cache.new }
    ensures stocked { Stocked (TakesChunk S.Store chain.old.kind id.now.0 (length chunk.old) chain.old.stores)
        (seen_in C.Cache cache.old) (seen_in C.Cache cache.new) }
    ensures stores { KeepsStores S.Store (λ a. a ≡ Get id.now.0) chain.old.stores chain.new.stores }
    ensures same_kind { chain.new.kind ≡ chain.old.kind }
{
    let Some(cache) = cache else {
        chain.obtain(id, Some(chunk.len()), chunk)?;
        return Ok(Fate::Fetched);
    };
    from_cache(id, chain, cache, chunk)
}
