//! Settling the entries of one want.

ghost use Rattle.std.specs.Prelude.{◌≡◌, ◌≢◌, ◌⊎◌, ◌++◌, ℕ, List, ◌<◌, ◌≤◌, length, map, slice_index, is_some};
ghost use Rattle.std.specs.Prelude.{true, false, None, Some, IfSome, IsSome, IsTrue, OnOk, MatchOption, Err};
ghost use Rattle.assembler.specs.Economy.{SettledShared, SettlesBy};
ghost use Rattle.assembler.specs.Losses.{Where};
ghost use Rattle.assembler.specs.Passes.{source_at};
ghost use Rattle.assembler.specs.Permits.{MayFillWant};
ghost use Rattle.assembler.specs.Settling.{HasEnded, Settles};
ghost use Rattle.assembler.specs.Stages.{Ready, from, stage, task};
ghost use Rattle.assembler.specs.declared.fault.Lost.{Lost};
ghost use Rattle.cache_store.specs.Shelves.{MayAdd};
ghost use Rattle.caibx_codec.specs.Listing.{count_of, kind_of, size_of};
ghost use Rattle.extract_plan.specs.Deal.{first_of, want_id};
ghost use Rattle.chunk_sources.specs.AnyCaches.{Suits, seen_in};
ghost use Rattle.chunk_sources.specs.Caches.{OthersAddOnly, CacheLacks, IfShared, IsListedAs};
ghost use Rattle.chunk_sources.specs.Caches.{IsAlone, Stocked, TakesChunk, given_maps};
ghost use Rattle.chunk_sources.specs.Economy.{source_among};
ghost use Rattle.chunk_sources.specs.Losses.{AskedLast, Had, HadOver, MayLack, RefusedBy, chunk_of};
ghost use Rattle.chunk_sources.specs.Sources.{IsThis, KeepsSeeds, SourcesQuiet, Telling, sources, views_of};
ghost use Rattle.chunk_sources.specs.Wants.{AllOf, IsAmong, sought_chunk};
ghost use Rattle.chunk_store.specs.Asks.{Get};
ghost use Rattle.chunk_store.specs.Members.{maps_of};
ghost use Rattle.dsy_base.specs.Counts.{Rose};
ghost use Rattle.dsy_base.specs.Maps.{Map};
ghost use Rattle.extract_plan.specs.Places.{PlacesFit};
ghost use Rattle.range_ledger.specs.Fills.{Fills, FillsTorn, Grows, WhereTold};
ghost use Rattle.range_survey.specs.Fates.{settled};
ghost use Rattle.store_chain.specs.Chains.{KeepsStores};

use crate::fault::{Lost, Unsettled};
use crate::put::put;
use crate::work::{Wants, Work};
use cache_store::cache::Cache;
use chunk_sources::obtain::{Sought, obtain};
use chunk_store::store::Store;
use dsy_base::fault::Failed;
use dsy_base::view::View;
use extract_plan::seed::Seed;
use range_ledger::ledger::Ledger;
use store_chain::chain::Chain;
use store_chain::refused::Refused;

// The first of these entries that is open.
fn first_open<E: Ledger>(entries: &[u32], ledger: &E) -> Option<usize>
    requires { (k : ℕ) → k < length entries.now → slice_index entries.now k < count_of E.run.listing }
    ensures { MatchOption result
        ((k : ℕ) → k < length entries.now → settled (E.fates ledger.now) (slice_index entries.now k) ≡ true)
        (λ i. (k : ℕ) × (k < length entries.now) × (slice_index entries.now k ≡ i)
        × (settled (E.fates ledger.now) i ≡ false)
        × ((j : ℕ) → j < k → settled (E.fates ledger.now) (slice_index entries.now j) ≡ true)) }
{
    for entry in entries {
        let i = *entry as usize;
        if !ledger.fate(i).is_settled() {
            return Some(i);
        }
    }
    None
}

// An open entry of a want: what is sought for it, and the size of its chunk.
#[derive(Clone, Copy)]
struct Opened<'a> {
    entry: usize,
    sought: Sought<'a>,
    size: usize,
}

// Makes the open ones of the entries that are sought right, of which the opened one is the first.
fn settle_open<E: Ledger, S: Store, V: View, C: Cache>(
    opened: &Opened<'_>,
    ledger: &mut E,
    seeds: &mut [Seed<V>],
    cache: &mut Option<C>,
    chain: &mut Chain<S>,
    buf: &mut [u8],
) -> Result<(), Unsettled>
    requires entries { AllOf E.run.listing opened.now.sought.id.0 opened.now.size opened.now.sought.entries.now }
    requires among { IsAmong opened.now.sought.entries.now opened.now.entry }
    requires is_open { settled (E.fates ledger.old) opened.now.entry ≡ false }
    requires places { PlacesFit (kind_of E.run.listing) (length seeds.old) opened.now.size
        opened.now.sought.places.now }
    requires room { opened.now.size ≤ length buf.old }
    requires kind { chain.old.kind ≡ kind_of E.run.listing }
    requires own { IfSome (seen_in C.Cache cache.old)
        (λ s. s.others ≡ None → (C.pairs ≡ None) × (C.stores ≡ None)) }
    requires takes { IfShared (seen_in C.Cache cache.old) ((b : List ℕ) → TakesChunk S.Store chain.old.kind
        opened.now.sought.id.0 opened.now.size chain.old.stores opened.now.sought.id.0 b →
        MayAdd chain.old.kind C.pairs C.stores opened.now.sought.id.0 b) }
    requires cache { IfSome (seen_in C.Cache cache.old) (λ s. s.kind ≡ chain.old.kind) }
    requires may { HadOver S.Store V.View (E.fates ledger.old)
        (sought_chunk (kind_of E.run.listing) opened.now.sought opened.now.size)
        (sources (E.faults ledger.old) seeds.old (seen_in C.Cache cache.old) chain.old) →
        (i : ℕ) → IsAmong opened.now.sought.entries.now i → E.run.may i ≡ true }
    ensures ok { OnOk result ((i : ℕ) → IsAmong opened.now.sought.entries.now i →
        settled (E.fates ledger.new) i ≡ true) }
    ensures only { (i : ℕ) → settled (E.fates ledger.old) i ≡ false → settled (E.fates ledger.new) i ≡ true →
        IsAmong opened.now.sought.entries.now i }
    ensures had { Telling V.tells (views_of V.View seeds.old) → (cached maps : List (Map (List ℕ))) →
        given_maps (seen_in C.Cache cache.old) ≡ Some cached → maps_of S.members chain.old.stores ≡ Some maps →
        (i : ℕ) → settled (E.fates ledger.old) i ≡ false → settled (E.fates ledger.new) i ≡ true →
        Had (E.fates ledger.old) (sought_chunk (kind_of E.run.listing) opened.now.sought opened.now.size)
        (views_of V.View seeds.old) (cached ++ maps) }
    ensures lost { Where (λ x. (x.entry ≡ opened.now.entry) × (x.id ≡ opened.now.sought.id))
        (Rose (E.faults ledger.old) (E.faults ledger.new)) result }
    ensures failed { result ≡ Err Unsettled.TargetFault → (i : ℕ) × IsAmong opened.now.sought.entries.now i
        × WhereTold (E.held ledger.old).bytes (E.held ledger.new).bytes (FillsTorn E.run.listing (E.fates ledger.old)
        (E.fates ledger.new) (E.faults ledger.old) (E.faults ledger.new) i) }
    ensures refused { Where (λ x. x.refused ≢ Refused.Memory → RefusedBy S.Store
        (chunk_of (kind_of E.run.listing) opened.now.sought.id opened.now.size) chain.old.stores chain.new.stores
        x.refused) (Unit {0}) result }
    ensures missed { Where (λ x. x.refused ≢ Refused.Memory → IsAlone (seen_in C.Cache cache.old) →
        CacheLacks (kind_of E.run.listing) opened.now.sought.id.0 opened.now.size (seen_in C.Cache cache.old)
        (seen_in C.Cache cache.new)) (Unit {0}) result }
    ensures asked { Where (λ x. x.refused ≢ Refused.Memory → AskedLast S.Store V.View
        (sought_chunk (kind_of E.run.listing) opened.now.sought opened.now.size) (E.fates ledger.old)
        (sources (E.faults ledger.old) seeds.old (seen_in C.Cache cache.old) chain.old)
        (sources (E.faults ledger.new) seeds.new (seen_in C.Cache cache.new) chain.new)) (Unit {0}) result }
    ensures memory { Where (λ x. x.refused ≡ Refused.Memory → MayLack S.Store (seen_in C.Cache cache.old)) (Unit {0})
        result }
    ensures asks { (chain.new ≡ chain.old) ⊎ AskedLast S.Store V.View
        (sought_chunk (kind_of E.run.listing) opened.now.sought opened.now.size) (E.fates ledger.old)
        (sources (E.faults ledger.old) seeds.old (seen_in C.Cache cache.old) chain.old)
        (sources (E.faults ledger.new) seeds.new (seen_in C.Cache cache.new) chain.new) }

    // Where nothing fails, and nobody else fills the cache.
    ensures exactly { IsAlone (seen_in C.Cache cache.old) → (cached maps : List (Map (List ℕ))) →
        SourcesQuiet S.Store V.View (kind_of E.run.listing) (IsThis opened.now.sought.id.0 opened.now.size)
        (sources (E.faults ledger.old) seeds.old (seen_in C.Cache cache.old) chain.old)
        (sources (E.faults ledger.new) seeds.new (seen_in C.Cache cache.new) chain.new) cached maps →
        SettlesBy (source_among (settled (E.fates ledger.old))
        (sought_chunk (kind_of E.run.listing) opened.now.sought opened.now.size) (views_of V.View seeds.old) cached
        maps) (count_of E.run.listing) (E.fates ledger.old) (E.fates ledger.new) chain.old chain.new result }
    // Where nothing fails, whoever fills the cache.
    ensures shared { (cached maps : List (Map (List ℕ))) → OthersAddOnly (kind_of E.run.listing) opened.now.sought.id.0
        opened.now.size (seen_in C.Cache cache.old) cached maps → SourcesQuiet S.Store V.View
        (kind_of E.run.listing) (IsThis opened.now.sought.id.0 opened.now.size)
        (sources (E.faults ledger.old) seeds.old (seen_in C.Cache cache.old) chain.old)
        (sources (E.faults ledger.new) seeds.new (seen_in C.Cache cache.new) chain.new) cached maps →
        SettledShared (source_among (settled (E.fates ledger.old))
        (sought_chunk (kind_of E.run.listing) opened.now.sought opened.now.size) (views_of V.View seeds.old) cached
        maps) (count_of E.run.listing) (E.fates ledger.old) (E.fates ledger.new) result }

    ensures grows { Grows (E.fates ledger.old) (E.fates ledger.new) }
    ensures bytes { WhereTold (E.held ledger.old).bytes (E.held ledger.new).bytes (Fills E.run.listing
        (E.fates ledger.old) (E.fates ledger.new) (E.faults ledger.old) (E.faults ledger.new)) }
    ensures tells { is_some (E.held ledger.new).bytes ≡ is_some (E.held ledger.old).bytes }
    ensures name { (E.held ledger.new).name ≡ (E.held ledger.old).name }
    ensures size { (E.held ledger.new).size ≡ (E.held ledger.old).size }
    ensures faults { E.faults ledger.old ≤ E.faults ledger.new }
    ensures seeds { KeepsSeeds V.View seeds.old seeds.new }
    ensures stocked { Stocked (TakesChunk S.Store (kind_of E.run.listing) opened.now.sought.id.0 opened.now.size
        chain.old.stores) (seen_in C.Cache cache.old) (seen_in C.Cache cache.new) }
    ensures stores { KeepsStores S.Store (λ a. a ≡ Get opened.now.sought.id.0) chain.old.stores chain.new.stores }
    ensures same_kind { chain.new.kind ≡ chain.old.kind }
{
    let (chunk, _) = buf.split_at_mut(opened.size);
    let sought = &opened.sought;
    match obtain(sought, ledger, seeds, cache, chain, chunk) {
        Err(refused) => Err(Unsettled::Lost(Lost {
            entry: opened.entry,
            id: sought.id,
            refused,
        })),
        Ok(origin) => match put(sought.entries, chunk, origin, ledger) {
            Ok(()) => Ok(()),
            Err(Failed) => Err(Unsettled::TargetFault),
        },
    }
}

/// Makes the open entries of a want right, and leaves all others.
pub(crate) fn settle<E: Ledger, S: Store, V: View, C: Cache>(
    wants: &Wants<'_>,
    want: usize,
    work: &mut Work<E, S, V, C>,
) -> Result<(), Unsettled>
    requires listing { wants.now.index.now ≡ E.run.listing }
    requires ready { Ready (task E.run.listing wants.now) (stage E.Ledger C.Cache work.old) }
    requires want { want < wants.now.plan.now.wants }
    requires suits { Suits C.Cache S.Store E.run.listing work.old.kit.chain.stores (seen_in C.Cache work.old.cache) }
    requires may { MayFillWant S.Store V.View (task E.run.listing wants.now) E.run.may
        (stage E.Ledger C.Cache work.old) want }
    ensures settles { Settles S.Store V.View (task E.run.listing wants.now) want (stage E.Ledger C.Cache work.old)
        (stage E.Ledger C.Cache work.new) }
    ensures ends { HasEnded S.Store V.View (task E.run.listing wants.now) want (stage E.Ledger C.Cache work.old)
        (stage E.Ledger C.Cache work.new) result }

    // Where nothing fails, and nobody else fills the cache.
    ensures exactly { IsAlone (seen_in C.Cache work.old.cache) → (cached maps : List (Map (List ℕ))) →
        SourcesQuiet S.Store V.View (kind_of E.run.listing) (IsListedAs E.run.listing)
        (from (stage E.Ledger C.Cache work.old)) (from (stage E.Ledger C.Cache work.new)) cached maps →
        SettlesBy (source_at V.View (task E.run.listing wants.now) (stage E.Ledger C.Cache work.old) cached maps
        want) (count_of E.run.listing) (E.fates work.old.ledger) (E.fates work.new.ledger) work.old.kit.chain
        work.new.kit.chain result }
    // Where nothing fails, whoever fills the cache.
    ensures shared { (cached maps : List (Map (List ℕ))) → OthersAddOnly (kind_of E.run.listing)
        (want_id E.run.listing wants.now.plan.now want) (size_of E.run.listing (first_of wants.now.plan.now want))
        (seen_in C.Cache work.old.cache) cached maps → SourcesQuiet S.Store V.View
        (kind_of E.run.listing) (IsListedAs E.run.listing)
        (from (stage E.Ledger C.Cache work.old)) (from (stage E.Ledger C.Cache work.new)) cached maps →
        SettledShared (source_at V.View (task E.run.listing wants.now) (stage E.Ledger C.Cache work.old) cached maps
        want) (count_of E.run.listing) (E.fates work.old.ledger) (E.fates work.new.ledger) result }
{
    // Only for its contract: the count of calls fits its type.
    work.kit.chain.asks();
    let entries = wants.plan.entries(want);
    let Some(entry) = first_open(entries, &work.ledger) else {
        return Ok(());
    };
    let id = wants.index.id(entry);
    let places = wants.places.places(want);
    let opened = Opened {
        entry,
        sought: Sought {
            id,
            entries,
            places,
        },
        size: wants.index.entry(entry).size,
    };
    settle_open(
        &opened,
        &mut work.ledger,
        &mut work.kit.seeds,
        &mut work.cache,
        &mut work.kit.chain,
        &mut work.kit.buffer,
    )
}

/// Whether the stores had no memory, which ends a pass.
pub(crate) fn lacked_memory(ended: &Result<(), Unsettled>) -> bool
    ensures yes { result ≡ true → (lost : Lost) × (ended.now ≡ Err (Unsettled.Lost lost))
        × (lost.refused ≡ Refused.Memory) }
    ensures no { result ≡ false → (lost : Lost) → ended.now ≡ Err (Unsettled.Lost lost) →
        lost.refused ≢ Refused.Memory }
{
    match ended {
        Err(Unsettled::Lost(lost)) => lost.refused == Refused::Memory,
        Ok(()) | Err(Unsettled::TargetFault) => false,
    }
}
