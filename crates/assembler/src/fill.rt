//! The first pass of an assembly: each want that is dealt to a worker once, in rising order. Workers count from 0.

ghost use Rattle.std.specs.Prelude.{◌≡◌, ℕ, ◌<◌, None, OnOk, IfErr, true, false};
ghost use Rattle.assembler.specs.Economy.{PassedBy, TalliedShared};
ghost use Rattle.chunk_sources.specs.Economy.{source_if};
ghost use Rattle.assembler.specs.Passes.{HasPassedShare, WhereQuiet, source_at, want_at};
ghost use Rattle.assembler.specs.Permits.{MayFillHad, deals_to};
ghost use Rattle.assembler.specs.Stages.{Ready, from, stage, task};
ghost use Rattle.caibx_codec.specs.Listing.{count_of};
ghost use Rattle.chunk_sources.specs.AnyCaches.{Suits, seen_in};
ghost use Rattle.chunk_sources.specs.Caches.{OthersAddListed, IsAlone};
ghost use Rattle.chunk_sources.specs.Losses.{MayLack};
ghost use Rattle.range_survey.specs.Fates.{fate_at, settled};
ghost use Rattle.range_survey.specs.declared.fate.Fate.TheVariants as fate;

use crate::settle::{lacked_memory, settle};
use crate::work::{Wants, Work};
use cache_store::cache::Cache;
use chunk_store::store::Store;
use dsy_base::fault::Memory;
use dsy_base::view::View;
use range_ledger::ledger::Ledger;

/// Settles the wants of this worker in rising order, past those whose chunk no source gives and past writes that fail.
pub fn fill<E: Ledger, S: Store, V: View, C: Cache>(
    wants: &Wants<'_>,
    worker: usize,
    work: &mut Work<E, S, V, C>,
) -> Result<(), Memory>
    requires dealt { wants.now.index.now ≡ E.run.listing }
    requires ready { Ready (task E.run.listing wants.now) (stage E.Ledger C.Cache work.old) }
    requires suits { Suits C.Cache S.Store E.run.listing work.old.kit.chain.stores (seen_in C.Cache work.old.cache) }
    requires may { MayFillHad S.Store V.View (task E.run.listing wants.now) E.run.may (stage E.Ledger C.Cache work.old)
        (λ w. deals_to wants.now.plan.now worker w ≡ true) }
    ensures passes { HasPassedShare S.Store V.View (task E.run.listing wants.now)
        (deals_to wants.now.plan.now worker) (stage E.Ledger C.Cache work.old) (stage E.Ledger C.Cache work.new) }
    ensures others { (i : ℕ) → deals_to wants.now.plan.now worker (want_at wants.now.plan.now i) ≡ false →
        fate_at (E.fates work.new.ledger) i ≡ fate_at (E.fates work.old.ledger) i }
    ensures memory { IfErr result (λ _. MayLack S.Store (seen_in C.Cache work.old.cache)) }

    // Where nothing fails, and nobody else fills the cache.
    ensures exactly { IsAlone (seen_in C.Cache work.old.cache) → WhereQuiet S.Store V.View E.run.listing
        (from (stage E.Ledger C.Cache work.old)) (from (stage E.Ledger C.Cache work.new)) (λ cached maps.
        OnOk result (PassedBy
        (source_if (deals_to wants.now.plan.now worker)
        (source_at V.View (task E.run.listing wants.now) (stage E.Ledger C.Cache work.old) cached maps))
        wants.now.plan.now.wants (count_of E.run.listing) (E.fates work.old.ledger) (E.fates work.new.ledger)
        work.old.kit.chain work.new.kit.chain)) }
    // Where nothing fails, and others fill the cache with what the stores give.
    ensures shared { OthersAddListed S.Store E.run.listing work.old.kit.chain.stores (seen_in C.Cache work.old.cache) →
        WhereQuiet S.Store V.View E.run.listing
        (from (stage E.Ledger C.Cache work.old)) (from (stage E.Ledger C.Cache work.new)) (λ cached maps.
        OnOk result (TalliedShared (deals_to wants.now.plan.now worker)
        (source_at V.View (task E.run.listing wants.now) (stage E.Ledger C.Cache work.old) cached maps)
        wants.now.plan.now.wants (count_of E.run.listing) (E.fates work.old.ledger) (E.fates work.new.ledger))) }
    ensures left { OthersAddListed S.Store E.run.listing work.old.kit.chain.stores (seen_in C.Cache work.old.cache) →
        WhereQuiet S.Store V.View E.run.listing
        (from (stage E.Ledger C.Cache work.old)) (from (stage E.Ledger C.Cache work.new)) (λ cached maps.
        OnOk result ((i : ℕ) → i < count_of E.run.listing →
        deals_to wants.now.plan.now worker (want_at wants.now.plan.now i) ≡ true →
        settled (E.fates work.new.ledger) i ≡ false →
        source_at V.View (task E.run.listing wants.now) (stage E.Ledger C.Cache work.old) cached maps
        (want_at wants.now.plan.now i) ≡ fate.Open)) }
{
    // Only for its contract: the count of calls fits its type.
    work.kit.chain.asks();
    for want in 0..wants.plan.wants() {
        if !wants.deals_to(worker, want) {
            continue;
        }
        let ended = settle(wants, want, work);
        if lacked_memory(&ended) {
            return Err(Memory);
        }
    }
    Ok(())
}
