//! The end of an assembly by several workers: the second pass, which the first of them makes over the joined shards.

ghost use Rattle.std.specs.Prelude.{◌≡◌, ◌≤◌, ℕ, ◌+◌, List, Err, None, Option, replicate, false, true, IfOk, IfSome};
ghost use Rattle.std.specs.Prelude.{length, map};
ghost use Rattle.std.specs.List.{All};
ghost use Rattle.assembler.specs.Passes.{Ends, HasPassed, one_pass};
ghost use Rattle.assembler.specs.Permits.{MayFillHad};
ghost use Rattle.assembler.specs.Stages.{Ready, stage, task};
ghost use Rattle.caibx_codec.specs.Listing.{count_of, image_length};
ghost use Rattle.chunk_sources.specs.AnyCaches.{Suits, seen_in};
ghost use Rattle.chunk_sources.specs.Caches.{IsAlone, seen};
ghost use Rattle.dsy_base.specs.Maps.{Map};
ghost use Rattle.chunk_sources.specs.Losses.{MayLack};
ghost use Rattle.chunk_sources.specs.Sources.{Sources, sources};
ghost use Rattle.range_survey.specs.declared.fate.Fate.{Fate};
ghost use Rattle.image_workers.specs.Beside.{AssembledBeside, ComesFrom, joined_stage};
ghost use Rattle.image_workers.specs.Reporting.{CountsFates, reported_at};
ghost use Rattle.owned_shards.specs.Wholes.{KeptWhole};

use crate::counting::report_of;
use assembler::fault::ExtractFault;
use assembler::retry::retry;
use assembler::run::Ended;
use assembler::work::{Wants, Work};
use cache_store::cache::Cache;
use cache_store::shelf::CacheShelf;
use chunk_sources::kit::Kit;
use chunk_store::store::Store;
use dsy_base::folder::Folder;
use dsy_base::view::{Part, Target, View};
use owned_shards::shards::Shards;
use range_ledger::ledger::Ledger;
use range_ledger::run::RunName;
use range_survey::fate::Fate;

// The second pass, unless a worker lacked memory in the first one.
fn retry_unless<E: Ledger, S: Store, V: View, C: Cache>(
    wants: &Wants<'_>,
    tried: Vec<bool>,
    work: &mut Work<E, S, V, C>,
    lacked: bool,
) -> Result<(), ExtractFault>
    requires listing { wants.now.index.now ≡ E.run.listing }
    requires fresh { tried.items ≡ replicate wants.now.plan.now.wants false }
    requires ready { Ready (task E.run.listing wants.now) (stage E.Ledger C.Cache work.old) }
    requires suits { Suits C.Cache S.Store E.run.listing work.old.kit.chain.stores (seen_in C.Cache work.old.cache) }
    requires alone { IsAlone (seen_in C.Cache work.old.cache) }
    requires may { MayFillHad S.Store V.View (task E.run.listing wants.now) E.run.may (stage E.Ledger C.Cache work.old)
        (λ _. Unit {0}) }
    requires lacked { lacked ≡ true → MayLack S.Store (seen_in C.Cache work.old.cache) }
    ensures passes { HasPassed S.Store V.View (task E.run.listing wants.now) one_pass (stage E.Ledger C.Cache work.old)
        (stage E.Ledger C.Cache work.new) }
    ensures ends { Ends S.Store V.View (task E.run.listing wants.now) (stage E.Ledger C.Cache work.old)
        (stage E.Ledger C.Cache work.new) result }
    ensures lacking { lacked ≡ true → result ≡ Err ExtractFault.Memory }
{
    if lacked {
        return Err(ExtractFault::Memory);
    }
    retry(wants, tried, work)
}

/// Makes the second pass with the kit of the first worker, which has the cache for itself, unless a worker lacked
/// memory, and joins the target. `known` is what each worker knows of each entry after the first pass.
pub(crate) fn finish<R: RunName, T: Target, S: Store, V: View, F: Folder>(
    wants: &Wants<'_>,
    tried: Vec<bool>,
    shards: Shards<'_, R, T>,
    kit: Kit<S, V>,
    cache: Option<CacheShelf<F>>,
    known: &[Vec<Fate>],
    lacked: bool,
) -> Ended<T, S, V, F>
    requires dealt { wants.now.index.now ≡ R.run.listing }
    requires fresh { tried.items ≡ replicate wants.now.plan.now.wants false }
    requires ready { Ready (task R.run.listing wants.now) (joined_stage shards (seen F.Look cache) kit) }
    requires kept { IfSome shards.held.bytes (KeptWhole R.run shards) }
    requires faults { shards.faults_before ≤ shards.faults }
    requires unnamed { (F.pairs ≡ None) × (F.stores ≡ None) }
    requires may { MayFillHad S.Store V.View (task R.run.listing wants.now) R.run.may
        (joined_stage shards (seen F.Look cache) kit) (λ _. Unit {0}) }
    requires lacked { lacked ≡ true → MayLack S.Store (seen F.Look cache) }
    requires workers { length known.now ≡ wants.now.plan.now.workers }
    requires known { All (λ v. length v.items ≡ count_of R.run.listing) known.now }
    ensures assembled { (o : Option (List ℕ)) (given : Option (List (Map (List ℕ)))) (old : Sources S V) →
        ComesFrom S.Store V.View R.run (task R.run.listing wants.now) o given old shards.entry (seen F.Look cache) kit →
        AssembledBeside S.Store V.View R.run (task R.run.listing wants.now) o (T.held result.target).bytes old
        (seen F.Look cache)
        (sources (T.faults result.target) result.kit.seeds.items (seen F.Look result.cache) result.kit.chain)
        result.answer }
    ensures passed { (n : List Fate) × HasPassed S.Store V.View (task R.run.listing wants.now) one_pass
        (joined_stage shards.entry (seen F.Look cache) kit) (record {
          held = T.held result.target;
          faults = T.faults result.target;
          fates = n;
          kit = result.kit;
          cache = seen F.Look result.cache;
        }) }
    ensures report { IfOk result.answer
        (λ r. r.kept + r.copied + r.seeded + r.cached + r.fetched ≡ count_of R.run.listing) }
    ensures counts { (n : List Fate) × IfOk result.answer (CountsFates
        (reported_at wants.now.plan.now (map (λ v. v.items) known.now) n) (count_of R.run.listing)) }
    ensures memory { result.answer ≡ Err ExtractFault.Memory → MayLack S.Store (seen F.Look cache) }
    ensures lacking { lacked ≡ true → result.answer ≡ Err ExtractFault.Memory }
    ensures size { (T.held result.target).size ≡ image_length R.run.listing }
    ensures name { (T.held result.target).name ≡ shards.entry.held.name }
    ensures faults { shards.entry.faults ≤ T.faults result.target }
{
    // Only for its contract: how many bytes the shards have.
    shards.rules();
    let mut work = Work {
        ledger: shards,
        kit,
        cache,
    };
    let answer = match retry_unless(wants, tried, &mut work, lacked) {
        Ok(()) => Ok(report_of(wants, known, &work.ledger)),
        Err(fault) => Err(fault),
    };
    let Work { ledger, kit, cache } = work;
    Ended {
        target: ledger.into_target(),
        kit,
        cache,
        answer,
    }
}
