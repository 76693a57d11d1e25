//! An assembly after its survey. It takes no memory of its own.

ghost use Rattle.std.specs.Prelude.{◌≡◌, ℕ, ◌+◌, ◌≤◌, None, replicate, false, Err, IfOk, IfSome};
ghost use Rattle.assembler.specs.Assemblies.{Assembles, IsAssembled};
ghost use Rattle.assembler.specs.Begun.{HasBegun};
ghost use Rattle.assembler.specs.Stages.{Ready, task};
ghost use Rattle.caibx_codec.specs.Listing.{count_of, image_length};
ghost use Rattle.chunk_sources.specs.Caches.{seen};
ghost use Rattle.chunk_sources.specs.Losses.{MayLack};
ghost use Rattle.chunk_sources.specs.Sources.{sources};
ghost use Rattle.dsy_base.specs.Bytes.{Held, resized};
ghost use Rattle.dsy_base.specs.Counts.{Quiet};
ghost use Rattle.owned_shards.specs.Wholes.{MayFillAll};
ghost use Rattle.range_ledger.specs.Fills.{WhereTold};
ghost use Rattle.range_survey.specs.Reports.{right_below};

use crate::fault::ExtractFault;
use crate::passes::settle_all;
use crate::work::{Wants, Work};
use cache_store::shelf::CacheShelf;
use chunk_sources::kit::Kit;
use chunk_store::store::Store;
use dsy_base::folder::Folder;
use dsy_base::view::{Part, Target, View};
use owned_shards::shards::Shards;
use range_ledger::ledger::Ledger;
use range_ledger::run::RunName;
use range_survey::report::Report;

/// What an assembly with one kit hands back.
#[derive(Drop)]
pub struct Ended<T: Target, S: Store, V: View, F: Folder> {
    pub target: T,
    pub kit: Kit<S, V>,
    pub cache: Option<CacheShelf<F>>,
    pub answer: Result<Report, ExtractFault>,
}

/// Makes all entries right that the survey left open, and joins the target. `tried` has a mark for each want.
pub fn run_surveyed<R: RunName, T: Target, S: Store, V: View, F: Folder>(
    wants: &Wants<'_>,
    tried: Vec<bool>,
    ledger: Shards<'_, R, T>,
    kit: Kit<S, V>,
    cache: Option<CacheShelf<F>>,
) -> Ended<T, S, V, F>
    requires dealt { wants.now.index.now ≡ R.run.listing }
    requires fresh { tried.items ≡ replicate wants.now.plan.now.wants false }
    requires ready { Ready (task R.run.listing wants.now) (record {
      held = ledger.held;
      faults = ledger.faults;
      fates = ledger.fates;
      kit = kit;
      cache = seen F.Look cache;
    }) }
    requires unnamed { (F.pairs ≡ None) × (F.stores ≡ None) }
    requires may { MayFillAll R.run }
    requires workers { wants.now.plan.now.workers ≡ 1 }
    ensures bytes { (old : Held) (f : ℕ) → HasBegun R.run.listing old f ledger.entry → WhereTold old.bytes
        (T.held result.target).bytes (Assembles R.run.listing ⊥ f (T.faults result.target) result.answer) }
    ensures assembled { (old : Held) (f : ℕ) → HasBegun R.run.listing old f ledger.entry →
        IsAssembled S.Store V.View (task R.run.listing wants.now) old.bytes (T.held result.target).bytes
        (sources f kit.seeds.items (seen F.Look cache) kit.chain)
        (sources (T.faults result.target) result.kit.seeds.items (seen F.Look result.cache) result.kit.chain)
        result.answer }
    ensures report { IfOk result.answer
        (λ r. r.kept + r.copied + r.seeded + r.cached + r.fetched ≡ count_of R.run.listing) }
    ensures kept { (old : Held) (f : ℕ) → HasBegun R.run.listing old f ledger.entry →
        IfOk result.answer (λ r. Quiet f (T.faults result.target) → IfSome old.bytes (λ o. r.kept ≡
        right_below R.run.listing (resized o (image_length R.run.listing)) (count_of R.run.listing))) }
    ensures memory { result.answer ≡ Err ExtractFault.Memory → MayLack S.Store (seen F.Look cache) }
    ensures size { (T.held result.target).size ≡ image_length R.run.listing }
    ensures name { (T.held result.target).name ≡ ledger.entry.held.name }
    ensures faults { ledger.entry.faults ≤ T.faults result.target }
{
    // Only for its contract: what is settled is right.
    ledger.rules();
    let mut work = Work { ledger, kit, cache };
    let answer = match settle_all(wants, tried, &mut work) {
        Ok(()) => Ok(work.ledger.report()),
        Err(fault) => Err(fault),
    };
    let Work { ledger, kit, cache } = work;
    Ended {
        target: ledger.into_target(),
        kit,
        cache,
        answer,
    }
}
