//! Both passes of an assembly.

ghost use Rattle.std.specs.Prelude.{◌≡◌, None, replicate, false};
ghost use Rattle.assembler.specs.Economy.{AssembledBy, UnlessMemory};
ghost use Rattle.assembler.specs.Passes.{Ends, HasPassed, WhereQuiet, source_at, two_passes};
ghost use Rattle.assembler.specs.Permits.{MayFillHad};
ghost use Rattle.assembler.specs.Stages.{Ready, from, stage, task};
ghost use Rattle.caibx_codec.specs.Listing.{count_of};
ghost use Rattle.chunk_sources.specs.AnyCaches.{Suits, seen_in};
ghost use Rattle.chunk_sources.specs.Caches.{IsAlone};

use crate::fault::ExtractFault;
use crate::fill::fill;
use crate::retry::retry;
use crate::work::{Wants, Work};
use cache_store::cache::Cache;
use chunk_store::store::Store;
use dsy_base::fault::Memory;
use dsy_base::view::View;
use range_ledger::ledger::Ledger;

/// Makes all entries right that are open: two passes.
pub(crate) fn settle_all<E: Ledger, S: Store, V: View, C: Cache>(
    wants: &Wants<'_>,
    tried: Vec<bool>,
    work: &mut Work<E, S, V, C>,
) -> Result<(), ExtractFault>
    requires listing { wants.now.index.now ≡ E.run.listing }
    requires fresh { tried.items ≡ replicate wants.now.plan.now.wants false }
    requires ready { Ready (task E.run.listing wants.now) (stage E.Ledger C.Cache work.old) }
    requires suits { Suits C.Cache S.Store E.run.listing work.old.kit.chain.stores (seen_in C.Cache work.old.cache) }
    requires alone { IsAlone (seen_in C.Cache work.old.cache) }
    requires may { MayFillHad S.Store V.View (task E.run.listing wants.now) E.run.may (stage E.Ledger C.Cache work.old)
        (λ _. Unit {0}) }
    requires workers { wants.now.plan.now.workers ≡ 1 }
    ensures passes { HasPassed S.Store V.View (task E.run.listing wants.now) two_passes
        (stage E.Ledger C.Cache work.old) (stage E.Ledger C.Cache work.new) }
    ensures ends { Ends S.Store V.View (task E.run.listing wants.now) (stage E.Ledger C.Cache work.old)
        (stage E.Ledger C.Cache work.new) result }

    // Where nothing fails.
    ensures exactly { WhereQuiet S.Store V.View E.run.listing (from (stage E.Ledger C.Cache work.old))
        (from (stage E.Ledger C.Cache work.new)) (λ cached maps. UnlessMemory (AssembledBy
        (source_at V.View (task E.run.listing wants.now) (stage E.Ledger C.Cache work.old) cached maps)
        wants.now.plan.now.wants (count_of E.run.listing) (E.fates work.old.ledger) (E.fates work.new.ledger)
        work.old.kit.chain work.new.kit.chain) result) }
{
    match fill(wants, 0, work) {
        Ok(()) => retry(wants, tried, work),
        Err(Memory) => Err(ExtractFault::Memory),
    }
}
