//! The second pass of an assembly: the entries that are still open, in rising order, each want once.

ghost use Rattle.std.specs.Prelude.{◌≡◌, None, replicate, false};
ghost use Rattle.assembler.specs.Economy.{PassedBy, UnlessMemory};
ghost use Rattle.assembler.specs.Passes.{Ends, HasPassed, WhereQuiet, one_pass, source_at};
ghost use Rattle.assembler.specs.Permits.{MayFillHad};
ghost use Rattle.assembler.specs.Stages.{Ready, from, stage, task};
ghost use Rattle.caibx_codec.specs.Listing.{count_of};
ghost use Rattle.chunk_sources.specs.AnyCaches.{Suits, seen_in};
ghost use Rattle.chunk_sources.specs.Caches.{IsAlone};

use crate::fault::{ExtractFault, Lost, Unsettled};
use crate::settle::settle;
use crate::work::{Wants, Work};
use cache_store::cache::Cache;
use chunk_store::store::Store;
use dsy_base::view::View;
use range_ledger::ledger::Ledger;

/// Settles the open entries in rising order, with each want once, which is then marked as tried. Goes on past a want
/// whose chunk no source gives, and then answers for the first such entry. A write that fails and want of memory end
/// it.
pub fn retry<E: Ledger, S: Store, V: View, C: Cache>(
    wants: &Wants<'_>,
    mut tried: Vec<bool>,
    work: &mut Work<E, S, V, C>,
) -> Result<(), ExtractFault>
    requires dealt { wants.now.index.now ≡ E.run.listing }
    requires fresh { tried.items ≡ replicate wants.now.plan.now.wants false }
    requires ready { Ready (task E.run.listing wants.now) (stage E.Ledger C.Cache work.old) }
    requires suits { Suits C.Cache S.Store E.run.listing work.old.kit.chain.stores (seen_in C.Cache work.old.cache) }
    requires alone { IsAlone (seen_in C.Cache work.old.cache) }
    requires may { MayFillHad S.Store V.View (task E.run.listing wants.now) E.run.may (stage E.Ledger C.Cache work.old)
        (λ _. Unit {0}) }
    ensures passes { HasPassed S.Store V.View (task E.run.listing wants.now) one_pass (stage E.Ledger C.Cache work.old)
        (stage E.Ledger C.Cache work.new) }
    ensures ends { Ends S.Store V.View (task E.run.listing wants.now) (stage E.Ledger C.Cache work.old)
        (stage E.Ledger C.Cache work.new) result }

    // Where nothing fails.
    ensures exactly { WhereQuiet S.Store V.View E.run.listing (from (stage E.Ledger C.Cache work.old))
        (from (stage E.Ledger C.Cache work.new)) (λ cached maps. UnlessMemory (PassedBy
        (source_at V.View (task E.run.listing wants.now) (stage E.Ledger C.Cache work.old) cached maps)
        wants.now.plan.now.wants (count_of E.run.listing) (E.fates work.old.ledger) (E.fates work.new.ledger)
        work.old.kit.chain work.new.kit.chain) result) }
{
    // Only for its contract: the count of calls fits its type.
    work.kit.chain.asks();
    let mut first = None::<Lost>;
    for entry in 0..wants.index.count() {
        let want = wants.plan.want_of(entry);
        if work.ledger.fate(entry).is_settled() || tried[want] {
            continue;
        }
        tried[want] = true;
        match settle(wants, want, work) {
            Ok(()) => {}
            Err(Unsettled::Lost(lost)) => {
                if lost.lacked_memory() {
                    return Err(ExtractFault::Memory);
                }
                first = first.or(Some(lost));
            }
            Err(Unsettled::TargetFault) => {
                return Err(match first {
                    Some(lost) => lost.fault(),
                    None => ExtractFault::TargetFault,
                });
            }
        }
    }
    match first {
        Some(lost) => Err(lost.fault()),
        None => Ok(()),
    }
}
