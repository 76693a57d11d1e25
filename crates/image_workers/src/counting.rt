//! The numbers that several workers report together. Entries, wants and workers count from 0.

ghost use Rattle.std.specs.Prelude.{◌≡◌, ◌+◌, ◌<◌, ℕ, length, map, true};
ghost use Rattle.std.specs.List.{All};
ghost use Rattle.caibx_codec.specs.Listing.{count_of};
ghost use Rattle.image_workers.specs.Reporting.{CountsFates, fate_told, reported_at};
ghost use Rattle.range_survey.specs.Fates.{settled};

use assembler::work::Wants;
use range_ledger::ledger::Ledger;
use range_survey::fate::Fate;
use range_survey::report::Report;

// The fate of an entry, by what its worker knows of it and by its last one. What the worker saw open wasn't kept.
fn fate_of(known: Fate, last: Fate) -> Fate
    ensures { result ≡ fate_told known last }
{
    match known {
        Fate::Open => match last {
            Fate::Kept => Fate::Copied,
            _ => last,
        },
        _ => known,
    }
}

/// Counts each entry by what the worker knows of it that is dealt its want; where that is open, by what the ledger
/// says. `known` has a list of fates for each worker. It takes no memory.
pub(crate) fn report_of<L: Ledger>(wants: &Wants<'_>, known: &[Vec<Fate>], ledger: &L) -> Report
    requires listing { wants.now.index.now ≡ L.run.listing }
    requires entries { length wants.now.plan.now.want_of ≡ count_of L.run.listing }
    requires workers { length known.now ≡ wants.now.plan.now.workers }
    requires size { All (λ v. length v.items ≡ count_of L.run.listing) known.now }
    ensures counts { CountsFates
        (reported_at wants.now.plan.now (map (λ v. v.items) known.now) (L.fates ledger.now))
        (count_of L.run.listing) result }
    ensures all { ((i : ℕ) → i < count_of L.run.listing → settled (L.fates ledger.now) i ≡ true) →
        result.kept + result.copied + result.seeded + result.cached + result.fetched ≡ count_of L.run.listing }
{
    let mut report = Report::new();
    for entry in 0..wants.index.count() {
        let want = wants.plan.want_of(entry);
        let worker = wants.plan.worker_of(want);
        report.count(fate_of(known[worker][entry], ledger.fate(entry)));
    }
    report
}
