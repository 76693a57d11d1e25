//! What one worker settles entries with.

ghost use Rattle.std.specs.Prelude.{◌≡◌};
ghost use Rattle.assembler.specs.Permits.{deals_to};

use cache_store::cache::Cache;
use caibx_codec::index::Index;
use chunk_sources::kit::Kit;
use chunk_store::store::Store;
use dsy_base::view::View;
use extract_plan::plan::Plan;
use extract_plan::seeds::SeedIndex;
use range_ledger::ledger::Ledger;

/// The wants of an index, and where seeds list their chunks.
#[derive(Clone, Copy)]
pub struct Wants<'a> {
    pub index: &'a Index,
    pub plan: &'a Plan,
    pub places: &'a SeedIndex,
}

impl<'a> Wants<'a> {
    /// Whether this worker settles the want in the first pass.
    pub(crate) fn deals_to(&self, worker: usize, want: usize) -> bool
        ensures value { result ≡ deals_to self.now.plan.now worker want }
    {
        self.plan.worker_of(want) == worker
    }
}

/// The entries, where their chunks come from, and the cache, if there is one.
#[derive(Drop)]
pub struct Work<E: Ledger, S: Store, V: View, C: Cache> {
    pub ledger: E,
    pub kit: Kit<S, V>,
    pub cache: Option<C>,
}
