//! The plan of an extraction. Offsets are bytes from 0; entries, wants and shards count from 0.

ghost use Rattle.std.specs.Prelude.{◌≡◌, ◌<◌, ◌≤◌, ◌+◌, ◌%◌, length, slice_index, IfOk};
ghost use Rattle.extract_plan.specs.Deal.{IsPlan, deal_shards, entries_of, shard_start};

use crate::group::{Wants, group};
use crate::link::{Sorted, sort};
use crate::shard::{cuts, shard_of, shards, start};
use caibx_codec::index::Index;
use dsy_base::fault::Memory;
use std::alloc::{AllocError, Global};
use std::marker::Model;

/// How the entries of an index are extracted: which are alike and fetched once, a want, which worker fetches each
/// want, and where the target is cut into shards.
#[derive(Debug, Drop)]
pub struct Plan {
    workers: usize,
    wants: usize,
    want_of: Vec<u32>,
    starts: Vec<usize>,
    order: Vec<u32>,
    cuts: Vec<u64>,
}

impl Model for Plan {
    ghost use Rattle.extract_plan.specs.Deal.{Deal};

    ghost Value = { Deal };

    ghost use Rattle.extract_plan.specs.Seen.{IsSoundPlan, deal_of};

    ghost view = { λ p. deal_of p };

    ghost invariant = { λ p. IsSoundPlan p };
}

fn deal(alloc: Global, index: &Index, workers: usize) -> Result<Plan, AllocError>
    requires some { 0 < workers }
    requires few { workers ≤ 32 }
    ensures { IfOk result (λ p. IsPlan index.now workers p) }
{
    index.rules();
    let shards = shards(workers, index.count());
    let cuts = cuts(alloc, index, shards)?;
    let Wants { count, want_of } = group(alloc, index)?;
    let Sorted { starts, order } = sort(alloc, &want_of, count)?;
    Ok(Plan {
        workers,
        wants: count,
        want_of,
        starts,
        order,
        cuts,
    })
}

impl Plan {
    /// The plan of an index for 1 to 32 workers.
    pub fn of(alloc: Global, index: &Index, workers: usize) -> Result<Plan, Memory>
        requires some { 0 < workers }
        requires few { workers ≤ 32 }
        ensures { IfOk result (λ p. IsPlan index.now workers p) }
    {
        match deal(alloc, index, workers) {
            Ok(plan) => Ok(plan),
            Err(_) => Err(Memory),
        }
    }

    /// The number of wants.
    pub fn wants(&self) -> usize
        ensures { result ≡ self.now.wants }
    {
        self.wants
    }

    /// The entries of a want, in rising order.
    pub fn entries(&self, want: usize) -> &[u32]
        requires { want < self.now.wants }
        ensures { result.now ≡ entries_of self.now.want_of want }
    {
        &self.order[self.starts[want]..self.starts[want + 1]]
    }

    /// The want of an entry.
    pub fn want_of(&self, entry: usize) -> usize
        requires { entry < length self.now.want_of }
        ensures { result ≡ slice_index self.now.want_of entry }
    {
        self.want_of[entry] as usize
    }

    /// The worker that fetches a want.
    pub fn worker_of(&self, want: usize) -> usize
        ensures value { result ≡ want % self.now.workers }
        ensures inside { result < self.now.workers }
    {
        want % self.workers
    }

    /// The number of shards.
    pub fn shards(&self) -> usize
        ensures { result ≡ deal_shards self.now }
    {
        self.cuts.len()
    }

    /// The offsets at which the shards end, which is where the next begin.
    pub fn cuts(&self) -> &[u64]
        ensures { result.now ≡ self.now.cuts }
    {
        &self.cuts
    }

    /// The entry with which a shard begins; for the number of shards, the number of entries.
    pub fn first_of(&self, shard: usize) -> usize
        requires some { 0 < deal_shards self.now }
        requires inside { shard ≤ deal_shards self.now }
        ensures value { result ≡ shard_start (length self.now.want_of) (deal_shards self.now) shard }
    {
        start(self.want_of.len(), self.cuts.len(), shard)
    }

    /// The shard that has an entry.
    pub fn shard_of(&self, entry: usize) -> usize
        requires { entry < length self.now.want_of }
        ensures from { shard_start (length self.now.want_of) (deal_shards self.now) result ≤ entry }
        ensures to { entry < shard_start (length self.now.want_of) (deal_shards self.now) (result + 1) }
        ensures inside { result < deal_shards self.now }
    {
        shard_of(self.want_of.len(), self.cuts.len(), entry)
    }
}
