//! The workers that survey the shards of a target, side by side. Offsets are bytes from 0; shards count from 0.

ghost use Rattle.std.specs.Prelude.{◌≡◌, ◌<◌, ◌≤◌, ℕ, [], All, IfOk, IsTrue, length, map, reverse};
ghost use Rattle.std.specs.Prelude.{slice_index_or, vec_capacity, vec_len};
ghost use Rattle.std.specs.List.{flat_map, sum_by};
ghost use Rattle.caibx_codec.specs.Listing.{image_length};
ghost use Rattle.owned_shards.specs.Shares.{HasSurveyed, IsUndealt, AwaitsSurvey, TakesEach};
ghost use Rattle.owned_shards.specs.Wholes.{ZerosFrom};
ghost use Rattle.owned_shards.specs.declared.lanes.Lane.{Lane};

use crate::shards::put_back;
use crate::share::Share;
use dsy_base::view::{Part, View};
use range_ledger::run::RunName;
use range_ledger::shard::Shard;
use range_ledger::unread::Unread;
use range_survey::zeros::ZeroDigests;
use std::alloc::{AllocError, Global};
use std::mem::swap;
use std::thread;
use std::thread::Threads;

/// A worker: its share of the shards, and the buffer that it reads into.
#[derive(Drop)]
pub(crate) struct Lane<'a, P: Part, R: RunName> {
    pub share: Share<'a, P, R>,
    pub buffer: Vec<u8>,
}

impl<'a, P: Part, R: RunName> Lane<'a, P, R> {
    // Changes its buffer for another one.
    fn change(&mut self, buffer: &mut Vec<u8>)
        ensures changed { buffer.new ≡ self.old.buffer }
        ensures buffer { self.new.buffer ≡ buffer.old }
        ensures kept { self.new.share ≡ self.old.share }
    {
        swap(&mut self.buffer, buffer);
    }
}

/// A lane for each worker, with room for its share of `shards` shards. The shares differ by at most one shard. None has
/// a buffer.
pub(crate) fn idle_lanes<'a, P: Part, R: RunName>(
    alloc: Global,
    workers: usize,
    shards: usize,
) -> Result<Vec<Lane<'a, P, R>>, AllocError>
    requires some { 0 < workers }
    ensures none { IfOk result (λ v. All (λ a. IsUndealt a.share) v.items) }
    ensures size { IfOk result (λ v. vec_len v ≡ workers) }
    ensures all { IfOk result (λ v. sum_by (λ a. a.share.count) v.items ≡ shards) }
{
    let mut lanes = Vec::with_capacity(alloc, workers)?;
    let mut left = shards;
    while lanes.len() < workers {
        let count = left / (workers - lanes.len());
        let lane = Lane {
            share: Share::new(alloc, count)?,
            buffer: Vec::new(alloc),
        };
        put_back(&mut lanes, lane);
        left -= count;
    }
    Ok(lanes)
}

/// Gives each idle lane its share of the shards, of which the last one comes first, and puts it into `lanes`.
pub(crate) fn deal<'a, P: Part, R: RunName>(
    unread: Vec<Unread<'a, P, R>>,
    idle: Vec<Lane<'a, P, R>>,
    lanes: Vec<Lane<'a, P, R>>,
) -> Vec<Lane<'a, P, R>>
    requires none { lanes.items ≡ [] }
    requires room { vec_len idle ≤ vec_capacity lanes }
    requires idle { All (λ a. IsUndealt a.share) idle.items }
    requires all { sum_by (λ a. a.share.count) idle.items ≡ vec_len unread }
    ensures unread { flat_map (λ a. a.share.unread.items) result.items ≡ reverse unread.entry.items }
    ensures none { All (λ a. a.share.shards.items ≡ []) result.items }
    ensures room { All (λ a. vec_len a.share.unread ≤ vec_capacity a.share.shards) result.items }
    ensures size { vec_len result ≡ vec_len idle.entry }
{
    let mut unread = unread;
    let mut idle = idle;
    let mut lanes = lanes;
    while let Some(mut lane) = idle.pop() {
        lane.share.take(&mut unread);
        put_back(&mut lanes, lane);
    }
    lanes
}

// Changes the buffer of each lane for the one in its place.
fn change_buffers<'a, P: Part, R: RunName>(lanes: &mut [Lane<'a, P, R>], buffers: &mut [Vec<u8>])
    requires size { length buffers.old ≡ length lanes.old }
    ensures changed { (k : ℕ) (b : _) (a : Lane P R) → k < length lanes.old →
        slice_index_or buffers.new k b ≡ (slice_index_or lanes.old k a).buffer }
    ensures buffers { (k : ℕ) (b : _) (a : Lane P R) → k < length lanes.old →
        (slice_index_or lanes.new k a).buffer ≡ slice_index_or buffers.old k b }
    ensures kept { (k : ℕ) (a : Lane P R) → k < length lanes.old →
        (slice_index_or lanes.new k a).share ≡ (slice_index_or lanes.old k a).share }
{
    for k in 0..lanes.len() {
        lanes[k].change(&mut buffers[k]);
    }
}

// All workers survey their shards, side by side.
fn go_all<'a, W: Threads + Sync, P: Part + Send, R: RunName + Send + Sync>(
    rt: &W,
    zeros: &(ZeroDigests, u64),
    lanes: &mut [Lane<'a, P, R>],
)
    requires some { 0 < length lanes.old }
    requires ready { All (λ a. AwaitsSurvey R.run a.share) lanes.old }
    requires tells { P.tells ≡ R.run.tells }
    requires zeros { IsTrue R.run.tells → ZerosFrom zeros.now.1 R.run.base }
    requires size { IsTrue R.run.tells → length R.run.base ≡ image_length R.run.listing }
    requires room { All (λ a. TakesEach R.run.listing (vec_len a.buffer)) lanes.old }
    ensures each { (k : ℕ) (a : Lane P R) → k < length lanes.old →
        HasSurveyed R.run (slice_index_or lanes.old k a).share (slice_index_or lanes.new k a).share }
    ensures room { (k : ℕ) (a : Lane P R) → k < length lanes.old →
        vec_len (slice_index_or lanes.new k a).buffer ≡ vec_len (slice_index_or lanes.old k a).buffer }
{
    let count = lanes.len();
    thread::for_each_mut(
        rt,
        lanes,
        count,
        &|_, lane: &mut Lane<P, R>|
            requires ready { AwaitsSurvey R.run lane.old.share }
            requires tells { P.tells ≡ R.run.tells }
            requires zeros { IsTrue R.run.tells → ZerosFrom zeros.now.1 R.run.base }
            requires size { IsTrue R.run.tells → length R.run.base ≡ image_length R.run.listing }
            requires room { TakesEach R.run.listing (vec_len lane.old.buffer) }
            ensures begun { HasSurveyed R.run lane.old.share lane.new.share }
            ensures room { vec_len lane.new.buffer ≡ vec_len lane.old.buffer }
        {
            lane.share.survey(zeros, &mut lane.buffer);
        },
    );
}

/// All workers survey their shards, side by side, each with a buffer of its own. They have room for the largest entry.
pub(crate) fn survey_all<'a, W: Threads + Sync, P: Part + Send, R: RunName + Send + Sync>(
    rt: &W,
    zeros: &(ZeroDigests, u64),
    lanes: &mut [Lane<'a, P, R>],
    buffers: &mut [Vec<u8>],
)
    requires some { 0 < length lanes.old }
    requires size { length buffers.old ≡ length lanes.old }
    requires ready { All (λ a. AwaitsSurvey R.run a.share) lanes.old }
    requires tells { P.tells ≡ R.run.tells }
    requires zeros { IsTrue R.run.tells → ZerosFrom zeros.now.1 R.run.base }
    requires base { IsTrue R.run.tells → length R.run.base ≡ image_length R.run.listing }
    requires room { All (λ b. TakesEach R.run.listing (vec_len b)) buffers.old }
    ensures each { (k : ℕ) (a : Lane P R) → k < length lanes.old →
        HasSurveyed R.run (slice_index_or lanes.old k a).share (slice_index_or lanes.new k a).share }
    ensures room { map (λ b. vec_len b) buffers.new ≡ map (λ b. vec_len b) buffers.old }
{
    change_buffers(lanes, buffers);
    go_all(rt, zeros, lanes);
    change_buffers(lanes, buffers);
}

/// The surveyed shards of all lanes, in their order. `shards` has room for them.
pub(crate) fn gather<'a, P: Part, R: RunName>(
    lanes: Vec<Lane<'a, P, R>>,
    shards: Vec<Shard<'a, P, R>>,
) -> Vec<Shard<'a, P, R>>
    requires none { shards.items ≡ [] }
    requires room { length (flat_map (λ a. reverse a.share.shards.items) lanes.items) ≤ vec_capacity shards }
    ensures items { result.items ≡ flat_map (λ a. reverse a.share.shards.items) lanes.entry.items }
{
    let mut lanes = lanes;
    let mut shards = shards;
    lanes.reverse();
    while let Some(lane) = lanes.pop() {
        lane.share.give(&mut shards);
    }
    shards
}
