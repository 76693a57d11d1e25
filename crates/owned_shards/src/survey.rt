//! Splitting a target into shards, and surveying each. Offsets are bytes from 0; entries and shards count from 0.

ghost use Rattle.std.specs.Prelude.{◌≡◌, ◌⊎◌, ℕ, ◌+◌, ◌<◌, ◌≤◌, ◌++◌, ◌∷◌, [], All, length, map, reverse};
ghost use Rattle.std.specs.Prelude.{IfErr, IfOk, IfSome, IsTrue, vec_capacity, vec_len};
ghost use Rattle.std.specs.List.{sum_by};
ghost use Rattle.caibx_codec.specs.Listing.{count_of, image_length};
ghost use Rattle.dsy_base.specs.Bytes.{held_resized};
ghost use Rattle.dsy_base.specs.Counts.{Rose};
ghost use Rattle.dsy_base.specs.Splits.{extent};
ghost use Rattle.range_ledger.specs.Runs.{IsDealt, open_in};
ghost use Rattle.owned_shards.specs.Shares.{IsUndealt, IsUnsurveyed, TakesEach};
ghost use Rattle.owned_shards.specs.Wholes.{Begun, IsRunOver, ShardsWith, ZerosFrom, base_extent, extents_below};
ghost use Rattle.owned_shards.specs.Wholes.{open_below};
ghost use Rattle.range_survey.specs.Fates.{FirstFates, OpenWrong, SettledRight};

use crate::lanes::{Lane, deal, gather, idle_lanes, survey_all};
use crate::shards::{Shards, put_back};
use caibx_codec::index::Index;
use dsy_base::fault::{IoFault, SplitFault};
use dsy_base::view::{Part, Target, View};
use extract_plan::plan::Plan;
use range_ledger::run::RunName;
use range_ledger::shard::Shard;
use range_ledger::unread::{Unread, open_fates};
use range_survey::fate::Fate;
use range_survey::zeros::ZeroDigests;
use std::alloc::{AllocError, Global};
use std::thread::Threads;

// The fates of all entries, a list a shard. None is settled.
fn all_open<R: RunName>(
    alloc: Global,
    index: &Index,
    plan: &Plan,
) -> Result<Vec<Vec<Fate>>, AllocError>
    requires dealt { IsDealt R.run index.now plan.now }
    ensures { IfOk result (λ v. map (λ f. f.items) v.items ≡ open_below R.run R.run.shards) }
{
    let mut fates = Vec::new(alloc);
    for number in 0..plan.shards() {
        fates.push(open_fates::<R>(alloc, index, plan, number)?)?;
    }
    Ok(fates)
}

// The last of these lists.
fn pop_fates(lists: &mut Vec<Vec<Fate>>) -> Vec<Fate>
    requires some { 0 < vec_len lists.old }
    ensures { lists.old.items ≡ lists.new.items ++ result ∷ [] }
{
    let alloc = *lists.allocator();
    match lists.pop() {
        Some(last) => last,
        None => Vec::new(alloc),
    }
}

// The shard with this number, before its survey.
fn unread_shard<'a, P: Part, R: RunName>(
    index: &'a Index,
    plan: &Plan,
    number: usize,
    part: P,
    fates: Vec<Fate>,
) -> Unread<'a, P, R>
    requires dealt { IsDealt R.run index.now plan.now }
    requires inside { number < R.run.shards }
    requires part { extent (P.held part) ≡ base_extent R.run number }
    requires tells { P.tells ≡ R.run.tells }
    requires open { fates.items ≡ open_in R.run number }
    ensures number { result.number ≡ number }
    ensures unread { IsUnsurveyed R.run result }
{
    index.rules();
    Unread::new(index, plan, number, part, fates)
}

// The shards of these parts before their survey, the last one first, and the room of the parts.
fn unread_shards<'a, P: Part, R: RunName>(
    index: &'a Index,
    plan: &Plan,
    parts: Vec<P>,
    fates: Vec<Vec<Fate>>,
    unread: Vec<Unread<'a, P, R>>,
) -> (Vec<Unread<'a, P, R>>, Vec<P>)
    requires dealt { IsDealt R.run index.now plan.now }
    requires open { map (λ f. f.items) fates.items ≡ open_below R.run R.run.shards }
    requires none { unread.items ≡ [] }
    requires capacity { R.run.shards ≤ vec_capacity unread }
    requires parts { map (λ p. extent (P.held p)) parts.items ≡ extents_below R.run R.run.shards }
    requires tells { P.tells ≡ R.run.tells }
    ensures unread { ShardsWith (IsUnsurveyed R.run) R.run 0 (reverse result.0.items) }
    ensures size { vec_len result.0 ≡ R.run.shards }
    ensures none { result.1.items ≡ [] }
    ensures capacity { vec_len result.0 ≤ vec_capacity result.1 }
{
    let mut parts = parts;
    let mut fates = fates;
    let mut unread = unread;
    while let Some(part) = parts.pop() {
        let open = pop_fates(&mut fates);
        let number = parts.len();
        put_back(&mut unread, unread_shard(index, plan, number, part, open));
    }
    (unread, parts)
}

// Room for the shards of a plan, for the fates of their entries, and for the workers that survey them. It is taken
// before anything is written.
#[derive(Drop)]
struct Room<'a, P: Part, R: RunName> {
    index: &'a Index,
    fates: Vec<Vec<Fate>>,
    unread: Vec<Unread<'a, P, R>>,
    idle: Vec<Lane<'a, P, R>>,
    lanes: Vec<Lane<'a, P, R>>,
    shards: Vec<Shard<'a, P, R>>,
}

impl<'a, P: Part, R: RunName> Room<'a, P, R> {
    fn of(
        alloc: Global,
        index: &'a Index,
        plan: &Plan,
        workers: usize,
    ) -> Result<Room<'a, P, R>, AllocError>
        requires some { 0 < workers }
        requires dealt { IsDealt R.run index.now plan.now }
        ensures index { IfOk result (λ r. r.index.now ≡ index.now) }
        ensures open { IfOk result (λ r. map (λ f. f.items) r.fates.items ≡ open_below R.run R.run.shards) }
        ensures none { IfOk result (λ r. (r.unread.items ≡ []) × (r.lanes.items ≡ []) × (r.shards.items ≡ [])) }
        ensures idle { IfOk result (λ r. All (λ a. IsUndealt a.share) r.idle.items) }
        ensures all { IfOk result (λ r. sum_by (λ a. a.share.count) r.idle.items ≡ R.run.shards) }
        ensures workers { IfOk result (λ r. (vec_len r.idle ≡ workers) × (workers ≤ vec_capacity r.lanes)) }
        ensures room { IfOk result (λ r. (R.run.shards ≤ vec_capacity r.unread)
            × (R.run.shards ≤ vec_capacity r.shards)) }
    {
        let shards = plan.shards();
        Ok(Room {
            index,
            fates: all_open::<R>(alloc, index, plan)?,
            unread: Vec::with_capacity(alloc, shards)?,
            idle: idle_lanes(alloc, workers, shards)?,
            lanes: Vec::with_capacity(alloc, workers)?,
            shards: Vec::with_capacity(alloc, shards)?,
        })
    }

    // The shards of these parts, after their survey by as many workers as there are buffers, and the room of the parts.
    fn survey<W: Threads + Sync>(
        self,
        rt: &W,
        plan: &Plan,
        parts: Vec<P>,
        zeros: &(ZeroDigests, u64),
        buffers: &mut [Vec<u8>],
    ) -> (Vec<Shard<'a, P, R>>, Vec<P>)
    where
        P: Send,
        R: Send + Sync,
        requires dealt { IsDealt R.run self.index.now plan.now }
        requires open { map (λ f. f.items) self.fates.items ≡ open_below R.run R.run.shards }
        requires none { (self.unread.items ≡ []) × (self.lanes.items ≡ []) × (self.shards.items ≡ []) }
        requires idle { All (λ a. IsUndealt a.share) self.idle.items }
        requires all { sum_by (λ a. a.share.count) self.idle.items ≡ R.run.shards }
        requires some { 0 < length buffers.old }
        requires workers { (vec_len self.idle ≡ length buffers.old) × (length buffers.old ≤ vec_capacity self.lanes) }
        requires capacity { (R.run.shards ≤ vec_capacity self.unread) × (R.run.shards ≤ vec_capacity self.shards) }
        requires parts { map (λ p. extent (P.held p)) parts.items ≡ extents_below R.run R.run.shards }
        requires tells { P.tells ≡ R.run.tells }
        requires zeros { IsTrue R.run.tells → ZerosFrom zeros.now.1 R.run.base }
        requires size { IsTrue R.run.tells → length R.run.base ≡ image_length R.run.listing }
        requires room { All (λ b. TakesEach R.run.listing (vec_len b)) buffers.old }
        ensures begun { ShardsWith (Begun R.run) R.run 0 result.0.items }
        ensures none { result.1.items ≡ [] }
        ensures capacity { vec_len result.0 ≤ vec_capacity result.1 }
        ensures room { map (λ b. vec_len b) buffers.new ≡ map (λ b. vec_len b) buffers.old }
    {
        let Room {
            index,
            fates,
            unread,
            idle,
            lanes,
            shards,
        } = self;
        let (unread, parts) = unread_shards(index, plan, parts, fates, unread);
        let mut lanes = deal(unread, idle, lanes);
        survey_all(rt, zeros, &mut lanes, buffers);
        (gather(lanes, shards), parts)
    }
}

// The names of zeros past `old`, with the first of the buffers.
fn zero_digests(
    alloc: Global,
    index: &Index,
    old: u64,
    buffers: &mut [Vec<u8>],
) -> Result<ZeroDigests, AllocError>
    requires some { 0 < length buffers.old }
    requires room { All (λ b. TakesEach index.now (vec_len b)) buffers.old }
    ensures room { map (λ b. vec_len b) buffers.new ≡ map (λ b. vec_len b) buffers.old }
{
    ZeroDigests::of(alloc, index, old, &mut buffers[0])
}

// Why a target wasn't split, as its other calls say it.
fn io_fault(fault: SplitFault) -> IoFault
    ensures failed { result ≡ IoFault.Failed → fault ≡ SplitFault.Failed }
{
    match fault {
        SplitFault::Failed => IoFault::Failed,
        SplitFault::Memory => IoFault::Memory,
    }
}

/// Gives the target the image's length, splits it into the shards of the plan, and surveys each: what lies past its old
/// length is zeros, and isn't read where the table has its size. There are as many workers as buffers; each surveys
/// neighbouring shards. The buffers have room for the largest entry. A refusal hands the target back; its length may
/// have been set then, but no entry was looked at.
pub fn survey_shards<'a, W: Threads + Sync, R: RunName + Send + Sync, T: Target>(
    rt: &W,
    alloc: Global,
    index: &'a Index,
    plan: &Plan,
    target: T,
    buffers: &mut [Vec<u8>],
) -> Result<Shards<'a, R, T>, (T, IoFault)>
where
    T::Piece: Send,
    requires some { 0 < length buffers.old }
    requires room { All (λ b. TakesEach index.now (vec_len b)) buffers.old }
    requires over { IsRunOver R.run index.now plan.now T.tells (T.held target) }
    ensures ok { IfOk result (λ s. s.held ≡ held_resized (T.held target) (image_length index.now)) }
    ensures first { IfOk result (λ s. FirstFates s.fates (count_of index.now)) }
    ensures yes { IfOk result (λ s. IfSome s.held.bytes (λ t. SettledRight index.now t s.fates (count_of index.now))) }
    ensures no { IfOk result (λ s. IfSome s.held.bytes (λ t.
        OpenWrong index.now t s.fates (T.faults target) s.faults (count_of index.now))) }
    ensures faults { IfOk result (λ s. T.faults target ≤ s.faults) }
    ensures before { IfOk result (λ s. s.faults_before ≡ T.faults target) }
    ensures err { IfErr result (λ e. (T.held e.0 ≡ T.held target)
        ⊎ (T.held e.0 ≡ held_resized (T.held target) (image_length index.now))) }
    ensures refused { IfErr result (λ e. T.faults target ≤ T.faults e.0) }
    ensures cause { IfErr result (λ e. e.1 ≡ IoFault.Failed → Rose (T.faults target) (T.faults e.0)) }
    ensures room { map (λ b. vec_len b) buffers.new ≡ map (λ b. vec_len b) buffers.old }
{
    index.rules();
    let Ok(room) = Room::<T::Piece, R>::of(alloc, index, plan, buffers.len()) else {
        return Err((target, IoFault::Memory));
    };
    let mut target = target;
    let old = target.size();
    match target.set_len(index.length()) {
        Ok(()) => {}
        Err(fault) => return Err((target, fault)),
    }
    let Ok(digests) = zero_digests(alloc, index, old, buffers) else {
        return Err((target, IoFault::Memory));
    };
    match target.split(plan.cuts()) {
        Ok((rest, parts)) => {
            let (shards, parts) = room.survey(rt, plan, parts, &(digests, old), buffers);
            Ok(Shards::new(index, rest, shards, parts))
        }
        Err((target, fault)) => Err((target, io_fault(fault))),
    }
}
