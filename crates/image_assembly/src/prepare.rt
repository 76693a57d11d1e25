//! What an assembly needs before it runs: the plan, the target in shards after their survey, and room. Entries and
//! shards count from 0.

ghost use Rattle.std.specs.Prelude.{◌≡◌, ◌≢◌, ◌⊎◌, ◌+◌, ◌<◌, ◌≤◌, ℕ, length, map, replicate, vec_len, Err, None, false};
ghost use Rattle.std.specs.Prelude.{IfErr, IfOk, IfSome};
ghost use Rattle.std.specs.List.{All};
ghost use Rattle.assembler.specs.Assemblies.{Assembles, IsAssembled};
ghost use Rattle.assembler.specs.Begun.{HasBegun};
ghost use Rattle.assembler.specs.OneKit.{OfKit, lent};
ghost use Rattle.chunk_store.specs.Kinds.{kind_named};
ghost use Rattle.image_workers.specs.Kits.{IsAssembledBy};
ghost use Rattle.image_assembly.specs.Readied.{AreRoomsFor, IsRoomOf, IsRunFor, OfTarget, OfTargetWith, Permits};
ghost use Rattle.caibx_codec.specs.Listing.{Listing, count_of, image_length, kind_of};
ghost use Rattle.chunk_sources.specs.Caches.{seen};
ghost use Rattle.chunk_sources.specs.Losses.{MayLack};
ghost use Rattle.chunk_sources.specs.Sources.{sources};
ghost use Rattle.dsy_base.specs.Bytes.{held_resized, resized};
ghost use Rattle.dsy_base.specs.Counts.{Quiet, Rose};
ghost use Rattle.extract_plan.specs.Deal.{Deal, IsPlan, deal_shards, shards_of};
ghost use Rattle.owned_shards.specs.Wholes.{MayFillAll};
ghost use Rattle.extract_plan.specs.Places.{PlacesKnown};
ghost use Rattle.range_ledger.specs.Fills.{WhereTold};
ghost use Rattle.range_survey.specs.Fates.{SettledRight};
ghost use Rattle.range_survey.specs.Reports.{right_below};

use crate::fault::{PrepareFault, refusal};
use assembler::fault::ExtractFault;
use assembler::run::{Ended, run_surveyed};
use assembler::work::Wants;
use cache_store::shelf::CacheShelf;
use caibx_codec::index::Index;
use chunk_sources::kit::Kit;
use chunk_store::store::Store;
use dsy_base::folder::Folder;
use dsy_base::look::Look;
use dsy_base::view::{Part, Target, View};
use extract_plan::plan::Plan;
use extract_plan::seeds::SeedIndex;
use image_workers::assembled::Assembled;
use image_workers::together::{Rooms, Workers, run_workers};
use named_folders::named_folder::FolderName;
use owned_shards::shards::Shards;
use owned_shards::survey::survey_shards;
use range_ledger::ledger::Ledger;
use range_ledger::run::RunName;
use range_survey::report::Report;
use std::alloc::{AllocError, Global};
use std::marker::Model;
use std::sync::Wait;
use std::thread::Threads;

/// An assembly with all the room that it takes, over a target that was surveyed. `tried` has a mark for each want.
#[derive(Drop)]
pub struct Prepared<'a, R: RunName, T: Target, S: Store, V: View> {
    index: &'a Index,
    places: &'a SeedIndex,
    plan: Plan,
    tried: Vec<bool>,
    shards: Shards<'a, R, T>,
    kits: Vec<Kit<S, V>>,
    rooms: Option<Rooms<'a, T::Piece, R, S, V>>,
}

impl<'a, R: RunName, T: Target, S: Store, V: View> Model for Prepared<'a, R, T, S, V> {
    ghost use Rattle.std.specs.Prelude.{◌≡◌, ◌≤◌, None, IfSome, length};
    ghost use Rattle.image_assembly.specs.Readied.{AreRoomsFor, IsReadied, Readied, readied};

    ghost Value = { Readied S V };

    ghost view = { λ p. readied (record { listing = p.index.now; plan = p.plan; places = p.places.now }) p.shards
        p.kits.items };

    ghost invariant = { λ p. IsReadied S.Store V.View R.run T.tells p.tried.items (readied (record {
      listing = p.index.now;
      plan = p.plan;
      places = p.places.now;
    }) p.shards p.kits.items) × (p.rooms ≡ None → length p.kits.items ≡ 1) × IfSome p.rooms (λ r.
        (2 ≤ length p.kits.items) × AreRoomsFor R.run (length p.kits.items) r.locks r.lanes r.known) };
}

// The plan, a mark for each want, a buffer of the size of the largest chunk for each kit, and room for several workers.
#[derive(Drop)]
struct Room<'a, P: Part, R: RunName, S: Store, V: View> {
    plan: Plan,
    tried: Vec<bool>,
    buffers: Vec<Vec<u8>>,
    rooms: Option<Rooms<'a, P, R, S, V>>,
}

// So many buffers for the largest chunk.
fn buffers_of(alloc: Global, index: &Index, count: usize) -> Result<Vec<Vec<u8>>, AllocError>
    ensures size { IfOk result (λ v. vec_len v ≡ count) }
    ensures room { IfOk result (λ v. All (λ b. IsRoomOf index.now (length b.items)) v.items) }
{
    let mut buffers = Vec::new(alloc);
    for _ in 0..count {
        buffers.push(index.room(alloc)?)?;
    }
    Ok(buffers)
}

// Room for several workers; none for one.
fn rooms_of<'a, P: Part, R: RunName, S: Store, V: View>(
    alloc: Global,
    plan: &Plan,
    workers: usize,
    entries: usize,
) -> Result<Option<Rooms<'a, P, R, S, V>>, AllocError>
    requires some { 0 < workers }
    requires shards { deal_shards plan.now ≡ R.run.shards }
    requires entries { entries ≡ count_of R.run.listing }
    ensures one { IfOk result (λ r. r ≡ None → workers ≡ 1) }
    ensures many { IfOk result (λ r. IfSome r
        (λ x. (2 ≤ workers) × AreRoomsFor R.run workers x.locks x.lanes x.known)) }
{
    if workers == 1 {
        return Ok(None);
    }
    Ok(Some(Rooms::of(alloc, plan.shards(), workers, entries)?))
}

impl<'a, P: Part, R: RunName, S: Store, V: View> Room<'a, P, R, S, V> {
    fn of(alloc: Global, index: &Index, workers: usize) -> Result<Room<'a, P, R, S, V>, AllocError>
        requires size { (1 ≤ workers) × (workers ≤ 32) }
        requires listing { index.now ≡ R.run.listing }
        requires shards { R.run.shards ≡ shards_of workers (count_of index.now) }
        ensures plan { IfOk result (λ r. IsPlan index.now workers r.plan) }
        ensures fresh { IfOk result (λ r. r.tried.items ≡ replicate r.plan.wants false) }
        ensures size { IfOk result (λ r. vec_len r.buffers ≡ workers) }
        ensures room { IfOk result (λ r. All (λ b. IsRoomOf index.now (length b.items)) r.buffers.items) }
        ensures one { IfOk result (λ r. r.rooms ≡ None → workers ≡ 1) }
        ensures many { IfOk result (λ r. IfSome r.rooms
            (λ x. (2 ≤ workers) × AreRoomsFor R.run workers x.locks x.lanes x.known)) }
    {
        let Ok(plan) = Plan::of(alloc, index, workers) else {
            return Err(AllocError);
        };
        let tried = vec![in alloc; false; plan.wants()]?;
        let buffers = buffers_of(alloc, index, workers)?;
        let rooms = rooms_of(alloc, &plan, workers, index.count())?;
        Ok(Room {
            plan,
            tried,
            buffers,
            rooms,
        })
    }
}

// The kits, each with one of these buffers.
fn equipped<S: Store, V: View>(kits: Vec<Kit<S, V>>, buffers: Vec<Vec<u8>>) -> Vec<Kit<S, V>>
    requires size { length buffers.items ≡ length kits.items }
    ensures size { length result.items ≡ length kits.items }
    ensures chain { map (λ k. k.chain) result.items ≡ map (λ k. k.chain) kits.items }
    ensures seeds { map (λ k. k.seeds) result.items ≡ map (λ k. k.seeds) kits.items }
    ensures room { (l : Listing) → All (λ b. IsRoomOf l (length b.items)) buffers.items →
        All (λ k. IsRoomOf l (length k.buffer.items)) result.items }
{
    let mut kits = kits;
    let mut buffers = buffers;
    for k in 0..kits.len() {
        let Some(buffer) = buffers.pop() else {
            unreachable!();
        };
        kits[k].buffer = buffer;
    }
    kits
}

/// Makes the plan of an assembly with 1 to 32 kits, takes all the room that it needs, gives the target the image's
/// length, and surveys its shards. The places are those in the seeds of each kit, by the plan of this index for one
/// worker. A refusal hands the target and the kits back.
pub fn prepare<
    'a,
    W: Threads + Wait + Sync,
    R: RunName + Send + Sync,
    T: Target,
    S: Store,
    V: View,
>(
    rt: &W,
    alloc: Global,
    index: &'a Index,
    places: &'a SeedIndex,
    target: T,
    kits: Vec<Kit<S, V>>,
) -> Result<Prepared<'a, R, T, S, V>, (T, Vec<Kit<S, V>>, PrepareFault)>
where
    T::Piece: Send,
    requires size { (1 ≤ vec_len kits) × (vec_len kits ≤ 32) }
    requires over { IsRunFor R.run index.now (vec_len kits) T.tells (T.held target) }
    requires one { vec_len kits ≡ 1 → MayFillAll R.run }
    requires places { (d : Deal) × IsPlan index.now 1 d
        × All (λ k. PlacesKnown index.now d places.now (length k.seeds.items)) kits.items }
    requires kind { All (λ k. k.chain.kind ≡ kind_of index.now) kits.items }
    ensures ok { IfOk result (λ p. HasBegun index.now (T.held target) (T.faults target) p.whole) }
    ensures before { IfOk result (λ p. p.whole.faults_before ≡ T.faults target) }
    ensures yes { IfOk result (λ p. IfSome p.whole.held.bytes
        (λ t. SettledRight index.now t p.whole.fates (count_of index.now))) }
    ensures dealt { IfOk result (λ p. (p.task.listing ≡ index.now) × IsPlan index.now (vec_len kits) p.task.plan
        × (p.task.places ≡ places.now)) }
    ensures size { IfOk result (λ p. length p.kits ≡ vec_len kits) }
    ensures chain { IfOk result (λ p. map (λ k. k.chain) p.kits ≡ map (λ k. k.chain) kits.items) }
    ensures seeds { IfOk result (λ p. map (λ k. k.seeds) p.kits ≡ map (λ k. k.seeds) kits.items) }
    ensures room { IfOk result (λ p. All (λ k. IsRoomOf index.now (length k.buffer.items)) p.kits) }
    ensures err { IfErr result (λ e. (T.held e.0 ≡ T.held target)
        ⊎ (T.held e.0 ≡ held_resized (T.held target) (image_length index.now))) }
    ensures kept { IfErr result (λ e. e.1.items ≡ kits.items) }
    ensures cause { IfErr result (λ e. e.2 ≡ PrepareFault.TargetFault → Rose (T.faults target) (T.faults e.0)) }
    ensures faults { IfErr result (λ e. T.faults target ≤ T.faults e.0) }
{
    let Ok(room) = Room::<T::Piece, R, S, V>::of(alloc, index, kits.len()) else {
        return Err((target, kits, PrepareFault::Memory));
    };
    let Room {
        plan,
        tried,
        mut buffers,
        rooms,
    } = room;
    match survey_shards::<W, R, T>(rt, alloc, index, &plan, target, &mut buffers) {
        Err((target, fault)) => Err((target, kits, refusal(fault))),
        Ok(shards) => {
            // Only for its contract: what a ledger keeps.
            shards.rules();
            let kits = equipped(kits, buffers);
            Ok(Prepared {
                index,
                places,
                plan,
                tried,
                shards,
                kits,
                rooms,
            })
        }
    }
}

impl<'a, R: RunName + Send + Sync, T: Target, S: Store + Send, V: View + Send> Prepared<
    'a,
    R,
    T,
    S,
    V,
> {
    /// Makes right all that the survey left open and that can be obtained. The chunk of each want comes from an alike
    /// entry that is right, or from a seed, or from the cache, or else from the stores; what a store gives is added to
    /// the cache, whose faults are passed over. With several kits there are as many workers, and the cache, whose
    /// folder `N` names, is behind a lock meanwhile. Goes on past wants whose chunk no source gives, and answers for
    /// the first entry of them. What was handed over comes back whatever the answer is.
    pub fn run<W: Threads + Wait + Sync, N: FolderName + Send + Sync, F: Folder + Send + Sync>(
        self,
        rt: &W,
        cache: Option<CacheShelf<F>>,
    ) -> Assembled<T, S, V, F>
    where
        T::Piece: Send,
        requires permits { 2 ≤ length self.kits → Permits S.Store V.View R.run self.task self.kits (kind_named N.kind)
            N.opening N.place N.faults N.pairs N.stores (seen F.Look cache) }
        requires cache { IfSome (seen F.Look cache) (λ s. s.kind ≡ kind_of self.task.listing) }
        requires unnamed { (F.pairs ≡ None) × (F.stores ≡ None) }
        ensures bytes { OfTargetWith (length self.entry.kits) self.entry.task.listing self.entry.whole
            (λ old f. WhereTold old.bytes (T.held result.target).bytes (Assembles self.entry.task.listing ⊥ f
            (T.faults result.target) result.answer)) }

        // With one kit.
        ensures assembled { OfTarget self.entry.task.listing self.entry.whole (λ old f. OfKit self.entry.kits
            result.kits.items (λ k j. IsAssembled S.Store V.View self.entry.task old.bytes (T.held result.target).bytes
            (sources f k.seeds.items (seen F.Look cache) k.chain)
            (sources (T.faults result.target) j.seeds.items (seen F.Look result.cache) j.chain) result.answer)) }
        ensures kept { length self.entry.kits ≡ 1 → OfTarget self.entry.task.listing self.entry.whole
            (λ old f. IfOk result.answer (λ r. Quiet f (T.faults result.target) → IfSome old.bytes (λ o. r.kept ≡
            right_below self.entry.task.listing (resized o (image_length self.entry.task.listing))
            (count_of self.entry.task.listing)))) }
        ensures faults { length self.entry.kits ≡ 1 → self.entry.whole.faults ≤ T.faults result.target }

        // With any number of kits.
        ensures kits { OfTargetWith (length self.entry.kits) self.entry.task.listing self.entry.whole
            (λ old f. IsAssembledBy S.Store V.View self.entry.task T.never_fails F.never_fails old.bytes
            (T.held result.target).bytes
            (lent f self.entry.kits (seen F.Look cache))
            (lent (T.faults result.target) result.kits.items (seen F.Look result.cache)) result.answer) }
        ensures report { IfOk result.answer
            (λ r. r.kept + r.copied + r.seeded + r.cached + r.fetched ≡ count_of self.entry.task.listing) }
        ensures memory { result.answer ≡ Err ExtractFault.Memory → MayLack S.Store (seen F.Look cache) }
        ensures only { S.may_lack_memory ≡ false → cache ≡ None → result.answer ≢ Err ExtractFault.Memory }
        ensures size { (length result.kits.items ≡ length self.entry.kits)
            × ((T.held result.target).size ≡ image_length self.entry.task.listing) }
        ensures name { (T.held result.target).name ≡ self.entry.whole.held.name }
        ensures before { self.entry.whole.faults_before ≤ T.faults result.target }
    {
        let Prepared {
            index,
            places,
            plan,
            tried,
            shards,
            mut kits,
            rooms,
        } = self;
        let wants = Wants {
            index,
            plan: &plan,
            places,
        };
        if let Some(rooms) = rooms {
            let workers = Workers { kits, rooms };
            return run_workers::<W, R, N, T, S, V, F>(
                rt, index, &wants, tried, shards, workers, cache,
            );
        }
        let Some(kit) = kits.pop() else {
            unreachable!();
        };
        let Ended {
            target,
            kit,
            cache,
            answer,
        } = run_surveyed(&wants, tried, shards, kit, cache);
        let Ok(()) = kits.push(kit) else {
            unreachable!();
        };
        Assembled {
            target,
            kits,
            cache,
            answer,
        }
    }
}
