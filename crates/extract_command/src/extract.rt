//! `extract [-k] -s STORE.. -e N -c FOLDER --seed INDEX.. INDEX OUT`: OUT becomes the image that INDEX lists, with
//! chunks from up to 64 seeds, from a cache and from 1 to 16 stores, which stand in groups.

ghost use Rattle.std.specs.Prelude.{◌≡◌, ◌≢◌, ℕ, List, ◌∷◌, ◌<◌, ◌≤◌, ◌^◌, map, IfOk, IsSome, length, is_some};
ghost use Rattle.std.specs.Prelude.{string_bytes, true, false};
ghost use Rattle.caibx_codec.specs.Listing.{Listing, kind_of};
ghost use Rattle.command_groups.specs.Groups.{AreGroups, stores_of};
ghost use Rattle.command_steps.specs.Seeds.{image_name};
ghost use Rattle.command_steps.specs.Sources.{DialsStores, storage};
ghost use Rattle.command_steps.specs.Uses.{Uses};
ghost use Rattle.command_words.specs.Locations.{NamesIndex};
ghost use Rattle.command_worlds.specs.Worlds.{world};
ghost use Rattle.extract_command.specs.Extract.{Assembled, ClearedAfter, ExtractEnds, FillsCache, IsNoFile};
ghost use Rattle.extract_command.specs.Extract.{IsCounted, OutMade, Renamed, answer_of_assembly, answer_of_taking};
ghost use Rattle.extract_command.specs.Extract.{GetsWants, extract_stores, folders_reached, never_fail, temporary_out};
ghost use Rattle.extract_command.specs.Held.{JustReached, disk_with, groups_of};
ghost use Rattle.dsy_base.specs.Disk.{Output};
ghost use Rattle.extract_plan.specs.Deal.{Deal, IsPlan};
ghost use Rattle.extract_plan.specs.Places.{IsSeedIndex, PlacesKnown, items_of, seed_item_limit};

use crate::held::{Held, give_back, into_kits, let_go, of_kits, reach};
use crate::kits::open_kits;
use crate::stores::Stores;
use assembler::fault::ExtractFault;
use caibx_codec::index::Index;
use command_groups::numbers::numbered;
use command_indexes::load::load_index;
use command_outcome::outcome::Outcome;
use command_steps::seeds::{open_seeds, read_indexes};
use command_words::command::{Groups, Names};
use dsy_base::dial::Dial;
use dsy_base::fault::{IoFault, Memory, OpenFault};
use dsy_base::files::Files;
use dsy_base::folder::Folder;
use dsy_base::look::Look;
use dsy_base::name::Name;
use dsy_base::view::Target;
use extract_plan::plan::Plan;
use extract_plan::seeds::SeedIndex;
use image_assembly::assemble::assemble;
use image_assembly::room::workers_with_room;
use range_survey::report::Report;
use std::alloc::{AllocError, Global};
use std::sync::Wait;
use std::thread::Threads;

/// The words of an `extract`. The cache and the seeds may be absent.
#[derive(Drop)]
pub struct Extraction {
    pub stores: Groups,
    /// How often a call on a store that fails is made again: 0 to 16.
    pub retries: u32,
    pub cache: Option<Name>,
    /// The names of the seeds' indexes.
    pub seeds: Names,
    pub in_place: bool,
    /// How many workers fill OUT: 1 to 32, and what is beyond that counts as the nearer of the two.
    pub workers: usize,
    pub index: Name,
    pub target: Name,
}

// The greatest number of workers that an index is dealt to.
const MOST_WORKERS: usize = 32;

// What is to be assembled: an index, the names of the seeds' indexes, where these list its chunks, by its plan for one
// worker, and by how many workers, with which stores.
#[derive(Drop)]
struct Planned {
    alloc: Global,
    index: Index,
    seeds: Names,
    places: SeedIndex,
    stores: Stores,
    workers: usize,
}

// How many workers go.
fn worker_count(workers: usize) -> usize
    ensures { (1 ≤ result) × (result ≤ 32) }
{
    workers.clamp(1, MOST_WORKERS)
}

// The answer of an assembly.
fn answer_of(ended: Result<Report, ExtractFault>) -> Result<(), Outcome>
    ensures { result ≡ answer_of_assembly ended }
{
    match ended {
        Ok(_) => Ok(()),
        Err(ExtractFault::Missing { entry, id }) => Err(Outcome::Missing { entry, id }),
        Err(
            ExtractFault::Damaged {
                entry,
                id,
                store,
                shows,
            },
        ) => Err(Outcome::Damaged {
            entry,
            id,
            store,
            shows,
        }),
        Err(ExtractFault::StoreFault { store }) => Err(Outcome::StoreFault { store }),
        Err(ExtractFault::TargetFault) => Err(Outcome::TargetFault),
        Err(ExtractFault::Memory) => Err(Outcome::Memory),
    }
}

// The answer where OUT can't be taken.
fn not_taken(fault: IoFault) -> Result<(), Outcome>
    ensures { result ≡ answer_of_taking fault }
{
    match fault {
        IoFault::Failed => Err(Outcome::TargetFault),
        IoFault::Memory => Err(Outcome::Memory),
    }
}

// The plan of an extraction with these seeds.
fn plan_of(
    alloc: Global,
    index: Index,
    seeds: Names,
    indexes: Vec<Index>,
    stores: Stores,
    workers: usize,
) -> Result<Planned, Memory>
    requires few { length indexes.items < 2 ^ 32 }
    requires items { items_of indexes.items ≤ seed_item_limit }
    ensures index { IfOk result (λ p. p.index ≡ index) }
    ensures seeds { IfOk result (λ p. p.seeds ≡ seeds) }
    ensures stores { IfOk result (λ p. p.stores ≡ stores) }
    ensures size { IfOk result (λ p. p.workers ≡ workers) }
    ensures plan { IfOk result (λ p. (d : Deal) × IsPlan index 1 d × IsSeedIndex index d indexes.items p.places
        × PlacesKnown index d p.places (length indexes.items)) }
{
    let plan = Plan::of(alloc, &index, 1)?;
    match SeedIndex::of(alloc, &plan, &index, &indexes) {
        Ok(places) => Ok(Planned {
            alloc,
            index,
            seeds,
            places,
            stores,
            workers,
        }),
        // The seeds list no more items than they may, so it is for want of memory.
        Err(_) => Err(Memory),
    }
}

// Makes the file the image, and gives back what is held whatever the answer is. It begins with no bytes where `fresh`
// is true.
fn assemble_into<R: Threads + Wait + Sync, F: Files, D: Dial + Send>(
    rt: &R,
    files: &mut F,
    dial: &mut D,
    planned: &Planned,
    mut held: Held<F::Look, F::Folder, F::View, D>,
    target: &str,
    fresh: bool,
) -> Result<(), Outcome>
where
    F::View: Send,
    F::Look: Send,
    F::Folder: Send + Sync,
    <F::Target as Target>::Piece: Send,
    D::Link: Send,
    requires plan { (d : Deal) × IsPlan planned.now.index 1 d
        × PlacesKnown planned.now.index d planned.now.places (length planned.now.seeds) }
    requires size { AreGroups planned.now.stores.groups planned.now.stores.retries }
    requires located { groups_of F.Look.Look held ≡ planned.now.stores.groups }
    requires workers { (1 ≤ planned.now.workers) × (planned.now.workers ≤ 32) }
    requires held { JustReached F.Look.Look F.Folder.Look F.View.View D.state (F.disk files.old)
        planned.now.stores.retries planned.now.workers (kind_of planned.now.index) held }
    ensures assembled { (d : Deal) (ls : List Listing) → IsPlan planned.now.index 1 d →
        IsSeedIndex planned.now.index d ls planned.now.places →
        Assembled (storage (disk_with F.Folder.Look held (F.disk files.old)) (D.state dial.old))
        (storage (F.disk files.new) (D.state dial.new)) (extract_stores F.Look.never_fails planned.now.stores)
        held.cache (record { name = target.now; fresh = fresh }) planned.now.index
        (record { images = map image_name planned.now.seeds; listings = ls }) result }
    ensures kept { FillsCache (extract_stores F.Look.never_fails planned.now.stores) held.cache planned.now.index
        (disk_with F.Folder.Look held (F.disk files.old)) (F.disk files.new) }
    ensures tells { is_some (F.disk files.new).files ≡ is_some (F.disk files.old).files }
    ensures dialed { DialsStores (stores_of planned.now.stores.groups) (D.state dial.old) (D.state dial.new) }
    ensures used { Uses (target.now ∷ map image_name planned.now.seeds)
        (folders_reached held.cache planned.now.stores.groups) (disk_with F.Folder.Look held (F.disk files.old))
        (F.disk files.new) }
    ensures numbered { IsCounted target.now (F.disk files.old) result (F.disk files.new) }
    ensures asks { (d : Deal) (ls : List Listing) → IsPlan planned.now.index 1 d →
        IsSeedIndex planned.now.index d ls planned.now.places →
        GetsWants (never_fail F.Target.never_fails F.Folder.never_fails)
        (storage (disk_with F.Folder.Look held (F.disk files.old)) (D.state dial.old))
        (storage (F.disk files.new) (D.state dial.new)) (extract_stores F.Look.never_fails planned.now.stores)
        held.cache (record { name = target.now; fresh = fresh }) planned.now.index
        (record { images = map image_name planned.now.seeds; listings = ls }) }
{
    let alloc = planned.alloc;
    let names = planned.seeds.as_slice();
    let Ok(seeds) = open_seeds(alloc, files, names) else {
        let_go(files, held);
        return Err(Outcome::Memory);
    };
    held.seeds = seeds;
    let stores = &planned.stores;
    let workers = workers_with_room(alloc, &planned.index, planned.workers);
    let kind = planned.index.kind();
    let kits = &mut held.kits;
    open_kits(files, dial, kind, stores, names, workers, kits);
    let taken = match files.take(target, fresh) {
        Ok(taken) => taken,
        Err(fault) => {
            let_go(files, held);
            return not_taken(fault);
        }
    };
    let (kits, cache, shelf) = into_kits(alloc, kind, held);
    let index = &planned.index;
    let ended = assemble(rt, alloc, index, &planned.places, taken, kits, shelf);
    let held = of_kits(ended.kits, cache, ended.cache);
    let groups = stores.groups.as_slice();
    let answer = numbered(groups, answer_of(ended.answer));
    give_back(files, dial, held);
    files.give(target, ended.target);
    answer
}

// The name of the temporary file beside OUT.
fn temporary_out(alloc: Global, target: &str) -> Result<String, AllocError>
    ensures { IfOk result (λ t. string_bytes t ≡ temporary_out target.now) }
{
    let mut name = String::from_str(alloc, target)?;
    name.push_str(".tmp-desync")?;
    Ok(name)
}

// Removes the file after a refusal. A fault of that is passed over. Memory lacks only where the file was never taken.
fn clear<F: Files>(files: &mut F, name: &str, answer: Result<(), Outcome>) -> Result<(), Outcome>
    ensures { ClearedAfter name.now (F.disk files.old) answer result (F.disk files.new) }
{
    let Err(outcome) = answer else {
        return Ok(());
    };
    match files.remove(name) {
        Ok(()) | Err(_) => Err(outcome),
    }
}

// The outcome where the file isn't there.
fn no_file(alloc: Global, name: &str) -> Outcome
    ensures { IsNoFile name.now result }
{
    match Name::of(alloc, name) {
        Ok(name) => Outcome::NoFile { name },
        Err(_) => Outcome::Memory,
    }
}

// Gives the temporary file OUT's name.
fn rename<F: Files>(alloc: Global, files: &mut F, from: &str, to: Name) -> Result<(), Outcome>
    requires { from.now ≢ to }
    ensures { Renamed from.now to (F.disk files.old) result (F.disk files.new) }
{
    match files.rename(from, to.as_str()) {
        Ok(()) => Ok(()),
        Err(OpenFault::Absent) => Err(no_file(alloc, from)),
        Err(OpenFault::Failed) => Err(Outcome::FileFault { name: to }),
        Err(OpenFault::Memory) => Err(Outcome::Memory),
    }
}

// Makes the temporary file the image, which then takes OUT's name.
fn assemble_beside<R: Threads + Wait + Sync, F: Files, D: Dial + Send>(
    rt: &R,
    files: &mut F,
    dial: &mut D,
    planned: &Planned,
    held: Held<F::Look, F::Folder, F::View, D>,
    temporary: &str,
    target: Name,
) -> Result<(), Outcome>
where
    F::View: Send,
    F::Look: Send,
    F::Folder: Send + Sync,
    <F::Target as Target>::Piece: Send,
    D::Link: Send,
    requires plan { (d : Deal) × IsPlan planned.now.index 1 d
        × PlacesKnown planned.now.index d planned.now.places (length planned.now.seeds) }
    requires size { AreGroups planned.now.stores.groups planned.now.stores.retries }
    requires located { groups_of F.Look.Look held ≡ planned.now.stores.groups }
    requires workers { (1 ≤ planned.now.workers) × (planned.now.workers ≤ 32) }
    requires held { JustReached F.Look.Look F.Folder.Look F.View.View D.state (F.disk files.old)
        planned.now.stores.retries planned.now.workers (kind_of planned.now.index) held }
    requires named { temporary.now ≡ temporary_out target }
    ensures made { (d : Deal) (ls : List Listing) (p : Output) → IsPlan planned.now.index 1 d →
        IsSeedIndex planned.now.index d ls planned.now.places → OutMade
        (never_fail F.Target.never_fails F.Folder.never_fails) false
        (extract_stores F.Look.never_fails planned.now.stores) held.cache target planned.now.index
        (record { images = map image_name planned.now.seeds; listings = ls })
        (world (disk_with F.Folder.Look held (F.disk files.old)) (D.state dial.old) p) result
        (world (F.disk files.new) (D.state dial.new) p) }
{
    let made = assemble_into(rt, files, dial, planned, held, temporary, true);
    clear(files, temporary, made)?;
    let renamed = rename(planned.alloc, files, temporary, target);
    clear(files, temporary, renamed)
}

/// Makes OUT the image that INDEX lists: in its place, where what it holds already is kept where it is right; or by way
/// of a temporary file, which takes OUT's name when it is the image. Chunks come from the images of the seeds, else
/// from the cache, and else from the stores, whose groups are asked in order. A call on a store that fails is made up
/// to `retries` times more, and then on the next store of its group. What a store gave is added to the cache. Each
/// worker has stores and seeds of its own; where they can't be opened again, or there is no memory for as many workers,
/// there are fewer.
pub fn extract<R: Threads + Wait + Sync, F: Files, D: Dial + Send>(
    rt: &R,
    alloc: Global,
    files: &mut F,
    dial: &mut D,
    words: Extraction,
) -> Result<(), Outcome>
where
    F::View: Send,
    F::Look: Send,
    F::Folder: Send + Sync,
    <F::Target as Target>::Piece: Send,
    D::Link: Send,
    requires stores { AreGroups words.stores words.retries }
    requires seeds { length words.seeds ≤ 64 }
    requires named { NamesIndex words.index }
    ensures ends { (p : Output) → ExtractEnds
        (never_fail F.Target.never_fails F.Folder.never_fails)
        (record { groups = words.stores; retries = words.retries; sure = F.Look.never_fails }) words.cache words.seeds
        words.in_place words.index words.target (world (F.disk files.old) (D.state dial.old) p) result
        (world (F.disk files.new) (D.state dial.new) p) }
{
    let Extraction {
        stores,
        retries,
        cache,
        seeds,
        in_place,
        workers,
        index,
        target,
    } = words;
    let workers = worker_count(workers);
    let stores = Stores {
        groups: stores,
        retries,
    };
    let listed = load_index(alloc, files, dial, index)?;
    let indexes = read_indexes(alloc, files, seeds.as_slice())?;
    let Ok(planned) = plan_of(alloc, listed, seeds, indexes, stores, workers) else {
        return Err(Outcome::Memory);
    };
    let Ok(temporary) = temporary_out(alloc, target.as_str()) else {
        return Err(Outcome::Memory);
    };
    let stores = &planned.stores;
    let kind = planned.index.kind();
    let held = match reach(alloc, files, dial, kind, stores, cache, workers) {
        Ok(held) => held,
        Err(outcome) => return Err(outcome),
    };
    if in_place {
        assemble_into(rt, files, dial, &planned, held, target.as_str(), false)
    } else {
        assemble_beside(rt, files, dial, &planned, held, &temporary, target)
    }
}
