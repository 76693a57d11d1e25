//! Seeds: other images at hand, each named by its index. The index `X.caibx` is that of the image X.

ghost use Rattle.std.specs.Prelude.{◌≡◌, ℕ, ◌≤◌, ◌+◌, List, ◌∷◌, [], ◌++◌, map};
ghost use Rattle.std.specs.Prelude.{IfSome, IfOk, IfErr, IsSome, OnErr, OnOk};
ghost use Rattle.std.specs.List.{All, AllZip};
ghost use Rattle.std.specs.Map.{count_at};
ghost use Rattle.caibx_codec.specs.Listing.{Listing, count_of};
ghost use Rattle.command_steps.specs.InputFiles.{Listed};
ghost use Rattle.command_steps.specs.Seeds.{AllListed, CountedWith, IsSeedAt, IsViewed, NoneListed, OpensSeeds};
ghost use Rattle.command_steps.specs.Seeds.{SeedsKnown, image_name, items_with, label_in};
ghost use Rattle.command_steps.specs.Uses.{IsNoneOf, Uses, names_among};
ghost use Rattle.command_worlds.specs.Worlds.{Reads};
ghost use Rattle.dsy_base.specs.Counts.{raised};
ghost use Rattle.extract_plan.specs.Places.{items_of, seed_item_limit};
ghost use Rattle.extract_plan.specs.Seeds.{faults_in, seed_held};

use crate::input_files::load_index_file;
use caibx_codec::index::Index;
use command_outcome::outcome::Outcome;
use dsy_base::fault::{Memory, OpenFault};
use dsy_base::files::Files;
use dsy_base::name::Name;
use dsy_base::view::View;
use extract_plan::seed::Seed;
use extract_plan::seeds::SEED_ITEM_LIMIT;
use std::alloc::Global;

/// The name of the image whose index has this name: that without `.caibx`.
pub fn image_name(index: &str) -> &str
    ensures { result.now ≡ image_name index.now }
{
    match index.strip_suffix(".caibx") {
        Some(image) => image,
        None => index,
    }
}

/// Puts an index to others, which list this many items. Answers how many they list with it, unless these are more than
/// 2^23.
pub fn add_index(index: Index, items: usize, indexes: &mut Vec<Index>) -> Result<usize, Outcome>
    requires { items ≤ seed_item_limit }
    ensures counted { CountedWith items index result }
    ensures added { OnOk result (indexes.new.items ≡ indexes.old.items ++ index ∷ []) }
{
    index.rules();
    let items = items + index.count();
    if items > SEED_ITEM_LIMIT {
        return Err(Outcome::TooManyItems);
    }
    match indexes.push(index) {
        Ok(()) => Ok(items),
        Err(_) => Err(Outcome::Memory),
    }
}

// Reads the rest of the indexes. So many items are listed beside them.
fn read_each<F: Files>(
    alloc: Global,
    files: &mut F,
    names: &[Name],
    items: usize,
    indexes: &mut Vec<Index>,
) -> Result<(), Outcome>
    requires few { items ≤ seed_item_limit }
    ensures ok { OnOk result ((ls : List Listing) × AllListed (F.disk files.old) names.now ls
        × (items_with items ls ≤ seed_item_limit) × (indexes.new.items ≡ indexes.old.items ++ ls)) }
    ensures err { IfErr result (NoneListed (F.disk files.old) (F.disk files.new) items names.now) }
    ensures kept { Reads (F.disk files.old) (F.disk files.new) }
    ensures used { Uses names.now [] (F.disk files.old) (F.disk files.new) }
{
    let Some((first, rest)) = names.split_first() else {
        return Ok(());
    };
    let Ok(name) = Name::of(alloc, first.as_str()) else {
        return Err(Outcome::Memory);
    };
    let index = load_index_file(alloc, files, name)?;
    let items = add_index(index, items, indexes)?;
    read_each(alloc, files, rest, items, indexes)
}

/// Reads the indexes of these names in their order, up to the first that can't be read, or with which they list more
/// than 2^23 items together.
pub fn read_indexes<F: Files>(
    alloc: Global,
    files: &mut F,
    names: &[Name],
) -> Result<Vec<Index>, Outcome>
    ensures ok { IfOk result (λ v. AllListed (F.disk files.old) names.now v.items) }
    ensures few { IfOk result (λ v. items_of v.items ≤ seed_item_limit) }
    ensures err { IfErr result (NoneListed (F.disk files.old) (F.disk files.new) 0 names.now) }
    ensures kept { Reads (F.disk files.old) (F.disk files.new) }
    ensures used { Uses names.now [] (F.disk files.old) (F.disk files.new) }
{
    let mut indexes = Vec::new(alloc);
    read_each(alloc, files, names, 0, &mut indexes)?;
    Ok(indexes)
}

// Opens one image. A seed has no view where the file isn't there, or where opening it fails.
fn open<F: Files>(files: &mut F, image: &str) -> Result<Seed<F::View>, Memory>
    ensures ok { IfOk result (IsSeedAt F.View.held F.View.faults (F.disk files.old) (F.disk files.new) image.now) }
    ensures known { IfOk result
        (λ s. IfSome s.view (λ v. IsSome ((F.disk files.new).file_counts (F.View.held v).name))) }
    ensures kept { Reads (F.disk files.old) (F.disk files.new) }
    ensures used { Uses (image.now ∷ []) [] (F.disk files.old) (F.disk files.new) }
{
    match files.view(image) {
        Ok(view) => Ok(Seed { view: Some(view) }),
        Err(OpenFault::Absent) | Err(OpenFault::Failed) => Ok(Seed { view: None }),
        Err(OpenFault::Memory) => Err(Memory),
    }
}

// Gives one back.
fn close<F: Files>(files: &mut F, seed: Seed<F::View>)
    requires known { IfSome seed.view (λ v. IsSome ((F.disk files.old).file_counts (F.View.held v).name)) }
    ensures kept { Reads (F.disk files.old) (F.disk files.new) }
    ensures used { Uses (names_among (seed_held F.View.held seed ∷ [])) [] (F.disk files.old) (F.disk files.new) }
    ensures counts { (F.disk files.new).folder_counts ≡ (F.disk files.old).folder_counts }
    ensures added { raised (count_at (F.disk files.old).file_counts (label_in F.View.held seed))
        (faults_in F.View.faults seed) ≤ count_at (F.disk files.new).file_counts (label_in F.View.held seed) }
{
    match seed.view {
        Some(view) => files.end_view(view),
        None => (),
    }
}

// Appends the seed, or gives it back.
fn keep<F: Files>(
    files: &mut F,
    seed: Seed<F::View>,
    seeds: &mut Vec<Seed<F::View>>,
) -> Result<(), Memory>
    requires known { IfSome seed.view (λ v. IsSome ((F.disk files.old).file_counts (F.View.held v).name)) }
    ensures ok { OnOk result (seeds.new.items ≡ seeds.old.items ++ seed ∷ []) }
    ensures err { OnErr result (seeds.new.items ≡ seeds.old.items) }
    ensures kept { Reads (F.disk files.old) (F.disk files.new) }
    ensures used { Uses (names_among (seed_held F.View.held seed ∷ [])) [] (F.disk files.old) (F.disk files.new) }
{
    match seeds.push(seed) {
        Ok(()) => Ok(()),
        Err(full) => {
            close(files, full.value);
            Err(Memory)
        }
    }
}

// Opens the rest of them.
fn open_each<F: Files>(
    files: &mut F,
    indexes: &[Name],
    seeds: &mut Vec<Seed<F::View>>,
) -> Result<(), Memory>
    requires known { SeedsKnown F.View.held (F.disk files.old).file_counts seeds.old.items }
    ensures ok { OnOk result (OpensSeeds F.View.held F.View.faults (F.disk files.old) (F.disk files.new)
        (map image_name indexes.now) seeds.old.items seeds.new.items) }
    ensures known { SeedsKnown F.View.held (F.disk files.new).file_counts seeds.new.items }
    ensures kept { Reads (F.disk files.old) (F.disk files.new) }
    ensures used { Uses (map image_name indexes.now) [] (F.disk files.old) (F.disk files.new) }
    ensures among { (q : List ℕ) → IsNoneOf q (names_among (map (seed_held F.View.held) seeds.old.items)) →
        IsNoneOf q (map image_name indexes.now) →
        IsNoneOf q (names_among (map (seed_held F.View.held) seeds.new.items)) }
{
    let Some((first, rest)) = indexes.split_first() else {
        return Ok(());
    };
    let seed = open(files, image_name(first.as_str()))?;
    keep(files, seed, seeds)?;
    open_each(files, rest, seeds)
}

/// Opens the images of these indexes in their order. An image that isn't there, or that can't be opened, is a seed with
/// no view. Where there is no memory, those that were opened are given back.
pub fn open_seeds<F: Files>(
    alloc: Global,
    files: &mut F,
    indexes: &[Name],
) -> Result<Vec<Seed<F::View>>, Memory>
    ensures found { IfOk result (λ v. AllZip (IsViewed (F.disk files.old) (F.disk files.new))
        (map image_name indexes.now) (map (seed_held F.View.held) v.items)) }
    ensures fresh { IfOk result (λ v. map (faults_in F.View.faults) v.items ≡ map (λ s. 0) v.items) }
    ensures known { IfOk result (λ v. SeedsKnown F.View.held (F.disk files.new).file_counts v.items) }
    ensures kept { Reads (F.disk files.old) (F.disk files.new) }
    ensures used { Uses (map image_name indexes.now) [] (F.disk files.old) (F.disk files.new) }
{
    let mut seeds = Vec::new(alloc);
    match open_each(files, indexes, &mut seeds) {
        Ok(()) => Ok(seeds),
        Err(Memory) => {
            close_seeds(files, seeds);
            Err(Memory)
        }
    }
}

/// Gives all of them back.
pub fn close_seeds<F: Files>(files: &mut F, mut seeds: Vec<Seed<F::View>>)
    requires known { SeedsKnown F.View.held (F.disk files.old).file_counts seeds.items }
    ensures kept { Reads (F.disk files.old) (F.disk files.new) }
    ensures used { Uses (names_among (map (seed_held F.View.held) seeds.items)) [] (F.disk files.old)
        (F.disk files.new) }
    ensures counts { (F.disk files.new).folder_counts ≡ (F.disk files.old).folder_counts }
    // What each has counted is added to the number of its name, at the least.
    ensures added { All (λ s. raised (count_at (F.disk files.old).file_counts (label_in F.View.held s))
        (faults_in F.View.faults s)
        ≤ count_at (F.disk files.new).file_counts (label_in F.View.held s)) seeds.items }
{
    match seeds.pop() {
        Some(seed) => {
            close(files, seed);
            close_seeds(files, seeds)
        }
        None => (),
    }
}
