//! What an extraction holds while it runs: its stores in order, the folder of its cache, the images of its seeds, and
//! the kits of its further workers.

ghost use Rattle.std.specs.Prelude.{◌≡◌, ℕ, List, ◌<◌, ◌≤◌, IfErr, IfOk, Ok, Err, length, vec_capacity, vec_len};
ghost use Rattle.command_groups.specs.Groups.{AreGroups};
ghost use Rattle.command_steps.specs.Sources.{storage};
ghost use Rattle.command_steps.specs.Uses.{Uses};
ghost use Rattle.command_worlds.specs.Worlds.{Reads};
ghost use Rattle.extract_command.specs.Extract.{folders_reached};
ghost use Rattle.extract_command.specs.Held.{AllReached, CanBeGiven, HasNames, IsGivenBack, JustReached, disk_with};
ghost use Rattle.extract_command.specs.Held.{groups_of};
ghost use Rattle.extract_command.specs.Kits.{StandsFirst};

use crate::cache::{give_cache, take_cache};
use crate::kits::{close_kits, drop_kits};
use crate::stores::Stores;
use cache_store::shelf::CacheShelf;
use chunk_sources::kit::Kit;
use chunk_store::id::DigestKind;
use command_groups::groups::{close_groups, drop_groups, open_groups};
use command_outcome::outcome::Outcome;
use command_steps::any_store::AnyStore;
use command_steps::seeds::close_seeds;
use dsy_base::dial::Dial;
use dsy_base::files::Files;
use dsy_base::folder::Folder;
use dsy_base::look::Look;
use dsy_base::name::Name;
use dsy_base::view::View;
use extract_plan::seed::Seed;
use std::alloc::Global;
use store_chain::chain::Chain;
use store_group::group::Group;

/// What an extraction holds. The cache is named by its folder, where there is one. Stores and seeds are those of the
/// first worker, which aren't among the kits: these are the further workers', with room for the first one's.
#[derive(Drop)]
pub struct Held<L: Look, W: Folder, V: View, D: Dial> {
    pub stores: Vec<Group<AnyStore<L, D>>>,
    pub cache: Option<Name>,
    pub shelf: Option<CacheShelf<W>>,
    pub seeds: Vec<Seed<V>>,
    pub kits: Vec<Kit<Group<AnyStore<L, D>>, V>>,
}

/// Opens the stores in their order, and takes the folder of the cache, where there is one, whose chunks are named by
/// this digest. No seed is open yet, and no kit. There is room for `workers` kits.
pub fn reach<F: Files, D: Dial>(
    alloc: Global,
    files: &mut F,
    dial: &D,
    kind: DigestKind,
    stores: &Stores,
    cache: Option<Name>,
    workers: usize,
) -> Result<Held<F::Look, F::Folder, F::View, D>, Outcome>
    requires size { AreGroups stores.now.groups stores.now.retries }
    ensures ok { IfOk result (λ h. AllReached stores.now.groups cache (F.disk files.old) (Ok tt)
        (disk_with F.Folder.Look h (F.disk files.new))) }
    ensures located { IfOk result (λ h. groups_of F.Look.Look h ≡ stores.now.groups) }
    ensures named { IfOk result (λ h. h.cache ≡ cache) }
    ensures fresh { IfOk result (JustReached F.Look.Look F.Folder.Look F.View.View D.state (F.disk files.new)
        stores.now.retries workers kind) }
    ensures err { IfErr result (λ o. AllReached stores.now.groups cache (F.disk files.old) (Err o) (F.disk files.new)) }
{
    let Ok(kits) = Vec::with_capacity(alloc, workers) else {
        return Err(Outcome::Memory);
    };
    let groups = stores.groups.as_slice();
    let stores = match open_groups(alloc, files, dial, groups, stores.retries) {
        Ok(stores) => stores,
        Err(outcome) => return Err(outcome),
    };
    match take_cache(alloc, files, kind, &cache) {
        Ok(shelf) => Ok(Held {
            stores,
            cache,
            shelf,
            seeds: Vec::new(alloc),
            kits,
        }),
        Err(outcome) => {
            drop_groups(files, stores);
            Err(outcome)
        }
    }
}

/// The kits of all workers, the first one's first, whose chunks are named by this digest, and the shelf of the cache
/// with its name.
pub fn into_kits<L: Look, W: Folder, V: View, D: Dial>(
    alloc: Global,
    kind: DigestKind,
    held: Held<L, W, V, D>,
) -> (
    Vec<Kit<Group<AnyStore<L, D>>, V>>,
    Option<Name>,
    Option<CacheShelf<W>>,
)
    requires size { (1 ≤ length held.stores.items) × (length held.stores.items ≤ 16) }
    requires room { vec_len held.kits < vec_capacity held.kits }
    ensures kits { (f : StandsFirst held.stores.items held.seeds.items result.0.items held.kits.items)
        × (f.kit.chain.kind ≡ kind) }
    ensures cache { result.1 ≡ held.cache }
    ensures shelf { result.2 ≡ held.shelf }
{
    let Held {
        stores,
        cache,
        shelf,
        seeds,
        mut kits,
    } = held;
    let kit = Kit::new(alloc, Chain::with_kind(kind, stores), seeds);
    kits.insert(0, kit).unwrap();
    (kits, cache, shelf)
}

/// What is held of them again.
pub fn of_kits<L: Look, W: Folder, V: View, D: Dial>(
    mut kits: Vec<Kit<Group<AnyStore<L, D>>, V>>,
    cache: Option<Name>,
    shelf: Option<CacheShelf<W>>,
) -> Held<L, W, V, D>
    requires some { 1 ≤ vec_len kits }
    ensures kits { StandsFirst result.stores.items result.seeds.items kits.items result.kits.items }
    ensures cache { result.cache ≡ cache }
    ensures shelf { result.shelf ≡ shelf }
{
    let Kit { chain, seeds, .. } = kits.remove(0);
    Held {
        stores: chain.into_stores(),
        cache,
        shelf,
        seeds,
        kits,
    }
}

/// Gives all of it back where no store was asked.
pub fn let_go<F: Files, D: Dial>(files: &mut F, held: Held<F::Look, F::Folder, F::View, D>)
    requires given { CanBeGiven F.Look.Look F.Folder.Look F.View.View (F.disk files.old) held }
    ensures kept { Reads (disk_with F.Folder.Look held (F.disk files.old)) (F.disk files.new) }
    ensures used { (images : List (List ℕ)) → HasNames F.Look.Look F.View.View images held →
        Uses images (folders_reached held.cache (groups_of F.Look.Look held)) (F.disk files.old) (F.disk files.new) }
{
    let Held {
        stores,
        cache,
        shelf,
        seeds,
        kits,
    } = held;
    drop_kits(files, kits);
    give_cache(files, &cache, shelf);
    drop_groups(files, stores);
    close_seeds(files, seeds)
}

/// Gives all of it back, and joins what servers' stores have dialed.
pub fn give_back<F: Files, D: Dial>(
    files: &mut F,
    dial: &mut D,
    held: Held<F::Look, F::Folder, F::View, D>,
)
    requires given { CanBeGiven F.Look.Look F.Folder.Look F.View.View (F.disk files.old) held }
    ensures given { IsGivenBack F.Look.Look F.Folder.Look F.View.View D.state held
        (storage (F.disk files.old) (D.state dial.old)) (storage (F.disk files.new) (D.state dial.new)) }
{
    let Held {
        stores,
        cache,
        shelf,
        seeds,
        kits,
    } = held;
    close_kits(files, dial, kits);
    give_cache(files, &cache, shelf);
    close_groups(files, dial, stores);
    close_seeds(files, seeds)
}
