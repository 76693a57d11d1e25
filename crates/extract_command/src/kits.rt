//! The kits of the further workers of an extraction: stores and seeds of their own, opened like those of the first one.

ghost use Rattle.std.specs.Prelude.{◌≡◌, ℕ, List, ◌+◌, ◌<◌, ◌≤◌, All, IfSome, length, map, max, vec_capacity, vec_len};
ghost use Rattle.command_groups.specs.Groups.{AreGroups, stores_of};
ghost use Rattle.command_steps.specs.Seeds.{image_name};
ghost use Rattle.command_steps.specs.Sources.{storage};
ghost use Rattle.command_steps.specs.Uses.{Uses, folders_among};
ghost use Rattle.command_worlds.specs.Worlds.{Reads};
ghost use Rattle.extract_command.specs.Kits.{AreGivenBack, AreOpened, CanGiveKit, IsKitGiven, IsKitOpened, UsesNames};
ghost use Rattle.extract_command.specs.Kits.{kit_names, kit_stores};

use crate::stores::Stores;
use chunk_sources::kit::Kit;
use chunk_store::id::DigestKind;
use command_groups::groups::{close_groups, drop_groups, open_groups};
use command_steps::any_store::AnyStore;
use command_steps::seeds::{close_seeds, open_seeds};
use dsy_base::dial::Dial;
use dsy_base::files::Files;
use dsy_base::name::Name;
use std::alloc::Global;
use store_chain::chain::Chain;
use store_group::group::Group;

// Opens the stores and the seeds of one kit, whose chunks are named by this digest, or lets go of what was opened.
fn open_kit<F: Files, D: Dial>(
    alloc: Global,
    files: &mut F,
    dial: &D,
    kind: DigestKind,
    stores: &Stores,
    seeds: &[Name],
) -> Option<Kit<Group<AnyStore<F::Look, D>>, F::View>>
    requires size { AreGroups stores.now.groups stores.now.retries }
    ensures some { IfSome result (IsKitOpened F.Look.Look F.View.View D.state (F.disk files.old) (F.disk files.new)
        stores.now (map image_name seeds.now)) }
    ensures kind { IfSome result (λ k. k.chain.kind ≡ kind) }
    ensures kept { Reads (F.disk files.old) (F.disk files.new) }
    ensures used { Uses (map image_name seeds.now) (folders_among (stores_of stores.now.groups)) (F.disk files.old)
        (F.disk files.new) }
{
    let groups = stores.groups.as_slice();
    let Ok(stores) = open_groups(alloc, files, dial, groups, stores.retries) else {
        return None;
    };
    match open_seeds(alloc, files, seeds) {
        Ok(seeds) => Some(Kit::new(alloc, Chain::with_kind(kind, stores), seeds)),
        Err(_) => {
            drop_groups(files, stores);
            None
        }
    }
}

/// Opens a kit for each worker but the first, whose kit isn't among them. Where one can't be opened, for whatever
/// reason, the extraction goes on without it, and no more are opened. All name chunks by this digest.
pub fn open_kits<F: Files, D: Dial>(
    files: &mut F,
    dial: &D,
    kind: DigestKind,
    stores: &Stores,
    seeds: &[Name],
    workers: usize,
    kits: &mut Vec<Kit<Group<AnyStore<F::Look, D>>, F::View>>,
)
    requires size { AreGroups stores.now.groups stores.now.retries }
    requires some { 1 ≤ workers }
    requires room { (vec_len kits.old ≡ 0) × (workers ≤ vec_capacity kits.old) }
    ensures opened { AreOpened F.Look.Look F.View.View D.state (F.disk files.old) (F.disk files.new) stores.now
        (map image_name seeds.now) kits.new.items }
    ensures kinds { All (λ k. k.chain.kind ≡ kind) kits.new.items }
    ensures few { vec_len kits.new + 1 ≤ workers }
    ensures room { vec_len kits.new + 1 ≤ vec_capacity kits.new }
    ensures kept { Reads (F.disk files.old) (F.disk files.new) }
    ensures used { Uses (map image_name seeds.now) (folders_among (stores_of stores.now.groups)) (F.disk files.old)
        (F.disk files.new) }
{
    let alloc = *kits.allocator();
    for _opened in 1..workers {
        let Some(kit) = open_kit(alloc, files, dial, kind, stores, seeds) else {
            return;
        };
        kits.push(kit).unwrap();
    }
}

// Gives one back, and joins what its servers' stores have dialed.
fn close_kit<F: Files, D: Dial>(
    files: &mut F,
    dial: &mut D,
    kit: Kit<Group<AnyStore<F::Look, D>>, F::View>,
)
    requires given { CanGiveKit F.Look.Look F.View.View (F.disk files.old) kit }
    ensures given { IsKitGiven F.Look.Look F.View.View D.state kit
        (storage (F.disk files.old) (D.state dial.old)) (storage (F.disk files.new) (D.state dial.new)) }
    ensures kept { Reads (F.disk files.old) (F.disk files.new) }
{
    let Kit { chain, seeds, .. } = kit;
    close_groups(files, dial, chain.into_stores());
    close_seeds(files, seeds)
}

/// Gives all of them back, the last first, and joins what their servers' stores have dialed.
pub fn close_kits<F: Files, D: Dial>(
    files: &mut F,
    dial: &mut D,
    mut kits: Vec<Kit<Group<AnyStore<F::Look, D>>, F::View>>,
)
    requires given { All (CanGiveKit F.Look.Look F.View.View (F.disk files.old)) kits.items }
    ensures given { AreGivenBack F.Look.Look F.View.View D.state kits.items
        (storage (F.disk files.old) (D.state dial.old)) (storage (F.disk files.new) (D.state dial.new)) }
{
    match kits.pop() {
        Some(kit) => {
            close_kit(files, dial, kit);
            close_kits(files, dial, kits)
        }
        None => (),
    }
}

// Lets one go that was never asked.
fn drop_kit<F: Files, D: Dial>(files: &mut F, kit: Kit<Group<AnyStore<F::Look, D>>, F::View>)
    requires given { CanGiveKit F.Look.Look F.View.View (F.disk files.old) kit }
    ensures kept { Reads (F.disk files.old) (F.disk files.new) }
    ensures used { Uses (kit_names F.Look.Look F.View.View kit) (folders_among (kit_stores F.Look.Look F.View.View kit))
        (F.disk files.old) (F.disk files.new) }
{
    let Kit { chain, seeds, .. } = kit;
    drop_groups(files, chain.into_stores());
    close_seeds(files, seeds)
}

/// Lets all of them go that were never asked.
pub fn drop_kits<F: Files, D: Dial>(
    files: &mut F,
    mut kits: Vec<Kit<Group<AnyStore<F::Look, D>>, F::View>>,
)
    requires given { All (CanGiveKit F.Look.Look F.View.View (F.disk files.old)) kits.items }
    ensures kept { Reads (F.disk files.old) (F.disk files.new) }
    ensures used { (names : List (List ℕ)) (folders : List (List ℕ)) →
        All (UsesNames F.Look.Look F.View.View names folders) kits.items →
        Uses names folders (F.disk files.old) (F.disk files.new) }
{
    match kits.pop() {
        Some(kit) => {
            drop_kit(files, kit);
            drop_kits(files, kits)
        }
        None => (),
    }
}
