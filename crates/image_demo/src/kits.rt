//! The kits of the workers that extract an image in memory.

ghost use Rattle.std.specs.Prelude.{◌≡◌, ◌≤◌, IfErr, IfOk, vec_len};
ghost use Rattle.std.specs.List.{All};
ghost use Rattle.image_demo.specs.SharedKits.{IsKitOf};

use crate::fault::DemoFault;
use chunk_sources::kit::Kit;
use chunk_store::id::DigestKind;
use chunk_store::store::Store;
use dsy_base::view::View;
use extract_plan::seed::Seed;
use std::alloc::{AllocError, Global};
use store_chain::chain::Chain;

// A kit of one store and one seed, which names chunks by this digest.
fn kit_of<S: Store, V: View>(
    alloc: Global,
    kind: DigestKind,
    store: S,
    seed: V,
) -> Result<Kit<S, V>, AllocError>
    ensures { IfOk result (IsKitOf kind store seed) }
{
    let mut stores = Vec::new(alloc);
    stores.push(store)?;
    let mut seeds = Vec::new(alloc);
    seeds.push(Seed { view: Some(seed) })?;
    Ok(Kit::new(alloc, Chain::with_kind(kind, stores), seeds))
}

// Adds kits of one store and one seed, up to as many as there are workers, while there is memory.
fn add_kits<S: Store + Copy, V: View + Copy>(
    alloc: Global,
    kind: DigestKind,
    store: S,
    seed: V,
    workers: usize,
    kits: &mut Vec<Kit<S, V>>,
) -> Result<(), AllocError>
    requires none { vec_len kits.old ≡ 0 }
    ensures few { vec_len kits.new ≤ workers }
    ensures alike { All (IsKitOf kind store seed) kits.new.items }
{
    while kits.len() < workers {
        kits.push(kit_of(alloc, kind, store, seed)?)?;
    }
    Ok(())
}

/// A kit for each of these workers, all of one store and one seed, which name chunks by this digest. A further kit
/// that can't be obtained for want of memory is a worker fewer.
pub fn kits_of<S: Store + Copy, V: View + Copy>(
    alloc: Global,
    kind: DigestKind,
    store: S,
    seed: V,
    workers: usize,
) -> Result<Vec<Kit<S, V>>, DemoFault>
    ensures size { IfOk result (λ v. (1 ≤ vec_len v) × (vec_len v ≤ workers)) }
    ensures alike { IfOk result (λ v. All (IsKitOf kind store seed) v.items) }
    ensures err { IfErr result (λ e. e ≡ DemoFault.Memory) }
{
    let mut kits = Vec::new(alloc);
    match add_kits(alloc, kind, store, seed, workers, &mut kits) {
        Ok(()) | Err(AllocError) => {}
    }
    if kits.is_empty() {
        return Err(DemoFault::Memory);
    }
    Ok(kits)
}
