//! The plan by which an image is made. Wants count from 0.

ghost use Rattle.std.specs.Prelude.{◌≡◌, ◌≤◌, [], ◌∷◌, IfOk, IfErr};
ghost use Rattle.caibx_codec.specs.Listing.{count_of};
ghost use Rattle.caibx_fields.specs.Limits.{item_limit};
ghost use Rattle.extract_plan.specs.Deal.{IsPlan};
ghost use Rattle.extract_plan.specs.Places.{IsSeedIndex, PlacesKnown};

use crate::fault::DemoFault;
use caibx_codec::index::Index;
use extract_plan::plan::Plan;
use extract_plan::seeds::SeedIndex;
use std::alloc::Global;

/// The plan of an index, and where a seed lists its chunks.
#[derive(Drop)]
pub struct Planned {
    pub plan: Plan,
    pub places: SeedIndex,
}

impl Planned {
    /// The plan with one seed, whose index this is.
    pub fn of(alloc: Global, index: &Index, seed: Index) -> Result<Planned, DemoFault>
        requires few { count_of seed ≤ item_limit }
        ensures plan { IfOk result (λ p. IsPlan index.now 1 p.plan) }
        ensures places { IfOk result (λ p. IsSeedIndex index.now p.plan (seed ∷ []) p.places) }
        ensures known { IfOk result (λ p. PlacesKnown index.now p.plan p.places 1) }
        ensures err { IfErr result (λ e. e ≡ DemoFault.Memory) }
    {
        let Ok(plan) = Plan::of(alloc, index, 1) else {
            return Err(DemoFault::Memory);
        };
        let mut seeds = Vec::new(alloc);
        let Ok(()) = seeds.push(seed) else {
            return Err(DemoFault::Memory);
        };
        match SeedIndex::of(alloc, &plan, index, &seeds) {
            Ok(places) => Ok(Planned { plan, places }),
            // The seed lists no more items than seeds may, so it is for want of memory.
            Err(_) => Err(DemoFault::Memory),
        }
    }
}
