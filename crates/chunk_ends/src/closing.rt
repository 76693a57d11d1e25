//! Which hashes of a window close a chunk.

ghost use Rattle.std.specs.Prelude.{◌≡◌, ◌-◌, ◌%◌, ◌==◌};
ghost use Rattle.chunk_ends.specs.Sizes.{discriminator_of};

use crate::sizes::CutSizes;
use std::marker::Model;

/// The test of hashes by a divisor, which contracts see as the divisor. It divides once, when it is made. The hash
/// leaves the greatest rest where the divisor divides the hash plus one, and that is where the product of the hash plus
/// one and of 2^64 by the divisor, rounded up, is below that multiplier modulo 2^64.
#[derive(Drop)]
pub(crate) struct Closing {
    divisor: u32,
    multiplier: u64,
}

impl Model for Closing {
    ghost use Rattle.std.specs.Prelude.{◌≡◌, ◌+◌, ◌-◌, ◌/◌, ◌^◌, ◌≤◌, ℕ};

    ghost Value = { ℕ };

    ghost view = { λ c. c.divisor };

    ghost invariant = { λ c. (2 ≤ c.divisor) × (c.divisor ≤ 2 ^ 31) × (c.multiplier ≡ (2 ^ 64 - 1) / c.divisor + 1) };
}

impl Closing {
    /// The test for chunks of these sizes.
    pub(crate) fn of(sizes: &CutSizes) -> Closing
        ensures value { result ≡ discriminator_of sizes.now.average }
    {
        sizes.rules();
        let divisor = sizes.discriminator();
        let multiplier = u64::MAX / u64::from(divisor) + 1;
        Closing {
            divisor,
            multiplier,
        }
    }

    /// Whether the hash leaves the greatest rest.
    #[tactic(auto, using(crate::proofs::Divides::leaves_greatest))]
    pub(crate) fn closes(&self, hash: u32) -> bool
        ensures value { result ≡ (hash % self.now == self.now - 1) }
    {
        self.multiplier.wrapping_mul(u64::from(hash) + 1) < self.multiplier
    }
}
