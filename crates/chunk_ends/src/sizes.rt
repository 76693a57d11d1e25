//! The sizes of chunks, in bytes.

ghost use Rattle.std.specs.Prelude.{◌≡◌, ◌^◌, ◌≤◌};
ghost use Rattle.chunk_ends.specs.Sizes.{AreSizes, SizesGiven, discriminator_of};

use caibx_fields::format::SIZE_LIMIT;
use std::marker::Model;

/// What the average size may be at most: 4 MiB.
const AVERAGE_LIMIT: u64 = 4_194_304;

/// Why three sizes are none by which one can cut.
#[derive(Clone, Copy, Debug, PartialEq, Eq)]
pub enum SizeFault {
    /// The least size is below 48, the size of a window.
    MinTooSmall,
    /// The three sizes aren't in order.
    Order,
    /// The average size is above 4 MiB.
    AvgTooLarge,
    /// The greatest size is above 64 MiB.
    MaxTooLarge,
}

/// The least, the average and the greatest size of a chunk.
#[derive(Clone, Copy, Debug)]
pub struct CutSizes {
    min: u64,
    avg: u64,
    max: u64,
}

impl Model for CutSizes {
    ghost use Rattle.chunk_ends.specs.Sizes.{Sizes, AreSizes};

    ghost Value = { Sizes };

    ghost view = { λ s. record { least = s.min; average = s.avg; greatest = s.max } };

    ghost invariant = { λ s. AreSizes (record { least = s.min; average = s.avg; greatest = s.max }) };

    ghost inverse = { λ s. record { min = s.least; avg = s.average; max = s.greatest } };
}

impl CutSizes {
    /// The sizes, or the first rule that they break.
    pub fn new(min: u64, avg: u64, max: u64) -> Result<CutSizes, SizeFault>
        ensures exactly { SizesGiven (record { least = min; average = avg; greatest = max }) result }
    {
        if min < 48 {
            return Err(SizeFault::MinTooSmall);
        }
        if avg < min || max < avg {
            return Err(SizeFault::Order);
        }
        if AVERAGE_LIMIT < avg {
            return Err(SizeFault::AvgTooLarge);
        }
        if SIZE_LIMIT < max {
            return Err(SizeFault::MaxTooLarge);
        }
        Ok(CutSizes { min, avg, max })
    }

    /// The rules hold of all sizes.
    pub fn rules(&self)
        ensures known { AreSizes self.now }
    {
        let _ = &self.min;
    }

    /// The least size of a chunk but the last.
    pub fn min(&self) -> u64
        ensures value { result ≡ self.now.least }
    {
        self.min
    }

    /// The size that cutting aims at.
    pub fn avg(&self) -> u64
        ensures value { result ≡ self.now.average }
    {
        self.avg
    }

    /// The greatest size of a chunk.
    pub fn max(&self) -> u64
        ensures value { result ≡ self.now.greatest }
    {
        self.max
    }

    /// How many windows there are to one that closes a chunk.
    #[tactic(auto, unfolding(crate::specs::Sizes::discriminator_of))]
    pub fn discriminator(&self) -> u32
        ensures value { result ≡ discriminator_of self.now.average }
        ensures many { 2 ≤ result }
        ensures few { result ≤ 2 ^ 31 }
    {
        let avg = u128::from(self.avg);
        (avg * 1_000_000_000_000_000 / (1_332_375_150_000_000 - 142_888_852 * avg)) as u32
    }
}
