//! Why a chain gives no chunk. Stores are numbered from 0.

ghost use Rattle.std.specs.Prelude.{◌≡◌};
ghost use Rattle.store_chain.specs.Refusals.{rank, graver, has_after};

use chunk_store::shows::Shows;
use chunk_store::store::Giver;

/// Why a chain gives no chunk.
#[derive(Clone, Copy, Debug, PartialEq, Eq)]
pub enum Refused {
    /// No store holds anything under the id.
    Missing,
    /// The first store that holds something under the id, and what that shows.
    Damaged { store: Giver, shows: Shows },
    /// The first store that failed.
    StoreFault { store: u32 },
    /// A store had no memory.
    Memory,
}

/// Why a chain doesn't say whether it has a chunk.
#[derive(Clone, Copy, Debug, PartialEq, Eq)]
pub enum HasFault {
    /// The first store that failed.
    StoreFault { store: u32 },
    /// A store had no memory.
    Memory,
}

impl Refused {
    // How grave it is: the graver of two is answered.
    fn rank(&self) -> u8
        ensures { result ≡ rank self.now }
    {
        match self {
            Refused::Missing => 0,
            Refused::Damaged { .. } => 1,
            Refused::StoreFault { .. } => 2,
            Refused::Memory => 3,
        }
    }

    /// The graver of two refusals, and this one where they are equally grave.
    pub fn or(self, then: Refused) -> Refused
        ensures { result ≡ graver self then }
    {
        if self.rank() < then.rank() {
            then
        } else {
            self
        }
    }
}

impl HasFault {
    /// What stores answer of which the first has this fault, and the rest answer so.
    pub fn before(self, rest: Result<bool, HasFault>) -> Result<bool, HasFault>
        ensures { result ≡ has_after self rest }
    {
        match rest {
            Ok(true) => Ok(true),
            Err(HasFault::Memory) => Err(HasFault::Memory),
            Ok(false) | Err(HasFault::StoreFault { .. }) => Err(self),
        }
    }
}
