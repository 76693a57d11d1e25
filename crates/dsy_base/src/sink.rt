//! Where bytes go to, in order.

ghost use Rattle.std.specs.Prelude.{◌≡◌, ◌≢◌, ℕ, Bool, IsTrue, List, ◌++◌, ◌≤◌, length, take, Option, is_some, OnOk};
ghost use Rattle.std.specs.Option.{option_map};
ghost use Rattle.dsy_base.specs.Counts.{CountsFaults};
ghost use Rattle.dsy_base.specs.Disk.{Output};

use crate::fault::{IoFault, Memory};

/// What takes bytes in order.
pub trait Sink: Drop {
    /// The bytes taken so far, where the type tells them, and how often a call on it has failed.
    ghost output: { Self → Output };

    /// How many more bytes it takes without asking for memory.
    ghost room: { Self → ℕ };

    /// Whether the type tells contracts what it has taken.
    ghost tells: { Bool };

    /// Whether the type never fails.
    ghost never_fails: { Bool };

    /// Makes room for `n` more bytes.
    fn reserve(&mut self, n: usize) -> Result<(), Memory>
        ensures ok { OnOk result (n ≤ room self.new) }
        ensures kept { output self.new ≡ output self.old };

    /// Appends `b`.
    fn put(&mut self, b: &[u8]) -> Result<(), IoFault>
        ensures ok { OnOk result ((output self.new).taken ≡ option_map (λ t. t ++ b.now) (output self.old).taken) }
        // A prefix of b was appended.
        ensures err { result ≡ Err IoFault.Failed → (n : ℕ) × (n ≤ length b.now)
            × ((output self.new).taken ≡ option_map (λ t. t ++ take n b.now) (output self.old).taken) }
        ensures kept { result ≡ Err IoFault.Memory → (output self.new).taken ≡ (output self.old).taken }
        ensures fits { length b.now ≤ room self.old → result ≢ Err IoFault.Memory }
        ensures faults { CountsFaults IoFault.Failed IoFault.Memory (output self.old).faults (output self.new).faults
            result };

    /// What was taken is told exactly where the type tells.
    ghost told: { (s : Self) → is_some (output s).taken ≡ tells };

    /// A type that never fails counts no fault.
    ghost sure: { (s : Self) → IsTrue never_fails → (output s).faults ≡ 0 };
}
