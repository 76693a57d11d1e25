//! A folder as one reads it. Names are relative to it, with `/` between components.

ghost use Rattle.std.specs.Prelude.{◌≡◌, ◌≢◌, ℕ, Bool, true, Err, IsTrue, List, ◌≤◌, Option, IfSome, IfOk, is_some};
ghost use Rattle.std.specs.Prelude.{length};
ghost use Rattle.dsy_base.specs.Counts.{CountsFaults};
ghost use Rattle.dsy_base.specs.Maps.{Map, IsNamesOf, ReadGives};

use crate::fault::{FileFault, IoFault};
use crate::name::Name;

/// A folder whose files can be read.
pub trait Look: Drop {
    /// The bytes of each file by its name, where the type tells them.
    ghost files: { Self → Option (Map (List ℕ)) };

    /// How often a call on it has failed.
    ghost faults: { Self → ℕ };

    /// The name that it was taken under.
    ghost place: { Self → List ℕ };

    /// Whether the type tells contracts its files.
    ghost tells: { Bool };

    /// Whether the type never fails.
    ghost never_fails: { Bool };

    /// Whether `read` and `has` may answer that there was no memory.
    ghost may_lack_memory: { Bool } = { true };

    /// Reads a file from its beginning to its end, and answers the number of its bytes.
    fn read(&mut self, name: &str, out: &mut [u8]) -> Result<usize, FileFault>
        ensures bytes { IfSome (files self.old) (λ m. ReadGives (m name.now) result out.new) }
        ensures size { IfOk result (λ n. n ≤ length out.new) }
        ensures only { result ≡ Err FileFault.Memory → IsTrue may_lack_memory }
        ensures kept { files self.new ≡ files self.old }
        ensures place { place self.new ≡ place self.old }
        ensures unfailed { result ≢ Err FileFault.Failed → faults self.new ≡ faults self.old }
        ensures faults { CountsFaults FileFault.Failed FileFault.Memory (faults self.old) (faults self.new) result };

    /// Whether there is a file of this name.
    fn has(&mut self, name: &str) -> Result<bool, IoFault>
        ensures found { IfOk result (λ b. IfSome (files self.old) (λ m. b ≡ is_some (m name.now))) }
        ensures only { result ≡ Err IoFault.Memory → IsTrue may_lack_memory }
        ensures kept { files self.new ≡ files self.old }
        ensures place { place self.new ≡ place self.old }
        ensures faults { CountsFaults IoFault.Failed IoFault.Memory (faults self.old) (faults self.new) result };

    /// The names of all files that have at most one `/`, each once, in the order of their bytes.
    fn names(&mut self) -> Result<Vec<Name>, IoFault>
        ensures found { IfOk result (λ v. IfSome (files self.old) (λ m. IsNamesOf m v.items)) }
        ensures kept { files self.new ≡ files self.old }
        ensures place { place self.new ≡ place self.old }
        ensures faults { CountsFaults IoFault.Failed IoFault.Memory (faults self.old) (faults self.new) result };

    /// The files are told exactly where the type tells.
    ghost told: { (l : Self) → is_some (files l) ≡ tells };

    /// A type that never fails counts no fault.
    ghost sure: { (l : Self) → IsTrue never_fails → faults l ≡ 0 };
}
