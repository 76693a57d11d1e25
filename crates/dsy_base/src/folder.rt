//! A folder as one writes it.

ghost use Rattle.std.specs.Prelude.{◌≡◌, ℕ, List, ◌≤◌, Option, None, IfSome, IfOk, OnOk, OnErr, is_some};
ghost use Rattle.std.specs.Option.{option_map};
ghost use Rattle.dsy_base.specs.Counts.{CountsFaults};
ghost use Rattle.dsy_base.specs.Folders.{temporary_of, put_in};
ghost use Rattle.dsy_base.specs.Maps.{Map, at_name};

use crate::fault::IoFault;
use crate::look::Look;

/// A folder whose files can be written. Its type may name what it began with, and what may be put into it, for a
/// folder that several threads share.
pub trait Folder: Look {
    /// The files that it began with.
    ghost opening: { Option (Map (List ℕ)) } = { None };

    /// The ids of the chunks that may be put, each with its size.
    ghost pairs: { Option (List (List ℕ × ℕ)) } = { None };

    /// The maps of the stores of which one has to hold what is put.
    ghost stores: { Option (List (Map (List ℕ))) } = { None };

    /// The kind of its chunks' digests, as a number.
    ghost kind: { ℕ } = { 0 };

    /// Puts `b` under the name: first into a temporary file beside it, which is then renamed.
    fn put(&mut self, name: &str, b: &[u8]) -> Result<(), IoFault>
        ensures ok { OnOk result (Self.files self.new ≡ option_map (λ m. put_in m name.now b.now)
            (Self.files self.old)) }
        // Every name but the temporary one is as before.
        ensures err { OnErr result ((x : Option (List ℕ))
            × (Self.files self.new ≡ option_map (λ m. at_name m (temporary_of name.now) x) (Self.files self.old))) }
        ensures place { Self.place self.new ≡ Self.place self.old }
        ensures faults { CountsFaults IoFault.Failed IoFault.Memory (Self.faults self.old) (Self.faults self.new)
            result };

    /// Removes the file of this name, and answers whether there was one.
    fn remove(&mut self, name: &str) -> Result<bool, IoFault>
        ensures found { IfOk result (λ b. IfSome (Self.files self.old) (λ m. b ≡ is_some (m name.now))) }
        ensures ok { OnOk result (Self.files self.new ≡ option_map (λ m. at_name m name.now None)
            (Self.files self.old)) }
        ensures err { OnErr result (Self.files self.new ≡ Self.files self.old) }
        ensures place { Self.place self.new ≡ Self.place self.old }
        ensures faults { CountsFaults IoFault.Failed IoFault.Memory (Self.faults self.old) (Self.faults self.new)
            result };
}
