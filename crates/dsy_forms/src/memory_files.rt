//! Files and folders in memory, which a test fills and looks at. That is no call on them, so it never fails.

ghost use Rattle.std.specs.Prelude.{◌≡◌, IfSome, OnErr, OnOk};
ghost use Rattle.std.specs.Map.{count_at};
ghost use Rattle.std.specs.Option.{option_and_then, option_map};
ghost use Rattle.dsy_base.specs.Disk.{OnFolder};
ghost use Rattle.dsy_base.specs.Maps.{at_name};

use dsy_base::fault::Memory;
use dsy_base::files::Files;

/// Files and folders in memory by their names.
pub trait MemoryFiles: Files {
    /// Puts a folder under the name.
    fn set_folder(&mut self, name: &str, f: Self::Folder) -> Result<(), Memory>
        ensures ok { OnOk result ((Self.disk self.new).folders
            ≡ option_map (λ m. at_name m name.now (Self.Folder.files f)) (Self.disk self.old).folders) }
        ensures err { OnErr result ((Self.disk self.new).folders ≡ (Self.disk self.old).folders) }
        ensures counts { OnFolder (Self.disk self.old) (Self.disk self.new) name.now }
        ensures kept { count_at (Self.disk self.new).folder_counts name.now
            ≡ count_at (Self.disk self.old).folder_counts name.now };

    /// The bytes of the file of this name.
    fn file(&self, name: &str) -> Option<&[u8]>
        ensures { IfSome (Self.disk self.now).files (λ m. option_map (λ b. b.now) result ≡ m name.now) };

    /// The folder of this name.
    fn folder(&self, name: &str) -> Option<&Self::Folder>
        ensures { IfSome (Self.disk self.now).folders
            (λ m. option_and_then (λ f. Self.Folder.files f.now) result ≡ m name.now) };
}
