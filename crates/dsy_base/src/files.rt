//! Files and folders by their names. What is taken under a name isn't there until it is given back.

ghost use Rattle.std.specs.Prelude.{◌≡◌, ◌≢◌, ℕ, Bool, IsTrue, List, [], Option, Some, None, IfSome, IfOk, OnOk, OnErr};
ghost use Rattle.std.specs.Prelude.{Err, IsSome, is_some, if◌then◌else◌, unwrap_or};
ghost use Rattle.std.specs.Map.{count_at};
ghost use Rattle.std.specs.Option.{option_map};
ghost use Rattle.dsy_base.specs.Counts.{CountsFaults};
ghost use Rattle.dsy_base.specs.Disk.{Disk, HoldsSame, OnFile, OnFolder, GivesFile, GivesFolder};
ghost use Rattle.dsy_base.specs.Files.{OpenGives, FoundThere};
ghost use Rattle.dsy_base.specs.Maps.{Map, at_name};

use crate::fault::{IoFault, OpenFault};
use crate::folder::Folder;
use crate::look::Look;
use crate::view::{Target, View};

/// Files and folders by their names.
///
/// Each name that was used has a number: how often calls on it, and on what was taken under it, have failed. What is
/// taken begins with no fault, and its faults are added to the number when it is given back.
pub trait Files: Drop {
    type View: View;

    type Target: Target;

    type Look: Look;

    type Folder: Folder;

    /// What files and folders hold, where the type tells it, and the number of each name that was used.
    ghost disk: { Self → Disk };

    /// Whether the type tells contracts its files and folders.
    ghost tells: { Bool };

    /// Whether the type never fails.
    ghost never_fails: { Bool };

    /// A view of the file as it is now.
    fn view(&mut self, name: &str) -> Result<Self::View, OpenFault>
        ensures found { IfSome (disk self.old).files (λ m. OpenGives (m name.now)
            (λ v b. (Self.View.held v).bytes ≡ Some b) result) }
        ensures fresh { IfOk result (λ v. (Self.View.faults v ≡ 0) × ((Self.View.held v).name ≡ name.now)) }
        ensures kept { HoldsSame (disk self.old) (disk self.new) }
        ensures counts { OnFile (disk self.old) (disk self.new) name.now }
        ensures known { OnOk result (IsSome ((disk self.new).file_counts name.now)) }
        ensures faults { CountsFaults OpenFault.Failed OpenFault.Memory (count_at (disk self.old).file_counts name.now)
            (count_at (disk self.new).file_counts name.now) result };

    /// Gives a view back.
    fn end_view(&mut self, v: Self::View)
        requires { IsSome ((disk self.old).file_counts (Self.View.held v).name) }
        ensures kept { HoldsSame (disk self.old) (disk self.new) }
        ensures counts { GivesFile (disk self.old) (disk self.new) (Self.View.held v).name (Self.View.faults v) };

    /// Takes a file to write it. It is empty where there is none, or where `fresh` is true.
    fn take(&mut self, name: &str, fresh: bool) -> Result<Self::Target, IoFault>
        ensures bytes { IfOk result (λ t. IfSome (disk self.old).files (λ m.
            (Self.Target.held t).bytes ≡ Some (if fresh then [] else unwrap_or (m name.now) []))) }
        ensures fresh { IfOk result (λ t. (Self.Target.faults t ≡ 0) × ((Self.Target.held t).name ≡ name.now)) }
        ensures ok { OnOk result ((disk self.new).files ≡ option_map (λ m. at_name m name.now None)
            (disk self.old).files) }
        ensures err { OnErr result ((disk self.new).files ≡ (disk self.old).files) }
        ensures counts { OnFile (disk self.old) (disk self.new) name.now }
        ensures known { OnOk result (IsSome ((disk self.new).file_counts name.now)) }
        ensures faults { CountsFaults IoFault.Failed IoFault.Memory (count_at (disk self.old).file_counts name.now)
            (count_at (disk self.new).file_counts name.now) result };

    /// Gives a file back, which the name then holds.
    fn give(&mut self, name: &str, t: Self::Target)
        requires named { (Self.Target.held t).name ≡ name.now }
        requires known { IsSome ((disk self.old).file_counts name.now) }
        ensures files { (disk self.new).files ≡ option_map (λ m. at_name m name.now (Self.Target.held t).bytes)
            (disk self.old).files }
        ensures counts { GivesFile (disk self.old) (disk self.new) name.now (Self.Target.faults t) };

    /// Puts `b` in the place of what the name holds, all of it or, after a refusal, nothing.
    fn replace(&mut self, name: &str, b: &[u8]) -> Result<(), IoFault>
        ensures ok { OnOk result ((disk self.new).files ≡ option_map (λ m. at_name m name.now (Some b.now))
            (disk self.old).files) }
        ensures err { OnErr result ((disk self.new).files ≡ (disk self.old).files) }
        ensures counts { OnFile (disk self.old) (disk self.new) name.now }
        ensures faults { CountsFaults IoFault.Failed IoFault.Memory (count_at (disk self.old).file_counts name.now)
            (count_at (disk self.new).file_counts name.now) result };

    /// Gives the file another name, in the place of what that held.
    fn rename(&mut self, from: &str, to: &str) -> Result<(), OpenFault>
        requires { from.now ≢ to.now }
        ensures found { IfSome (disk self.old).files (λ m. FoundThere (m from.now) result) }
        ensures ok { OnOk result ((disk self.new).files ≡ option_map
            (λ m. at_name (at_name m to.now (m from.now)) from.now None) (disk self.old).files) }
        ensures err { OnErr result ((disk self.new).files ≡ (disk self.old).files) }
        ensures counts { OnFile (disk self.old) (disk self.new) to.now }
        ensures known { OnOk result (IsSome ((disk self.new).file_counts to.now)) }
        ensures faults { CountsFaults OpenFault.Failed OpenFault.Memory (count_at (disk self.old).file_counts to.now)
            (count_at (disk self.new).file_counts to.now) result };

    /// Removes the file. Where the name has a number already, that takes no memory.
    fn remove(&mut self, name: &str) -> Result<(), OpenFault>
        ensures room { IsSome ((disk self.old).file_counts name.now) → result ≢ Err OpenFault.Memory }
        ensures found { IfSome (disk self.old).files (λ m. FoundThere (m name.now) result) }
        ensures ok { OnOk result ((disk self.new).files ≡ option_map (λ m. at_name m name.now None)
            (disk self.old).files) }
        ensures err { OnErr result ((disk self.new).files ≡ (disk self.old).files) }
        ensures counts { OnFile (disk self.old) (disk self.new) name.now }
        ensures faults { CountsFaults OpenFault.Failed OpenFault.Memory (count_at (disk self.old).file_counts name.now)
            (count_at (disk self.new).file_counts name.now) result };

    /// A look at the folder as it is now.
    fn look(&mut self, name: &str) -> Result<Self::Look, OpenFault>
        ensures found { IfSome (disk self.old).folders (λ m. OpenGives (m name.now)
            (λ l f. Self.Look.files l ≡ Some f) result) }
        ensures fresh { IfOk result (λ l. (Self.Look.faults l ≡ 0) × (Self.Look.place l ≡ name.now)) }
        ensures kept { HoldsSame (disk self.old) (disk self.new) }
        ensures counts { OnFolder (disk self.old) (disk self.new) name.now }
        ensures known { OnOk result (IsSome ((disk self.new).folder_counts name.now)) }
        ensures faults { CountsFaults OpenFault.Failed OpenFault.Memory
            (count_at (disk self.old).folder_counts name.now)
            (count_at (disk self.new).folder_counts name.now) result };

    /// Gives a look back.
    fn end_look(&mut self, l: Self::Look)
        requires { IsSome ((disk self.old).folder_counts (Self.Look.place l)) }
        ensures kept { HoldsSame (disk self.old) (disk self.new) }
        ensures counts { GivesFolder (disk self.old) (disk self.new) (Self.Look.place l) (Self.Look.faults l) };

    /// Takes a folder to write it.
    fn take_folder(&mut self, name: &str) -> Result<Self::Folder, OpenFault>
        ensures found { IfSome (disk self.old).folders (λ m. OpenGives (m name.now)
            (λ d f. Self.Folder.files d ≡ Some f) result) }
        ensures fresh { IfOk result (λ d. (Self.Folder.faults d ≡ 0) × (Self.Folder.place d ≡ name.now)) }
        ensures ok { OnOk result ((disk self.new).folders ≡ option_map (λ m. at_name m name.now None)
            (disk self.old).folders) }
        ensures err { OnErr result ((disk self.new).folders ≡ (disk self.old).folders) }
        ensures counts { OnFolder (disk self.old) (disk self.new) name.now }
        ensures known { OnOk result (IsSome ((disk self.new).folder_counts name.now)) }
        ensures faults { CountsFaults OpenFault.Failed OpenFault.Memory
            (count_at (disk self.old).folder_counts name.now)
            (count_at (disk self.new).folder_counts name.now) result };

    /// Gives a folder back, whose files the name then holds.
    fn give_folder(&mut self, name: &str, d: Self::Folder)
        requires named { Self.Folder.place d ≡ name.now }
        requires known { IsSome ((disk self.old).folder_counts name.now) }
        ensures folders { (disk self.new).folders ≡ option_map (λ m. at_name m name.now (Self.Folder.files d))
            (disk self.old).folders }
        ensures counts { GivesFolder (disk self.old) (disk self.new) name.now (Self.Folder.faults d) };

    /// Files and folders are told exactly where the type tells.
    ghost told: { (s : Self) → (is_some (disk s).files ≡ tells) × (is_some (disk s).folders ≡ tells) };

    /// A type that never fails counts no fault.
    ghost sure: { (s : Self) → IsTrue never_fails → (q : List ℕ) →
        (count_at (disk s).file_counts q ≡ 0) × (count_at (disk s).folder_counts q ≡ 0) };

    /// What is taken tells where the type tells, and never fails where it never fails.
    ghost alike: { (IsTrue tells → IsTrue Self.View.tells × IsTrue Self.Target.tells × IsTrue Self.Look.tells
        × IsTrue Self.Folder.tells)
        × (IsTrue never_fails → IsTrue Self.View.never_fails × IsTrue Self.Target.never_fails
        × IsTrue Self.Look.never_fails × IsTrue Self.Folder.never_fails) };

    /// A folder that is taken names in its type nothing of what it began with, or of what may be put into it.
    ghost unnamed: { (Self.Folder.opening ≡ None) × (Self.Folder.pairs ≡ None) × (Self.Folder.stores ≡ None) };
}
