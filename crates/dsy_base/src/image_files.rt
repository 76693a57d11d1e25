//! Files of which several views of one image can be opened, and whose folders have subfolders.

ghost use Rattle.std.specs.Prelude.{◌≡◌, IsTrue, IfSome};

use crate::files::Files;
use crate::inner_folders::InnerFolders;

/// Files whose views, looks and folders tell what they hold only where the files are told, so that two views of one
/// file, or two looks at one folder, tell alike.
pub trait ImageFiles: Files {
    type Inner: InnerFolders;

    /// The subfolders of the folder of this name, or None for want of memory.
    fn inner(&self, folder: &str) -> Option<Self::Inner>
        ensures { IfSome result (λ inner. Self.Inner.place inner ≡ folder.now) };

    ghost untold: { IsTrue Self.View.tells → IsTrue Self.tells };

    ghost unseen: { (IsTrue Self.Look.tells → IsTrue Self.tells) × (IsTrue Self.Folder.tells → IsTrue Self.tells) };
}
