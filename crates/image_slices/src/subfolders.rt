//! Where no subfolders are created ahead.

ghost use Rattle.std.specs.Prelude.{[]};

use dsy_base::inner_folders::InnerFolders;

/// No subfolders of no store's folder.
#[derive(Drop)]
pub struct NoSubfolders {}

impl InnerFolders for NoSubfolders {
    ghost place = { λ _. [] };

    fn make_for(&self, path: &str) {
        let _ = path;
    }
}
