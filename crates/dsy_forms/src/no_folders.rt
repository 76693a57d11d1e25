//! The subfolders of a folder in memory, which has none.

ghost use Rattle.std.specs.Prelude.{◌≡◌, IfSome};

use crate::mem_files::MemFiles;
use dsy_base::image_files::ImageFiles;
use dsy_base::inner_folders::InnerFolders;
use dsy_base::name::Name;
use std::alloc::Global;

/// The subfolders of a folder in memory: its files lie in none.
#[derive(Debug, Drop)]
pub struct NoFolders {
    place: Name,
}

impl NoFolders {
    /// Those of the folder of this name, or None for want of memory.
    pub fn of(alloc: Global, folder: &str) -> Option<NoFolders>
        ensures { IfSome result (λ inner. inner.place ≡ folder.now) }
    {
        match Name::of(alloc, folder) {
            Ok(place) => Some(NoFolders { place }),
            Err(_) => None,
        }
    }
}

impl InnerFolders for NoFolders {
    ghost place = { λ inner. inner.place };

    fn make_for(&self, _path: &str) {}
}

impl ImageFiles for MemFiles {
    type Inner = NoFolders;

    fn inner(&self, folder: &str) -> Option<NoFolders> {
        NoFolders::of(self.alloc(), folder)
    }

    ghost untold = { λ t. t };

    ghost unseen = { (λ t. t, λ t. t) };
}
