//! The subfolders of a chunk store's folder. They are no files, so contracts don't see them.

ghost use Rattle.std.specs.Prelude.{ℕ, List};
ghost use Rattle.dsy_base.specs.Folders.{IsChunkPath};

/// Creates a store's subfolders ahead of the put, from reader threads.
pub trait InnerFolders: Drop {
    /// The name of the store's folder.
    ghost place: { Self → List ℕ };

    /// Creates the subfolder for the chunk file at this path, unless it is there. No file changes. A failure is not
    /// reported: the put that follows creates the subfolder or reports the fault.
    fn make_for(&self, path: &str)
        requires { IsChunkPath path.now };
}
