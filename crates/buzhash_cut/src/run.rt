//! What is cut of an image, beginning somewhere in it as if a chunk began there. Offsets are in bytes.

ghost use Rattle.std.specs.Prelude.{◌≡◌, ◌<◌, [], length};
ghost use Rattle.buzhash_cut.specs.Entries.{IsEntryRun};
ghost use Rattle.chunk_ends.specs.Sizes.{Sizes};
ghost use Rattle.chunk_store.specs.declared.id.DigestKind.{DigestKind};
ghost use Rattle.caibx_codec.specs.Seen.{pairs};
ghost use Rattle.dsy_base.specs.Bytes.{Held};

use caibx_codec::index::Entry;
use std::alloc::Global;

/// The chunks from `start` on, as far as they were cut.
#[derive(Drop)]
pub(crate) struct Run {
    pub start: u64,
    pub entries: Vec<Entry>,
}

impl Run {
    /// A run of which nothing was cut.
    pub(crate) fn new(alloc: Global, start: u64) -> Run
        ensures start { result.start ≡ start }
        ensures none { result.entries.items ≡ [] }
    {
        let entries = Vec::new(alloc);
        Run { start, entries }
    }

    /// The entries of the chunks from `at` on, where one of them begins there.
    pub(crate) fn from(&self, at: u64) -> &[Entry]
        ensures chunks { 0 < length result.now → (kind : DigestKind) (s : Sizes) (h : Held) →
            IsEntryRun kind s h self.now.start (pairs self.now.entries.items)
            → IsEntryRun kind s h at (pairs result.now) }
    {
        if at == self.start {
            return &self.entries;
        }
        let i = self.entries.partition_point(|entry| entry.end < at);
        if i < self.entries.len() && self.entries[i].end == at {
            &self.entries[i + 1..]
        } else {
            &[]
        }
    }

    /// The first place after `at` at which one of them begins or the last one ends.
    pub(crate) fn place_after(&self, at: u64) -> Option<u64> {
        if at < self.start {
            return Some(self.start);
        }
        let i = self.entries.partition_point(|entry| entry.end <= at);
        self.entries.get(i).map(|entry| entry.end)
    }
}
