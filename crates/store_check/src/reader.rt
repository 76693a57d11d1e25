//! What reads chunk files ahead. Chunk files are items, numbered from 0 in the order of their ids.

ghost use Rattle.std.specs.Prelude.{◌≡◌, ◌≤◌, ◌<◌, length, false, []};
ghost use Rattle.caibx_fields.specs.Limits.{size_limit};

use crate::file::is_damaged;
use crate::verdicts::Verdicts;
use chunk_store::id::{ChunkId, DigestKind};
use dir_store::store::DirStore;
use dsy_base::look::Look;
use read_ahead::reader::Reader;
use std::alloc::Global;

/// A look at the store's folder, which digest names the chunks, the ids of its chunk files, and a buffer that becomes
/// as long as is needed, up to 64 MiB.
#[derive(Drop)]
pub struct FileReader<'a, F: Look> {
    pub store: DirStore<F>,
    pub kind: DigestKind,
    pub ids: &'a [ChunkId],
    pub buf: Vec<u8>,
}

impl<'a, F: Look> FileReader<'a, F> {
    /// Its buffer is empty.
    pub fn new(
        alloc: Global,
        store: DirStore<F>,
        kind: DigestKind,
        ids: &'a [ChunkId],
    ) -> FileReader<'a, F>
        ensures kept { result.store ≡ store }
        ensures kind { result.kind ≡ kind }
        ensures listed { result.ids.now ≡ ids.now }
        ensures empty { result.buf.items ≡ [] }
    {
        FileReader {
            store,
            kind,
            ids,
            buf: Vec::new(alloc),
        }
    }
}

impl<'a, F: Look> Reader<Verdicts> for FileReader<'a, F> {
    ghost use Rattle.std.specs.Prelude.{◌≤◌, length};
    ghost use Rattle.caibx_fields.specs.Limits.{size_limit};
    ghost use Rattle.store_check.specs.Reading.{KeepsLook};
    ghost use Rattle.store_check.specs.Verdicts.{AreVerdicts};

    ghost count = { λ r. length r.ids.now };

    ghost can_read = { λ r. length r.buf.items ≤ size_limit };

    ghost is_right = { λ r room. AreVerdicts r.kind (F.files r.store) r.ids.now room };

    ghost went = { λ r s. KeepsLook F.Look r.store s.store };

    fn begin(&self, room: &mut Verdicts) {
        room.clear();
    }

    fn read_item(&mut self, i: usize, room: &mut Verdicts) -> bool {
        if room.is_full() {
            return false;
        }
        let ids = self.ids;
        match is_damaged(&mut self.store, self.kind, &ids[i], &mut self.buf) {
            Ok(damaged) => {
                room.push(i, damaged);
                true
            }
            Err(_) => false,
        }
    }
}
