//! The chunks that a reader keeps, the most recently used first.

ghost use Rattle.std.specs.Prelude.{◌≡◌, ◌+◌, ◌-◌, ◌<◌, ◌≤◌, ◌∷◌, ℕ, List, [], true, false, length, take, slice_range};
ghost use Rattle.std.specs.Prelude.{IfOk, OnErr, OnOk};
ghost use Rattle.std.specs.NonZero.{non_zero_usize_get};
ghost use Rattle.chunk_store.specs.Giving.{IsChunk};
ghost use Rattle.image_reader.specs.Keeping.{has_want, without_want};

use crate::want::Want;
use chunk_store::id::DigestKind;
use lru::LruCache;
use std::alloc::{AllocError, Global};
use std::marker::Model;
use std::num::NonZeroUsize;

/// Fills `out` with the bytes of a chunk from this offset of it on.
pub(crate) fn copy_part(chunk: &[u8], from: usize, out: &mut [u8])
    requires inside { from + length out.old ≤ length chunk.now }
    ensures bytes { out.new ≡ slice_range chunk.now from (from + length out.old) }
{
    out.copy_from_slice(&chunk[from..from + out.len()]);
}

/// At most this many chunks, each by its want. Contracts see the list of their wants.
#[derive(Drop)]
pub struct KeptChunks {
    kind: DigestKind,
    chunks: LruCache<Want, Vec<u8>>,
}

impl Model for KeptChunks {
    ghost use Rattle.std.specs.Prelude.{◌<◌};
    ghost use Rattle.std.specs.Map.{keys_of};
    ghost use Rattle.image_reader.specs.Keeping.{Kept, AreChunksOf};

    ghost Value = { Kept };

    ghost view = { λ k. record { kind = k.kind; keep = k.chunks.cap; wants = keys_of k.chunks.entries } };

    ghost invariant = { λ k. (0 < k.chunks.cap) × AreChunksOf k.kind k.chunks.entries };
}

impl KeptChunks {
    /// Room for this many chunks, which this digest names.
    pub fn new(
        alloc: Global,
        kind: DigestKind,
        keep: NonZeroUsize,
    ) -> Result<KeptChunks, AllocError>
        ensures { IfOk result (λ k. k ≡ record { kind = kind; keep = non_zero_usize_get keep; wants = [] }) }
    {
        let chunks = LruCache::new(alloc, keep)?;
        Ok(KeptChunks { kind, chunks })
    }

    /// What the chunks' room is taken from.
    pub fn allocator(&self) -> Global {
        *self.chunks.allocator()
    }

    /// No more chunks are kept than may be. Nothing is done.
    pub fn few(&self)
        ensures some { 0 < self.now.keep }
        ensures few { length self.now.wants ≤ self.now.keep }
    {
        let _len = self.chunks.len();
    }

    /// Fills `out` with the bytes of a chunk from this offset of it on, where it is kept, and moves it to the front.
    pub fn copy(&mut self, want: &Want, from: usize, out: &mut [u8]) -> bool
        requires inside { from + length out.old ≤ want.now.size }
        ensures value { result ≡ has_want self.old.wants want.now }
        ensures bytes { result ≡ true → (b : List ℕ)
            × IsChunk self.old.kind want.now.id.0 want.now.size b
            × (out.new ≡ slice_range b from (from + length out.old)) }
        ensures yes { result ≡ true → self.new
            ≡ record self.old { wants = want.now ∷ without_want want.now self.old.wants } }
        ensures no { result ≡ false → self.new ≡ self.old }
    {
        let Some(chunk) = self.chunks.get(want) else {
            return false;
        };
        copy_part(chunk, from, out);
        true
    }

    /// Drops the chunk whose use was longest ago, where as many are kept as may be.
    pub fn make_room(&mut self)
        ensures { self.new ≡ record self.old { wants = take (self.old.keep - 1) self.old.wants } }
    {
        if self.chunks.len() < self.chunks.cap().get() {
            return;
        }
        let _oldest = self.chunks.pop_lru();
    }

    /// Keeps a chunk, in front of the others.
    pub fn add(&mut self, want: Want, chunk: Vec<u8>) -> Result<(), AllocError>
        requires right { IsChunk self.old.kind want.id.0 want.size chunk.items }
        requires missed { has_want self.old.wants want ≡ false }
        ensures ok { OnOk result (self.new
            ≡ record self.old { wants = take self.old.keep (want ∷ self.old.wants) }) }
        ensures err { OnErr result (self.new ≡ self.old) }
    {
        match self.chunks.put(want, chunk) {
            Ok(_) => Ok(()),
            Err(_) => Err(AllocError),
        }
    }
}
