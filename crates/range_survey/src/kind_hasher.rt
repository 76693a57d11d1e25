//! A hasher of either kind of digest.

ghost use Rattle.std.specs.Prelude.{[], ◌≡◌, ◌++◌, ℕ, List, IfOk};
ghost use Rattle.chunk_store.specs.Digests.{digest_of};
ghost use Rattle.range_survey.specs.Hashers.{HoldsBytes};

use chunk_store::id::{ChunkId, DigestKind};
use sha2::{Digest, Sha256, Sha512_256};
use std::alloc::AllocError;

/// A hasher of one of the kinds.
#[derive(Drop)]
pub(crate) enum KindHasher {
    Sha512T256(Sha512_256),
    Sha256(Sha256),
}

impl KindHasher {
    /// A hasher of this kind that was fed nothing.
    pub(crate) fn new(kind: DigestKind) -> KindHasher
        ensures bytes { HoldsBytes kind result [] }
    {
        match kind {
            DigestKind::Sha512T256 => KindHasher::Sha512T256(Sha512_256::new()),
            DigestKind::Sha256 => KindHasher::Sha256(Sha256::new()),
        }
    }

    /// Feeds it these bytes.
    pub(crate) fn feed(&mut self, kind: DigestKind, more: &[u8])
        ensures bytes { (fed : List ℕ) → HoldsBytes kind self.old fed → HoldsBytes kind self.new (fed ++ more.now) }
    {
        match self {
            KindHasher::Sha512T256(hasher) => hasher.update(more),
            KindHasher::Sha256(hasher) => hasher.update(more),
        }
    }

    /// The digest of all that it was fed.
    pub(crate) fn digest(&self, kind: DigestKind) -> Result<ChunkId, AllocError>
        ensures value { (fed : List ℕ) → HoldsBytes kind self.now fed → IfOk result (λ id. id.0 ≡ digest_of kind fed) }
    {
        match self {
            KindHasher::Sha512T256(hasher) => Ok(ChunkId(hasher.clone()?.finalize())),
            KindHasher::Sha256(hasher) => Ok(ChunkId(hasher.clone()?.finalize())),
        }
    }
}
