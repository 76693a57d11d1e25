//! A hasher that is fed zeros alone. Sizes are in bytes.

ghost use Rattle.std.specs.Prelude.{◌≡◌, ◌≤◌, length, replicate, IfOk};
ghost use Rattle.chunk_store.specs.Digests.{digest_of};

use crate::kind_hasher::KindHasher;
use chunk_store::id::{ChunkId, DigestKind};
use std::alloc::AllocError;
use std::marker::Model;

/// A hasher that was fed zeros, its kind, and their number. Contracts see it as its kind and that number.
#[derive(Drop)]
pub(crate) struct FedZeros {
    kind: DigestKind,
    hasher: KindHasher,
    fed: usize,
}

impl Model for FedZeros {
    ghost use Rattle.std.specs.Prelude.{replicate};
    ghost use Rattle.range_survey.specs.Hashers.{HoldsBytes};
    ghost use Rattle.range_survey.specs.Zeros.{ZerosFed};

    ghost Value = { ZerosFed };

    ghost view = { λ f. record { kind = f.kind; count = f.fed } };

    ghost invariant = { λ f. HoldsBytes f.kind f.hasher (replicate f.fed 0) };
}

impl FedZeros {
    /// A hasher of this kind that was fed nothing.
    pub(crate) fn new(kind: DigestKind) -> FedZeros
        ensures kind { result.kind ≡ kind }
        ensures fed { result.count ≡ 0 }
    {
        FedZeros {
            kind,
            hasher: KindHasher::new(kind),
            fed: 0,
        }
    }

    // Begins anew where it was fed more.
    fn back_to(&mut self, size: usize)
        ensures kind { self.new.kind ≡ self.old.kind }
        ensures fed { self.new.count ≤ size }
        ensures kept { self.old.count ≤ size → self.new ≡ self.old }
    {
        if size < self.fed {
            *self = FedZeros::new(self.kind);
        }
    }

    // Feeds it up to this many zeros, of which `zeros` has enough.
    fn feed_to(&mut self, zeros: &[u8], size: usize)
        requires zeros { zeros.now ≡ replicate (length zeros.now) 0 }
        requires room { size ≤ length zeros.now }
        requires inside { self.old.count ≤ size }
        ensures kind { self.new.kind ≡ self.old.kind }
        ensures fed { self.new.count ≡ size }
    {
        let (more, _) = zeros.split_at(size - self.fed);
        self.hasher.feed(self.kind, more);
        self.fed = size;
    }

    /// The digest of this many zeros, of which `zeros` has enough. Where sizes rise each zero is hashed once.
    pub(crate) fn digest(&mut self, zeros: &[u8], size: usize) -> Result<ChunkId, AllocError>
        requires zeros { zeros.now ≡ replicate (length zeros.now) 0 }
        requires room { size ≤ length zeros.now }
        ensures value { IfOk result (λ id. id.0 ≡ digest_of self.old.kind (replicate size 0)) }
        ensures kind { self.new.kind ≡ self.old.kind }
    {
        self.back_to(size);
        self.feed_to(zeros, size);
        self.hasher.digest(self.kind)
    }
}
