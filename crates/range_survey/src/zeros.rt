//! The digests of runs of zeros, by their sizes in bytes. Offsets are bytes from 0.

ghost use Rattle.std.specs.Prelude.{◌≡◌, ◌⊎◌, ℕ, ◌+◌, ◌<◌, ◌≤◌, length, replicate, IfSome, IfOk, IsSome};
ghost use Rattle.std.specs.Prelude.{OnOk, OnSome, IsTrue};
ghost use Rattle.std.specs.BTreeSet.{contains, btree_set_len};
ghost use Rattle.std.specs.Ordering.{nat_cmp};
ghost use Rattle.caibx_codec.specs.Listing.{count_of, start_of, size_of};
ghost use Rattle.chunk_store.specs.Digests.{digest_of};
ghost use Rattle.range_survey.specs.Zeros.{Covers, AllDigests, IsPastSize, zeros_at};

use crate::fed_zeros::FedZeros;
use caibx_codec::index::Index;
use chunk_store::id::{ChunkId, DigestKind};
use std::alloc::{AllocError, Global};
use std::collections::{BTreeMap, BTreeSet};
use std::marker::Model;

/// The digests of one kind of runs of zeros, by their sizes. Contracts see it as that kind, and a table of sizes and
/// digests.
#[derive(Drop)]
pub struct ZeroDigests {
    kind: DigestKind,
    digests: BTreeMap<usize, ChunkId>,
}

impl Model for ZeroDigests {
    ghost use Rattle.range_survey.specs.Zeros.{AllDigests, ZeroTable};

    ghost Value = { ZeroTable };

    ghost view = { λ z. record { kind = z.kind; digests = z.digests.entries } };

    ghost invariant = { λ z. AllDigests z.kind z.digests.entries };
}

// Adds the size of the entry where that begins at or past `old`.
fn add_size(
    sizes: &mut BTreeSet<usize>,
    index: &Index,
    old: u64,
    i: usize,
) -> Result<(), AllocError>
    requires listed { i < count_of index.now }
    ensures known { OnOk result (old ≤ start_of index.now i →
        IsTrue (contains nat_cmp sizes.new (size_of index.now i))) }
    ensures kept { OnOk result ((n : ℕ) → IsTrue (contains nat_cmp sizes.old n) →
        IsTrue (contains nat_cmp sizes.new n)) }
    ensures only { OnOk result ((n : ℕ) → IsTrue (contains nat_cmp sizes.new n) →
        IsTrue (contains nat_cmp sizes.old n) ⊎ IsPastSize index.now old n) }
    ensures size { OnOk result (btree_set_len sizes.new ≤ btree_set_len sizes.old + 1) }
{
    let listed = index.entry(i);
    if old <= listed.start {
        sizes.insert(listed.size)?;
    }
    Ok(())
}

// The sizes of the entries that begin at or past `old`.
fn sizes_past(alloc: Global, index: &Index, old: u64) -> Result<BTreeSet<usize>, AllocError>
    ensures known { IfOk result (λ s. (i : ℕ) → i < count_of index.now → old ≤ start_of index.now i →
        IsTrue (contains nat_cmp s (size_of index.now i))) }
    ensures only { IfOk result (λ s. (n : ℕ) → IsTrue (contains nat_cmp s n) → IsPastSize index.now old n) }
    ensures size { IfOk result (λ s. btree_set_len s ≤ count_of index.now) }
{
    let mut sizes = BTreeSet::new(alloc);
    for i in 0..index.count() {
        add_size(&mut sizes, index, old, i)?;
    }
    Ok(sizes)
}

// Adds the digest of this many zeros, of which `zeros` has enough.
fn add_digest(
    digests: &mut BTreeMap<usize, ChunkId>,
    fed: &mut FedZeros,
    zeros: &[u8],
    size: usize,
) -> Result<(), AllocError>
    requires zeros { zeros.now ≡ replicate (length zeros.now) 0 }
    requires room { size ≤ length zeros.now }
    ensures known { OnOk result (IsSome (zeros_at digests.new.entries size)) }
    ensures kept { OnOk result ((n : ℕ) → IsSome (zeros_at digests.old.entries n) →
        IsSome (zeros_at digests.new.entries n)) }
    ensures only { OnOk result ((n : ℕ) → IsSome (zeros_at digests.new.entries n) →
        IsSome (zeros_at digests.old.entries n) ⊎ (n ≡ size)) }
    ensures named { OnOk result (AllDigests fed.old.kind digests.old.entries →
        AllDigests fed.old.kind digests.new.entries) }
    ensures kind { fed.new.kind ≡ fed.old.kind }
    ensures size { OnOk result (length digests.new.entries ≤ length digests.old.entries + 1) }
{
    let digest = fed.digest(zeros, size)?;
    digests.insert(size, digest)?;
    Ok(())
}

// The digests of this kind of as many zeros as each of the sizes says, the least first.
fn digests_of(
    alloc: Global,
    kind: DigestKind,
    mut sizes: BTreeSet<usize>,
    zeros: &[u8],
) -> Result<BTreeMap<usize, ChunkId>, AllocError>
    requires zeros { zeros.now ≡ replicate (length zeros.now) 0 }
    requires room { (n : ℕ) → IsTrue (contains nat_cmp sizes n) → n ≤ length zeros.now }
    ensures known { IfOk result (λ m. (n : ℕ) → IsTrue (contains nat_cmp sizes n) → IsSome (zeros_at m.entries n)) }
    ensures only { IfOk result (λ m. (n : ℕ) → IsSome (zeros_at m.entries n) → IsTrue (contains nat_cmp sizes n)) }
    ensures named { IfOk result (λ m. AllDigests kind m.entries) }
    ensures size { IfOk result (λ m. length m.entries ≤ btree_set_len sizes) }
{
    let mut fed = FedZeros::new(kind);
    let mut digests = BTreeMap::new(alloc);
    while let Some(size) = sizes.pop_first() {
        add_digest(&mut digests, &mut fed, zeros, size)?;
    }
    Ok(digests)
}

impl ZeroDigests {
    /// The digests of the index's kind for the sizes of the entries that begin at or past `old`, so that each zero is
    /// hashed once. `buf` has room for the largest entry, and is left with zeros.
    pub fn of(
        alloc: Global,
        index: &Index,
        old: u64,
        buf: &mut [u8],
    ) -> Result<ZeroDigests, AllocError>
        requires room { (i : ℕ) → i < count_of index.now → size_of index.now i ≤ length buf.old }
        ensures ok { IfOk result (λ z. Covers z index.now old) }
        ensures only { IfOk result (λ z. (n : ℕ) → IsSome (zeros_at z.digests n) → IsPastSize index.now old n) }
        ensures size { IfOk result (λ z. length z.digests ≤ count_of index.now) }
    {
        let kind = index.kind();
        let sizes = sizes_past(alloc, index, old)?;
        buf.fill(0);
        let digests = digests_of(alloc, kind, sizes, buf)?;
        Ok(ZeroDigests { kind, digests })
    }

    /// The digest of this kind of this many zeros, if the table has it.
    pub fn digest(&self, kind: DigestKind, size: usize) -> Option<ChunkId>
        ensures value { self.now.kind ≡ kind → result ≡ zeros_at self.now.digests size }
        ensures only { OnSome result ((self.now.kind ≡ kind) × IsSome (zeros_at self.now.digests size)) }
        ensures named { IfSome result (λ id. id.0 ≡ digest_of kind (replicate size 0)) }
    {
        match (self.kind, kind) {
            (DigestKind::Sha512T256, DigestKind::Sha512T256)
            | (DigestKind::Sha256, DigestKind::Sha256) => self.digests.get(&size).copied(),
            _ => None,
        }
    }
}
