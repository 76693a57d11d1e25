//! Shards: runs of neighbouring entries, nearly equally many in each. Ends are offsets in bytes.

ghost use Rattle.std.specs.Prelude.{◌≡◌, ◌<◌, ◌≤◌, ◌+◌, IfOk};
ghost use Rattle.caibx_fields.specs.Limits.{item_limit};
ghost use Rattle.caibx_codec.specs.Listing.{count_of};
ghost use Rattle.extract_plan.specs.Deal.{AreShardEnds, shard_start, shards_of};

use caibx_codec::index::Index;
use std::alloc::{AllocError, Global};

/// Into how many shards n entries are cut.
pub(crate) fn shards(workers: usize, n: usize) -> usize
    requires { workers ≤ 32 }
    ensures value { result ≡ shards_of workers n }
    ensures few { result ≤ 128 }
{
    let most = 4 * workers;
    if most < n { most } else { n }
}

/// The entry with which shard k of `shards` begins, of n entries.
pub(crate) fn start(n: usize, shards: usize, k: usize) -> usize
    requires entries { n ≤ item_limit }
    requires few { shards ≤ 128 }
    requires some { 0 < shards }
    requires full { shards ≤ n }
    requires inside { k ≤ shards }
    ensures value { result ≡ shard_start n shards k }
    ensures above { 0 < k → 0 < result }
    ensures inside { result ≤ n }
{
    k * n / shards
}

/// The shard that has this entry, of n entries that are cut into `shards` shards.
pub fn shard_of(n: usize, shards: usize, entry: usize) -> usize
    requires entries { n ≤ item_limit }
    requires few { shards ≤ n }
    requires some { 0 < shards }
    requires inside { entry < n }
    ensures from { shard_start n shards result ≤ entry }
    ensures to { entry < shard_start n shards (result + 1) }
    ensures inside { result < shards }
{
    ((entry + 1) * shards - 1) / n
}

/// The offsets at which the shards end.
pub(crate) fn cuts(alloc: Global, index: &Index, shards: usize) -> Result<Vec<u64>, AllocError>
    requires few { shards ≤ 128 }
    requires full { shards ≤ count_of index.now }
    ensures { IfOk result (λ v. AreShardEnds index.now shards v.items) }
{
    index.rules();
    let n = index.count();
    let mut cuts = Vec::new(alloc);
    for k in 0..shards {
        let next = start(n, shards, k + 1);
        cuts.push(index.end(next - 1))?;
    }
    Ok(cuts)
}
