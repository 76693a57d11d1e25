//! Which calls on a range of bytes are to fail. Offsets are bytes from 0, ends are exclusive.

ghost use Rattle.std.specs.Prelude.{◌≡◌, []};
ghost use Rattle.std.specs.List.{position};
ghost use Rattle.byte_forms.specs.Ranges.{covers, fails_at, after_call};

use std::alloc::{AllocError, Global};

/// The calls on a file in memory that are to fail.
#[derive(Debug, Drop)]
pub struct RangeFails {
    /// How often a read that covers the offset fails.
    pub reads: Vec<(u64, u32)>,
    /// How often a write that covers the offset fails.
    pub writes: Vec<(u64, u32)>,
    /// So many changes of the length fail first.
    pub set_len: u32,
    /// So many splits fail first.
    pub split: u32,
}

impl RangeFails {
    /// No call fails.
    pub fn none(alloc: Global) -> RangeFails
        ensures reads { result.reads.items ≡ [] }
        ensures writes { result.writes.items ≡ [] }
        ensures set_len { result.set_len ≡ 0 }
        ensures split { result.split ≡ 0 }
    {
        RangeFails {
            reads: Vec::new(alloc),
            writes: Vec::new(alloc),
            set_len: 0,
            split: 0,
        }
    }

    /// The calls that are to fail on the part with the offsets from `from` up to `to`, which are counted from `from`.
    pub(crate) fn within(
        &self,
        alloc: Global,
        from: u64,
        to: u64,
    ) -> Result<RangeFails, AllocError> {
        Ok(RangeFails {
            reads: pairs_within(alloc, &self.reads, from, to)?,
            writes: pairs_within(alloc, &self.writes, from, to)?,
            set_len: 0,
            split: 0,
        })
    }

    /// Takes back from such a part how often its calls are still to fail.
    pub(crate) fn take_back(&mut self, part: &RangeFails, from: u64, to: u64) {
        take_pairs_back(&mut self.reads, &part.reads, from, to);
        take_pairs_back(&mut self.writes, &part.writes, from, to);
    }
}

fn pairs_within(
    alloc: Global,
    pairs: &[(u64, u32)],
    from: u64,
    to: u64,
) -> Result<Vec<(u64, u32)>, AllocError> {
    let mut within = Vec::new(alloc);
    for pair in pairs.iter() {
        if from <= pair.0 && pair.0 < to {
            within.push((pair.0 - from, pair.1))?;
        }
    }
    Ok(within)
}

// The part's pairs stand in the order of the target's.
fn take_pairs_back(pairs: &mut [(u64, u32)], part: &[(u64, u32)], from: u64, to: u64) {
    let mut next = 0;
    for i in 0..pairs.len() {
        let offset = pairs[i].0;
        if from <= offset && offset < to && next < part.len() {
            pairs[i].1 = part[next].1;
            next += 1;
        }
    }
}

// The first pair that makes a call on the range fail.
fn covering(pairs: &[(u64, u32)], at: u64, end: u64) -> Option<usize>
    ensures { result ≡ position (covers at end) pairs.now }
{
    pairs
        .iter()
        .position(|pair| at <= pair.0 && pair.0 < end && 0 < pair.1)
}

/// Whether a call on the range is to fail. If so, its pair fails one time less from then on.
pub(crate) fn next_fails(pairs: &mut [(u64, u32)], at: u64, end: u64) -> bool
    ensures value { result ≡ fails_at pairs.old at end }
    ensures changed { pairs.new ≡ after_call pairs.old at end }
{
    let found = covering(pairs, at, end);
    match found {
        Some(i) => {
            pairs[i].1 = pairs[i].1.saturating_sub(1);
            true
        }
        None => false,
    }
}
