//! Calls in memory that fail, by their numbers from 0.

use crate::compare::ok;
use std::alloc::Global;
use std::process::Abort;

/// The numbers of the calls that fail: the one with this number.
pub fn fails(rt: &impl Abort, alloc: Global, call: u64) -> Vec<u64> {
    ok(rt, vec![in alloc; call])
}
