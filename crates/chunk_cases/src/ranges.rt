//! Ranges of what is read and written by place. Offsets are bytes from 0.

use crate::compare::{ok, same};
use dsy_base::view::{Part, View};
use std::alloc::Global;
use std::process::Abort;

/// Whether the range lies inside and a write to it succeeds.
pub fn writes<T: Part>(t: &mut T, at: u64, b: &[u8]) -> bool {
    let size = t.size();
    at <= size && b.len() as u64 <= size - at && t.write_at(at, b).is_ok()
}

/// Whether the range lies inside and a read of it succeeds.
pub fn reads<V: View>(v: &mut V, at: u64, out: &mut [u8]) -> bool {
    let size = v.size();
    at <= size && out.len() as u64 <= size - at && v.read_at(at, out).is_ok()
}

/// The view holds these bytes from offset `at` on, up to its end.
pub fn ends_in<V: View>(rt: &impl Abort, alloc: Global, v: &mut V, at: u64, want: &[u8]) {
    let mut out = ok(rt, vec![in alloc; 0u8; want.len()]);
    same(rt, v.size().checked_sub(at), Some(want.len() as u64));
    same(rt, reads(v, at, out.as_mut_slice()), true);
    same(rt, out.as_slice(), want);
}

/// The view holds these bytes.
pub fn holds<V: View>(rt: &impl Abort, alloc: Global, v: &mut V, want: &[u8]) {
    ends_in(rt, alloc, v, 0, want);
}
