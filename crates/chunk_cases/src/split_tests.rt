//! Tests of targets that are split and rejoined.

ghost use Rattle.std.specs.Prelude.{◌≡◌, IfSome, length};
ghost use Rattle.std.specs.List.{sum_by};

use crate::compare::{ok, same};
use crate::ranges::{holds, writes};
use byte_forms::mem_target::MemTarget;
use byte_forms::ranges::RangeFails;
use dsy_base::fault::SplitFault;
use dsy_base::view::{Target, View};
use dsy_sure::sure_bytes::SureBytes;
use std::alloc::Global;
use std::process::Abort;

// The rest, and the parts before and after the cut.
fn split_in_two<T: Target>(rt: &impl Abort, t: T, cut: u64) -> (T::Rest, Vec<T::Piece>)
    ensures size { (T.left result.0).size ≡ (T.held t).size }
    ensures parts { length result.1.items ≡ 2 }
{
    let size = t.size();
    assert!(rt; 0 < cut && cut < size);
    t.split(&[cut, size]).ok().expect(rt, "it is split")
}

fn sizes<P: View>(parts: &[P]) -> Option<u64>
    ensures { IfSome result (λ n. n ≡ sum_by (λ p. (P.held p).size) parts.now) }
{
    let mut total: u64 = 0;
    for part in parts.iter() {
        total = total.checked_add(part.size())?;
    }
    Some(total)
}

fn rejoined<T: Target>(rt: &impl Abort, rest: T::Rest, parts: Vec<T::Piece>, size: u64) -> T
    requires { size ≡ (T.left rest).size }
{
    assert!(rt; sizes(&parts) == Some(size));
    T::rejoin(rest, parts)
}

// "abcdef" in two parts, of which the second is written.
fn the_second_part_is_written<T: Target>(rt: &impl Abort, alloc: Global, t: T) -> T {
    let size = t.size();
    let (rest, mut parts) = split_in_two(rt, t, 2);
    holds(rt, alloc, &mut parts[0], b"ab");
    holds(rt, alloc, &mut parts[1], b"cdef");
    same(rt, writes(&mut parts[1], 1, b"xy"), true);
    rejoined(rt, rest, parts, size)
}

#[test]
fn a_rejoined_target_holds_what_its_parts_hold(rt: HostRuntime) {
    let alloc = rt.alloc();
    let bytes = ok(&rt, b"abcdef".to_vec(alloc));
    let t = MemTarget::new(alloc, bytes, RangeFails::none(alloc));
    same(
        &rt,
        the_second_part_is_written(&rt, alloc, t).bytes(),
        b"abcxyf".as_slice(),
    );
    let t = SureBytes::new(alloc, ok(&rt, b"abcdef".to_vec(alloc)));
    same(
        &rt,
        the_second_part_is_written(&rt, alloc, t).bytes(),
        b"abcxyf".as_slice(),
    );
}

#[test]
fn an_empty_target_has_no_parts(rt: HostRuntime) {
    let alloc = rt.alloc();
    let t = MemTarget::new(alloc, Vec::new(alloc), RangeFails::none(alloc));
    let (rest, parts) = t.split(&[]).ok().expect(&rt, "it is split");
    same(&rt, parts.len(), 0);
    same(&rt, MemTarget::rejoin(rest, parts).size(), 0);
}

#[test]
fn a_split_fails_as_stated(rt: HostRuntime) {
    let alloc = rt.alloc();
    let mut stated = RangeFails::none(alloc);
    stated.split = 1;
    let t = MemTarget::new(alloc, ok(&rt, b"ab".to_vec(alloc)), stated);
    let (t, fault) = t.split(&[1, 2]).err().expect(&rt, "it isn't split");
    same(&rt, fault, SplitFault::Failed);
    same(&rt, t.bytes(), b"ab".as_slice());
    same(&rt, t.split(&[1, 2]).is_ok(), true);
}

// The write at 2 of the target fails twice: once in its part, and once in the target that was rejoined.
#[test]
fn each_part_has_the_writes_that_fail(rt: HostRuntime) {
    let alloc = rt.alloc();
    let mut stated = RangeFails::none(alloc);
    stated.writes = ok(&rt, vec![in alloc; (0u64, 0u32), (2u64, 2u32)]);
    let t = MemTarget::new(alloc, ok(&rt, b"abcd".to_vec(alloc)), stated);
    let (rest, mut parts) = split_in_two(&rt, t, 1);
    same(&rt, writes(&mut parts[0], 0, b"-"), true);
    same(&rt, writes(&mut parts[1], 0, b"-"), true);
    same(&rt, writes(&mut parts[1], 1, b"-"), false);
    holds(&rt, alloc, &mut parts[1], b"-\xeed");
    let mut t: MemTarget = rejoined(&rt, rest, parts, 4);
    same(&rt, t.bytes(), b"--\xeed".as_slice());
    same(&rt, writes(&mut t, 2, b"-"), false);
    same(&rt, writes(&mut t, 2, b"-"), true);
}
