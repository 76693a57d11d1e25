//! Ids by vectors of their digests, and a store in memory through the bounds of its traits.

ghost use Rattle.std.specs.Prelude.{◌≤◌};

use crate::compare::{ok, same};
use crate::digests::{ABC, ABC_256, ABC_PATH, NOTHING};
use chunk_store::id::{ChunkId, DigestKind, NotHex};
use chunk_store::mem_store::MemStore;
use chunk_store::range::name_range;
use chunk_store::store::{GetFault, Store, StoreWrite};
use dsy_base::fault::{Failed, raise};
use dsy_base::view::View;
use std::process::Abort;

// The digest of these bytes has these digits.
fn is_named(rt: &impl Abort, kind: DigestKind, bytes: &[u8], digits: &str) {
    let id = ChunkId::of(kind, bytes);
    same(rt, id.to_hex().as_slice(), digits.as_bytes());
    same(rt, ChunkId::from_hex(digits), Ok(id));
    same(rt, id.is_of(kind, bytes), true);
    same(rt, id.is_of(kind, b"abd"), false);
}

#[test]
fn names_have_the_digests_digits(rt: HostRuntime) {
    is_named(&rt, DigestKind::Sha512T256, b"abc", ABC);
    is_named(&rt, DigestKind::Sha512T256, b"", NOTHING);
    is_named(&rt, DigestKind::Sha256, b"abc", ABC_256);
}

#[test]
fn a_path_has_four_digits_then_all(rt: HostRuntime) {
    let path = ChunkId::of(DigestKind::Sha512T256, b"abc").path();
    same(&rt, path.as_str(), ABC_PATH);
}

#[test]
fn only_64_digits_are_an_id(rt: HostRuntime) {
    let upper = "53048E2681941EF99B2E29B76B4C7DABE4C2D0C634FC6D46E0E2F13107E7AF23";
    let id = ChunkId::of(DigestKind::Sha512T256, b"abc");
    same(&rt, ChunkId::from_hex(upper), Ok(id));
    for text in [
        "",
        "5304",
        "53048e2681941ef99b2e29b76b4c7dabe4c2d0c634fc6d46e0e2f13107e7af2",
        "53048e2681941ef99b2e29b76b4c7dabe4c2d0c634fc6d46e0e2f13107e7af230",
        "53048e2681941ef99b2e29b76b4c7dabe4c2d0c634fc6d46e0e2f13107e7af2g",
        "53048e2681941ef99b2e29b76b4c7dabe4c2d0c634fc6d46e0e2f13107e7af2 ",
    ] {
        same(&rt, ChunkId::from_hex(text), Err(NotHex));
    }
}

// A view of the bytes `abc`, of which each read fails or none.
#[derive(Drop)]
struct Letters {
    fail: bool,
    faults: u64,
}

impl View for Letters {
    ghost use Rattle.std.specs.Prelude.{None, [], false, refl};
    ghost use Rattle.std.proofs.Common.{rules};

    ghost held = { λ _. record { bytes = None; size = 3; name = [] } };

    ghost faults = { λ v. v.faults };

    ghost tells = { false };

    ghost never_fails = { false };

    fn size(&self) -> u64 {
        3
    }

    fn read_at(&mut self, at: u64, out: &mut [u8]) -> Result<(), Failed> {
        if self.fail {
            self.faults = raise(self.faults, 1);
            return Err(Failed);
        }
        for (place, letter) in out.iter_mut().zip(b"abc".iter().skip(at as usize)) {
            *place = *letter;
        }
        Ok(())
    }

    ghost told = { λ _. refl };

    ghost sized = { λ _. tt };

    ghost sure = { Prim.search rules };
}

// The two bytes from this place on have the name of these.
fn names(rt: &impl Abort, at: u64, bytes: [u8; 2])
    requires { at ≤ 1 }
{
    let kind = DigestKind::Sha512T256;
    let mut out = [0; 2];
    let mut letters = Letters {
        fail: false,
        faults: 0,
    };
    let name = name_range(&mut letters, kind, at, &mut out);
    same(rt, name, Ok(ChunkId::of(kind, &bytes)));
    same(rt, out, bytes);
}

#[test]
fn a_range_is_named_by_its_bytes(rt: HostRuntime) {
    names(&rt, 0, *b"ab");
    names(&rt, 1, *b"bc");
    let mut letters = Letters {
        fail: true,
        faults: 0,
    };
    let name = name_range(&mut letters, DigestKind::Sha512T256, 1, &mut [0; 2]);
    same(&rt, name, Err(Failed));
    same(&rt, letters.faults, 1);
}

#[test]
fn ids_are_one_where_all_their_bytes_are(rt: HostRuntime) {
    let id = ChunkId([7; 32]);
    same(&rt, id.is(&ChunkId([7; 32])), true);
    for place in 0..32 {
        let mut other = [7; 32];
        other[place] = 8;
        same(&rt, id.is(&ChunkId(other)), false);
    }
}

// Puts chunks into an empty store, through the bound alone.
fn chunks_are_held_under_their_ids<S: StoreWrite>(rt: &impl Abort, mut s: S) {
    let (one, other) = (ChunkId([1; 32]), ChunkId([2; 32]));
    let mut out = [9; 4];
    same(rt, s.has(&one), Ok(false));
    same(rt, s.get(&one, &mut out), Err(GetFault::Missing));
    ok(rt, s.put(&one, b"abcde"));
    same(rt, s.get(&one, &mut out), Err(GetFault::Longer));
    ok(rt, s.put(&one, b"abc"));
    ok(rt, s.put(&other, b""));
    same(rt, s.has(&one), Ok(true));
    same(rt, s.get(&one, &mut out), Ok(3));
    same(rt, out, *b"abc\x09");
    same(rt, s.get(&other, &mut out), Ok(0));
    same(rt, s.has(&ChunkId([3; 32])), Ok(false));
}

#[test]
fn memory_holds_what_was_put_last(rt: HostRuntime) {
    chunks_are_held_under_their_ids(&rt, MemStore::new(rt.alloc()));
}
