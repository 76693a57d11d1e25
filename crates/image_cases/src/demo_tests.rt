//! Images by the worked examples.

use crate::compare::{ok, same};
use chunk_store::id::DigestKind;
use image_demo::bytes;
use image_demo::demo::demo_figures;
use image_demo::figures::Figures;

// The figures of an image of this many bytes in this many chunks, each of which is fetched.
fn fetched(bytes: u64, chunks: u64) -> Figures {
    Figures {
        bytes,
        chunks,
        distinct: chunks,
        kept: 0,
        copied: 0,
        seeded: 0,
        fetched: chunks,
    }
}

#[test]
fn one_byte_is_fetched(rt: HostRuntime) {
    let image = ok(&rt, bytes::image(rt.alloc(), 7, 1));
    same(&rt, image.as_slice(), b"\x7e".as_slice());
    same(
        &rt,
        demo_figures(&rt, rt.alloc(), 7, 1, 1, DigestKind::Sha512T256),
        Ok(fetched(1, 1)),
    );
}

#[test]
fn numbers_of_workers_beyond_the_bounds_count_as_the_bounds(rt: HostRuntime) {
    same(
        &rt,
        demo_figures(&rt, rt.alloc(), 7, 1, 0, DigestKind::Sha512T256),
        Ok(fetched(1, 1)),
    );
    same(
        &rt,
        demo_figures(&rt, rt.alloc(), 7, 1, 33, DigestKind::Sha512T256),
        Ok(fetched(1, 1)),
    );
}

#[test]
fn one_byte_is_fetched_by_either_digest(rt: HostRuntime) {
    same(
        &rt,
        demo_figures(&rt, rt.alloc(), 7, 1, 1, DigestKind::Sha256),
        Ok(fetched(1, 1)),
    );
}

#[test]
fn no_bytes_take_nothing(rt: HostRuntime) {
    same(
        &rt,
        demo_figures(&rt, rt.alloc(), 7, 0, 10, DigestKind::Sha512T256),
        Ok(fetched(0, 0)),
    );
}

#[test]
fn a_seed_differs_from_the_middle_on(rt: HostRuntime) {
    let seed = ok(&rt, bytes::seed(rt.alloc(), b"\x00\x01\x0f\xf0\x7e"));
    same(&rt, seed.as_slice(), b"\x00\x01\xf0\x0f\x81".as_slice());
}
