//! An image of six chunks, and views of it. The digests are from FIPS 180-4's example and
//! `openssl dgst -sha512-256`.

ghost use Rattle.std.specs.Prelude.{◌≡◌, All, map};
ghost use Rattle.image_slices.specs.Consumers.{IsAlike};

use crate::compare::ok;
use crate::gate::{Gate, GatedView};
use byte_forms::mem_view::MemView;
use caibx_codec::index::{Entry, Index};
use chunk_store::id::ChunkId;
use dsy_base::view::View;
use std::alloc::Global;
use std::process::Abort;
use std::sync::Arc;

/// The image that the index lists, in chunks of three bytes.
pub const IMAGE: &[u8] = b"abcdefghijklmnopqr";

// The digests of its chunks.
const IDS: [&str; 6] = [
    "53048e2681941ef99b2e29b76b4c7dabe4c2d0c634fc6d46e0e2f13107e7af23",
    "f391834ba55302124fbcfc8df6831a666e468b310e99295e1fce0abf8ef9ec3f",
    "63123fe62044f1e4dbbf64b82b92ab2eac598efe9171126ddf9faa8865267d99",
    "7f5adb26c3f53b3fed0d67b85b129fc19ee8df23dffdcc40167b3d9833fa3fb0",
    "6b3443850ca9b33d2f554e50266c9316740a1488d1a8b2bc9c99f5a0e56da303",
    "5edab707759604f989d55b6fb4aaac8de1192b30b7f07d1a6afa442d2e058c8f",
];

/// The digest of `deX`.
pub const DEX: &str = "99fd98af64dbf7b52833a40d79bb5d8719070460665c2be3a01a01a88c57b2ef";

/// The id in these digits.
pub fn id_of(rt: &impl Abort, text: &str) -> ChunkId {
    ok(rt, ChunkId::from_hex(text))
}

/// The index of the image.
pub fn index(rt: &impl Abort, alloc: Global) -> Index {
    let mut entries = Vec::new(alloc);
    let mut end = 0u64;
    for text in &IDS {
        end = end.saturating_add(3);
        let id = id_of(rt, text);
        ok(rt, entries.push(Entry { end, id }));
    }
    ok(
        rt,
        Index::new(0xa000_0000_0000_0000, 16_384, 65_536, 262_144, entries),
    )
}

// A view of these bytes, whose calls with these numbers fail.
fn view_of(
    rt: &impl Abort,
    alloc: Global,
    bytes: &[u8],
    fails: Vec<u64>,
    gate: Option<Arc<Gate, Global>>,
) -> GatedView
    ensures { result.view.bytes.items ≡ bytes.now }
{
    let view = MemView::new(alloc, ok(rt, Vec::from_slice(alloc, bytes)), fails);
    GatedView::new(view, gate)
}

// So many views of these bytes, whose first reads fail.
fn failing_views(rt: &impl Abort, alloc: Global, bytes: &[u8], count: usize) -> Vec<GatedView>
    ensures { All (λ v. v.view.bytes.items ≡ bytes.now) result.items }
{
    let mut views = Vec::new(alloc);
    for _view in 0..count {
        let fails = ok(rt, vec![in alloc; 0]);
        ok(rt, views.push(view_of(rt, alloc, bytes, fails, None)));
    }
    views
}

// So many views of these bytes, which pass the gate first, where there is one.
fn good_views(
    rt: &impl Abort,
    alloc: Global,
    bytes: &[u8],
    count: usize,
    gate: Option<&Arc<Gate, Global>>,
) -> Vec<GatedView>
    ensures { All (λ v. v.view.bytes.items ≡ bytes.now) result.items }
{
    let mut views = Vec::new(alloc);
    for _view in 0..count {
        let through = match gate {
            Some(gate) => Some(ok(rt, Arc::try_clone(gate))),
            None => None,
        };
        ok(
            rt,
            views.push(view_of(rt, alloc, bytes, Vec::new(alloc), through)),
        );
    }
    views
}

/// How the views beside the first one are.
#[derive(Clone, Copy)]
pub enum Others {
    /// So many, which are read.
    Good(usize),
    /// So many, of which each fails once.
    Failing(usize),
}

/// A view of these bytes, and others beside it.
pub fn views_of(
    rt: &impl Abort,
    alloc: Global,
    bytes: &[u8],
    others: Others,
) -> (GatedView, Vec<GatedView>)
    ensures { All (IsAlike (⟦<GatedView as View>⟧.held result.0)) (map ⟦<GatedView as View>⟧.held result.1.items) }
{
    let first = view_of(rt, alloc, bytes, Vec::new(alloc), None);
    let others = match others {
        Others::Good(count) => good_views(rt, alloc, bytes, count, None),
        Others::Failing(count) => failing_views(rt, alloc, bytes, count),
    };
    (first, others)
}

/// Two views of these bytes, which pass the gate first.
pub fn gated_views(
    rt: &impl Abort,
    alloc: Global,
    bytes: &[u8],
    gate: &Arc<Gate, Global>,
) -> (GatedView, Vec<GatedView>)
    ensures { All (IsAlike (⟦<GatedView as View>⟧.held result.0)) (map ⟦<GatedView as View>⟧.held result.1.items) }
{
    let through = Some(ok(rt, Arc::try_clone(gate)));
    let first = view_of(rt, alloc, bytes, Vec::new(alloc), through);
    (first, good_views(rt, alloc, bytes, 1, Some(gate)))
}
