//! Indexes of small images, and readers over stores in memory. The digests are from FIPS 180-4's example and another
//! program (`openssl dgst -sha512-256`). Sizes are in bytes.

ghost use Rattle.std.specs.Prelude.{◌≡◌};
ghost use Rattle.caibx_codec.specs.Listing.{image_length};

use crate::compare::{ok, same};
use caibx_codec::index::{Entry, Index};
use chunk_store::id::ChunkId;
use image_reader::reader::ImageReader;
use image_reader::refused::ReadRefused;
use std::alloc::Global;
use std::process::Abort;
use store_chain::chain::Chain;
use store_forms::scripted_store::{Refuses, ScriptedStore};

/// SHA-512/256 of `abc`, from FIPS 180-4's examples. The others are from `openssl dgst -sha512-256`.
pub const ABC: &str = "53048e2681941ef99b2e29b76b4c7dabe4c2d0c634fc6d46e0e2f13107e7af23";

/// SHA-512/256 of `abX`.
pub const ABX: &str = "69b9fe464181451d00de83054c5fd4017d2537e0c35399e228a72f14ec546a03";

/// SHA-512/256 of `def`.
pub const DEF: &str = "f391834ba55302124fbcfc8df6831a666e468b310e99295e1fce0abf8ef9ec3f";

/// SHA-512/256 of `ghi`.
pub const GHI: &str = "63123fe62044f1e4dbbf64b82b92ab2eac598efe9171126ddf9faa8865267d99";

/// A chunk that an index lists: its id in digits, and its size.
pub type Listed = (&'static str, u64);

/// `abcdefghi`, in three chunks.
pub const THREE: &[Listed] = &[(ABC, 3), (DEF, 3), (GHI, 3)];

/// `abcdefabc`, in three chunks.
pub const AGAIN: &[Listed] = &[(ABC, 3), (DEF, 3), (ABC, 3)];

/// What a store holds: under these digits these bytes.
pub type Held = (&'static str, &'static [u8]);

/// All three chunks.
pub const ALL: &[Held] = &[(ABC, b"abc"), (DEF, b"def"), (GHI, b"ghi")];

/// The id in these digits.
pub fn id_of(rt: &impl Abort, digits: &str) -> ChunkId {
    ok(rt, ChunkId::from_hex(digits))
}

/// The index of these chunks, by SHA-512/256.
pub fn index_of(rt: &impl Abort, alloc: Global, chunks: &[Listed]) -> Index {
    let mut entries = Vec::new(alloc);
    let mut end = 0u64;
    for (digits, size) in chunks {
        end = end.saturating_add(*size);
        let id = id_of(rt, digits);
        ok(rt, entries.push(Entry { end, id }));
    }
    ok(
        rt,
        Index::new(0xa000_0000_0000_0000, 16_384, 65_536, 262_144, entries),
    )
}

/// A store that holds these, and refuses such calls.
pub fn store_of(rt: &impl Abort, alloc: Global, held: &[Held], refuses: Refuses) -> ScriptedStore {
    let mut store = ScriptedStore::new(alloc, refuses);
    for (digits, bytes) in held {
        ok(rt, store.set_chunk(&id_of(rt, digits), bytes));
    }
    store
}

/// A reader of an image in memory, with the length of the image.
#[derive(Drop)]
pub struct Opened {
    pub reader: ImageReader<ScriptedStore>,
    pub length: u64,
    ghost fits: { length ≡ image_length reader.index },
}

/// A reader that keeps this many chunks, over these stores.
pub fn open(
    rt: &impl Abort,
    alloc: Global,
    chunks: &[Listed],
    stores: Vec<ScriptedStore>,
    keep: usize,
) -> Opened {
    let index = index_of(rt, alloc, chunks);
    let length = index.length();
    assert!(rt; 1 <= stores.len() && stores.len() <= 16);
    assert!(rt; 1 <= keep && keep <= 64);
    let chain = Chain::with_kind(index.kind(), stores);
    match ImageReader::new(alloc, index, chain, keep) {
        Ok(reader) => Opened { reader, length },
        Err(_) => rt.abort(),
    }
}

/// A reader that keeps this many chunks, over one store that holds these.
pub fn open_over(
    rt: &impl Abort,
    alloc: Global,
    chunks: &[Listed],
    held: &[Held],
    keep: usize,
) -> Opened {
    let store = store_of(rt, alloc, held, Refuses::Nothing);
    open(rt, alloc, chunks, ok(rt, vec![in alloc; store]), keep)
}

impl Opened {
    /// What is answered of a range, and what stands in the buffer then.
    pub fn read(&mut self, rt: &impl Abort, at: u64, out: &mut [u8]) -> Result<(), ReadRefused> {
        assert!(rt; at <= self.length && out.len() as u64 <= self.length - at);
        self.reader.read_at(at, out)
    }

    /// The bytes from this offset on are these, and the stores have been asked so often then.
    pub fn gives(&mut self, rt: &impl Abort, alloc: Global, at: u64, want: &[u8], asks: u64) {
        let mut out = ok(rt, vec![in alloc; 0u8; want.len()]);
        same(rt, self.read(rt, at, out.as_mut_slice()), Ok(()));
        same(rt, out.as_slice(), want);
        same(rt, self.reader.asks(), asks);
    }

    /// The range is refused so, and the stores have been asked so often then.
    pub fn refuses(
        &mut self,
        rt: &impl Abort,
        alloc: Global,
        at: u64,
        size: usize,
        why: ReadRefused,
        asks: u64,
    ) {
        let mut out = ok(rt, vec![in alloc; 0u8; size]);
        same(rt, self.read(rt, at, out.as_mut_slice()), Err(why));
        same(rt, self.reader.asks(), asks);
    }
}
