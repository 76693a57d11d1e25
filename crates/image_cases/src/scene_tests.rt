//! Scenes by chance in memory, which several workers assemble as one does. Chunks have three bytes.

ghost use Rattle.std.specs.Prelude.{◌≡◌, ◌≤◌, length, vec_len};
ghost use Rattle.std.specs.List.{All};
ghost use Rattle.caibx_codec.specs.Listing.{kind_of};
ghost use Rattle.chunk_store.specs.declared.id.DigestKind.TheVariants as kinds;

use crate::assembly_tests::target_of;
use crate::compare::{ok, same};
use crate::indexes::{by_sha512, id_of_piece};
use assembler::fault::ExtractFault;
use byte_forms::mem_view::MemView;
use byte_forms::ranges::RangeFails;
use cache_store::shelf::CacheShelf;
use caibx_codec::index::{Entry, Index};
use chunk_sources::kit::Kit;
use chunk_store::id::ChunkId;
use dsy_forms::mem_folder::MemFolder;
use extract_plan::plan::Plan;
use extract_plan::seed::Seed;
use extract_plan::seeds::SeedIndex;
use image_assembly::assemble::assemble;
use image_workers::assembled::Assembled;
use range_survey::report::Report;
use std::alloc::Global;
use std::process::Abort;
use std::sync::Wait;
use std::thread::Threads;
use store_chain::chain::Chain;
use store_forms::scripted_store::{Refuses, ScriptedStore};

// How many different chunks there are. Chunk 0 is of zeros.
const CHUNKS: u64 = 12;

// Numbers by chance, from a linear congruence.
#[derive(Drop)]
struct Chance {
    state: u64,
}

impl Chance {
    fn below(&mut self, most: u64) -> u64 {
        self.state = self
            .state
            .wrapping_mul(6_364_136_223_846_793_005)
            .wrapping_add(1_442_695_040_888_963_407);
        (self.state >> 33) % most.max(1)
    }
}

fn chunk(number: u64) -> [u8; 3] {
    let byte = (number % 256) as u8;
    [0, byte, byte]
}

// This many numbers below `most`.
fn numbers(rt: &impl Abort, alloc: Global, chance: &mut Chance, count: u64, most: u64) -> Vec<u64> {
    let mut numbers = Vec::new(alloc);
    for _ in 0..count {
        ok(rt, numbers.push(chance.below(most)));
    }
    numbers
}

// The index of an image of the chunks with these numbers.
fn index_of(rt: &impl Abort, alloc: Global, image: &[u64]) -> Index
    ensures { kind_of result ≡ kinds.Sha512T256 }
{
    let mut entries = Vec::new(alloc);
    let mut end = 0u64;
    for number in image {
        end = end.saturating_add(3);
        let id = id_of_piece(&chunk(*number));
        ok(rt, entries.push(Entry { end, id }));
    }
    let index = ok(rt, Index::new(0xa000_0000_0000_0000, 1, 2, 64, entries));
    by_sha512(rt, index)
}

// The bytes of such an image, in which each chunk is another one where its mark is 0.
fn bytes_of(rt: &impl Abort, alloc: Global, image: &[u64], marks: &[u64]) -> Vec<u8> {
    let mut bytes = Vec::new(alloc);
    for (number, mark) in image.iter().zip(marks) {
        let chunk = if *mark == 0 { *b"???" } else { chunk(*number) };
        ok(rt, bytes.extend_from_slice(&chunk));
    }
    bytes
}

// The ids of all chunks, in the order of their numbers.
fn ids_of(rt: &impl Abort, alloc: Global) -> Vec<ChunkId> {
    let mut ids = Vec::new(alloc);
    for number in 0..CHUNKS {
        ok(rt, ids.push(id_of_piece(&chunk(number))));
    }
    ids
}

// A store of the chunk of each id: absent where its mark is 0, damaged where it is 1, else right.
fn store_of(
    rt: &impl Abort,
    alloc: Global,
    ids: &[ChunkId],
    marks: &[u64],
    refuses: Refuses,
) -> ScriptedStore {
    let mut store = ScriptedStore::new(alloc, refuses);
    let mut number = 0u64;
    for (id, mark) in ids.iter().zip(marks) {
        if 1 < *mark {
            ok(rt, store.set_chunk(id, &chunk(number)));
        } else if *mark == 1 {
            ok(rt, store.set_chunk(id, b"???"));
        }
        number = number.wrapping_add(1);
    }
    store
}

// What chunks come from: the bytes of a seed, and the marks of two stores, of which the first may refuse calls.
#[derive(Drop)]
struct Origins {
    ids: Vec<ChunkId>,
    seed: Vec<u8>,
    first: Vec<u64>,
    refuses: Refuses,
    second: Vec<u64>,
}

// A kit of this seed, and of these stores.
fn scene_kit(rt: &impl Abort, alloc: Global, origins: &Origins) -> Kit<ScriptedStore, MemView>
    ensures kind { result.chain.kind ≡ kinds.Sha512T256 }
    ensures one { length result.seeds.items ≡ 1 }
{
    let mut stores = Vec::new(alloc);
    let first = store_of(rt, alloc, &origins.ids, &origins.first, origins.refuses);
    ok(rt, stores.push(first));
    let second = store_of(rt, alloc, &origins.ids, &origins.second, Refuses::Nothing);
    ok(rt, stores.push(second));
    let mut seeds = Vec::new(alloc);
    let bytes = ok(rt, Vec::from_slice(alloc, &origins.seed));
    let view = MemView::new(alloc, bytes, Vec::new(alloc));
    ok(rt, seeds.push(Seed { view: Some(view) }));
    Kit::new(alloc, Chain::new(stores), seeds)
}

// This many kits that are alike.
fn scene_kits(
    rt: &impl Abort,
    alloc: Global,
    origins: &Origins,
    count: usize,
) -> Vec<Kit<ScriptedStore, MemView>>
    ensures size { vec_len result ≡ count }
    ensures kind { All (λ k. k.chain.kind ≡ kinds.Sha512T256) result.items }
    ensures one { All (λ k. length k.seeds.items ≡ 1) result.items }
{
    let mut kits = Vec::new(alloc);
    while kits.len() < count {
        ok(rt, kits.push(scene_kit(rt, alloc, origins)));
    }
    kits
}

// How an assembly ended, and what the target holds then.
#[derive(Debug, PartialEq, Eq, Drop)]
struct Left {
    answer: Result<Report, ExtractFault>,
    bytes: Vec<u8>,
}

// An image of these chunks, the bytes of its target and which of its calls fail, and what the seed lists.
#[derive(Drop)]
struct Scene {
    image: Vec<u64>,
    old: Vec<u8>,
    fails: Option<u64>,
    listed: Vec<u64>,
    origins: Origins,
}

// The scene of this number. In each second one a store fails whenever it is asked for the first chunk, and in each
// fourth one the target whenever a certain byte is written.
fn scene_of(rt: &impl Abort, alloc: Global, number: u64) -> Scene {
    let mut chance = Chance { state: number };
    let entries = chance.below(20);
    let image = numbers(rt, alloc, &mut chance, entries, CHUNKS);
    let marks = numbers(rt, alloc, &mut chance, entries, 2);
    let old = bytes_of(rt, alloc, &image, &marks);
    let listed = numbers(rt, alloc, &mut chance, 4, CHUNKS);
    let marks = numbers(rt, alloc, &mut chance, 4, 3);
    let seed = bytes_of(rt, alloc, &listed, &marks);
    let first = numbers(rt, alloc, &mut chance, CHUNKS, 6);
    let second = numbers(rt, alloc, &mut chance, CHUNKS, 6);
    let byte = chance.below(entries.saturating_mul(3));
    let refuses = match image.first() {
        Some(needed) if is_failing(number) => Refuses::Id(id_of_piece(&chunk(*needed))),
        _ => Refuses::Nothing,
    };
    let origins = Origins {
        ids: ids_of(rt, alloc),
        seed,
        first,
        refuses,
        second,
    };
    Scene {
        image,
        old,
        fails: (number % 4 == 3).then_some(byte),
        listed,
        origins,
    }
}

fn is_failing(number: u64) -> bool {
    number % 2 == 1
}

// What this many workers leave of a scene, 1 to 32 of them.
fn left_by<H: Abort + Threads + Wait + Sync>(
    rt: &H,
    alloc: Global,
    scene: &Scene,
    count: usize,
) -> Left
    requires size { (1 ≤ count) × (count ≤ 32) }
{
    let index = index_of(rt, alloc, &scene.image);
    let plan = ok(rt, Plan::of(alloc, &index, 1));
    let seeds = [index_of(rt, alloc, &scene.listed)];
    let places = ok(rt, SeedIndex::of(alloc, &plan, &index, &seeds));
    let mut fails = RangeFails::none(alloc);
    if let Some(byte) = scene.fails {
        ok(rt, fails.writes.push((byte, u32::MAX)));
    }
    let old = target_of(rt, alloc, &scene.old, fails);
    let kits = scene_kits(rt, alloc, &scene.origins, count);
    let none = None::<CacheShelf<MemFolder>>;
    let Assembled { target, answer, .. } = assemble(rt, alloc, &index, &places, old, kits, none);
    let bytes = ok(rt, Vec::from_slice(alloc, target.bytes()));
    Left { answer, bytes }
}

// These are alike. Where calls fail, which refusal is answered and what stands then may differ.
fn agree(rt: &impl Abort, many: Left, alone: &Left, failing: bool) {
    same(rt, many.answer.is_ok(), alone.answer.is_ok());
    if !failing {
        same(rt, many.answer, alone.answer);
    }
    if !failing || alone.answer.is_ok() {
        same(rt, many.bytes.as_slice(), alone.bytes.as_slice());
    }
}

// What several workers leave of the scene of this number is what one leaves.
fn compares<H: Abort + Threads + Wait + Sync>(rt: &H, alloc: Global, number: u64) {
    let scene = scene_of(rt, alloc, number);
    let failing = is_failing(number);
    let alone = left_by(rt, alloc, &scene, 1);
    agree(rt, left_by(rt, alloc, &scene, 2), &alone, failing);
    agree(rt, left_by(rt, alloc, &scene, 3), &alone, failing);
    agree(rt, left_by(rt, alloc, &scene, 10), &alone, failing);
    agree(rt, left_by(rt, alloc, &scene, 32), &alone, failing);
}

#[test]
fn any_number_of_workers_leaves_the_same(rt: HostRuntime) {
    for number in 0..16 {
        compares(&rt, rt.alloc(), number);
    }
}
