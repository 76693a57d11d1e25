//! Images that several workers assemble side by side, from stores that wait for one another.

ghost use Rattle.std.specs.Prelude.{◌≡◌, ◌≤◌, length, vec_len};
ghost use Rattle.std.specs.List.{All};
ghost use Rattle.chunk_store.specs.declared.id.DigestKind.TheVariants as kinds;

use crate::assembly_tests::{counts, target_of};
use crate::compare::{ok, same};
use crate::indexes::{id_of_piece, index_of_pieces};
use byte_forms::mem_view::MemView;
use byte_forms::ranges::RangeFails;
use cache_store::shelf::CacheShelf;
use caibx_codec::index::Index;
use chunk_sources::kit::Kit;
use chunk_store::id::ChunkId;
use chunk_store::mem_store::MemStore;
use chunk_store::store::{GetFault, Store, StoreWrite};
use dsy_base::fault::IoFault;
use dsy_forms::mem_folder::MemFolder;
use extract_plan::plan::Plan;
use extract_plan::seeds::SeedIndex;
use image_assembly::assemble::assemble;
use image_workers::assembled::Assembled;
use std::alloc::Global;
use std::process::Abort;
use std::sync::atomic::{AtomicU64, Ordering};
use std::sync::{Arc, Wait};
use std::thread;
use std::thread::Threads;
use store_chain::chain::Chain;

// How many turns a store waits for another one.
const TURNS: u64 = 10_000_000;

// Where each of several stores waits once, for this many turns at most, until another one is asked.
#[derive(Drop)]
pub(crate) struct StoreGate {
    asked: AtomicU64,
    passed: AtomicU64,
}

impl StoreGate {
    pub(crate) fn new() -> StoreGate {
        StoreGate {
            asked: AtomicU64::new(0),
            passed: AtomicU64::new(0),
        }
    }

    // How many stores have passed.
    pub(crate) fn passed(&self) -> u64 {
        self.passed.load(Ordering::SeqCst)
    }

    // Waits for another store to be asked.
    pub(crate) fn wait(&self) {
        let _ = self.asked.fetch_add(1, Ordering::SeqCst);
        for _ in 0..TURNS {
            if 2 <= self.asked.load(Ordering::SeqCst) {
                let _ = self.passed.fetch_add(1, Ordering::SeqCst);
                return;
            }
            thread::yield_now();
        }
    }
}

// Chunks in memory as a store, which is first asked through a gate.
#[derive(Drop)]
pub(crate) struct GatedStore {
    chunks: MemStore,
    gate: Arc<StoreGate, Global>,
    waited: bool,
}

impl Store for GatedStore {
    ghost use Rattle.std.specs.Prelude.{[], true, false, refl};
    ghost use Rattle.chunk_store.specs.Said.{answers_alone, just_one, says_map, vouched_map};

    ghost holds = { λ s. ⟦<MemStore as Store>⟧.holds s.chunks };

    ghost members = { λ s. just_one (⟦<MemStore as Store>⟧.holds s.chunks) };

    ghost said = { λ s. ⟦<MemStore as Store>⟧.said s.chunks };

    ghost asked = { λ _ _. 0 };

    ghost queried = { λ _ _. 0 };

    ghost faults = { λ _. 0 };

    ghost place = { λ _. [] };

    ghost tells = { true };

    ghost never_fails = { true };

    ghost told_never_fail = { true };

    ghost may_lack_memory = { false };

    fn get(&mut self, id: &ChunkId, out: &mut [u8]) -> Result<usize, GetFault> {
        if !self.waited {
            self.waited = true;
            self.gate.wait();
        }
        self.chunks.get(id, out)
    }

    fn giver(&self) -> usize {
        0
    }

    fn has(&mut self, id: &ChunkId) -> Result<bool, IoFault> {
        self.chunks.has(id)
    }

    ghost alone = { λ s. answers_alone (⟦<MemStore as Store>⟧.holds s.chunks) };

    ghost vouched = { λ s. vouched_map (⟦<MemStore as Store>⟧.holds s.chunks) };

    ghost says = { λ s. says_map (⟦<MemStore as Store>⟧.holds s.chunks) };

    ghost lies = { λ _. tt };

    ghost unasked = { λ _ _. (refl, refl) };

    ghost told = { λ _ _. refl };

    ghost sure = { λ _ _. refl };

    ghost steady = { λ _ _ _. refl };
}

// A kit without seeds, of one store of these chunks.
fn gated_kit(
    rt: &impl Abort,
    alloc: Global,
    gate: &Arc<StoreGate, Global>,
    pieces: &[&[u8]],
) -> Kit<GatedStore, MemView>
    ensures kind { result.chain.kind ≡ kinds.Sha512T256 }
    ensures none { length result.seeds.items ≡ 0 }
{
    let mut chunks = MemStore::new(alloc);
    for piece in pieces {
        ok(rt, chunks.put(&id_of_piece(piece), piece));
    }
    let mut stores = Vec::new(alloc);
    let store = GatedStore {
        chunks,
        gate: ok(rt, Arc::try_clone(gate)),
        waited: false,
    };
    ok(rt, stores.push(store));
    Kit::new(alloc, Chain::new(stores), Vec::new(alloc))
}

// This many of them, with the same gate.
pub(crate) fn gated_kits(
    rt: &impl Abort,
    alloc: Global,
    gate: &Arc<StoreGate, Global>,
    pieces: &[&[u8]],
    count: usize,
) -> Vec<Kit<GatedStore, MemView>>
    ensures size { vec_len result ≡ count }
    ensures kind { All (λ k. k.chain.kind ≡ kinds.Sha512T256) result.items }
    ensures none { All (λ k. length k.seeds.items ≡ 0) result.items }
{
    let mut kits = Vec::new(alloc);
    while kits.len() < count {
        ok(rt, kits.push(gated_kit(rt, alloc, gate, pieces)));
    }
    kits
}

// How often the stores of all kits were asked.
pub(crate) fn asks_of(kits: &[Kit<GatedStore, MemView>]) -> u64 {
    let mut asks = 0u64;
    for kit in kits {
        asks = asks.saturating_add(kit.chain.asks());
    }
    asks
}

// Assembles six chunks with this many kits. Each store passes the gate, and each chunk is asked for once.
fn assembles_beside<H: Abort + Threads + Wait + Sync>(rt: &H, alloc: Global, count: usize)
    requires size { (1 ≤ count) × (count ≤ 32) }
{
    let pieces = [b"abc".as_slice(), b"def", b"ghi", b"jkl", b"mno", b"pqr"];
    let index = index_of_pieces(rt, alloc, &pieces);
    let plan = ok(rt, Plan::of(alloc, &index, 1));
    let seeds: [Index; 0] = [];
    let places = ok(rt, SeedIndex::of(alloc, &plan, &index, &seeds));
    let gate = ok(rt, Arc::new(alloc, StoreGate::new()));
    let kits = gated_kits(rt, alloc, &gate, &pieces, count);
    let old = target_of(rt, alloc, b"", RangeFails::none(alloc));
    let none = None::<CacheShelf<MemFolder>>;
    let Assembled {
        target,
        kits,
        answer,
        ..
    } = assemble(rt, alloc, &index, &places, old, kits, none);
    same(rt, answer, counts(0, 0, 0, 6));
    same(rt, target.bytes(), b"abcdefghijklmnopqr".as_slice());
    same(rt, gate.passed(), count as u64);
    same(rt, asks_of(&kits), 6);
}

#[test]
fn workers_ask_at_once_and_for_each_chunk_once(rt: HostRuntime) {
    let alloc = rt.alloc();
    assembles_beside(&rt, alloc, 3);
    assembles_beside(&rt, alloc, 4);
}
