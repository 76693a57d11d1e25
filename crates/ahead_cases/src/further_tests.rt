//! Caches filled with further workers, from stores in memory that wait for one another. The digests are
//! those of `indexes`.

ghost use Rattle.std.specs.Prelude.{◌≡◌, ◌∷◌, [], All, None, map};
ghost use Rattle.chunk_store.specs.declared.id.DigestKind.TheVariants as kinds;

use crate::compare::{ok, same};
use crate::gated_folder::{Gate, GatedFolder};
use crate::indexes::{ABC, DEF, GHI, JKL, MNO, PQR, id_of, index_of};
use cache_fill::fill::{FillEnded, FillFault, fill};
use cache_store::cached::Cached;
use cache_store::shelf::CacheShelf;
use chunk_store::store::Store;
use dir_store::store::DirStore;
use dsy_base::folder::Folder;
use dsy_base::look::Look;
use dsy_forms::mem_folder::MemFolder;
use std::alloc::Global;
use std::process::Abort;
use std::sync::Arc;
use std::thread::Threads;
use store_chain::chain::Chain;

// The chunks of an image that lists `abc` twice.
const CHUNKS: [(&str, &[u8]); 6] = [
    (ABC, b"abc"),
    (DEF, b"def"),
    (GHI, b"ghi"),
    (JKL, b"jkl"),
    (MNO, b"mno"),
    (PQR, b"pqr"),
];

const LISTED: [&str; 7] = [ABC, DEF, GHI, ABC, JKL, MNO, PQR];

// A chain of one store, which holds all chunks but this one, and is first asked through the gate.
fn chain_of(
    rt: &impl Abort,
    alloc: Global,
    lost: &str,
    gate: Option<&Arc<Gate, Global>>,
) -> Chain<DirStore<GatedFolder>>
    ensures kind { result.kind ≡ kinds.Sha512T256 }
    ensures holds { map ⟦<DirStore<GatedFolder> as Store>⟧.holds result.stores ≡ None ∷ [] }
    ensures members { map ⟦<DirStore<GatedFolder> as Store>⟧.members result.stores ≡ None ∷ [] }
{
    let mut folder = MemFolder::new(alloc, Vec::new(alloc));
    for (name, bytes) in CHUNKS.as_slice() {
        if *name != lost {
            let id = id_of(rt, name);
            ok(rt, folder.put(id.path().as_str(), bytes));
        }
    }
    let gate = match gate {
        Some(gate) => Some(ok(rt, Arc::try_clone(gate))),
        None => None,
    };
    let store = DirStore::new(GatedFolder { folder, gate });
    Chain::new(ok(rt, vec![in alloc; store]))
}

// So many of them.
fn chains_of(
    rt: &impl Abort,
    alloc: Global,
    lost: &str,
    gate: Option<&Arc<Gate, Global>>,
    count: usize,
) -> Vec<Chain<DirStore<GatedFolder>>>
    ensures kinds { All (λ c. c.kind ≡ kinds.Sha512T256) result.items }
    ensures holds { All (λ c. map ⟦<DirStore<GatedFolder> as Store>⟧.holds c.stores ≡ None ∷ []) result.items }
    ensures members { All (λ c. map ⟦<DirStore<GatedFolder> as Store>⟧.members c.stores ≡ None ∷ []) result.items }
{
    let mut chains = Vec::new(alloc);
    while chains.len() < count {
        ok(rt, chains.push(chain_of(rt, alloc, lost, gate)));
    }
    chains
}

// What a filling came to: how it ended, how many chunks the cache has, and how often the stores of each worker were
// asked, of whom the first is the first.
#[derive(Drop)]
struct Came {
    ended: FillEnded,
    held: usize,
    asks: Vec<u64>,
}

// Fills a cache with this many further workers from stores that lack this chunk.
fn fills<R: Abort + Threads + Sync>(
    rt: &R,
    alloc: Global,
    count: usize,
    lost: &str,
    gate: Option<&Arc<Gate, Global>>,
) -> Came {
    let index = index_of(rt, alloc, &LISTED);
    let shelf = CacheShelf::new(MemFolder::new(alloc, Vec::new(alloc)));
    let mut cached = Cached::new(shelf, chain_of(rt, alloc, lost, gate));
    let mut further = chains_of(rt, alloc, lost, gate, count);
    let ended = fill(rt, alloc, &index, &mut cached, &mut further);
    same(rt, further.len(), count);
    let (shelf, chain) = cached.into_parts();
    let mut folder = shelf.into_inner();
    let held = ok(rt, folder.names()).len();
    let mut asks = ok(rt, vec![in alloc; chain.asks()]);
    for chain in &further {
        ok(rt, asks.push(chain.asks()));
    }
    Came { ended, held, asks }
}

// It ended so by this worker, and this many chunks are held.
fn came_to(
    rt: &impl Abort,
    came: &Came,
    ended: Result<(), FillFault>,
    worker: usize,
    held: usize,
    asks: &[u64],
) {
    same(rt, came.ended.result, ended);
    same(rt, came.ended.worker, worker);
    same(rt, came.held, held);
    same(rt, came.asks.as_slice(), asks);
}

#[test]
fn each_chunk_is_asked_for_once_by_any_number_of_workers(rt: HostRuntime) {
    let alloc = rt.alloc();
    let alone = fills(&rt, alloc, 0, "", None);
    came_to(&rt, &alone, Ok(()), 0, 6, &[6]);
    let one = fills(&rt, alloc, 1, "", None);
    // Beside a single one the first worker keeps every fourth.
    came_to(&rt, &one, Ok(()), 0, 6, &[1, 5]);
    let two = fills(&rt, alloc, 2, "", None);
    came_to(&rt, &two, Ok(()), 0, 6, &[0, 3, 3]);
    let four = fills(&rt, alloc, 4, "", None);
    came_to(&rt, &four, Ok(()), 0, 6, &[0, 2, 2, 2, 0]);
}

#[test]
fn a_missing_chunk_is_refused_at_its_entry_by_any_number_of_workers(rt: HostRuntime) {
    let alloc = rt.alloc();
    let id = id_of(&rt, JKL);
    let missing = Err(FillFault::Missing { entry: 4, id });
    let alone = fills(&rt, alloc, 0, JKL, None);
    came_to(&rt, &alone, missing, 0, 3, &[4]);
    let one = fills(&rt, alloc, 1, JKL, None);
    // It is the fourth, which the first worker keeps.
    came_to(&rt, &one, missing, 0, 3, &[1, 5]);
    // The second of two was dealt entries 4 to 6, and asks for no more.
    let two = fills(&rt, alloc, 2, JKL, None);
    came_to(&rt, &two, missing, 2, 3, &[0, 3, 1]);
}

#[test]
fn two_workers_ask_at_once(rt: HostRuntime) {
    let alloc = rt.alloc();
    let gate = ok(&rt, Arc::new(alloc, Gate::new()));
    let came = fills(&rt, alloc, 2, "", Some(&gate));
    came_to(&rt, &came, Ok(()), 0, 6, &[0, 3, 3]);
    same(&rt, gate.passed(), 2);
}
