//! Images that several workers assemble side by side through one cache, from stores that wait for one another.

ghost use Rattle.std.specs.Prelude.{◌≡◌, ◌≤◌};
ghost use Rattle.chunk_store.specs.declared.id.DigestKind.TheVariants as kinds;

use crate::assembly_tests::{counts, target_of};
use crate::compare::{ok, same};
use crate::indexes::{id_of_piece, index_of_pieces};
use crate::worker_tests::{StoreGate, asks_of, gated_kits};
use assembler::fault::ExtractFault;
use byte_forms::ranges::RangeFails;
use cache_store::shelf::CacheShelf;
use caibx_codec::index::Index;
use dsy_base::folder::Folder;
use dsy_base::look::Look;
use dsy_forms::mem_folder::MemFolder;
use extract_plan::plan::Plan;
use extract_plan::seeds::SeedIndex;
use image_assembly::assemble::assemble;
use image_workers::assembled::Assembled;
use range_survey::report::Report;
use std::alloc::Global;
use std::process::Abort;
use std::sync::{Arc, Wait};
use std::thread::Threads;

const PIECES: [&[u8]; 6] = [b"abc", b"def", b"ghi", b"jkl", b"mno", b"pqr"];

// A cache that holds these pieces, of which the calls with these numbers fail.
fn cache_of(
    rt: &impl Abort,
    alloc: Global,
    held: &[&[u8]],
    fails: Vec<u64>,
) -> CacheShelf<MemFolder>
    ensures { result.kind ≡ kinds.Sha512T256 }
{
    let mut folder = MemFolder::new(alloc, fails);
    for piece in held {
        ok(rt, folder.put(id_of_piece(piece).path().as_str(), piece));
    }
    CacheShelf::new(folder)
}

// The cache holds each piece.
fn holds_all(rt: &impl Abort, cache: CacheShelf<MemFolder>) {
    let mut folder = cache.into_inner();
    for piece in &PIECES {
        let mut out = [0u8; 3];
        same(
            rt,
            folder.read(id_of_piece(piece).path().as_str(), &mut out),
            Ok(3),
        );
        same(rt, out.as_slice(), *piece);
    }
}

// Assembles the pieces with three kits, whose stores all pass the gate and are asked so often together.
fn assembles_through<H: Abort + Threads + Wait + Sync>(
    rt: &H,
    alloc: Global,
    cache: CacheShelf<MemFolder>,
    ended: Result<Report, ExtractFault>,
    asks: u64,
) -> CacheShelf<MemFolder>
    requires kind { cache.kind ≡ kinds.Sha512T256 }
{
    let index = index_of_pieces(rt, alloc, &PIECES);
    let plan = ok(rt, Plan::of(alloc, &index, 1));
    let seeds: [Index; 0] = [];
    let places = ok(rt, SeedIndex::of(alloc, &plan, &index, &seeds));
    let gate = ok(rt, Arc::new(alloc, StoreGate::new()));
    let kits = gated_kits(rt, alloc, &gate, &PIECES, 3);
    let old = target_of(rt, alloc, b"", RangeFails::none(alloc));
    let Assembled {
        target,
        kits,
        cache,
        answer,
    } = assemble(rt, alloc, &index, &places, old, kits, Some(cache));
    same(rt, answer, ended);
    same(rt, target.bytes(), b"abcdefghijklmnopqr".as_slice());
    same(rt, gate.passed(), 3);
    same(rt, asks_of(&kits), asks);
    cache.expect(rt, "the cache")
}

#[test]
fn workers_fill_one_cache_side_by_side(rt: HostRuntime) {
    let alloc = rt.alloc();
    let empty = cache_of(&rt, alloc, &[], Vec::new(alloc));
    let filled = assembles_through(&rt, alloc, empty, counts(0, 0, 0, 6), 6);
    holds_all(&rt, filled);
}

#[test]
fn what_the_cache_has_is_not_asked_for(rt: HostRuntime) {
    let alloc = rt.alloc();
    let half = cache_of(&rt, alloc, &PIECES[..3], Vec::new(alloc));
    let ended = Ok(Report {
        kept: 0,
        copied: 0,
        seeded: 0,
        cached: 3,
        fetched: 3,
    });
    let filled = assembles_through(&rt, alloc, half, ended, 3);
    holds_all(&rt, filled);
}

#[test]
fn a_cache_whose_calls_all_fail_is_passed_over(rt: HostRuntime) {
    let alloc = rt.alloc();
    let mut all = Vec::new(alloc);
    for call in 0..64u64 {
        ok(&rt, all.push(call));
    }
    let failing = cache_of(&rt, alloc, &[], all);
    assembles_through(&rt, alloc, failing, counts(0, 0, 0, 6), 6);
}
