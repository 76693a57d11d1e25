//! Chains over stores that answer as they are told, for the chunk `abc`.

ghost use Rattle.std.specs.Prelude.{◌≤◌, IfSome};

use crate::compare::{ok, same};
use crate::digests::{ABC, ABC_256, NOTHING};
use chunk_store::id::{ChunkId, DigestKind};
use chunk_store::shows::Shows;
use chunk_store::store::Giver;
use dsy_base::fault::IoFault;
use std::alloc::Global;
use std::process::Abort;
use store_chain::chain::Chain;
use store_chain::refused::{HasFault, Refused};
use store_forms::scripted_store::{Refuses, ScriptedStore};

// What stands under the id of `abc` in a store that answers, or how it refuses each call.
#[derive(Clone, Copy, Debug)]
enum Held {
    Nothing,
    Bytes(&'static [u8]),
    Fault,
    NoMemory,
}

fn store_of(rt: &impl Abort, alloc: Global, held: Held) -> ScriptedStore {
    let refuses = match held {
        Held::Nothing | Held::Bytes(_) => Refuses::Nothing,
        Held::Fault => Refuses::Everything(IoFault::Failed),
        Held::NoMemory => Refuses::Everything(IoFault::Memory),
    };
    let mut store = ScriptedStore::new(alloc, refuses);
    if let Held::Bytes(bytes) = held {
        ok(rt, store.set_chunk(&ok(rt, ChunkId::from_hex(ABC)), bytes));
    }
    store
}

fn chain_of(rt: &impl Abort, alloc: Global, first: Held, second: Held) -> Chain<ScriptedStore> {
    let first = store_of(rt, alloc, first);
    let second = store_of(rt, alloc, second);
    Chain::new(ok(rt, vec![in alloc; first, second]))
}

const GOOD: Held = Held::Bytes(b"abc");

const SPOILED: Held = Held::Bytes(b"");

const LONG: Held = Held::Bytes(b"abcdefghi");

// What a chain of two such stores answers, with room for eight bytes.
fn obtains(
    rt: &impl Abort,
    alloc: Global,
    first: Held,
    second: Held,
    size: Option<usize>,
    wanted: Result<usize, Refused>,
)
    requires { IfSome size (λ n. n ≤ 8) }
{
    let id = ok(rt, ChunkId::from_hex(ABC));
    let mut chain = chain_of(rt, alloc, first, second);
    same(rt, chain.obtain(&id, size, &mut [0u8; 8]), wanted);
    same(rt, chain.asks(), 1);
}

#[test]
fn the_first_store_that_gives_answers(rt: HostRuntime) {
    let alloc = rt.alloc();
    obtains(&rt, alloc, GOOD, Held::Fault, Some(3), Ok(3));
    obtains(&rt, alloc, GOOD, Held::Nothing, None, Ok(3));
    obtains(&rt, alloc, Held::Nothing, GOOD, Some(3), Ok(3));
    obtains(&rt, alloc, SPOILED, GOOD, Some(3), Ok(3));
    obtains(&rt, alloc, Held::Fault, GOOD, Some(3), Ok(3));
    obtains(&rt, alloc, Held::NoMemory, GOOD, Some(3), Ok(3));
}

fn fault(store: u32) -> Result<usize, Refused> {
    Err(Refused::StoreFault { store })
}

#[test]
fn a_failed_store_is_told_where_none_gives(rt: HostRuntime) {
    let alloc = rt.alloc();
    let missing = Err(Refused::Missing);
    obtains(&rt, alloc, Held::Nothing, Held::Nothing, Some(3), missing);
    obtains(&rt, alloc, Held::Fault, Held::Nothing, Some(3), fault(0));
    obtains(&rt, alloc, Held::Nothing, Held::Fault, Some(3), fault(1));
    obtains(&rt, alloc, SPOILED, Held::Fault, Some(3), fault(1));
    let memory = Err(Refused::Memory);
    obtains(&rt, alloc, Held::Fault, Held::NoMemory, Some(3), memory);
}

fn damaged(number: u32, shows: Shows) -> Result<usize, Refused> {
    let store = Giver { number, member: 0 };
    Err(Refused::Damaged { store, shows })
}

#[test]
fn the_first_damaged_chunk_is_told_where_none_gives(rt: HostRuntime) {
    let alloc = rt.alloc();
    let other = damaged(0, Shows::Digest(ok(&rt, ChunkId::from_hex(NOTHING))));
    obtains(&rt, alloc, SPOILED, LONG, Some(3), other);
    obtains(&rt, alloc, SPOILED, Held::Nothing, None, other);
    obtains(
        &rt,
        alloc,
        Held::Nothing,
        GOOD,
        Some(2),
        damaged(1, Shows::Longer),
    );
    obtains(
        &rt,
        alloc,
        GOOD,
        SPOILED,
        Some(4),
        damaged(0, Shows::Length(3)),
    );
    obtains(
        &rt,
        alloc,
        LONG,
        SPOILED,
        Some(3),
        damaged(0, Shows::Longer),
    );
}

// What a chain by SHA-256 answers whose store holds `abc` under the id of these digits.
fn obtains_by_sha256(rt: &impl Abort, alloc: Global, digits: &str, wanted: Result<usize, Refused>) {
    let id = ok(rt, ChunkId::from_hex(digits));
    let mut store = ScriptedStore::new(alloc, Refuses::Nothing);
    ok(rt, store.set_chunk(&id, b"abc"));
    let mut chain = Chain::with_kind(DigestKind::Sha256, ok(rt, vec![in alloc; store]));
    same(rt, chain.kind(), DigestKind::Sha256);
    same(rt, chain.obtain(&id, Some(3), &mut [0u8; 8]), wanted);
}

#[test]
fn a_chain_names_chunks_by_its_kind(rt: HostRuntime) {
    let alloc = rt.alloc();
    obtains_by_sha256(&rt, alloc, ABC_256, Ok(3));
    let named = ok(&rt, ChunkId::from_hex(ABC_256));
    obtains_by_sha256(&rt, alloc, ABC, damaged(0, Shows::Digest(named)));
}

// How often each of two such stores is asked.
fn asks(rt: &impl Abort, alloc: Global, first: Held, second: Held, wanted: [u64; 2]) {
    let id = ok(rt, ChunkId::from_hex(ABC));
    let mut chain = chain_of(rt, alloc, first, second);
    let _ = chain.obtain(&id, Some(3), &mut [0u8; 8]);
    let stores = chain.into_stores();
    for (store, asks) in stores.iter().zip(wanted) {
        same(rt, store.calls(), asks);
    }
}

#[test]
fn each_store_is_asked_once_and_none_after_one_that_gave(rt: HostRuntime) {
    let alloc = rt.alloc();
    asks(&rt, alloc, GOOD, GOOD, [1, 0]);
    asks(&rt, alloc, SPOILED, GOOD, [1, 1]);
    asks(&rt, alloc, Held::Fault, SPOILED, [1, 1]);
}

// Whether one of two such stores has it.
fn has(rt: &impl Abort, alloc: Global, first: Held, second: Held, wanted: Result<bool, HasFault>) {
    let id = ok(rt, ChunkId::from_hex(ABC));
    let mut chain = chain_of(rt, alloc, first, second);
    same(rt, chain.has(&id), wanted);
    same(rt, chain.asks(), 0);
}

#[test]
fn some_store_has_it(rt: HostRuntime) {
    let alloc = rt.alloc();
    has(&rt, alloc, Held::Nothing, GOOD, Ok(true));
    has(&rt, alloc, GOOD, Held::Fault, Ok(true));
    has(&rt, alloc, Held::Fault, GOOD, Ok(true));
    has(&rt, alloc, Held::Nothing, Held::Nothing, Ok(false));
    let fault = Err(HasFault::StoreFault { store: 1 });
    has(&rt, alloc, Held::Nothing, Held::Fault, fault);
    let fault = Err(HasFault::StoreFault { store: 0 });
    has(&rt, alloc, Held::Fault, Held::Fault, fault);
    let memory = Err(HasFault::Memory);
    has(&rt, alloc, Held::Fault, Held::NoMemory, memory);
}
