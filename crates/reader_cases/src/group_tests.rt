//! Groups of two stores that are to hold `abc`.

ghost use Rattle.std.specs.Prelude.{◌≡◌};

use crate::compare::{ok, same};
use crate::images::{ABC, ABX, Held, id_of, store_of};
use chunk_store::shows::Shows;
use chunk_store::store::{GetFault, Giver, Store};
use dsy_base::fault::IoFault;
use std::alloc::Global;
use std::process::Abort;
use store_chain::chain::Chain;
use store_chain::refused::Refused;
use store_forms::scripted_store::Refuses;
use store_group::group::Group;

const FULL: &[Held] = &[(ABC, b"abc")];

const EMPTY: &[Held] = &[];

const SPOILED: &[Held] = &[(ABC, b"abX")];

const DOWN: Refuses = Refuses::Everything(IoFault::Failed);

// Two stores: what each holds, and which calls it refuses.
type Pair = [(&'static [Held], Refuses); 2];

// What the group answers to a number of calls of `get` in turn, which store is active then, and how often each was
// called.
fn gets(
    rt: &impl Abort,
    alloc: Global,
    pair: Pair,
    retries: u32,
    answers: &[Result<usize, GetFault>],
    active: usize,
    calls: [u64; 2],
) {
    let [(first, refuses), (second, refuses_too)] = pair;
    let first = store_of(rt, alloc, first, refuses);
    let second = store_of(rt, alloc, second, refuses_too);
    let mut group = Group::new(ok(rt, vec![in alloc; first, second]), retries);
    for want in answers {
        same(rt, group.get(&id_of(rt, ABC), &mut [0u8; 8]), *want);
    }
    same(rt, group.active(), active);
    let stores = group.into_stores();
    assert!(rt; stores.len() == 2);
    same(rt, [stores[0].calls(), stores[1].calls()], calls);
}

#[test]
fn the_next_store_is_asked_where_one_fails_and_stays_the_first(rt: HostRuntime) {
    let pair = [(EMPTY, DOWN), (FULL, Refuses::Nothing)];
    gets(&rt, rt.alloc(), pair, 0, &[Ok(3), Ok(3)], 1, [1, 2]);
    gets(&rt, rt.alloc(), pair, 2, &[Ok(3), Ok(3)], 1, [3, 2]);
}

#[test]
fn a_call_that_fails_is_made_again(rt: HostRuntime) {
    let pair = [(FULL, Refuses::Call(0)), (EMPTY, DOWN)];
    gets(&rt, rt.alloc(), pair, 1, &[Ok(3), Ok(3)], 0, [3, 0]);
}

#[test]
fn a_chunk_that_is_missing_is_an_answer(rt: HostRuntime) {
    let pair = [(EMPTY, Refuses::Nothing), (FULL, Refuses::Nothing)];
    gets(
        &rt,
        rt.alloc(),
        pair,
        3,
        &[Err(GetFault::Missing)],
        0,
        [1, 0],
    );
}

#[test]
fn a_group_fails_where_all_of_its_stores_do(rt: HostRuntime) {
    let pair = [(EMPTY, DOWN), (EMPTY, DOWN)];
    gets(
        &rt,
        rt.alloc(),
        pair,
        1,
        &[Err(GetFault::Failed); 2],
        0,
        [4, 4],
    );
}

// Two groups in a chain, each with these stores.
fn chain_answers(
    rt: &impl Abort,
    alloc: Global,
    first: Pair,
    second: Pair,
    want: Result<usize, Refused>,
) {
    let mut groups = Vec::new(alloc);
    for [(one, refuses), (other, refuses_too)] in [first, second] {
        let one = store_of(rt, alloc, one, refuses);
        let other = store_of(rt, alloc, other, refuses_too);
        let group = Group::new(ok(rt, vec![in alloc; one, other]), 0);
        ok(rt, groups.push(group).map_err(|_| ()));
    }
    assert!(rt; groups.len() == 2);
    let mut chain = Chain::new(groups);
    same(
        rt,
        chain.obtain(&id_of(rt, ABC), Some(3), &mut [0u8; 8]),
        want,
    );
    same(rt, chain.asks(), 1);
}

#[test]
fn groups_are_asked_in_order(rt: HostRuntime) {
    let alloc = rt.alloc();
    let down = [(EMPTY, DOWN), (EMPTY, DOWN)];
    let lacks = [(EMPTY, Refuses::Nothing), (FULL, Refuses::Nothing)];
    let gives = [(EMPTY, DOWN), (FULL, Refuses::Nothing)];
    chain_answers(&rt, alloc, lacks, gives, Ok(3));
    chain_answers(&rt, alloc, down, gives, Ok(3));
    chain_answers(&rt, alloc, lacks, lacks, Err(Refused::Missing));
    chain_answers(
        &rt,
        alloc,
        lacks,
        down,
        Err(Refused::StoreFault { store: 1 }),
    );
}

#[test]
fn the_store_that_gave_other_bytes_is_named(rt: HostRuntime) {
    let lacks = [(EMPTY, Refuses::Nothing), (FULL, Refuses::Nothing)];
    let spoiled = [(EMPTY, DOWN), (SPOILED, Refuses::Nothing)];
    let store = Giver {
        number: 1,
        member: 1,
    };
    let shows = Shows::Digest(id_of(&rt, ABX));
    let refused = Err(Refused::Damaged { store, shows });
    chain_answers(&rt, rt.alloc(), lacks, spoiled, refused);
}
