//! Asking stores for a chunk, in turn. What a store gives is named before it is used.

ghost use Rattle.std.specs.Prelude.{◌≡◌, ℕ, List, ◌+◌, ◌^◌, ◌<◌, ◌≤◌, length, take, map, IfOk, IfErr};
ghost use Rattle.chunk_store.specs.Asks.{Get, Sends};
ghost use Rattle.chunk_store.specs.Said.{KeepsOf, AskedOnce};
ghost use Rattle.store_chain.specs.Chains.{EachOnce, KeepsStores};
ghost use Rattle.store_chain.specs.Queries.{FillsQuery};
ghost use Rattle.store_chain.specs.Refusals.{Tells, GivenBy, RefusesFrom};

use crate::query::Query;
use crate::refused::Refused;
use chunk_store::shows::Shows;
use chunk_store::store::{GetFault, Giver, Store};

// The store that answered most recently, where the one asked has this number.
fn giver_of<S: Store>(store: &S, number: u32) -> Giver
    ensures { result ≡ record { number = number; member = S.giver store.now } }
{
    Giver {
        number,
        member: store.giver(),
    }
}

// Asks one store, which has this number.
fn ask<S: Store>(
    store: &mut S,
    number: u32,
    query: &Query,
    out: &mut [u8],
) -> Result<usize, Refused>
    requires size { query.now.lent ≡ length out.old }
    ensures ok { IfOk result (λ n. FillsQuery query.now n out.new × (S.said store.new).shown query.now.id.0
        (take n out.new)) }
    ensures err { IfErr result (Tells S.said S.faults S.may_lack_memory query.now number store.old store.new) }
    ensures kept { S.holds store.new ≡ S.holds store.old }
    ensures members { S.members store.new ≡ S.members store.old }
    ensures files { S.folder store.new ≡ S.folder store.old }
    ensures folders { S.folders store.new ≡ S.folders store.old }
    ensures place { S.place store.new ≡ S.place store.old }
    ensures said { (q : List ℕ) → KeepsOf (S.said store.old) (S.said store.new) q }
    ensures sends { Sends (λ a. a ≡ Get query.now.id.0) (S.sent store.old) (S.sent store.new) }
    ensures asks { AskedOnce (S.asked store.old) (S.asked store.new) query.now.id.0 }
    ensures queries { S.queried store.new ≡ S.queried store.old }
    ensures faults { S.faults store.old ≤ S.faults store.new }
{
    match store.get(&query.id, out) {
        Ok(n) => {
            let (bytes, _) = out.split_at(n);
            match query.shown(bytes) {
                None => Ok(n),
                Some(shows) => Err(Refused::Damaged {
                    store: giver_of(store, number),
                    shows,
                }),
            }
        }
        Err(GetFault::Missing) => Err(Refused::Missing),
        Err(GetFault::Longer) => Err(Refused::Damaged {
            store: giver_of(store, number),
            shows: Shows::Longer,
        }),
        Err(GetFault::Failed) => Err(Refused::StoreFault { store: number }),
        Err(GetFault::Memory) => Err(Refused::Memory),
    }
}

/// Asks the stores in turn, the first of which has this number, until one gives what is wanted.
pub fn ask_each<S: Store>(
    stores: &mut [S],
    number: u32,
    query: &Query,
    out: &mut [u8],
) -> Result<usize, Refused>
    requires size { query.now.lent ≡ length out.old }
    requires room { number + length stores.old < 2 ^ 32 }
    ensures ok { IfOk result (λ n. FillsQuery query.now n out.new) }
    ensures found { IfOk result (λ n. GivenBy S.said S.faults S.may_lack_memory query.now (take n out.new)
        stores.old stores.new) }
    ensures err { IfErr result (RefusesFrom S.said S.faults S.may_lack_memory query.now number stores.old stores.new) }
    ensures kept { KeepsStores S.Store (λ a. a ≡ Get query.now.id.0) stores.old stores.new }
    ensures asks { EachOnce S.asked query.now.id.0 stores.old stores.new }
    ensures queries { map S.queried stores.new ≡ map S.queried stores.old }
{
    let Some((first, rest)) = stores.split_first_mut() else {
        return Err(Refused::Missing);
    };
    match ask(first, number, query, out) {
        Ok(n) => Ok(n),
        Err(why) => match ask_each(rest, number + 1, query, out) {
            Ok(n) => Ok(n),
            Err(then) => Err(why.or(then)),
        },
    }
}
