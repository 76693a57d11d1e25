//! Items that one thread takes in order, while readers read them ahead into rooms. Items are numbered from 0.

ghost use Rattle.std.specs.Prelude.{◌≡◌, ◌<◌, ◌≤◌, All, IfOk, IfSome, List, Ok, OnOk, length, vec_len};
ghost use Rattle.std.specs.List.{AllZip};
ghost use Rattle.read_ahead.specs.ReadsOn.{ReadsOn};

use crate::claims::{Claims, Sharing};
use crate::consumer::Consumer;
use crate::reader::Reader;
use std::alloc::{AllocError, Global};
use std::mem::swap;
use std::thread::{Threads, join_mut};

// Takes the items before `to`.
fn take_to<A, C: Consumer<A>>(to: usize, consumer: &mut C, ready: &[A]) -> Result<(), C::Fault>
    requires inside { to ≤ C.count consumer.old }
    requires going { C.can_go_on consumer.old }
    requires ready { All (C.accepts consumer.old) ready.now }
    ensures on { (first : C) → C.goes first consumer.old (Ok tt) → C.goes first consumer.new result }
    ensures going { OnOk result (C.can_go_on consumer.new) }
    ensures count { C.count consumer.new ≡ C.count consumer.old }
    ensures accepted { OnOk result ((a : A) → C.accepts consumer.old a → C.accepts consumer.new a) }
    ensures to { OnOk result (to ≤ C.taken consumer.new) }
{
    while consumer.at() < to {
        consumer.take_next(ready)?;
    }
    Ok(())
}

// Takes the items before those of the round, and those of the round that are the consumer's.
fn take_round<A, C: Consumer<A>>(
    claims: &Claims,
    consumer: &mut C,
    ready: &[A],
) -> Result<(), C::Fault>
    requires inside { (claims.now.from ≤ C.count consumer.old) × (claims.now.to ≤ C.count consumer.old) }
    requires going { C.can_go_on consumer.old }
    requires ready { All (C.accepts consumer.old) ready.now }
    ensures on { (first : C) → C.goes first consumer.old (Ok tt) → C.goes first consumer.new result }
    ensures going { OnOk result (C.can_go_on consumer.new) }
    ensures count { C.count consumer.new ≡ C.count consumer.old }
    ensures accepted { OnOk result ((a : A) → C.accepts consumer.old a → C.accepts consumer.new a) }
{
    take_to(claims.from, consumer, ready)?;
    while claims.takes(consumer.at()) {
        consumer.take_next(ready)?;
    }
    Ok(())
}

// Empties the room, and reads item `first` and each that it goes to into it, until there is no more to be read.
fn read_round<A, V: Reader<A>>(reader: &mut V, room: &mut A, first: Option<usize>, claims: &Claims)
    requires listed { IfSome first (λ i. (claims.now.from ≤ i) × (i < claims.now.to)) }
    requires inside { claims.now.to ≤ V.count reader.old }
    requires able { V.can_read reader.old }
    ensures right { V.is_right reader.new room.new }
    ensures on { ReadsOn V.Reader reader.old reader.new }
{
    reader.begin(room);
    let mut next = first;
    for _ in claims.from..claims.to {
        let Some(i) = next else {
            return;
        };
        if !reader.read_item(i, room) {
            return;
        }
        next = claims.item_after(i);
    }
}

// A round: the claims on its items, and the rooms that were filled in the round before.
#[derive(Drop)]
struct Round<'a, R, A> {
    rt: &'a R,
    claims: &'a Claims,
    ready: &'a [A],
}

// Takes the items before those of the round and some of these, while each reader reads others in a thread. This thread
// begins all of them, so that none waits for another one to begin it, and says where each begins.
#[cycle(round)]
fn run_round<R: Threads + Sync, A: Send + Sync, C: Consumer<A>, V: Reader<A> + Send>(
    round: &Round<'_, R, A>,
    consumer: &mut C,
    readers: &mut [V],
    rooms: &mut [A],
) -> Result<(), C::Fault>
    requires rooms { length rooms.old ≡ length readers.old }
    requires inside { round.now.claims.now.from ≤ C.count consumer.old }
    requires end { round.now.claims.now.to ≤ C.count consumer.old }
    requires going { C.can_go_on consumer.old }
    requires ready { All (C.accepts consumer.old) round.now.ready.now }
    requires count { All (λ r. V.count r ≡ C.count consumer.old) readers.old }
    requires able { All V.can_read readers.old }
    ensures on { (first : C) → C.goes first consumer.old (Ok tt) → C.goes first consumer.new result }
    ensures going { OnOk result (C.can_go_on consumer.new) }
    ensures count { C.count consumer.new ≡ C.count consumer.old }
    ensures accepted { OnOk result ((a : A) → C.accepts consumer.old a → C.accepts consumer.new a) }
    ensures right { AllZip V.is_right readers.new rooms.new }
    ensures readers { AllZip (ReadsOn V.Reader) readers.old readers.new }
{
    let Some((reader, others)) = readers.split_first_mut() else {
        return take_round(round.claims, consumer, round.ready);
    };
    let Some((room, rest)) = rooms.split_first_mut() else {
        unreachable!();
    };
    let first = round.claims.first_item();
    let mut read = ||
        requires first { IfSome first (λ i. (round.now.claims.now.from ≤ i) × (i < round.now.claims.now.to)) }
        requires end { round.now.claims.now.to ≤ V.count reader.now }
        requires able { V.can_read reader.now }
        ensures right { V.is_right reader.exit.now room.exit.now }
        ensures on { ReadsOn V.Reader reader.entry.now reader.exit.now }
    { read_round(reader, room, first, round.claims) };
    let mut go_on = || -> Result<(), C::Fault>
        requires rooms { length rest.now ≡ length others.now }
        requires inside { round.now.claims.now.from ≤ C.count consumer.now }
        requires end { round.now.claims.now.to ≤ C.count consumer.now }
        requires going { C.can_go_on consumer.now }
        requires ready { All (C.accepts consumer.now) round.now.ready.now }
        requires count { All (λ r. V.count r ≡ C.count consumer.now) others.now }
        requires able { All V.can_read others.now }
        ensures on { (first : C) → C.goes first consumer.entry.now (Ok tt)
            → C.goes first consumer.exit.now result }
        ensures going { OnOk result (C.can_go_on consumer.exit.now) }
        ensures count { C.count consumer.exit.now ≡ C.count consumer.entry.now }
        ensures accepted { OnOk result ((a : A) → C.accepts consumer.entry.now a → C.accepts consumer.exit.now a) }
        ensures right { AllZip V.is_right others.exit.now rest.exit.now }
        ensures readers { AllZip (ReadsOn V.Reader) others.entry.now others.exit.now }
    { run_round(round, consumer, others, rest) };
    let (_, taken) = join_mut(round.rt, &mut read, &mut go_on);
    taken
}

/// Lets the consumer take all items, while each reader reads items ahead in a thread of its own. Each reader has two
/// rooms, and the consumer takes from one while the reader fills the other.
pub fn take_by_rounds<
    R: Threads + Sync,
    A: Drop + Send + Sync,
    C: Consumer<A>,
    V: Reader<A> + Send,
>(
    rt: &R,
    sharing: Sharing,
    consumer: &mut C,
    readers: &mut [V],
    mut rooms: Vec<A>,
    mut ready: Vec<A>,
) -> Result<(), C::Fault>
    requires size { (length rooms.items ≡ length readers.old) × (length ready.items ≡ length readers.old) }
    requires ready { All (C.accepts consumer.old) ready.items }
    requires count { All (λ r. V.count r ≡ C.count consumer.old) readers.old }
    requires able { All V.can_read readers.old }
    requires going { C.can_go_on consumer.old }
    requires trusted { All (λ r. (a : A) → V.is_right r a → C.accepts consumer.old a) readers.old }
    ensures on { (first : C) → C.goes first consumer.old (Ok tt) → C.goes first consumer.new result }
    ensures going { OnOk result (C.can_go_on consumer.new) }
    ensures count { C.count consumer.new ≡ C.count consumer.old }
    ensures all { OnOk result (C.count consumer.new ≤ C.taken consumer.new) }
    ensures readers { AllZip (ReadsOn V.Reader) readers.old readers.new }
{
    let mut at = 0;
    while at < consumer.count() {
        let end = consumer.round_end(at, readers.len());
        let claims = Claims::new(at, end, sharing);
        let round = Round {
            rt,
            claims: &claims,
            ready: &ready,
        };
        run_round(&round, consumer, readers, &mut rooms)?;
        swap(&mut rooms, &mut ready);
        at = end;
    }
    take_to(consumer.count(), consumer, &ready)
}

// `count` rooms in which nothing stands.
fn new_rooms<A: Drop, C: Consumer<A>>(
    alloc: Global,
    consumer: &C,
    count: usize,
) -> Result<Vec<A>, AllocError>
    ensures size { IfOk result (λ v. vec_len v ≡ count) }
    ensures ready { IfOk result (λ v. All (C.accepts consumer.now) v.items) }
{
    let mut rooms = Vec::with_capacity(alloc, count)?;
    while rooms.len() < count {
        rooms.push(consumer.room(alloc)?)?;
    }
    Ok(rooms)
}

/// Two rooms for each reader, in which nothing stands. Refused also where too little memory would be left beside them.
pub fn room_pairs<A: Drop, C: Consumer<A>>(
    alloc: Global,
    consumer: &C,
    count: usize,
) -> Result<(Vec<A>, Vec<A>), AllocError>
    ensures size { IfOk result (λ p. (vec_len p.0 ≡ count) × (vec_len p.1 ≡ count)) }
    ensures ready { IfOk result (λ p. All (C.accepts consumer.now) p.1.items) }
{
    let _spare: Vec<u8> = Vec::with_capacity(alloc, consumer.spare())?;
    let rooms = new_rooms(alloc, consumer, count)?;
    let ready = new_rooms(alloc, consumer, count)?;
    Ok((rooms, ready))
}

/// Lets the consumer take all items, with nothing read ahead.
pub fn take_alone<A, C: Consumer<A>>(consumer: &mut C) -> Result<(), C::Fault>
    requires going { C.can_go_on consumer.old }
    ensures on { (first : C) → C.goes first consumer.old (Ok tt) → C.goes first consumer.new result }
    ensures going { OnOk result (C.can_go_on consumer.new) }
    ensures count { C.count consumer.new ≡ C.count consumer.old }
    ensures all { OnOk result (C.count consumer.new ≤ C.taken consumer.new) }
{
    take_to(consumer.count(), consumer, &[])
}

/// Lets the consumer take all items, while readers that claim them read ahead. Where there is no memory for the rooms,
/// or for what is to be left free beside them, the consumer is alone.
pub fn take_all<R: Threads + Sync, A: Drop + Send + Sync, C: Consumer<A>, V: Reader<A> + Send>(
    rt: &R,
    alloc: Global,
    consumer: &mut C,
    readers: &mut [V],
) -> Result<(), C::Fault>
    requires count { All (λ r. V.count r ≡ C.count consumer.old) readers.old }
    requires able { All V.can_read readers.old }
    requires going { C.can_go_on consumer.old }
    requires trusted { All (λ r. (a : A) → V.is_right r a → C.accepts consumer.old a) readers.old }
    ensures on { (first : C) → C.goes first consumer.old (Ok tt) → C.goes first consumer.new result }
    ensures going { OnOk result (C.can_go_on consumer.new) }
    ensures count { C.count consumer.new ≡ C.count consumer.old }
    ensures all { OnOk result (C.count consumer.new ≤ C.taken consumer.new) }
    ensures readers { (firsts : List V) → AllZip V.went firsts readers.old → AllZip V.went firsts readers.new }
{
    if readers.is_empty() {
        return take_alone(consumer);
    }
    match room_pairs(alloc, consumer, readers.len()) {
        Ok((rooms, ready)) => {
            take_by_rounds(rt, Sharing::Claimed, consumer, readers, rooms, ready)
        }
        Err(_) => take_alone(consumer),
    }
}
