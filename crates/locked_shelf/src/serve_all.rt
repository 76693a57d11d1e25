//! Each connection that comes is served by a thread of its own.

ghost use Rattle.std.specs.Prelude.{◌≡◌, ◌≢◌, ◌<◌, ◌≤◌, ◌++◌, [], ◌∷◌, false, Some};
ghost use Rattle.std.specs.Option.{option_map};
ghost use Rattle.dsy_base.specs.Counts.{Rose};
ghost use Rattle.dsy_base.specs.Links.{IsFreshLink};
ghost use Rattle.locked_shelf.specs.Endings.{EndsServing};
ghost use Rattle.locked_shelf.specs.Listening.{GivesBack, HasHeard, ServesAll, ServesSome};

use crate::ended::{EndedLink, Mode, serve_new};
use crate::gathering::{Gathered, Gathering};
use crate::shared_shelf::SharedShelf;
use crate::tally::Tally;
use dsy_base::fault::IoFault;
use dsy_base::link::Link;
use dsy_base::listen::Listen;
use std::alloc::Global;
use std::marker::Brand;
use std::sync::Wait;
use std::thread;
use std::thread::{Scope, Threads};

/// How many connections are served at once. Further ones wait in the listener's queue, where they take no memory and no
/// file of the program's.
pub const MOST: u64 = 256;

/// How serving ended.
#[derive(Clone, Copy, Debug, PartialEq, Eq)]
pub enum AllServed {
    /// No more connections come.
    Ended,
    /// A call on the listener has failed.
    ListenFault,
    /// There was no memory to take a connection.
    Memory,
    /// There was no memory for a connection that was taken. A call on the listener may have failed too.
    Short,
}

// Serves a connection to its end, and leaves it with those that have ended.
fn serve_into<K: Link, D: SharedShelf, M: Mode, R: Wait>(
    rt: &R,
    alloc: Global,
    shelf: &D,
    gathering: &Gathering<K, D, M>,
    number: u64,
    link: K,
)
    requires mode { D.takes shelf.now ≡ M.writable }
    requires fresh { IsFreshLink (K.state link) }
{
    let ended = serve_new(rt, alloc, shelf, number, link);
    gathering.add(rt, ended);
}

// Gives a connection back.
fn give_one<L: Listen, D: SharedShelf, M: Mode>(
    listen: &mut L,
    ended: EndedLink<L::Link, D, M>,
    tally: &mut Tally,
)
    ensures given { (L.state listen.new).ended
        ≡ option_map (λ done. done ++ L.Link.state ended.link ∷ []) (L.state listen.old).ended }
    ensures ended { GivesBack (EndsServing D.digest D.may M.writable L.Link.tells)
        (L.state listen.old) (L.state listen.new) tally.old tally.new }
{
    let (link, lacking) = ended.into_parts();
    tally.settle(lacking);
    listen.end(link);
}

// Gives connections back.
fn give_back<L: Listen, D: SharedShelf, M: Mode>(
    listen: &mut L,
    gathered: Gathered<L::Link, D, M>,
    tally: &mut Tally,
)
    ensures ended { GivesBack (EndsServing D.digest D.may M.writable L.Link.tells)
        (L.state listen.old) (L.state listen.new) tally.old tally.new }
{
    tally.lose(gathered.lost);
    for ended in gathered.links {
        give_one(listen, ended, tally);
    }
}

// Gives back those that have ended. Where as many are served as may be, it waits until one has ended.
fn make_room<L: Listen, D: SharedShelf, M: Mode, R: Wait>(
    rt: &R,
    alloc: Global,
    listen: &mut L,
    gathering: &Gathering<L::Link, D, M>,
    tally: &mut Tally,
)
    ensures room { tally.new.pending < MOST }
    ensures ended { GivesBack (EndsServing D.digest D.may M.writable L.Link.tells)
        (L.state listen.old) (L.state listen.new) tally.old tally.new }
{
    give_back(listen, gathering.take(rt, alloc), tally);
    'rounds: for _ in rt.forever() {
        if tally.pending < MOST {
            return;
        }
        give_back(listen, gathering.await_some(rt, alloc), tally);
    }
    unreachable!()
}

// Takes connections until no more come, and starts a thread for each. Those that have ended are given back before the
// next one is taken. Where `one_by_one` is true each is served here instead, and so it is where a start is refused,
// which hands the work back.
fn hear<'s, E, L: Listen, D: SharedShelf + Send + Sync, M: Mode + Send, R: Threads + Wait + Sync>(
    rt: &'s R,
    alloc: Global,
    scope: &Scope<'s, E>,
    listen: &mut L,
    shelf: &'s D,
    gathering: &'s Gathering<L::Link, D, M>,
    one_by_one: bool,
) -> (AllServed, Tally)
where
    L::Link: Send,
    requires mode { D.takes shelf.now ≡ M.writable }
    ensures served { HasHeard (EndsServing D.digest D.may M.writable L.Link.tells)
        (L.state listen.old) (L.state listen.new) result.0 result.1 }
{
    let mut tally = Tally {
        pending: 0,
        lacking: false,
    };
    'links: for number in 0..u64::MAX {
        make_room(rt, alloc, listen, gathering, &mut tally);
        match listen.accept() {
            Ok(Some(link)) => {
                tally.pending += 1;
                let work = move ||
                    requires { (D.takes shelf.now ≡ M.writable) × IsFreshLink (L.Link.state link) }
                { serve_into(rt, alloc, shelf, gathering, number, link) };
                if one_by_one {
                    work();
                } else if let Err(refused) = scope.spawn(work) {
                    (refused.value)();
                }
            }
            Ok(None) => return (AllServed::Ended, tally),
            Err(IoFault::Failed) => return (AllServed::ListenFault, tally),
            Err(IoFault::Memory) => return (AllServed::Memory, tally),
        }
    }
    // More connections than 64 bits count.
    (AllServed::Memory, tally)
}

// Serves all connections by threads, which all have ended when it answers.
fn serve_scoped<
    'x,
    L: Listen,
    D: SharedShelf + Send + Sync,
    M: Mode + Send,
    R: Threads + Wait + Sync,
>(
    rt: &'x R,
    alloc: Global,
    listen: &mut L,
    shelf: &'x D,
    gathering: &'x Gathering<L::Link, D, M>,
    one_by_one: bool,
) -> (AllServed, Tally)
where
    L::Link: Send,
    requires mode { D.takes shelf.now ≡ M.writable }
    ensures served { HasHeard (EndsServing D.digest D.may M.writable L.Link.tells)
        (L.state listen.old) (L.state listen.new) result.0 result.1 }
{
    let lent = &mut *listen;
    let (back, served, mut tally) = thread::scope(
        thread::scope_env(),
        rt,
        move |scope| -> (&mut L, AllServed, Tally)
            requires { D.takes shelf.now ≡ M.writable }
            ensures same { result.0.ghost_name ≡ lent.entry.ghost_name }
            ensures served { HasHeard (EndsServing D.digest D.may M.writable L.Link.tells)
                (L.state lent.entry.now) (L.state result.0.now) result.1 result.2 }
        {
            let (served, tally) = hear(rt, alloc, scope, lent, shelf, gathering, one_by_one);
            (lent, served, tally)
        },
    );
    give_back(back, gathering.take(rt, alloc), &mut tally);
    (served, tally)
}

// Serves all connections, where the type names whether chunks may be put.
fn serve_by<L: Listen, D: SharedShelf + Send + Sync, M: Mode + Send, R: Threads + Wait + Sync>(
    rt: &R,
    alloc: Global,
    listen: &mut L,
    shelf: &D,
    one_by_one: bool,
) -> AllServed
where
    L::Link: Send,
    requires mode { D.takes shelf.now ≡ M.writable }
    ensures end { result ≡ AllServed.Ended → (L.state listen.new).coming ≡ Some [] }
    ensures served { result ≢ AllServed.Short → result ≢ AllServed.Memory →
        ServesAll (EndsServing D.digest D.may M.writable L.Link.tells)
        (L.state listen.old) (L.state listen.new) }
    ensures lacking { ServesSome (EndsServing D.digest D.may M.writable L.Link.tells)
        (L.state listen.old) (L.state listen.new) }
    ensures cause { result ≡ AllServed.ListenFault → Rose (L.state listen.old).faults (L.state listen.new).faults }
    ensures unfailed { result ≡ AllServed.Memory → (L.state listen.new).faults ≡ (L.state listen.old).faults }
    ensures faults { (L.state listen.old).faults ≤ (L.state listen.new).faults }
{
    let gathering: Gathering<L::Link, D, M> = Gathering::new(alloc);
    let (served, tally) = serve_scoped(rt, alloc, listen, shelf, &gathering, one_by_one);
    if tally.lacking || tally.pending > 0 {
        AllServed::Short
    } else {
        served
    }
}

/// Serves each connection that comes, until no more come: by a thread of its own, or one after the other where
/// `one_by_one` is true. When it answers, all of them have ended. A call that fails on a connection ends it alone.
pub fn serve_all<L: Listen, D: SharedShelf + Send + Sync, R: Threads + Wait + Sync>(
    rt: &R,
    alloc: Global,
    listen: &mut L,
    shelf: &D,
    one_by_one: bool,
) -> AllServed
where
    L::Link: Send,
    ensures end { result ≡ AllServed.Ended → (L.state listen.new).coming ≡ Some [] }
    ensures served { result ≢ AllServed.Short → result ≢ AllServed.Memory →
        ServesAll (EndsServing D.digest D.may (D.takes shelf.now) L.Link.tells)
        (L.state listen.old) (L.state listen.new) }
    ensures lacking { ServesSome (EndsServing D.digest D.may (D.takes shelf.now) L.Link.tells)
        (L.state listen.old) (L.state listen.new) }
    ensures cause { result ≡ AllServed.ListenFault → Rose (L.state listen.old).faults (L.state listen.new).faults }
    ensures unfailed { result ≡ AllServed.Memory → (L.state listen.new).faults ≡ (L.state listen.old).faults }
    ensures faults { (L.state listen.old).faults ≤ (L.state listen.new).faults }
{
    serve_by::<L, D, Brand, R>(rt, alloc, listen, shelf, one_by_one)
}
