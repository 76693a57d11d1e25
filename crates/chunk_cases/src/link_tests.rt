//! Tests of connections in memory, of dialers and of listeners, through the bounds of their traits.

ghost use Rattle.std.specs.List.{All};
ghost use Rattle.dsy_base.specs.Links.{IsFreshLink};
ghost use Rattle.link_forms.specs.MemLinks.{link_of};

use crate::compare::{ok, same};
use dsy_base::dial::Dial;
use dsy_base::fault::{Failed, IoFault};
use dsy_base::link::Link;
use dsy_base::listen::Listen;
use link_forms::mem_dial::MemDial;
use link_forms::mem_link::MemLink;
use link_forms::mem_listen::MemListen;
use std::alloc::Global;
use std::process::Abort;

// A connection that sends "abc", nothing and "d". The second and the fourth call fail.
fn abcd(rt: &impl Abort, alloc: Global) -> MemLink {
    let mut pieces = Vec::new(alloc);
    for piece in [b"abc".as_slice(), b"", b"d"] {
        ok(rt, pieces.push(ok(rt, piece.to_vec(alloc))));
    }
    MemLink::new(alloc, pieces, ok(rt, vec![in alloc; 1u64, 3]))
}

fn links_read_pieces<L: Link>(rt: &impl Abort, l: &mut L) {
    let mut out = [b'-'; 2];
    same(rt, l.read(&mut out), Ok(2));
    same(rt, out, *b"ab");
    same(rt, l.read(&mut out), Err(Failed));
    same(rt, l.read(&mut out), Ok(1));
    same(rt, out, *b"cb");
    same(rt, l.write(b"x"), Err(IoFault::Failed));
    same(rt, l.write(b"yz"), Ok(()));
    same(rt, l.read(&mut out), Ok(1));
    same(rt, out, *b"db");
    same(rt, l.read(&mut out), Ok(0));
}

// Sends `b` over a new connection, and ends it.
fn call<D: Dial>(rt: &impl Abort, d: &mut D, b: &[u8]) {
    let mut l = ok(rt, d.dial("localhost", 80));
    ok(rt, l.write(b));
    d.hang_up(l);
}

fn forks_are_joined<D: Dial>(rt: &impl Abort, d: &mut D) {
    let mut other = ok(rt, d.fork());
    call(rt, d, b"first");
    call(rt, &mut other, b"second");
    d.join(other);
}

// The first dial fails, and there are two links.
fn dials_by_number<D: Dial>(rt: &impl Abort, d: &mut D) {
    let mut out = [0u8; 1];
    same(rt, d.dial("localhost", 80).is_err(), true);
    let mut l = ok(rt, d.dial("localhost", 80));
    same(rt, l.read(&mut out), Ok(1));
    same(rt, out, *b"b");
    d.hang_up(l);
    same(rt, d.dial("localhost", 80).is_err(), true);
}

// The next client is sent the byte that it has sent.
fn greets<L: Listen>(rt: &impl Abort, l: &mut L) {
    let mut out = [0u8; 1];
    if let Some(mut link) = ok(rt, l.accept()) {
        same(rt, link.read(&mut out), Ok(1));
        ok(rt, link.write(&out));
        l.end(link);
    }
}

// The first accept fails, and then two clients come.
fn greets_both<L: Listen>(rt: &impl Abort, l: &mut L) {
    ok(rt, l.bind("localhost", 8081));
    same(rt, l.accept().is_err(), true);
    greets(rt, l);
    greets(rt, l);
    same(rt, ok(rt, l.accept()).is_none(), true);
}

// What was sent over it, where it has ended.
fn sent(l: Option<&MemLink>) -> &[u8] {
    match l {
        Some(l) => l.sent(),
        None => b"not ended",
    }
}

// A connection over which one piece comes.
fn of_piece(rt: &impl Abort, alloc: Global, piece: &[u8]) -> MemLink
    ensures { IsFreshLink (link_of result) }
{
    let mut pieces = Vec::new(alloc);
    ok(rt, pieces.push(ok(rt, piece.to_vec(alloc))));
    MemLink::new(alloc, pieces, Vec::new(alloc))
}

// Two connections, over which "a" and "b" come.
fn two_links(rt: &impl Abort, alloc: Global) -> Vec<MemLink>
    ensures { All (λ l. IsFreshLink (link_of l)) result.items }
{
    let mut links = Vec::new(alloc);
    ok(rt, links.push(of_piece(rt, alloc, b"a")));
    ok(rt, links.push(of_piece(rt, alloc, b"b")));
    links
}

#[test]
fn a_link_gives_its_pieces(rt: HostRuntime) {
    let mut l = abcd(&rt, rt.alloc());
    links_read_pieces(&rt, &mut l);
    same(&rt, l.sent(), b"yz".as_slice());
}

#[test]
fn what_ended_on_a_fork_comes_last(rt: HostRuntime) {
    let alloc = rt.alloc();
    let mut d = MemDial::new(alloc, two_links(&rt, alloc), Vec::new(alloc));
    forks_are_joined(&rt, &mut d);
    same(&rt, sent(d.ended(0)), b"first".as_slice());
    same(&rt, sent(d.ended(1)), b"second".as_slice());
    same(&rt, d.ended(2).is_none(), true);
}

#[test]
fn the_link_of_a_dial_that_fails_is_never_given(rt: HostRuntime) {
    let alloc = rt.alloc();
    let first = ok(&rt, vec![in alloc; 0u64]);
    let mut d = MemDial::new(alloc, two_links(&rt, alloc), first);
    dials_by_number(&rt, &mut d);
}

#[test]
fn clients_come_in_their_order(rt: HostRuntime) {
    let alloc = rt.alloc();
    let second = ok(&rt, vec![in alloc; 1u64]);
    let mut l = MemListen::new(alloc, two_links(&rt, alloc), second);
    greets_both(&rt, &mut l);
    same(&rt, sent(l.ended(0)), b"a".as_slice());
    same(&rt, sent(l.ended(1)), b"b".as_slice());
    same(&rt, l.ended(2).is_none(), true);
}
