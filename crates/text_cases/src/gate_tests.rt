//! Connections in memory that threads serve: the second is answered while the first waits in its first read; of two of
//! which one fails, the other has all its replies; and chunks of another digest than the shelf's are refused.

ghost use Rattle.std.specs.Prelude.{◌≡◌};

use crate::pieces::pieces_of;
use chunk_store::id::DigestKind;
use dsy_base::fault::{Failed, IoFault, raise};
use dsy_base::link::Link;
use dsy_base::listen::Listen;
use dsy_base::look::Look;
use dsy_forms::mem_folder::MemFolder;
use link_forms::mem_link::MemLink;
use link_forms::mem_listen::MemListen;
use locked_shelf::serve_all::AllServed;
use locked_shelf::serve_folder::{ShelfRules, serve_folder};
use std::alloc::Global;
use std::process::Abort;
use std::sync::atomic::{AtomicU64, Ordering};
use std::sync::{Arc, Wait};
use std::thread;
use std::thread::Threads;

// How many turns the first connection waits for the reply on the other one.
const TURNS: u64 = 10_000_000;

const REQUEST: &[u8] = b"GET /nothing HTTP/1.1\r\n\r\n";

const USUAL: ShelfRules = ShelfRules {
    kind: DigestKind::Sha512T256,
    writable: true,
};

// A connection on which one request comes. The first one waits for it, and the other one tells that it was answered.
#[derive(Drop)]
struct GateLink {
    first: bool,
    read: bool,
    passed: bool,
    answered: Arc<AtomicU64, Global>,
}

impl GateLink {
    fn wait(&mut self) {
        for _ in 0..TURNS {
            if self.answered.load(Ordering::SeqCst) == 1 {
                self.passed = true;
                return;
            }
            thread::yield_now();
        }
    }
}

impl Link for GateLink {
    ghost use Rattle.std.specs.Prelude.{None, false, refl};

    ghost state = { λ _. record { traffic = None; faults = 0 } };

    ghost tells = { false };

    fn read(&mut self, out: &mut [u8]) -> Result<usize, Failed> {
        if self.read {
            return Ok(0);
        }
        self.read = true;
        if self.first {
            self.wait();
        }
        let n = REQUEST.len().min(out.len());
        out[..n].copy_from_slice(&REQUEST[..n]);
        Ok(n)
    }

    fn write(&mut self, _b: &[u8]) -> Result<(), IoFault> {
        if !self.first {
            self.answered.store(1, Ordering::SeqCst);
        }
        Ok(())
    }

    fn finish(&mut self) {}

    ghost told = { λ _. refl };
}

// A listener whose links come last first, and which then fails.
#[derive(Drop)]
struct GateListen {
    links: Vec<GateLink>,
    ended: u64,
    passed: bool,
    faults: u64,
}

impl Listen for GateListen {
    ghost use Rattle.std.specs.Prelude.{None, false, refl};

    type Link = GateLink;

    ghost state = { λ l. record { coming = None; ended = None; faults = l.faults } };

    ghost tells = { false };

    fn bind(&mut self, _host: &str, _port: u16) -> Result<(), IoFault> {
        Ok(())
    }

    fn accept(&mut self) -> Result<Option<GateLink>, IoFault> {
        match self.links.pop() {
            Some(link) => Ok(Some(link)),
            None => {
                self.faults = raise(self.faults, 1);
                Err(IoFault::Failed)
            }
        }
    }

    fn end(&mut self, link: GateLink) {
        self.ended = raise(self.ended, 1);
        if link.passed {
            self.passed = true;
        }
    }

    ghost told = { λ _. (refl, refl) };

    ghost alike = { λ t. t };
}

fn gate_link(rt: &impl Abort, answered: &Arc<AtomicU64, Global>, first: bool) -> GateLink {
    GateLink {
        first,
        read: false,
        passed: false,
        answered: Arc::try_clone(answered).expect(rt, "no memory"),
    }
}

fn serve_two<R: Abort + Threads + Wait + Sync>(rt: &R, alloc: Global) {
    let answered = Arc::new(alloc, AtomicU64::new(0)).expect(rt, "no memory");
    let mut links = Vec::new(alloc);
    links
        .push(gate_link(rt, &answered, false))
        .expect(rt, "no memory");
    links
        .push(gate_link(rt, &answered, true))
        .expect(rt, "no memory");
    let mut listen = GateListen {
        links,
        ended: 0,
        passed: false,
        faults: 0,
    };
    let folder = MemFolder::new(alloc, Vec::new(alloc));
    let (_, served) = serve_folder(rt, alloc, &mut listen, "", 0, folder, USUAL);
    assert!(rt; served == AllServed::ListenFault, "the listener has failed");
    assert!(rt; listen.ended == 2, "both connections have ended");
    assert!(rt;
        listen.passed,
        "the second was answered while the first waited"
    );
}

// Of two connections the first one fails at its first read.
fn one_fails<R: Abort + Threads + Wait + Sync>(rt: &R, alloc: Global) {
    let mut fails = Vec::new(alloc);
    fails.push(0).expect(rt, "no memory");
    let mut links = Vec::new(alloc);
    links
        .push(MemLink::new(alloc, pieces_of(rt, alloc, REQUEST, 7), fails))
        .expect(rt, "no memory");
    links
        .push(MemLink::new(alloc, pieces_of(rt, alloc, REQUEST, 7), Vec::new(alloc)))
        .expect(rt, "no memory");
    let mut listen = MemListen::new(alloc, links, Vec::new(alloc));
    let folder = MemFolder::new(alloc, Vec::new(alloc));
    let (_, served) = serve_folder(rt, alloc, &mut listen, "", 0, folder, USUAL);
    assert!(rt; served == AllServed::Ended, "no more connections come");
    let (Some(a), Some(b)) = (listen.ended(0), listen.ended(1)) else {
        rt.panic("two have ended");
    };
    assert!(rt; listen.ended(2).is_none(), "and no more");
    let reply: &[u8] = b"HTTP/1.1 404 Not Found\r\nContent-Length: 0\r\n\r\n";
    assert!(rt;
        a.sent().is_empty() || b.sent().is_empty(),
        "one has no reply"
    );
    assert!(rt;
        a.sent() == reply || b.sent() == reply,
        "the other one has all"
    );
}

// The digests of `abc` by SHA-512/256 and by SHA-256 (FIPS 180-4's example messages), in two requests.
const BOTH_PUTS: &[u8] = b"\
PUT /5304/53048e2681941ef99b2e29b76b4c7dabe4c2d0c634fc6d46e0e2f13107e7af23 HTTP/1.1\r\nContent-Length: 3\r\n\r\nabc\
PUT /ba78/ba7816bf8f01cfea414140de5dae2223b00361a396177a9cb410ff61f20015ad HTTP/1.1\r\nContent-Length: 3\r\n\r\nabc";

const BOTH_REPLIES: &[u8] = b"\
HTTP/1.1 400 Bad Request\r\nContent-Length: 0\r\n\r\nHTTP/1.1 200 OK\r\nContent-Length: 0\r\n\r\n";

const PATH: &str = "ba78/ba7816bf8f01cfea414140de5dae2223b00361a396177a9cb410ff61f20015ad";

// `abc` is put under both of its digests, into a shelf whose chunks are named by SHA-256.
fn one_is_taken<R: Abort + Threads + Wait + Sync>(rt: &R, alloc: Global) {
    let mut links = Vec::new(alloc);
    links
        .push(MemLink::new(alloc, pieces_of(rt, alloc, BOTH_PUTS, 64), Vec::new(alloc)))
        .expect(rt, "no memory");
    let mut listen = MemListen::new(alloc, links, Vec::new(alloc));
    let folder = MemFolder::new(alloc, Vec::new(alloc));
    let rules = ShelfRules {
        kind: DigestKind::Sha256,
        writable: true,
    };
    let (mut folder, served) = serve_folder(rt, alloc, &mut listen, "", 0, folder, rules);
    assert!(rt; served == AllServed::Ended, "no more connections come");
    let Some(link) = listen.ended(0) else {
        rt.panic("it has ended");
    };
    assert!(rt; link.sent() == BOTH_REPLIES, "the other digest is refused");
    let names = folder.names().expect(rt, "no memory");
    assert!(rt; names.len() == 1, "one file is there");
    assert!(rt; names[0].as_str() == PATH, "under its digest");
}

#[test]
fn the_second_is_answered_while_the_first_waits(rt: HostRuntime) {
    serve_two(&rt, rt.alloc());
}

#[test]
fn a_failed_connection_ends_alone(rt: HostRuntime) {
    one_fails(&rt, rt.alloc());
}

#[test]
fn chunks_of_another_digest_are_refused(rt: HostRuntime) {
    one_is_taken(&rt, rt.alloc());
}
