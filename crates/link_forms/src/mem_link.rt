//! A connection in memory, with stated calls that fail.

ghost use Rattle.std.specs.Prelude.{◌≡◌, ◌<◌, length, vec_len, slice_get, IfOk, IfSome};
ghost use Rattle.dsy_base.specs.Links.{IsFreshLink};
ghost use Rattle.link_forms.specs.MemLinks.{bytes_in_pieces, fresh_traffic, link_of, traffic_of};

use byte_forms::calls::{Calls, Fails};
use dsy_base::fault::{Failed, IoFault, raise};
use dsy_base::link::Link;
use std::alloc::{AllocError, Global};

/// A connection in memory. A read gives at most one of the pieces that the peer sends, and passes over empty ones; a
/// call that fails changes nothing. Reads and writes are counted together.
#[derive(Debug, Drop)]
pub struct MemLink {
    pieces: Vec<Vec<u8>>,
    piece: usize,
    at: usize,
    sent: Vec<u8>,
    calls: Calls,
    faults: u64,
}

impl MemLink {
    pub fn new(alloc: Global, pieces: Vec<Vec<u8>>, fails: Fails) -> MemLink
        ensures fresh { IsFreshLink (link_of result) }
        ensures coming { (traffic_of result).coming ≡ bytes_in_pieces pieces.items }
        ensures said { result.calls.fails ≡ fails }
    {
        MemLink {
            pieces,
            piece: 0,
            at: 0,
            sent: Vec::new(alloc),
            calls: Calls::new(fails),
            faults: 0,
        }
    }

    pub fn sent(&self) -> &[u8]
        ensures { result.now ≡ (traffic_of self.now).sent }
    {
        self.sent.as_slice()
    }

    /// How often a call has failed.
    pub(crate) fn faults(&self) -> u64
        ensures { result ≡ self.now.faults }
    {
        self.faults
    }

    /// The same connection before anything came or went.
    pub(crate) fn again(&self, alloc: Global) -> Result<MemLink, AllocError>
        ensures same { IfOk result (λ l. traffic_of l ≡ fresh_traffic self.now) }
        ensures faults { IfOk result (λ l. l.faults ≡ 0) }
    {
        Ok(MemLink {
            pieces: self.pieces.clone()?,
            piece: 0,
            at: 0,
            sent: Vec::new(alloc),
            calls: self.calls.again(alloc)?,
            faults: 0,
        })
    }

    // Passes over the pieces that have come whole.
    fn pass_pieces(&mut self)
        ensures kept { link_of self.new ≡ link_of self.old }
        ensures some { IfSome (slice_get self.new.pieces.items self.new.piece) (λ p. self.new.at < vec_len p) }
    {
        while self.piece < self.pieces.len() {
            let size = self.pieces[self.piece].len();
            if self.at < size {
                return;
            }
            self.at -= size;
            self.piece += 1;
        }
    }
}

impl Link for MemLink {
    ghost use Rattle.std.specs.Prelude.{true, refl};

    ghost state = { link_of };

    ghost tells = { true };

    fn read(&mut self, out: &mut [u8]) -> Result<usize, Failed> {
        if self.calls.next_fails() {
            self.faults = raise(self.faults, 1);
            return Err(Failed);
        }
        self.pass_pieces();
        let Some(piece) = self.pieces.get(self.piece) else {
            return Ok(0);
        };
        let rest = &piece[self.at..];
        let n = rest.len().min(out.len());
        out[..n].copy_from_slice(&rest[..n]);
        self.at += n;
        Ok(n)
    }

    fn write(&mut self, b: &[u8]) -> Result<(), IoFault> {
        if self.calls.next_fails() {
            self.faults = raise(self.faults, 1);
            return Err(IoFault::Failed);
        }
        match self.sent.extend_from_slice(b) {
            Ok(()) => Ok(()),
            Err(_) => Err(IoFault::Memory),
        }
    }

    fn finish(&mut self) {}

    ghost told = { λ _. refl };
}
