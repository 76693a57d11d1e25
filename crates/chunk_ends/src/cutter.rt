//! Cutting an image that comes in pieces.

ghost use Rattle.std.specs.Prelude.{◌≡◌, ℕ, ◌+◌, ◌-◌, ◌^◌, ◌<◌, ◌≤◌, List, [], ◌++◌, length, take, drop, IfOk, IfSome};
ghost use Rattle.std.specs.Prelude.{MatchOption};
ghost use Rattle.chunk_ends.specs.Cuts.{IsCut};
ghost use Rattle.chunk_ends.specs.Feeding.{EndIn, WasFed};

use crate::closing::Closing;
use crate::seam::{end_in, put_seam};
use crate::sizes::CutSizes;
use circular_buffer::HeapCircularBuffer;
use std::alloc::{AllocError, Global};
use std::marker::Model;

/// How much of a piece was taken, and the offset in the image at which a chunk ends with it, if one does.
#[derive(Clone, Copy, Debug, PartialEq, Eq)]
pub struct Fed {
    pub taken: usize,
    pub end: Option<u64>,
}

/// Cuts an image that it is given in pieces. It keeps the last 48 bytes and no more.
#[derive(Drop)]
pub struct Cutter {
    sizes: CutSizes,
    closing: Closing,
    at: u64,
    begun: u64,
    last: HeapCircularBuffer<u8>,
}

impl Model for Cutter {
    ghost use Rattle.std.specs.Prelude.{◌≡◌, ◌-◌, ◌<◌, ◌≤◌, length, min};
    ghost use Rattle.chunk_ends.specs.Feeding.{CutterKept};
    ghost use Rattle.chunk_ends.specs.Sizes.{discriminator_of};

    ghost Value = { CutterKept };

    ghost view = { λ c. record { sizes = c.sizes; at = c.at; begun = c.begun; last = c.last.items } };

    ghost invariant = { λ c. (c.closing ≡ discriminator_of c.sizes.average) × (c.begun ≤ c.at)
        × (c.at - c.begun < c.sizes.greatest)
        × (c.last.capacity ≡ 48) × (length c.last.items ≡ min 48 (c.at - c.begun)) };
}

impl Cutter {
    /// A cutter that was given nothing.
    pub fn new(alloc: Global, sizes: CutSizes) -> Result<Cutter, AllocError>
        ensures sizes { IfOk result (λ c. c.sizes ≡ sizes) }
        ensures none { IfOk result (λ c. (c.begun ≡ 0) × WasFed c []) }
    {
        sizes.rules();
        let closing = Closing::of(&sizes);
        let last = HeapCircularBuffer::with_capacity(alloc, 48)?;
        Ok(Cutter {
            sizes,
            closing,
            at: 0,
            begun: 0,
            last,
        })
    }

    /// Forgets what it was given.
    pub fn restart(&mut self)
        ensures sizes { self.new.sizes ≡ self.old.sizes }
        ensures none { (self.new.begun ≡ 0) × (self.new.at ≡ 0) × WasFed self.new [] }
    {
        self.at = 0;
        self.begun = 0;
        self.last.clear()
    }

    /// The last end of a chunk, or 0 where there is none.
    pub fn begun(&self) -> u64
        ensures value { result ≡ self.now.begun }
    {
        self.begun
    }

    // Where the open chunk ends in the piece.
    fn end_of(&self, piece: &[u8]) -> Option<usize>
        ensures room { MatchOption result (self.now.at - self.now.begun + length piece.now < self.now.sizes.greatest)
            (λ n. (1 ≤ n) × (n ≤ length piece.now) × (self.now.at - self.now.begun + n ≤ self.now.sizes.greatest)) }
        ensures end { (image : List ℕ) → WasFed self.now image
            → EndIn self.now.sizes (drop self.now.begun image) piece.now result }
    {
        let mut seam = [0; 96];
        let length = put_seam(&mut seam, &self.last, piece);
        end_in(
            &self.sizes,
            &self.closing,
            self.at - self.begun,
            &seam[..length],
            piece,
        )
    }

    /// Takes the piece up to and with the first end of a chunk, or all of it where there is none.
    pub fn feed(&mut self, piece: &[u8]) -> Fed
        requires fits { self.old.at + length piece.now < 2 ^ 64 }
        ensures taken { result.taken ≤ length piece.now }
        ensures some { 1 ≤ length piece.now → 1 ≤ result.taken }
        ensures sizes { self.new.sizes ≡ self.old.sizes }
        ensures at { self.new.at ≡ self.old.at + result.taken }
        ensures end { MatchOption result.end
            ((result.taken ≡ length piece.now) × (self.new.begun ≡ self.old.begun)
            × (self.new.at - self.old.begun < self.old.sizes.greatest))
            (λ e. (e ≡ self.new.at) × (self.new.begun ≡ e) × (self.old.begun < e)
            × (e - self.old.begun ≤ self.old.sizes.greatest)) }
        ensures fed { (image : List ℕ) → WasFed self.old image
            → WasFed self.new (image ++ take result.taken piece.now) }
        // The image is cut there, whatever follows.
        ensures cut { IfSome result.end (λ e. (image more : List ℕ) → WasFed self.old image
            → IsCut self.old.sizes (drop self.old.begun ((image ++ take result.taken piece.now) ++ more))
            (e - self.old.begun)) }
    {
        match self.end_of(piece) {
            Some(n) => {
                self.at += n as u64;
                self.begun = self.at;
                self.last.clear();
                Fed {
                    taken: n,
                    end: Some(self.at),
                }
            }
            None => {
                self.at += piece.len() as u64;
                self.last.extend_from_slice(piece);
                Fed {
                    taken: piece.len(),
                    end: None,
                }
            }
        }
    }

    /// The image's length, where bytes stand after the last end.
    pub fn finish(&mut self) -> Option<u64>
        ensures kept { self.new ≡ self.old }
        ensures end { MatchOption result (self.old.begun ≡ self.old.at)
            (λ e. (e ≡ self.old.at) × (self.old.begun < e) × (e - self.old.begun ≤ self.old.sizes.greatest)) }
        ensures cut { IfSome result (λ e. (image : List ℕ) → WasFed self.old image
            → IsCut self.old.sizes (drop self.old.begun image) (e - self.old.begun)) }
    {
        if self.begun == self.at {
            None
        } else {
            Some(self.at)
        }
    }
}
