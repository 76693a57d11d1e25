//! A line that is put together in room taken before. Sizes are in bytes.

ghost use Rattle.std.specs.Prelude.{◌≡◌, [], ◌≤◌, IfOk, codes, length};
ghost use Rattle.std.specs.Fmt.{decimal};
ghost use Rattle.hex.specs.Hex.{encode_lower};
ghost use Rattle.command_outcome.specs.Lines.{AddsToLine};

use dsy_base::fault::Memory;
use itoa::Buffer;
use std::alloc::Global;
use std::marker::Model;

/// A line and the room for it. What fits into the room needs no memory.
#[derive(Drop)]
pub struct Line {
    bytes: Vec<u8>,
}

impl Model for Line {
    ghost use Rattle.std.specs.Prelude.{vec_capacity};
    ghost use Rattle.command_outcome.specs.Lines.{Written};

    ghost Value = { Written };

    ghost view = { λ s. record { text = s.bytes.items; room = vec_capacity s.bytes } };
}

impl Line {
    /// An empty line with this room.
    pub fn with_room(alloc: Global, room: usize) -> Result<Line, Memory>
        ensures text { IfOk result (λ l. l.text ≡ []) }
        ensures room { IfOk result (λ l. l.room ≡ room) }
    {
        match Vec::with_capacity(alloc, room) {
            Ok(bytes) => Ok(Line { bytes }),
            Err(_) => Err(Memory),
        }
    }

    /// The bytes of the line.
    pub fn as_bytes(&self) -> &[u8]
        ensures { result.now ≡ self.now.text }
    {
        self.bytes.as_slice()
    }

    // Adds bytes.
    fn add_bytes(&mut self, bytes: &[u8]) -> Result<(), Memory>
        ensures adds { AddsToLine bytes.now (length bytes.now) self.old self.new result }
    {
        match self.bytes.extend_from_slice(bytes) {
            Ok(()) => Ok(()),
            Err(_) => Err(Memory),
        }
    }

    /// Adds a text.
    pub fn add(&mut self, text: &str) -> Result<(), Memory>
        ensures adds { AddsToLine text.now (length text.now) self.old self.new result }
    {
        self.add_bytes(text.as_bytes())
    }

    /// Adds a number in decimal digits.
    pub fn add_number(&mut self, n: u64) -> Result<(), Memory>
        ensures adds { AddsToLine (decimal n) 40 self.old self.new result }
    {
        let mut digits = Buffer::new();
        self.add(digits.format(n))
    }

    /// Adds 32 bytes as 64 digits.
    pub fn add_digest(&mut self, digest: &[u8; 32]) -> Result<(), Memory>
        ensures adds { AddsToLine (encode_lower digest.now) 64 self.old self.new result }
    {
        let mut digits = [0u8; 64];
        match hex::encode_to_slice(digest.as_slice(), &mut digits) {
            Ok(()) => self.add_bytes(&digits),
            Err(_) => Err(Memory),
        }
    }
}
