//! Paths of chunks in a folder store: the first four digits of the id, `/`, and all 64 digits. Sizes are in bytes.

ghost use Rattle.std.specs.Prelude.{◌≡◌, ◌∷◌, ◌++◌, length, take, IsAscii};

use std::marker::Model;

/// The path of a chunk, which contracts see as its bytes.
#[derive(Debug, Drop)]
pub struct ChunkPath {
    bytes: [u8; 69],
}

impl Model for ChunkPath {
    ghost use Rattle.std.specs.Prelude.{List, ℕ, IsAscii};

    ghost Value = { List ℕ };

    ghost view = { λ p. p.bytes };

    ghost invariant = { λ p. IsAscii p.bytes };
}

impl ChunkPath {
    // The path of the id that these digits spell.
    pub(crate) fn of(digits: &[u8; 64]) -> ChunkPath
        requires { IsAscii digits.now }
        ensures value { result ≡ take 4 digits.now ++ 47 ∷ digits.now }
    {
        let mut bytes = [b'/'; 69];
        let (front, rest) = bytes.split_at_mut(5);
        front[..4].copy_from_slice(&digits[..4]);
        rest.copy_from_slice(digits);
        ChunkPath { bytes }
    }

    pub fn as_str(&self) -> &str
        ensures value { result.now ≡ self.now }
        ensures size { length result.now ≡ 69 }
    {
        let Ok(text) = str::from_utf8(&self.bytes) else {
            unreachable!();
        };
        text
    }
}
