//! Ids of chunks: digests of 32 bytes (FIPS 180-4).

ghost use Rattle.std.specs.Prelude.{◌≡◌, ◌≢◌, ◌↔◌, ℕ, List, length, true, false, IsTrue, IsOk, IfOk, IsOkAnd};
ghost use Rattle.std.specs.List.{AllPass, list_all};
ghost use Rattle.hex.specs.Hex.{decode_of, encode_lower, is_hex_digit};
ghost use Rattle.chunk_store.specs.Digests.{IsId, digest_of};
ghost use Rattle.chunk_store.specs.Paths.{path_of};
ghost use Rattle.dsy_base.specs.Folders.{IsChunkPath, is_digit};

use crate::path::ChunkPath;
use hex::FromHex;
use sha2::{Digest, Sha256, Sha512_256};

/// Which digest names a chunk.
#[derive(Clone, Copy, Debug, PartialEq, Eq)]
pub enum DigestKind {
    Sha512T256,
    Sha256,
}

/// The id of a chunk: the digest of its bytes.
#[derive(Clone, Copy, Debug, PartialEq, Eq, PartialOrd, Ord, Hash)]
pub struct ChunkId(pub [u8; 32]);

/// A text that isn't 64 hexadecimal digits.
#[derive(Clone, Copy, Debug, PartialEq, Eq)]
pub struct NotHex;

fn digits_of(bytes: &[u8; 32]) -> [u8; 64]
    ensures value { result ≡ encode_lower bytes.now }
    ensures digits { IsTrue (list_all is_digit result) }
{
    let mut digits = [0; 64];
    let Ok(()) = hex::encode_to_slice(bytes.as_slice(), &mut digits) else {
        unreachable!();
    };
    digits
}

impl ChunkId {
    /// The id of the bytes.
    pub fn of(kind: DigestKind, bytes: &[u8]) -> ChunkId
        ensures { result.0 ≡ digest_of kind bytes.now }
    {
        match kind {
            DigestKind::Sha512T256 => ChunkId(Sha512_256::digest(bytes)),
            DigestKind::Sha256 => ChunkId(Sha256::digest(bytes)),
        }
    }

    /// Whether the two ids are one.
    pub fn is(&self, other: &ChunkId) -> bool
        ensures same { result ≡ true → self.now.0 ≡ other.now.0 }
        ensures only { result ≡ false → self.now.0 ≢ other.now.0 }
    {
        self.0.as_slice() == other.0.as_slice()
    }

    /// Whether this is the id of the bytes.
    pub fn is_of(&self, kind: DigestKind, bytes: &[u8]) -> bool
        ensures named { result ≡ true → digest_of kind bytes.now ≡ self.now.0 }
        ensures only { result ≡ false → digest_of kind bytes.now ≢ self.now.0 }
    {
        ChunkId::of(kind, bytes).is(self)
    }

    /// The id as a text: 64 hexadecimal digits in lower case.
    pub fn to_hex(&self) -> [u8; 64]
        ensures value { result ≡ encode_lower self.now.0 }
        ensures digits { IsTrue (list_all is_digit result) }
    {
        digits_of(&self.0)
    }

    /// The id that a text spells, in digits of either case.
    pub fn from_hex(text: &str) -> Result<ChunkId, NotHex>
        ensures value { IfOk result (λ id. decode_of text.now ≡ Ok id.0) }
        ensures exactly { IsOk result ↔ ((length text.now ≡ 64) × AllPass is_hex_digit text.now) }
        // What `to_hex` wrote is read again.
        ensures known { (id : List ℕ) → IsId id → text.now ≡ encode_lower id → IsOkAnd result (λ x. x.0 ≡ id) }
    {
        match <[u8; 32] as FromHex>::from_hex(text) {
            Ok(bytes) => Ok(ChunkId(bytes)),
            Err(_) => Err(NotHex),
        }
    }

    /// The path of its file in a folder store.
    pub fn path(&self) -> ChunkPath
        ensures value { result ≡ path_of self.now.0 }
        ensures digits { IsChunkPath result }
    {
        ChunkPath::of(&self.to_hex())
    }
}
