//! Index files by the format, and not by our writer.

use crate::notation::{bytes_of, words_of};
use chunk_store::id::{ChunkId, DigestKind};
use std::alloc::{AllocError, Global};
use std::test::Fail;

// Adds words of eight bytes.
fn add_words(bytes: &mut Vec<u8>, words: &[u64]) -> Result<(), AllocError> {
    for word in words {
        bytes.extend_from_slice(&u64::to_le_bytes(*word))?;
    }
    Ok(())
}

// The flags of an index by this digest, as casync writes them.
fn flags_of(kind: DigestKind) -> u64 {
    match kind {
        DigestKind::Sha512T256 => 0xa000_0000_0000_0000,
        DigestKind::Sha256 => 0x8000_0000_0000_0000,
    }
}

/// An index file that lists the pieces by this digest, whose flags say that one, with casync's default sizes.
pub fn index_of(
    alloc: Global,
    kind: DigestKind,
    flags: DigestKind,
    pieces: &str,
) -> Result<Vec<u8>, Fail> {
    let mut bytes = Vec::new(alloc);
    let head = [
        48,
        0x9682_4d9c_7b12_9ff9,
        flags_of(flags),
        16384,
        65536,
        262_144,
    ];
    add_words(&mut bytes, &head)?;
    add_words(&mut bytes, &[u64::MAX, 0xe75b_9e11_2f17_417d])?;
    let (mut end, mut size) = (0u64, 56u64);
    for text in words_of(alloc, pieces)?.iter() {
        let piece = bytes_of(alloc, text.as_str())?;
        end = end.saturating_add(piece.len() as u64);
        size = size.saturating_add(40);
        add_words(&mut bytes, &[end])?;
        bytes.extend_from_slice(&ChunkId::of(kind, &piece).0)?;
    }
    add_words(&mut bytes, &[0, 0, 48, size, 0x4b4f_050e_5549_ecd1])?;
    Ok(bytes)
}
