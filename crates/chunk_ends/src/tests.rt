//! The cutting table by what another program answers.

use crate::table::TABLE;
use sha2::{Digest, Sha256};
use std::test::Fail;

// The SHA-256 of the table's words, low byte first, by another program.
const TABLE_DIGEST: [u8; 32] = [
    0x5b, 0x52, 0x08, 0x0d, 0x38, 0x28, 0x7d, 0xa9, 0xd2, 0xe2, 0x78, 0x46, 0x6e, 0x3e, 0x0d, 0xb7,
    0xec, 0x98, 0xe5, 0xe8, 0xb2, 0x26, 0xf5, 0x06, 0x12, 0xa5, 0x6f, 0xa0, 0x12, 0xb1, 0xf6, 0x60,
];

#[test]
fn the_table_has_its_words(rt: HostRuntime) -> Result<(), Fail> {
    let mut bytes = Vec::new(rt.alloc());
    for word in &TABLE {
        for byte in word.to_le_bytes() {
            bytes.push(byte)?;
        }
    }
    assert_eq!(rt; Sha256::digest(bytes.as_slice()), TABLE_DIGEST);
    Ok(())
}
