//! The format of index files, which is casync's. Offsets are bytes from 0, and all numbers are
//! words of 64 bits, low byte first.
//!
//! | Place | Bytes | What stands there |
//! |---|---|---|
//! | 0 | 8 | 48, the size of the head |
//! | 8 | 8 | the type of the head |
//! | 16 | 8 | flags |
//! | 24 | 8 | the least size of a chunk |
//! | 32 | 8 | the average size of a chunk |
//! | 40 | 8 | the greatest size of a chunk |
//! | 48 | 8 | the size of the table, which is left open |
//! | 56 | 8 | the type of the table |
//! | 64 + 40i | 8 | the offset in the image at which chunk i ends |
//! | 72 + 40i | 32 | the id of chunk i |
//! | 64 + 40n | 8 | 0 |
//! | 72 + 40n | 8 | 0 |
//! | 80 + 40n | 8 | the offset of the table in the file: 48 as written, any as read |
//! | 88 + 40n | 8 | the size of the table: 56 + 40n as written, any as read |
//! | 96 + 40n | 8 | the marker |

pub const HEAD_SIZE: u64 = 48;

pub const HEAD_TYPE: u64 = 0x9682_4d9c_7b12_9ff9;

pub const TABLE_OPEN: u64 = 0xffff_ffff_ffff_ffff;

pub const TABLE_TYPE: u64 = 0xe75b_9e11_2f17_417d;

pub const MARKER: u64 = 0x4b4f_050e_5549_ecd1;

/// The flag of indexes whose ids are SHA-512/256.
pub const DIGEST_FLAG: u64 = 0x2000_0000_0000_0000;

/// What the greatest size of a chunk may be at most, in bytes.
pub const SIZE_LIMIT: u64 = 67_108_864;

/// How many chunks an index may have.
pub const ITEM_LIMIT: usize = 4_194_304;

/// How many bytes an index file has at most: 104, and 40 for each chunk.
pub const FILE_LIMIT: u64 = 167_772_264;
