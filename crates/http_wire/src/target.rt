//! Targets of requests (RFC 9112, section 3.2.1), as paths of chunks.

ghost use Rattle.std.specs.Prelude.{◌≡◌, drop};
ghost use Rattle.std.specs.Option.{option_map};
ghost use Rattle.hex.specs.Hex.{decode_sized};
ghost use Rattle.http_wire.specs.Target.{id_in, id_with_target};

use crate::words::is_word;
use chunk_store::id::ChunkId;
use hex::FromHex;

// The id that the digits behind the `/` of the path spell, if this is its path.
fn id_at(path: &[u8]) -> Option<ChunkId>
    ensures { option_map (λ id. id.0) result ≡ id_with_target path.now (decode_sized (drop 5 path.now) 32) }
{
    let (_, digits) = path.split_at_checked(5)?;
    let Ok(bytes) = <[u8; 32] as FromHex>::from_hex(digits) else {
        return None;
    };
    let id = ChunkId(bytes);
    if is_word(path, id.path().as_str().as_bytes()) {
        Some(id)
    } else {
        None
    }
}

/// The id of the chunk whose path the target is: `/`, four hexadecimal digits, `/`, and 64 digits of which these are
/// the first. Letters may be of either case.
pub fn id_in(target: &[u8]) -> Option<ChunkId>
    ensures value { option_map (λ id. id.0) result ≡ id_in target.now }
{
    let (slash, path) = target.split_first()?;
    if *slash == b'/' { id_at(path) } else { None }
}
