//! What a file of a folder store is, by its name: a chunk's, a temporary one, or a stranger. A name is its bytes, with
//! `/` between components.

ghost use Rattle.std.specs.Prelude.{◌≡◌, ◌==◌};
ghost use Rattle.std.specs.List.{after_last};
ghost use Rattle.std.specs.Option.{option_map};
ghost use Rattle.dir_store.specs.Names.{id_at_path, is_stranger, is_temporary};

use chunk_store::id::ChunkId;
use chunk_store::laws::id_has_32_bytes;

/// The id whose chunk file has this name. A name with digits in upper case is no chunk file's.
pub fn id_at_path(name: &str) -> Option<ChunkId>
    ensures value { option_map (λ id. id.0) result ≡ id_at_path name.now }
{
    let (_, digits) = name.split_at_checked(5)?;
    let Ok(id) = ChunkId::from_hex(digits) else {
        return None;
    };
    id_has_32_bytes(&id);
    let path = id.path();
    if path.as_str() == name {
        Some(id)
    } else {
        None
    }
}

// The last component of a name.
fn last_component(name: &str) -> &[u8]
    ensures value { result.now ≡ after_last (λ c. c == 47) name.now }
{
    let bytes = name.as_bytes();
    match name.rfind('/') {
        Some(slash) => &bytes[slash + 1..],
        None => bytes,
    }
}

/// Whether the name is a temporary file's: one that a put which failed may have left.
pub fn is_temporary(name: &str) -> bool
    ensures value { result ≡ is_temporary name.now }
{
    last_component(name).starts_with(b".tmp-cacnk")
}

/// Whether the name is neither a chunk file's nor a temporary one's.
pub fn is_stranger(name: &str) -> bool
    ensures value { result ≡ is_stranger name.now }
{
    !is_temporary(name) && id_at_path(name).is_none()
}
