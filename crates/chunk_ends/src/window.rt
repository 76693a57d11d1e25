//! The hash of a window of 48 bytes.

ghost use Rattle.std.specs.Prelude.{◌≡◌};
ghost use Rattle.chunk_ends.specs.Window.{window_hash};

use crate::table::word_of;

/// The hash of the window: its bytes' words in the table, each rotated by its distance from the window's end.
#[tactic(auto, unfolding(crate::specs::Window::window_hash))]
pub fn window_hash(window: &[u8; 48]) -> u32
    ensures value { result ≡ window_hash window.now }
{
    let mut hash = 0u32;
    for i in 0..48u32 {
        hash ^= word_of(window[i as usize]).rotate_left(47 - i);
    }
    hash
}
