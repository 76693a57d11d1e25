//! The first place at which the last 48 bytes close a chunk. The hash rolls: it isn't computed afresh for each window.

ghost use Rattle.std.specs.Prelude.{◌≡◌, ◌+◌, ◌≤◌, length, MatchOption};
ghost use Rattle.chunk_ends.specs.Cuts.{NoneCloses, ClosesFirst};
ghost use Rattle.chunk_ends.specs.Window.{roll_of};

use crate::closing::Closing;
use crate::table::word_of;
use crate::window::window_hash;

// The hash of the window after the one of this hash: the first byte has left it, and one has entered.
#[tactic(auto, unfolding(crate::specs::Window::roll_of))]
fn rolled(hash: u32, leaving: u8, entering: u8) -> u32
    ensures value { result ≡ roll_of hash leaving entering }
{
    let change = word_of(leaving).rotate_left(16) ^ word_of(entering);
    hash.rotate_left(1) ^ change
}

/// The least size, from `from` to `to`, of a beginning of the bytes whose last 48 bytes close it.
pub(crate) fn first_closing(
    closing: &Closing,
    bytes: &[u8],
    from: usize,
    to: usize,
) -> Option<usize>
    requires window { 48 ≤ from }
    requires inside { to ≤ length bytes.now }
    ensures first { MatchOption result (NoneCloses closing.now bytes.now from (to + 1))
        (λ n. ClosesFirst closing.now bytes.now from to n) }
{
    if to < from {
        return None;
    }
    let mut window = [0; 48];
    window.copy_from_slice(&bytes[from - 48..from]);
    let mut hash = window_hash(&window);
    if closing.closes(hash) {
        return Some(from);
    }
    for i in from..to {
        hash = rolled(hash, bytes[i - 48], bytes[i]);
        if closing.closes(hash) {
            return Some(i + 1);
        }
    }
    None
}
