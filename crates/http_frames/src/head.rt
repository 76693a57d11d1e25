//! Where a head ends: after its first empty line (RFC 9112, sections 2.1 and 2.2: LF alone may end a line).

ghost use Rattle.std.specs.Prelude.{◌≡◌, ℕ, ◌<◌, ◌≤◌, length, IfSome, IfNone, true, false};
ghost use Rattle.http_frames.specs.HeadEnd.{ends_at, IsFirstEnd};

/// The most bytes that are looked at for the end of a head.
pub const HEAD_LIMIT: usize = 16_384;

// Whether the first n bytes end as a head does: with LF LF, or with LF CR LF.
#[tactic(auto, unfolding(crate::specs::HeadEnd::ends_at))]
fn ends_at(bytes: &[u8], n: usize) -> bool
    requires inside { n ≤ length bytes.now }
    ensures { result ≡ ends_at bytes.now n }
{
    n >= 2
        && bytes[n - 1] == b'\n'
        && (bytes[n - 2] == b'\n' || (n >= 3 && bytes[n - 2] == b'\r' && bytes[n - 3] == b'\n'))
}

/// The number of bytes of the head at the front, its empty line included. `None` where that line isn't there yet. Each
/// call begins at the first byte.
pub fn head_end(bytes: &[u8]) -> Option<usize>
    ensures found { IfSome result (IsFirstEnd bytes.now) }
    ensures absent { IfNone result ((m : ℕ) → m ≤ length bytes.now → ends_at bytes.now m ≡ false) }
{
    let mut n = 0;
    while n < bytes.len() {
        n += 1;
        if ends_at(bytes, n) {
            return Some(n);
        }
    }
    None
}
