//! Bytes that are read and written by place. Offsets are bytes from 0, ends are exclusive.

ghost use Rattle.std.specs.Prelude.{◌≡◌, ℕ, Bool, IsTrue, List, ◌+◌, ◌^◌, ◌<◌, ◌≤◌, length, slice_range};
ghost use Rattle.std.specs.Prelude.{is_some, IfSome, OnOk, OnErr, IfOk, IfErr, map};
ghost use Rattle.std.specs.List.{sum_by, All};
ghost use Rattle.dsy_base.specs.Bytes.{Held, held_written, held_resized};
ghost use Rattle.dsy_base.specs.Counts.{CountsFaults, CountsRefusals, raised};
ghost use Rattle.dsy_base.specs.Splits.{Left, CountsRefused, IsCuts, extent, extents, joined, held_joined};

use crate::fault::{Failed, IoFault, SplitFault};

/// Bytes that can be read by place.
pub trait View: Drop {
    /// What it holds. Its size is always known, its bytes where the type tells them.
    ghost held: { Self → Held };

    /// How often a call on it has failed.
    ghost faults: { Self → ℕ };

    /// Whether the type tells contracts its bytes.
    ghost tells: { Bool };

    /// Whether the type never fails.
    ghost never_fails: { Bool };

    /// The number of bytes.
    fn size(&self) -> u64
        ensures { result ≡ (held self.now).size };

    /// Fills `out` with the bytes from offset `at` on. After a refusal `out` holds any bytes.
    fn read_at(&mut self, at: u64, out: &mut [u8]) -> Result<(), Failed>
        requires { at + length out.old ≤ (held self.old).size }
        ensures bytes { OnOk result (IfSome (held self.old).bytes
            (λ t. out.new ≡ slice_range t at (at + length out.old))) }
        ensures kept { held self.new ≡ held self.old }
        ensures faults { CountsRefusals (faults self.old) (faults self.new) result };

    /// The bytes are told exactly where the type tells.
    ghost told: { (v : Self) → is_some (held v).bytes ≡ tells };

    /// Told bytes are as many as the size says.
    ghost sized: { (v : Self) → IfSome (held v).bytes (λ t. length t ≡ (held v).size) };

    /// A type that never fails counts no fault.
    ghost sure: { (v : Self) → IsTrue never_fails → faults v ≡ 0 };
}

/// Bytes that can be written by place too.
pub trait Part: View {
    /// Writes `b` over the bytes from offset `at` on.
    fn write_at(&mut self, at: u64, b: &[u8]) -> Result<(), Failed>
        requires { at + length b.now ≤ (Self.held self.old).size }
        ensures ok { OnOk result (Self.held self.new ≡ held_written (Self.held self.old) at b.now) }
        // The range holds any bytes, and all else stays.
        ensures err { OnErr result ((x : List ℕ) × (length x ≡ length b.now)
            × (Self.held self.new ≡ held_written (Self.held self.old) at x)) }
        ensures faults { CountsRefusals (Self.faults self.old) (Self.faults self.new) result };
}

/// Bytes whose number can be changed, and that can be split into parts.
pub trait Target: Part {
    /// A part: the bytes between two cuts.
    type Piece: Part;

    /// What is left of a target beside its parts.
    type Rest: Drop;

    /// What the rest keeps of the target: its size, its name and its count of faults.
    ghost left: { Self.Rest → Left };

    /// Cuts off the end, or fills up with zeros, to `n` bytes.
    fn set_len(&mut self, n: u64) -> Result<(), IoFault>
        ensures ok { OnOk result (Self.held self.new ≡ held_resized (Self.held self.old) n) }
        ensures err { OnErr result (Self.held self.new ≡ Self.held self.old) }
        ensures faults { CountsFaults IoFault.Failed IoFault.Memory (Self.faults self.old) (Self.faults self.new)
            result };

    /// Splits the bytes at the cuts, and takes the room that `rejoin` needs. A refusal hands the target back.
    fn split(self, cuts: &[u64]) -> Result<(Self::Rest, Vec<Self::Piece>), (Self, SplitFault)>
        requires { IsCuts 0 cuts.now (Self.held self).size }
        ensures rest { IfOk result (λ r. left r.0 ≡ record {
          size = (Self.held self).size;
          name = (Self.held self).name;
          faults = Self.faults self;
        }) }
        ensures counted { IfOk result (λ r. (left r.0).faults < 2 ^ 64) }
        ensures parts { IfOk result (λ r. map (λ p. extent (Self.Piece.held p)) r.1.items
            ≡ extents (Self.held self).bytes 0 cuts.now) }
        ensures fresh { IfOk result (λ r. All (λ p. Self.Piece.faults p ≡ 0) r.1.items) }
        ensures kept { IfErr result (λ e. Self.held e.0 ≡ Self.held self) }
        ensures faults { IfErr result (λ e. CountsRefused (Self.faults self) (Self.faults e.0) e.1) };

    /// Joins the parts in their order. It takes no memory.
    fn rejoin(rest: Self::Rest, parts: Vec<Self::Piece>) -> Self
        requires { sum_by (λ p. (Self.Piece.held p).size) parts.items ≡ (left rest).size }
        ensures bytes { Self.held result
            ≡ held_joined (left rest) Self.tells (joined (λ p. Self.Piece.held p) parts.items) }
        ensures faults { Self.faults result
            ≡ raised (left rest).faults (sum_by (λ p. Self.Piece.faults p) parts.items) };

    /// The parts tell their bytes exactly where the target does.
    ghost parts_tell: { Self.Piece.tells ≡ Self.tells };

    /// The parts never fail exactly where the target never does.
    ghost parts_fail: { Self.Piece.never_fails ≡ Self.never_fails };
}
