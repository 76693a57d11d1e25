//! A connection: bytes come from a peer and go to it, each in order.

ghost use Rattle.std.specs.Prelude.{◌≡◌, ℕ, Bool, [], ◌≤◌, length, take, is_some, IfSome, IfOk, OnOk, OnErr, Err};
ghost use Rattle.std.specs.Option.{option_map};
ghost use Rattle.dsy_base.specs.Counts.{CountsFaults, CountsRefusals};
ghost use Rattle.dsy_base.specs.Links.{LinkState, ReadsNext, sends};

use crate::fault::{Failed, IoFault};

/// A connection to a peer.
pub trait Link: Drop {
    /// What has come and gone, where the type tells it, and how often a call on it has failed.
    ghost state: { Self → LinkState };

    /// Whether the type tells contracts what comes and goes.
    ghost tells: { Bool };

    /// Fills a front of `out` with the bytes that come next, and answers how many they are: 0 exactly where the peer
    /// sends no more.
    fn read(&mut self, out: &mut [u8]) -> Result<usize, Failed>
        requires { 1 ≤ length out.old }
        ensures size { IfOk result (λ n. n ≤ length out.new) }
        ensures bytes { IfOk result (λ n. ReadsNext (take n out.new) (state self.old).traffic
            (state self.new).traffic) }
        ensures end { IfOk result (λ n. n ≡ 0 → IfSome (state self.old).traffic (λ t. t.coming ≡ [])) }
        ensures err { OnErr result ((state self.new).traffic ≡ (state self.old).traffic) }
        ensures faults { CountsRefusals (state self.old).faults (state self.new).faults result };

    /// Sends `b`.
    fn write(&mut self, b: &[u8]) -> Result<(), IoFault>
        ensures ok { OnOk result ((state self.new).traffic ≡ option_map (sends b.now) (state self.old).traffic) }
        // A prefix of b was sent.
        ensures err { result ≡ Err IoFault.Failed → (n : ℕ) × (n ≤ length b.now)
            × ((state self.new).traffic ≡ option_map (sends (take n b.now)) (state self.old).traffic) }
        ensures kept { result ≡ Err IoFault.Memory → (state self.new).traffic ≡ (state self.old).traffic }
        ensures faults { CountsFaults IoFault.Failed IoFault.Memory (state self.old).faults (state self.new).faults
            result };

    /// Says that nothing more is sent, and for a short time takes what the peer still sends, so that the last reply
    /// reaches it. That isn't counted as received.
    fn finish(&mut self)
        ensures kept { state self.new ≡ state self.old };

    /// What comes and goes is told exactly where the type tells.
    ghost told: { (l : Self) → is_some (state l).traffic ≡ tells };
}
