//! Laws of replies, for the crates above. Nothing is done: each function's contract is the law.

ghost use Rattle.std.specs.Prelude.{◌≡◌, ℕ, List, Result};
ghost use Rattle.http_read.specs.Replies.{SaysHead};
ghost use Rattle.http_frames.specs.declared.fault.WireFault.{WireFault};
ghost use Rattle.http_wire.specs.declared.reply.Method.{Method};
ghost use Rattle.http_wire.specs.declared.reply.ReplyHead.{ReplyHead};

/// The head at the front of some bytes has one size, and says one thing: whether a reply is taken, and what it gives,
/// is a function of what was received.
pub fn head_says_one_thing()
    ensures same { (m : Method) (b : List ℕ) (n k : ℕ) (r s : Result ReplyHead WireFault) → SaysHead m b n r
        → SaysHead m b k s → (n ≡ k) × (r ≡ s) }
{}
