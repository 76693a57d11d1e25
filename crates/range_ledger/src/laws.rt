//! What holds of every run of the core machine. Nothing is done: the function's contract is the law.

ghost use Rattle.std.specs.Prelude.{◌≡◌, ◌<◌, ◌++◌, ℕ, List, true};
ghost use Rattle.caibx_codec.specs.Listing.{Listing, count_of};
ghost use Rattle.range_ledger.specs.Extents.{whole};
ghost use Rattle.range_ledger.specs.Machine.{Event, Good, IsRunOf, StaysSettled, state_after};

/// After every run each settled entry is right, and an entry that is neither settled nor torn has the base's bytes.
/// Once settled an entry stays settled, and no later event changes its bytes.
pub fn every_run_is_good()
    ensures value { (l : Listing) (base : List ℕ) (es : List Event) → IsRunOf l base es →
        Good (whole l) base (state_after l base es) }
    ensures kept { (l : Listing) (base : List ℕ) (es later : List Event) (i : ℕ) → IsRunOf l base (es ++ later) →
        i < count_of l → (state_after l base es).settled i ≡ true → StaysSettled l base es later i }
{}
