//! What takes items in order, beside readers that read them ahead. Items are numbered from 0.

ghost use Rattle.std.specs.Prelude.{◌≡◌, ℕ, ◌+◌, ◌<◌, ◌≤◌, All, IfOk, Ok, OnOk, Result};

use std::alloc::{AllocError, Global};

/// Takes items in order, each exactly once, up to the first that ends it. What it does is the same whether an item was
/// read ahead into a room of type `A` or not.
pub trait Consumer<A>: Drop {
    /// Why it ended early.
    type Fault;

    /// How many items there are.
    ghost count: { Self → ℕ };

    /// How many of them it has taken.
    ghost taken: { Self → ℕ };

    /// The items before `taken` are done, and it can go on.
    ghost can_go_on: { Self → Type 0 };

    /// What stands in the room may be used.
    ghost accepts: { Self → A → Type 0 };

    /// It went from the first state to the second, and ended with this result.
    ghost goes: { Self → Self → Result Unit Self.Fault → Type 0 };

    /// How many items there are.
    fn count(&self) -> usize
        ensures { result ≡ count self.now };

    /// The next item.
    fn at(&self) -> usize
        ensures { result ≡ taken self.now };

    /// How many bytes readers leave free.
    fn spare(&self) -> usize;

    /// A room for a reader, in which nothing stands.
    fn room(&self, alloc: Global) -> Result<A, AllocError>
        ensures { IfOk result (accepts self.now) };

    /// The item after those of the round that begins with item `from`, which this thread and the readers are to read.
    fn round_end(&self, from: usize, readers: usize) -> usize
        requires { from < count self.now }
        ensures { (from < result) × (result ≤ count self.now) };

    /// Takes the next item, which may stand in one of the rooms. What has come to this state goes on from it.
    fn take_next(&mut self, ready: &[A]) -> Result<(), Self::Fault>
        requires more { taken self.old < count self.old }
        requires going { can_go_on self.old }
        requires ready { All (accepts self.old) ready.now }
        ensures on { (first : Self) → goes first self.old (Ok tt) → goes first self.new result }
        ensures going { OnOk result (can_go_on self.new) }
        ensures next { OnOk result (taken self.new ≡ taken self.old + 1) }
        ensures count { count self.new ≡ count self.old }
        ensures accepted { OnOk result ((a : A) → accepts self.old a → accepts self.new a) };
}
