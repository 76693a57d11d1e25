//! The items of a round, shared out among the readers. Items are numbered from 0.

ghost use Rattle.std.specs.Prelude.{◌≡◌, ◌<◌, ◌≤◌, IfSome, IsTrue};

use std::sync::atomic::{AtomicUsize, Ordering};

/// How the items of a round are shared out.
#[derive(Clone, Copy)]
pub enum Sharing {
    /// While it runs: readers claim them from the last one down, and the consumer takes them from the first one up,
    /// until they meet. Each is read at least once in the end, since the consumer reads what no reader has read.
    Claimed,
    /// Beforehand: each reader goes through all items from the first one up, and reads those that are its own. The
    /// consumer takes them in the next round.
    Dealt,
}

/// The items from `from` to `to`. So many of them were `taken` by readers that claim them, and the consumer has begun
/// those before `begun`.
#[derive(Drop)]
pub struct Claims {
    pub from: usize,
    pub to: usize,
    pub sharing: Sharing,
    taken: AtomicUsize,
    begun: AtomicUsize,
}

impl Claims {
    /// None is claimed.
    pub fn new(from: usize, to: usize, sharing: Sharing) -> Claims
        ensures from { result.from ≡ from }
        ensures to { result.to ≡ to }
    {
        Claims {
            from,
            to,
            sharing,
            taken: AtomicUsize::new(0),
            begun: AtomicUsize::new(from),
        }
    }

    // The last item that isn't claimed yet, for a reader.
    fn claim(&self) -> Option<usize>
        ensures { IfSome result (λ i. (self.now.from ≤ i) × (i < self.now.to)) }
    {
        let number = self.taken.fetch_add(1, Ordering::SeqCst);
        if self.to.saturating_sub(self.from) <= number {
            return None;
        }
        let i = self.to - 1 - number;
        if i < self.begun.load(Ordering::SeqCst) {
            return None;
        }
        Some(i)
    }

    // Item i, if it is one of the round.
    fn item(&self, i: usize) -> Option<usize>
        requires { self.now.from ≤ i }
        ensures { IfSome result (λ k. (self.now.from ≤ k) × (k < self.now.to)) }
    {
        if i < self.to { Some(i) } else { None }
    }

    /// The first item that a reader goes to.
    pub fn first_item(&self) -> Option<usize>
        ensures { IfSome result (λ i. (self.now.from ≤ i) × (i < self.now.to)) }
    {
        match self.sharing {
            Sharing::Claimed => self.claim(),
            Sharing::Dealt => self.item(self.from),
        }
    }

    /// The item that a reader goes to after item i.
    pub fn item_after(&self, i: usize) -> Option<usize>
        requires { (self.now.from ≤ i) × (i < self.now.to) }
        ensures { IfSome result (λ k. (self.now.from ≤ k) × (k < self.now.to)) }
    {
        match self.sharing {
            Sharing::Claimed => self.claim(),
            Sharing::Dealt => self.item(i + 1),
        }
    }

    // Whether no reader has claimed item i, nor one before it. The consumer has begun it then.
    fn begins(&self, i: usize) -> bool
        ensures { IsTrue result → i < self.now.to }
    {
        let most = self.to.saturating_sub(self.from);
        let claimed = self.taken.load(Ordering::SeqCst).min(most);
        if self.to - claimed <= i {
            return false;
        }
        self.begun.store(i + 1, Ordering::SeqCst);
        true
    }

    /// Whether the consumer is to take item i in this round.
    pub fn takes(&self, i: usize) -> bool
        ensures { IsTrue result → i < self.now.to }
    {
        match self.sharing {
            Sharing::Claimed => self.begins(i),
            Sharing::Dealt => false,
        }
    }
}
