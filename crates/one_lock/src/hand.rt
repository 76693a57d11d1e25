//! What locks are taken with, and values behind locks that are taken so.

ghost use Rattle.std.specs.Prelude.{◌≡◌, false, true};

use std::sync::{Mutex, MutexGuard, Wait};

/// What one worker, or one connection, takes locks with. It holds one lock at a time, which is all that `is_free` is
/// for.
#[derive(Drop)]
pub struct Hand {
    is_free: bool,
}

impl Hand {
    /// Holds no lock.
    pub fn new() -> Hand
        ensures { result.is_free ≡ true }
    {
        Hand { is_free: true }
    }

    /// Lets go of the lock.
    pub fn let_go<T: Drop>(&mut self, guard: MutexGuard<'_, T>)
        requires taken { self.old.is_free ≡ false }
        ensures free { self.new.is_free ≡ true }
    {
        drop(guard);
        self.is_free = true;
    }
}

/// A value behind a lock.
#[derive(Drop)]
pub struct HandLock<T> {
    value: Mutex<T>,
}

impl<T: Drop> HandLock<T> {
    pub fn new(value: T) -> HandLock<T> {
        HandLock {
            value: Mutex::new(value),
        }
    }

    pub fn into_inner(self) -> T {
        self.value.into_inner()
    }

    /// Takes the lock, once nobody else has it.
    pub fn take<'l, W: Wait>(&'l self, rt: &W, hand: &mut Hand) -> MutexGuard<'l, T>
        requires free { hand.old.is_free ≡ true }
        ensures taken { hand.new.is_free ≡ false }
    {
        hand.is_free = false;
        self.value.lock(rt)
    }
}
