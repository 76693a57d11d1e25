//! How long a peer may take over a message: over what it sends until it is answered, or over what is sent to it until
//! it answers. Times are milliseconds.

ghost use Rattle.std.specs.Prelude.{◌≡◌, ◌+◌, ◌-◌, ◌^◌, ◌<◌, ◌≤◌, ◌↔◌, min, IsNone, IfSome};
ghost use Rattle.real_links.specs.Paces.{time_left, longest_wait, HasMoved};

use std::time::{Clock, Duration, Instant};

// How many seconds a message may take whatever its size is, and how many bytes it has for each second more.
const SECONDS: u64 = 60;

const BYTES_A_SECOND: u64 = 1_024;

/// How long each call may wait, in milliseconds.
pub(crate) const LONGEST: u64 = 60_000;

/// How many bytes of a message have come or gone, and how long was waited for those after the first ones.
#[derive(Clone, Copy)]
pub(crate) struct Pace {
    waited: u64,
    bytes: u64,
}

/// A call that a pace has granted: how long it may wait, and when it began, where the clock tells.
#[derive(Drop)]
pub(crate) struct Turn {
    wait: u64,
    begun: Option<Instant>,
}

/// How long ago a time was; nothing where the clock doesn't tell.
pub(crate) fn elapsed<C: Clock>(clock: &C, begun: Option<Instant>) -> u64 {
    let elapsed = match begun {
        Some(begun) => begun.elapsed(clock).unwrap_or(Duration::ZERO),
        None => Duration::ZERO,
    };
    u64::try_from(elapsed.as_millis()).unwrap_or(u64::MAX)
}

impl Turn {
    /// How long it may wait.
    pub(crate) fn wait(&self) -> u64
        ensures value { result ≡ self.now.wait }
    {
        self.wait
    }
}

impl Pace {
    /// Of a message that hasn't begun.
    pub(crate) fn new() -> Pace
        ensures fresh { result.bytes ≡ 0 }
        ensures none { result.waited ≡ 0 }
    {
        Pace {
            waited: 0,
            bytes: 0,
        }
    }

    /// The next call, which begins now; `None` where the message has taken too long.
    pub(crate) fn grant<C: Clock>(&self, clock: &C) -> Option<Turn>
        ensures exactly { IsNone result ↔ (time_left self.now ≡ 0) }
        ensures value { IfSome result (λ t. t.wait ≡ longest_wait self.now) }
    {
        let left = self.left();
        if left == 0 {
            return None;
        }
        Some(Turn {
            wait: left.min(LONGEST),
            begun: Instant::now(clock).ok(),
        })
    }

    // What is left of the message's time.
    fn left(&self) -> u64
        ensures value { result ≡ time_left self.now }
    {
        let whole = (SECONDS + self.bytes / BYTES_A_SECOND) * 1_000;
        whole.saturating_sub(self.waited)
    }

    /// Counts the bytes that a call has moved, which ends now, and how long it took.
    pub(crate) fn settle<C: Clock>(&mut self, clock: &C, turn: Turn, bytes: usize)
        ensures changed { HasMoved bytes self.old self.new }
    {
        self.add(elapsed(clock, turn.begun), bytes);
    }

    // Counts bytes that were waited for so long.
    fn add(&mut self, waited: u64, bytes: usize)
        ensures bytes { self.new.bytes ≡ min (self.old.bytes + bytes) (2 ^ 64 - 1) }
        ensures first { self.old.bytes ≡ 0 → self.new.waited ≡ self.old.waited }
        ensures changed { 0 < self.old.bytes → self.new.waited ≡ min (self.old.waited + waited) (2 ^ 64 - 1) }
        ensures kept { self.old.waited ≤ self.new.waited }
    {
        if self.bytes > 0 {
            self.waited = self.waited.saturating_add(waited);
        }
        self.bytes = self.bytes.saturating_add(bytes as u64);
    }
}
