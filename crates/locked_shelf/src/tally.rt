//! How many connections were taken and not given back yet.

ghost use Rattle.std.specs.Prelude.{◌≡◌, ◌+◌, ◌≤◌, false, true};

/// How many connections were taken and not given back yet, and whether there was no memory for one.
#[derive(Clone, Copy)]
pub(crate) struct Tally {
    pub pending: u64,
    pub lacking: bool,
}

impl Tally {
    /// One more was given back.
    pub fn settle(&mut self, lacking: bool)
        ensures well { self.new.lacking ≡ false → (self.old.lacking ≡ false)
            × (self.old.pending ≡ self.new.pending + 1) × (lacking ≡ false) }
        ensures few { self.new.pending ≤ self.old.pending }
    {
        if lacking || self.pending == 0 {
            self.lacking = true;
            self.pending = self.pending.saturating_sub(1);
        } else {
            self.pending -= 1;
        }
    }

    /// So many were dropped.
    pub fn lose(&mut self, lost: u64)
        ensures well { self.new.lacking ≡ false → (self.old.lacking ≡ false)
            × (self.new.pending ≡ self.old.pending) }
        ensures few { self.new.pending ≤ self.old.pending }
    {
        if lost > 0 {
            self.lacking = true;
            self.pending = self.pending.saturating_sub(lost);
        }
    }
}
