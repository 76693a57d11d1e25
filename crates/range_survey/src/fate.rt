//! What became of each entry of an index.

ghost use Rattle.std.specs.Prelude.{◌≡◌};
ghost use Rattle.range_survey.specs.Fates.{is_settled};

/// What became of an entry of an index in an extraction.
#[derive(Clone, Copy, Debug, PartialEq, Eq)]
pub enum Fate {
    /// It isn't right yet.
    Open,
    /// It was right before the first write.
    Kept,
    /// Its bytes were copied from an alike entry.
    Copied,
    /// Its bytes came from a seed.
    Seeded,
    /// Its bytes came from a cache.
    Cached,
    /// Its bytes came from a store.
    Fetched,
}

impl Fate {
    /// Whether the entry is right by now.
    pub fn is_settled(&self) -> bool
        ensures { result ≡ is_settled self.now }
    {
        match self {
            Fate::Open => false,
            Fate::Kept | Fate::Copied | Fate::Seeded | Fate::Cached | Fate::Fetched => true,
        }
    }
}
