//! Why words are no command. A place is the word at which that shows, counted from 0; where words
//! are missing it is the number of words.

/// Why words are no command.
#[derive(Clone, Copy, Debug, PartialEq, Eq)]
pub enum UsageWhy {
    /// There are no words.
    NoCommand,
    /// The first word is no command.
    UnknownCommand,
    /// The word begins with `-` and is no option of the command.
    UnknownOption,
    /// The option stands more often than the command allows.
    TooMany,
    /// The last option lacks its value.
    NoValue,
    /// A location, a name or an operand is empty.
    Empty,
    /// No number, or one out of range.
    BadNumber,
    /// Not three numbers with `:` between.
    BadSizes,
    /// Neither a folder's name nor an `http` URL.
    BadLocation,
    /// A URL or a group where the command works on a folder alone.
    NeedsFolder,
    /// Not the name of an index file, which ends in `.caibx`.
    BadSeed,
    /// Not `HOST:PORT`.
    BadListen,
    /// No kind of digest.
    BadDigest,
    /// A store, a cache or an address is needed.
    MissingOption,
    /// What `prune` removes is gone, so it asks for `-y`.
    NeedsYes,
    /// Too few operands, or too many.
    Operands,
    /// With a cache before its stores, `chunk-server` takes no chunks, so it refuses `-w`.
    ReadOnly,
}

/// Why words weren't read.
#[derive(Clone, Copy, Debug, PartialEq, Eq)]
pub enum WordsFault {
    Usage { place: u64, why: UsageWhy },
    Memory,
}
