//! Why bytes are no index file. Offsets and sizes are in bytes, and entries count from 0.

/// Why bytes are no index file, or what is given is no index.
#[derive(Clone, Copy, Debug, PartialEq, Eq)]
pub enum IndexFault {
    /// The bytes end before the marker, after this many.
    Truncated { at: u64 },
    /// The head has another size or type.
    Head,
    /// The table's head has a size that isn't left open, or another type.
    Table,
    /// The second word of the tail isn't 0, or the last isn't the marker.
    Tail,
    /// There are bytes after the marker.
    Trailing,
    /// The greatest size is above the limit.
    MaxSize { max: u64 },
    /// There are too many items.
    Items,
    /// The entry doesn't end after the one before it.
    Order { entry: u64 },
    /// The entry is larger than the greatest size.
    TooLarge { entry: u64, size: u64 },
}
