//! Ranges of an image. Offsets and lengths are in bytes.

ghost use Rattle.std.specs.Prelude.{◌≡◌};
ghost use Rattle.cat_command.specs.Cat.{range_size};

use caibx_codec::index::Index;

/// So many bytes of an image, from this offset on.
#[derive(Clone, Copy)]
pub(crate) struct Range {
    pub at: u64,
    pub size: u64,
}

impl Range {
    /// From this offset on up to the image's end, or this many bytes where there are more.
    pub(crate) fn of(index: &Index, offset: u64, length: Option<u64>) -> Range
        ensures from { result.at ≡ offset }
        ensures size { result.size ≡ range_size index.now offset length }
    {
        let left = index.length().saturating_sub(offset);
        let size = match length {
            Some(length) => length.min(left),
            None => left,
        };
        Range { at: offset, size }
    }
}
