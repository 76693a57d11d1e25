//! The fields of an index file in their order, and how each of its words is judged.

ghost use Rattle.std.specs.Prelude.{◌≡◌, ◌≤◌, ◌==◌, nat_le, nat_lt, if◌then◌else◌, Ok};
ghost use Rattle.caibx_fields.specs.Fields.{need, place_of, unread_fields, word_at, end_judged};
ghost use Rattle.caibx_fields.specs.Limits.{size_limit, item_limit};

use crate::fault::IndexFault;
use crate::format::{HEAD_SIZE, HEAD_TYPE, ITEM_LIMIT, MARKER, SIZE_LIMIT, TABLE_OPEN, TABLE_TYPE};

/// A field of an index file.
#[derive(Clone, Copy, Debug, PartialEq, Eq)]
pub enum Field {
    HeadSize,
    HeadType,
    Flags,
    Min,
    Avg,
    Max,
    TableSize,
    TableType,
    /// Where a chunk ends, or 0 in the tail.
    End,
    Id,
    /// The second word of the tail.
    Zero,
    Offset,
    Size,
    Marker,
    /// Nothing may come.
    Nothing,
}

/// The words that were read, and which field comes next.
#[derive(Clone, Copy, Debug, PartialEq, Eq)]
pub struct Fields {
    pub next: Field,
    pub flags: u64,
    pub min: u64,
    pub avg: u64,
    pub max: u64,
    /// Where the last chunk ends whose end was read.
    pub end: u64,
    pub offset: u64,
    pub size: u64,
}

impl Fields {
    /// Nothing was read yet.
    pub fn new() -> Fields
        ensures { result ≡ unread_fields }
    {
        Fields {
            next: Field::HeadSize,
            flags: 0,
            min: 0,
            avg: 0,
            max: 0,
            end: 0,
            offset: 0,
            size: 0,
        }
    }
}

/// The number of bytes of a field.
pub fn width(field: Field) -> usize
    ensures { result ≡ need field }
{
    match field {
        Field::Id => 32,
        Field::Nothing => 1,
        _ => 8,
    }
}

/// Where a field begins in the file, after this many items.
pub fn place(field: Field, count: usize) -> u64
    requires { count ≤ item_limit }
    ensures { result ≡ place_of field count }
{
    let items = 40 * count as u64;
    match field {
        Field::HeadSize => 0,
        Field::HeadType => 8,
        Field::Flags => 16,
        Field::Min => 24,
        Field::Avg => 32,
        Field::Max => 40,
        Field::TableSize => 48,
        Field::TableType => 56,
        Field::End => 64 + items,
        Field::Id | Field::Zero => 72 + items,
        Field::Offset => 80 + items,
        Field::Size => 88 + items,
        Field::Marker => 96 + items,
        Field::Nothing => 104 + items,
    }
}

/// What was read with an item's first word, after `count` items: it says where the chunk ends, or begins the tail.
#[tactic(auto, unfolding(crate::specs::Fields::end_judged))]
pub fn judge_end(fields: Fields, count: usize, word: u64) -> Result<Fields, IndexFault>
    ensures { result ≡ end_judged fields count word }
{
    if word == 0 {
        return Ok(Fields {
            next: Field::Zero,
            ..fields
        });
    }
    if ITEM_LIMIT <= count {
        return Err(IndexFault::Items);
    }
    let entry = count as u64;
    if word <= fields.end {
        return Err(IndexFault::Order { entry });
    }
    let size = word - fields.end;
    if fields.max < size {
        return Err(IndexFault::TooLarge { entry, size });
    }
    Ok(Fields {
        next: Field::Id,
        end: word,
        ..fields
    })
}

// The word must be this one.
fn expect(
    fields: Fields,
    word: u64,
    wanted: u64,
    next: Field,
    fault: IndexFault,
) -> Result<Fields, IndexFault>
    ensures { result ≡ (if word == wanted then Ok (record fields { next = next }) else Err fault) }
{
    if word == wanted {
        Ok(Fields { next, ..fields })
    } else {
        Err(fault)
    }
}

// Any flags are taken: they say which digest names the chunks.
fn keep_flags(fields: Fields, word: u64) -> Result<Fields, IndexFault>
    ensures { result ≡ Ok (record fields { next = Field.Min; flags = word }) }
{
    Ok(Fields {
        next: Field::Min,
        flags: word,
        ..fields
    })
}

// The greatest size must be within the limit.
fn judge_max(fields: Fields, word: u64) -> Result<Fields, IndexFault>
    ensures { result ≡ (if nat_lt size_limit word then Err (IndexFault.MaxSize word)
        else Ok (record fields { next = Field.TableSize; max = word })) }
{
    if SIZE_LIMIT < word {
        return Err(IndexFault::MaxSize { max: word });
    }
    Ok(Fields {
        next: Field::TableSize,
        max: word,
        ..fields
    })
}

/// What was read with the word of the next field, after `count` items.
#[tactic(auto, unfolding(crate::specs::Fields::word_at))]
pub fn judge_word(fields: Fields, count: usize, word: u64) -> Result<Fields, IndexFault>
    ensures { result ≡ word_at fields.next fields count word }
{
    match fields.next {
        Field::HeadSize => expect(fields, word, HEAD_SIZE, Field::HeadType, IndexFault::Head),
        Field::HeadType => expect(fields, word, HEAD_TYPE, Field::Flags, IndexFault::Head),
        Field::Flags => keep_flags(fields, word),
        Field::Min => Ok(Fields {
            next: Field::Avg,
            min: word,
            ..fields
        }),
        Field::Avg => Ok(Fields {
            next: Field::Max,
            avg: word,
            ..fields
        }),
        Field::Max => judge_max(fields, word),
        Field::TableSize => expect(
            fields,
            word,
            TABLE_OPEN,
            Field::TableType,
            IndexFault::Table,
        ),
        Field::TableType => expect(fields, word, TABLE_TYPE, Field::End, IndexFault::Table),
        Field::End => judge_end(fields, count, word),
        Field::Zero => expect(fields, word, 0, Field::Offset, IndexFault::Tail),
        Field::Offset => Ok(Fields {
            next: Field::Size,
            offset: word,
            ..fields
        }),
        Field::Size => Ok(Fields {
            next: Field::Marker,
            size: word,
            ..fields
        }),
        Field::Marker => expect(fields, word, MARKER, Field::Nothing, IndexFault::Tail),
        Field::Id | Field::Nothing => Err(IndexFault::Trailing),
    }
}
