//! Indexes: the chunks of an image, each with the offset at which it ends and its id. Offsets and
//! sizes are in bytes, ends are exclusive, and chunks count from 0.

ghost use Rattle.std.specs.Prelude.{◌≡◌, ◌<◌, ◌≤◌, ◌+◌, ◌-◌, ◌^◌, length, map, IfOk, Ok, List, ℕ, []};
ghost use Rattle.std.specs.List.{AllByRecursion};
ghost use Rattle.chunk_store.specs.Digests.{IsId};
ghost use Rattle.caibx_codec.specs.Judge.{entry_fault, Judged};
ghost use Rattle.caibx_codec.specs.Listing.{IsValid, IsListedSize, Listing, Rules, count_of, start_of, end_of, size_of};
ghost use Rattle.caibx_codec.specs.Listing.{id_of, kind_of, image_length};
ghost use Rattle.caibx_codec.specs.Reading.{listing};
ghost use Rattle.caibx_codec.specs.Seen.{pairs};

use caibx_fields::fault::IndexFault;
use caibx_fields::field::Fields;
use caibx_fields::format::{DIGEST_FLAG, ITEM_LIMIT, SIZE_LIMIT};
use chunk_store::id::{ChunkId, DigestKind};
use chunk_store::laws::id_has_32_bytes;
use std::alloc::{AllocError, Global};
use std::marker::Model;

/// A chunk of an image: the offset at which it ends, and its id.
#[derive(Clone, Copy, Debug, PartialEq, Eq)]
pub struct Entry {
    pub end: u64,
    pub id: ChunkId,
}

/// A chunk of an image as an index lists it: the offset at which it begins, its number of bytes, and its id.
#[derive(Clone, Copy, Debug, PartialEq, Eq)]
pub struct Listed {
    pub start: u64,
    pub size: usize,
    pub id: ChunkId,
}

/// The chunks of an image, by the rules for an index file. Contracts see it as what it lists.
#[derive(Debug, Drop)]
pub struct Index {
    flags: u64,
    min: u64,
    avg: u64,
    max: u64,
    entries: Vec<Entry>,
}

impl Model for Index {
    ghost use Rattle.caibx_codec.specs.Listing.{Listing, IsValid};

    ghost Value = { Listing };

    ghost use Rattle.caibx_codec.specs.Seen.{listing_seen};

    ghost view = { λ i. listing_seen i };

    ghost invariant = { λ i. IsValid (listing_seen i) };
}

// The first fault of the entries.
fn fault_in(max: u64, entries: &[Entry]) -> Option<IndexFault>
    ensures value { result ≡ entry_fault max 0 0 (pairs entries.now) }
    ensures known { result ≡ None → AllByRecursion (λ e. IsId e.1) (pairs entries.now) }
{
    let mut start = 0u64;
    let mut k = 0u64;
    for entry in entries {
        if entry.end <= start {
            return Some(IndexFault::Order { entry: k });
        }
        let size = entry.end - start;
        if max < size {
            return Some(IndexFault::TooLarge { entry: k, size });
        }
        id_has_32_bytes(&entry.id);
        start = entry.end;
        k += 1;
    }
    None
}

impl Index {
    /// The index of these entries, or the first fault of all that is given. Answers `MaxSize`,
    /// `Items`, `Order` or `TooLarge`.
    pub fn new(
        flags: u64,
        min: u64,
        avg: u64,
        max: u64,
        entries: Vec<Entry>,
    ) -> Result<Index, IndexFault>
        ensures { Judged (record {
          flags = flags;
          least = min;
          average = avg;
          greatest = max;
          entries = pairs
              entries.items;
        }) result }
    {
        if SIZE_LIMIT < max {
            return Err(IndexFault::MaxSize { max });
        }
        if ITEM_LIMIT < entries.len() {
            return Err(IndexFault::Items);
        }
        match fault_in(max, &entries) {
            Some(fault) => Err(fault),
            None => Ok(Index {
                flags,
                min,
                avg,
                max,
                entries,
            }),
        }
    }

    // The index of these words and entries, which were judged one by one.
    pub(crate) fn of_fields(fields: Fields, entries: Vec<Entry>) -> Index
        requires { IsValid (listing fields (pairs entries.items)) }
        ensures { result ≡ listing fields (pairs entries.items) }
    {
        Index {
            flags: fields.flags,
            min: fields.min,
            avg: fields.avg,
            max: fields.max,
            entries,
        }
    }

    /// What the rules say of each chunk by its number. Nothing is done.
    pub fn rules(&self)
        ensures { Rules self.now }
    {
        let _ = &self.entries;
    }

    // The chunks in their order.
    pub(crate) fn entries(&self) -> &[Entry]
        ensures { pairs result.now ≡ self.now.entries }
    {
        &self.entries
    }

    /// Every index is valid. Nothing is done.
    pub fn valid(&self)
        ensures { IsValid self.now }
    {
        let _ = &self.entries;
    }

    /// Which digest names its chunks: SHA-512/256 where its flags have `DIGEST_FLAG`, else SHA-256.
    #[tactic(auto, unfolding(crate::specs::Listing::kind_of))]
    pub fn kind(&self) -> DigestKind
        ensures { result ≡ kind_of self.now }
    {
        if self.flags & DIGEST_FLAG == 0 {
            DigestKind::Sha256
        } else {
            DigestKind::Sha512T256
        }
    }

    /// The flags of its head.
    pub fn flags(&self) -> u64
        ensures { result ≡ self.now.flags }
    {
        self.flags
    }

    /// The least size of a chunk that its writer had in mind.
    pub fn min(&self) -> u64
        ensures { result ≡ self.now.least }
    {
        self.min
    }

    /// The average size of a chunk that its writer had in mind.
    pub fn avg(&self) -> u64
        ensures { result ≡ self.now.average }
    {
        self.avg
    }

    /// The number of chunks.
    pub fn count(&self) -> usize
        ensures { result ≡ count_of self.now }
    {
        self.entries.len()
    }

    /// The greatest size of a chunk.
    pub fn max(&self) -> u64
        ensures { result ≡ self.now.greatest }
    {
        self.max
    }

    /// The offset at which chunk i ends.
    pub fn end(&self, i: usize) -> u64
        requires { i < count_of self.now }
        ensures { result ≡ end_of self.now i }
    {
        self.entries[i].end
    }

    // The number of bytes of chunk i.
    fn size(&self, i: usize) -> usize
        requires { i < count_of self.now }
        ensures { result ≡ size_of self.now i }
    {
        self.rules();
        (self.end(i) - self.start(i)) as usize
    }

    /// The id of chunk i.
    pub fn id(&self, i: usize) -> ChunkId
        requires { i < count_of self.now }
        ensures { result.0 ≡ id_of self.now i }
    {
        self.entries[i].id
    }

    // The offset at which chunk i begins.
    fn start(&self, i: usize) -> u64
        requires { i < count_of self.now }
        ensures { result ≡ start_of self.now i }
    {
        if i == 0 { 0 } else { self.entries[i - 1].end }
    }

    /// Chunk i.
    pub fn entry(&self, i: usize) -> Listed
        requires { i < count_of self.now }
        ensures start { result.start ≡ start_of self.now i }
        ensures size { result.size ≡ size_of self.now i }
        ensures end { result.start + result.size ≡ end_of self.now i }
        ensures id { result.id.0 ≡ id_of self.now i }
        ensures inside { result.start + result.size ≤ image_length self.now }
        ensures fits { (0 < result.size) × (result.size ≤ self.now.greatest) }
    {
        self.rules();
        Listed {
            start: self.start(i),
            size: self.size(i),
            id: self.id(i),
        }
    }

    /// The length of the image.
    pub fn length(&self) -> u64
        ensures { result ≡ image_length self.now }
    {
        let n = self.entries.len();
        if n == 0 { 0 } else { self.entries[n - 1].end }
    }

    /// The number of bytes of the largest chunk, or 0 where there is none.
    pub fn largest(&self) -> usize
        ensures inside { (i : ℕ) → i < count_of self.now → size_of self.now i ≤ result }
        ensures exactly { IsListedSize self.now result }
    {
        self.rules();
        let mut most = 0;
        for i in 0..self.count() {
            let size = self.size(i);
            if most < size {
                most = size;
            }
        }
        most
    }

    /// A buffer of the size of its largest chunk.
    pub fn room(&self, alloc: Global) -> Result<Vec<u8>, AllocError>
        ensures inside { IfOk result (λ v. (i : ℕ) → i < count_of self.now → size_of self.now i ≤ length v.items) }
        ensures exactly { IfOk result (λ v. IsListedSize self.now (length v.items)) }
    {
        let size = self.largest();
        vec![in alloc; 0u8; size]
    }
}
