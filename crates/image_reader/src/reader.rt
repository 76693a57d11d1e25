//! Readers of an image that isn't assembled. Offsets are bytes from 0, and entries are numbered from 0.

ghost use Rattle.std.specs.Prelude.{◌≡◌, ◌+◌, ◌<◌, ◌≤◌, ◌^◌, ℕ, List, [], Some, length, map, slice_index, IfErr, IfOk};
ghost use Rattle.std.specs.Prelude.{OnOk};
ghost use Rattle.caibx_codec.specs.Listing.{count_of, image_length, kind_of};
ghost use Rattle.dsy_base.specs.Counts.{Rose};
ghost use Rattle.dsy_base.specs.Maps.{Map};
ghost use Rattle.image_reader.specs.Covered.{IsCovered};
ghost use Rattle.image_reader.specs.Images.{IsRange, IsRightInRange, ReadsImage, SomeGivesEntry};
ghost use Rattle.image_reader.specs.Reading.{RangeStops, ReadsTo};
ghost use Rattle.store_chain.specs.Faults.{EachQuiet};

use crate::kept::KeptChunks;
use crate::reading::read_range;
use crate::refused::ReadRefused;
use caibx_codec::index::Index;
use chunk_store::store::Store;
use dsy_base::fault::Memory;
use std::alloc::Global;
use std::marker::Model;
use std::num::NonZeroUsize;
use store_chain::chain::Chain;

/// An image by its index, whose chunks come from stores. The chunks that were used last are kept.
#[derive(Drop)]
pub struct ImageReader<S: Store> {
    index: Index,
    chain: Chain<S>,
    kept: KeptChunks,
}

impl<S: Store> Model for ImageReader<S> {
    ghost use Rattle.std.specs.Prelude.{◌≡◌};
    ghost use Rattle.caibx_codec.specs.Listing.{kind_of};
    ghost use Rattle.image_reader.specs.Reading.{ReaderState, reader_state};

    ghost Value = { ReaderState S };

    ghost view = { λ r. reader_state r.index r.chain r.kept };

    ghost invariant = { λ r. (r.chain.kind ≡ kind_of r.index) × (r.kept.kind ≡ kind_of r.index) };
}

impl<S: Store> ImageReader<S> {
    /// Nothing is kept yet. At most `keep` chunks are.
    pub fn new(
        alloc: Global,
        index: Index,
        chain: Chain<S>,
        keep: usize,
    ) -> Result<ImageReader<S>, (Index, Chain<S>, Memory)>
        requires kind { chain.kind ≡ kind_of index }
        requires size { (1 ≤ keep) × (keep ≤ 64) }
        ensures ok { IfOk result (λ r. r ≡ record { index = index; chain = chain; keep = keep; kept = [] }) }
        ensures err { IfErr result (λ e. (e.0 ≡ index) × (e.1 ≡ chain)) }
    {
        match KeptChunks::new(alloc, index.kind(), NonZeroUsize::new(keep).unwrap()) {
            Ok(kept) => Ok(ImageReader { index, chain, kept }),
            Err(_) => Err((index, chain, Memory)),
        }
    }

    /// Fills `out` with the bytes of the image from this offset on. Entries are taken in rising order. A chunk that
    /// isn't kept is got from the stores, and kept. After a refusal `out` holds any bytes.
    pub fn read_at(&mut self, at: u64, out: &mut [u8]) -> Result<(), ReadRefused>
        requires inside { at + length out.old ≤ image_length self.old.index }
        // The bytes are those of each image that is right where the range is.
        ensures right { (t : List ℕ) → IsRightInRange t self.old.index at (length out.old) →
            OnOk result (IsRange self.old.index at (length out.old) t out.new) }

        // How often the stores are asked, and what is kept then.
        ensures ok { OnOk result (ReadsTo S.Store at (length out.old) (count_of self.old.index) self.old self.new) }
        ensures err { IfErr result (RangeStops S.Store at (length out.old) self.old self.new) }
        ensures few { length self.new.kept ≤ self.new.keep }
        ensures same { self.new.index ≡ self.old.index }
        ensures kind { self.new.chain.kind ≡ self.old.chain.kind }

        // Where the stores tell what they hold, give each covered chunk, and don't fail.
        ensures exactly { (maps : List (Map (List ℕ))) → map S.holds self.old.chain.stores ≡ map Some maps →
            EachQuiet (map S.faults self.old.chain.stores) (map S.faults self.new.chain.stores) →
            ((i : ℕ) → IsCovered self.old.index at (length out.old) i → SomeGivesEntry self.old.index i maps) →
            ReadsImage self.old.index at maps result out.new }
        ensures cause { (s : ℕ) → result ≡ Err (ReadRefused.StoreFault s) →
            Rose (slice_index (map S.faults self.old.chain.stores) s)
            (slice_index (map S.faults self.new.chain.stores) s) }
    {
        self.index.rules();
        let read = read_range(&self.index, &mut self.chain, &mut self.kept, at, out);
        self.kept.few();
        read
    }

    /// What the image consists of.
    pub fn index(&self) -> &Index
        ensures value { result.now ≡ self.now.index }
    {
        &self.index
    }

    /// How often the stores were asked for a chunk. The count stays at its greatest value.
    pub fn asks(&self) -> u64
        ensures value { result ≡ self.now.chain.asks }
        ensures below { self.now.chain.asks < 2 ^ 64 }
    {
        self.chain.asks()
    }

    pub fn into_parts(self) -> (Index, Chain<S>)
        ensures value { (result.0 ≡ self.index) × (result.1 ≡ self.chain) }
    {
        let ImageReader { index, chain, .. } = self;
        (index, chain)
    }
}
