//! Reading an index file.

ghost use Rattle.std.specs.Prelude.{◌≡◌, ◌≢◌, ◌+◌, ◌++◌, ◌<◌, ◌≤◌, [], length, slice_range, take, Option, Some, IsSome};
ghost use Rattle.std.specs.Prelude.{IfSome, OnOk, OnErr};
ghost use Rattle.std.specs.Option.{option_map};
ghost use Rattle.dsy_base.specs.Counts.{CountsFaults};
ghost use Rattle.caibx_fields.specs.Limits.{file_limit};
ghost use Rattle.caibx_codec.specs.Answers.{FirstIn, ReadsIndex, ShowsFault, StopsIn};

use crate::index::Index;
use crate::reader::IndexReader;
use caibx_fields::fault::IndexFault;
use caibx_fields::format::FILE_LIMIT;
use dsy_base::view::View;
use std::alloc::{AllocFailed, Global};

/// Why no index was read.
#[derive(Clone, Copy, Debug, PartialEq, Eq)]
pub enum ReadFault {
    Bad(IndexFault),
    /// The reader has refused before.
    Over,
    /// There was no memory for the items.
    Memory,
}

impl<T: Drop> From<AllocFailed<T>> for ReadFault {
    ghost use Rattle.caibx_codec.specs.declared.reading.ReadFault.TheVariants.{Memory};

    ghost from_gives = { λ _ e. e ≡ Memory };

    fn from(_e: AllocFailed<T>) -> ReadFault {
        ReadFault::Memory
    }
}

/// Why no index was read from a view.
#[derive(Clone, Copy, Debug, PartialEq, Eq)]
pub enum ViewFault {
    Bad(IndexFault),
    /// The view failed.
    Failed,
    /// There was no memory for the items or for the bytes that are read at a time.
    Memory,
}

/// How many bytes of a view are read at a time.
const PIECE: usize = 65_536;

// Feeds the reader with as many bytes from offset `at` on as the buffer has room for.
fn feed_from<V: View>(
    v: &mut V,
    at: u64,
    buffer: &mut [u8],
    reader: &mut IndexReader,
) -> Result<(), ViewFault>
    requires inside { at + length buffer.old ≤ (V.held v.old).size }
    requires fresh { IsSome reader.old }
    ensures ok { OnOk result (IfSome (V.held v.old).bytes (λ t. reader.new
        ≡ option_map (λ b. b ++ slice_range t at (at + length buffer.old)) reader.old)) }
    ensures fresh { OnOk result (IsSome reader.new) }
    ensures size { OnOk result (IfSome reader.new (λ b. length b ≤ file_limit)) }
    ensures first { IfSome (V.held v.old).bytes (λ t. IfSome reader.old
        (λ b. ShowsFault (b ++ slice_range t at (at + length buffer.old)) result)) }
    ensures kept { V.held v.new ≡ V.held v.old }
    ensures faults { CountsFaults ViewFault.Failed ViewFault.Memory (V.faults v.old) (V.faults v.new) result }
{
    if v.read_at(at, buffer).is_err() {
        return Err(ViewFault::Failed);
    }
    match reader.feed(buffer) {
        Ok(()) => Ok(()),
        Err(ReadFault::Bad(fault)) => Err(ViewFault::Bad(fault)),
        Err(ReadFault::Over | ReadFault::Memory) => Err(ViewFault::Memory),
    }
}

// Feeds a fresh reader with the first bytes of the view, as many at a time as the buffer has room
// for.
fn feed_front<V: View>(
    v: &mut V,
    end: u64,
    buffer: &mut [u8],
    reader: &mut IndexReader,
) -> Result<(), ViewFault>
    requires inside { end ≤ (V.held v.old).size }
    requires size { 0 < length buffer.old }
    requires fresh { reader.old ≡ Some [] }
    ensures ok { OnOk result (IfSome (V.held v.old).bytes (λ t. reader.new ≡ Some (take end t))) }
    ensures size { OnOk result (IfSome reader.new (λ b. length b ≤ file_limit)) }
    ensures first { IfSome (V.held v.old).bytes (λ t. StopsIn t result) }
    ensures kept { V.held v.new ≡ V.held v.old }
    ensures faults { CountsFaults ViewFault.Failed ViewFault.Memory (V.faults v.old) (V.faults v.new) result }
{
    let mut at = 0u64;
    while at < end {
        let len = (end - at).min(buffer.len() as u64) as usize;
        let (piece, _) = buffer.split_at_mut(len);
        feed_from(v, at, piece, reader)?;
        at += len as u64;
    }
    Ok(())
}

// What the reader ends with.
fn finished(reader: IndexReader) -> Result<Index, ViewFault>
    ensures first { IfSome reader (λ t. FirstIn t result) }
    ensures exactly { IfSome reader (λ t. ReadsIndex t result) }
    ensures only { result ≢ Err ViewFault.Failed }
{
    match reader.finish() {
        Ok(index) => Ok(index),
        Err(ReadFault::Bad(fault)) => Err(ViewFault::Bad(fault)),
        Err(ReadFault::Over | ReadFault::Memory) => Err(ViewFault::Memory),
    }
}

// Reads as many bytes at a time as the buffer has room for.
fn read_by<V: View>(alloc: Global, v: &mut V, buffer: &mut [u8]) -> Result<Index, ViewFault>
    requires { 0 < length buffer.old }
    ensures exactly { IfSome (V.held v.old).bytes (λ t. ReadsIndex t result) }
    ensures first { IfSome (V.held v.old).bytes (λ t. FirstIn t result) }
    ensures kept { V.held v.new ≡ V.held v.old }
    ensures faults { CountsFaults ViewFault.Failed ViewFault.Memory (V.faults v.old) (V.faults v.new) result }
{
    let end = v.size().min(FILE_LIMIT + 1);
    let mut reader = IndexReader::new(alloc);
    match feed_front(v, end, buffer, &mut reader) {
        Ok(()) => finished(reader),
        Err(fault) => Err(fault),
    }
}

/// The index whose file the view holds. It reads no more bytes than the longest index file has,
/// and one more.
pub fn read_index<V: View>(alloc: Global, v: &mut V) -> Result<Index, ViewFault>
    ensures exactly { IfSome (V.held v.old).bytes (λ t. ReadsIndex t result) }
    ensures first { IfSome (V.held v.old).bytes (λ t. FirstIn t result) }
    ensures kept { V.held v.new ≡ V.held v.old }
    ensures faults { CountsFaults ViewFault.Failed ViewFault.Memory (V.faults v.old) (V.faults v.new) result }
{
    match vec![in alloc; 0u8; PIECE] {
        Ok(mut buffer) => read_by(alloc, v, &mut buffer),
        Err(_) => Err(ViewFault::Memory),
    }
}
