//! A range of an image that is read from stores and put on a sink, entry by entry. Offsets are bytes from 0, and
//! entries are numbered from 0.

ghost use Rattle.std.specs.Prelude.{◌≡◌, ℕ, ◌+◌, ◌-◌, ◌<◌, ◌≤◌, List, [], map, min, IfErr, IfOk, Err, Ok};
ghost use Rattle.std.specs.List.{AllZip};
ghost use Rattle.caibx_codec.specs.Listing.{count_of, end_of, image_length, kind_of, start_of};
ghost use Rattle.cat_command.specs.Cat.{kept_chunks};
ghost use Rattle.cat_command.specs.Putting.{EndsGiving, EndsPutting, outcome_of_read};
ghost use Rattle.image_reader.specs.Covered.{IsCoveredGet, wants_of};
ghost use Rattle.image_reader.specs.Keeping.{missed};
ghost use Rattle.image_reader.specs.Reading.{AsksWants};
ghost use Rattle.store_chain.specs.Chains.{KeepsStores};

use crate::range::Range;
use caibx_codec::index::Index;
use chunk_store::store::Store;
use command_outcome::outcome::Outcome;
use command_worlds::printing::printed;
use dsy_base::sink::Sink;
use image_reader::cover::first_past;
use image_reader::reader::ImageReader;
use image_reader::refused::ReadRefused;
use std::alloc::Global;
use store_chain::chain::Chain;

/// How many chunks are kept.
const KEPT_CHUNKS: usize = 8;

// The outcome where a range isn't read.
fn unread(refused: ReadRefused) -> Outcome
    ensures { result ≡ outcome_of_read refused }
{
    match refused {
        ReadRefused::Missing { entry, id } => Outcome::Missing { entry, id },
        ReadRefused::Damaged {
            entry,
            id,
            store,
            shows,
        } => Outcome::Damaged {
            entry,
            id,
            store,
            shows,
        },
        ReadRefused::StoreFault { store } => Outcome::StoreFault { store },
        ReadRefused::Memory => Outcome::Memory,
    }
}

// Puts the bytes of the range that are those of entry i, from this offset on, and answers their number. At most `most`
// of them are left.
fn put_entry<S: Store, O: Sink>(
    alloc: Global,
    reader: &mut ImageReader<S>,
    i: usize,
    at: u64,
    most: u64,
    out: &mut O,
) -> Result<u64, Outcome>
    requires listed { i < count_of reader.old.index }
    requires from { start_of reader.old.index i ≤ at }
    requires to { at < end_of reader.old.index i }
    requires some { 0 < most }
    ensures size { IfOk result (λ m. m ≡ min (end_of reader.old.index i - at) most) }
    ensures ok { IfOk result (λ m. EndsPutting S.Store at m reader.old reader.new
        (O.output out.old) (O.output out.new) (Ok tt)) }
    ensures err { IfErr result (λ o. EndsPutting S.Store at (min (end_of reader.old.index i - at) most)
        reader.old reader.new (O.output out.old) (O.output out.new) (Err o)) }
    ensures faults { (O.output out.old).faults ≤ (O.output out.new).faults }
{
    reader.index().rules();
    let _asks = reader.asks();
    let size = (reader.index().end(i) - at).min(most);
    let Ok(mut bytes) = vec![in alloc; 0u8; size as usize] else {
        return Err(Outcome::Memory);
    };
    let part = bytes.as_mut_slice();
    match reader.read_at(at, part) {
        Ok(()) => {}
        Err(refused) => return Err(unread(refused)),
    }
    match printed(out.put(part)) {
        Ok(()) => Ok(size),
        Err(outcome) => Err(outcome),
    }
}

// Puts the range.
fn put_range<S: Store, O: Sink>(
    alloc: Global,
    reader: &mut ImageReader<S>,
    range: Range,
    out: &mut O,
) -> Result<(), Outcome>
    requires inside { range.at + range.size ≤ image_length reader.old.index }
    ensures ends { EndsPutting S.Store range.at range.size reader.old reader.new
        (O.output out.old) (O.output out.new) result }
    ensures faults { (O.output out.old).faults ≤ (O.output out.new).faults }
{
    reader.index().rules();
    let _length = reader.index().length();
    let _asks = reader.asks();
    let count = reader.index().count();
    let mut done = 0;
    for i in first_past(reader.index(), range.at)..count {
        if done == range.size {
            break;
        }
        match put_entry(alloc, reader, i, range.at + done, range.size - done, out) {
            Ok(more) => done += more,
            Err(outcome) => return Err(outcome),
        }
    }
    Ok(())
}

/// Puts the range, and gives the stores back. They are asked for the chunks of covered entries alone, in rising order.
/// The 8 chunks that were used last are kept.
pub(crate) fn put_from<S: Store, O: Sink>(
    alloc: Global,
    index: Index,
    chain: Chain<S>,
    range: Range,
    out: &mut O,
) -> (Chain<S>, Result<(), Outcome>)
    requires kind { chain.kind ≡ kind_of index }
    requires inside { range.size ≤ image_length index - range.at }
    ensures ends { EndsGiving S.Store index range.at range.size chain result.0
        (O.output out.old) (O.output out.new) result.1 }
    ensures kept { KeepsStores S.Store (IsCoveredGet index range.at range.size) chain.stores result.0.stores }
    ensures asks { AllZip (λ a b. AsksWants (missed kept_chunks [] (wants_of index range.at range.size))
        (S.asked a) (S.asked b)) chain.stores result.0.stores }
    ensures queries { map S.queried result.0.stores ≡ map S.queried chain.stores }
    ensures faults { (O.output out.old).faults ≤ (O.output out.new).faults }
{
    if range.size == 0 {
        return (chain, Ok(()));
    }
    index.rules();
    match ImageReader::new(alloc, index, chain, KEPT_CHUNKS) {
        Ok(mut reader) => {
            let put = put_range(alloc, &mut reader, range, out);
            let (_, chain) = reader.into_parts();
            (chain, put)
        }
        Err((_, chain, _)) => (chain, Err(Outcome::Memory)),
    }
}
