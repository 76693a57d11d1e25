//! The line that tells a person how a command ended. Entries, stores and words count from 0, offsets and sizes are
//! in bytes.

ghost use Rattle.std.specs.Prelude.{◌≡◌, ◌≢◌, ◌+◌, ◌++◌, ◌≤◌, [], codes, length, Err, OnOk};
ghost use Rattle.std.specs.Fmt.{decimal};
ghost use Rattle.std.specs.Option.{option_map};
ghost use Rattle.hex.specs.Hex.{encode_lower};
ghost use Rattle.dsy_base.specs.Disk.{PutsFront};
ghost use Rattle.dsy_base.specs.Counts.{CountsFaults};
ghost use Rattle.command_outcome.specs.ErrorLines.{error_line_of, line_of, name_in, text_of, fault_text};
ghost use Rattle.command_outcome.specs.ErrorLines.{size_text, why_text};
ghost use Rattle.command_outcome.specs.Lines.{AddsToLine, FitsIn};

use crate::line::Line;
use crate::outcome::Outcome;
use caibx_fields::fault::IndexFault;
use chunk_ends::sizes::SizeFault;
use chunk_store::id::ChunkId;
use command_words::usage::UsageWhy;
use dsy_base::fault::{IoFault, Memory};
use dsy_base::sink::Sink;

// Why words are no command.
fn why_text(why: UsageWhy) -> &'static str
    ensures text { result.now ≡ why_text why }
    ensures size { length result.now ≤ 14 }
{
    match why {
        UsageWhy::NoCommand => "NoCommand",
        UsageWhy::UnknownCommand => "UnknownCommand",
        UsageWhy::UnknownOption => "UnknownOption",
        UsageWhy::TooMany => "TooMany",
        UsageWhy::NoValue => "NoValue",
        UsageWhy::Empty => "Empty",
        UsageWhy::BadNumber => "BadNumber",
        UsageWhy::BadSizes => "BadSizes",
        UsageWhy::BadLocation => "BadLocation",
        UsageWhy::NeedsFolder => "NeedsFolder",
        UsageWhy::BadSeed => "BadSeed",
        UsageWhy::BadListen => "BadListen",
        UsageWhy::BadDigest => "BadDigest",
        UsageWhy::MissingOption => "MissingOption",
        UsageWhy::NeedsYes => "NeedsYes",
        UsageWhy::Operands => "Operands",
        UsageWhy::ReadOnly => "ReadOnly",
    }
}

// Why images can't be cut by the sizes.
fn size_text(why: SizeFault) -> &'static str
    ensures text { result.now ≡ size_text why }
    ensures size { length result.now ≤ 11 }
{
    match why {
        SizeFault::MinTooSmall => "MinTooSmall",
        SizeFault::Order => "Order",
        SizeFault::AvgTooLarge => "AvgTooLarge",
        SizeFault::MaxTooLarge => "MaxTooLarge",
    }
}

/// How many bytes a line has at most, beside the name in it.
pub const LINE_ROOM: usize = 256;

// A text, a number and a text.
fn add_counted(line: &mut Line, front: &str, n: u64, rest: &str) -> Result<(), Memory>
    ensures { AddsToLine (front.now ++ (decimal n ++ rest.now)) (length front.now + (40 + length rest.now))
        line.old line.new
        result }
{
    line.add(front)?;
    line.add_number(n)?;
    line.add(rest)
}

// A text behind another.
fn add_both(line: &mut Line, front: &str, rest: &str) -> Result<(), Memory>
    ensures { AddsToLine (front.now ++ rest.now) (length front.now + length rest.now) line.old line.new result }
{
    line.add(front)?;
    line.add(rest)
}

// An entry and its size.
fn add_large(line: &mut Line, entry: u64, size: u64) -> Result<(), Memory>
    ensures { AddsToLine (codes "entry " ++ (decimal entry ++ (codes " has " ++ (decimal size ++ codes " bytes")))) 97
        line.old line.new result }
{
    add_counted(line, "entry ", entry, " has ")?;
    add_counted(line, "", size, " bytes")
}

// Why bytes are no index file.
fn add_fault(line: &mut Line, fault: IndexFault) -> Result<(), Memory>
    ensures { AddsToLine (fault_text fault) 97 line.old line.new result }
{
    match fault {
        IndexFault::Truncated { at } => add_counted(line, "truncated at byte ", at, ""),
        IndexFault::Head => line.add("no index head"),
        IndexFault::Table => line.add("no table head"),
        IndexFault::Tail => line.add("bad table tail"),
        IndexFault::Trailing => line.add("bytes after the tail"),
        IndexFault::MaxSize { max } => add_counted(
            line,
            "greatest size ",
            max,
            " is over the limit",
        ),
        IndexFault::Items => line.add("too many entries"),
        IndexFault::Order { entry } => add_counted(line, "entry ", entry, " ends out of order"),
        IndexFault::TooLarge { entry, size } => add_large(line, entry, size),
    }
}

// A name, what is told of it, and why its bytes are no index file.
fn add_bad_index(line: &mut Line, name: &str, told: &str, fault: IndexFault) -> Result<(), Memory>
    ensures { AddsToLine (name.now ++ (told.now ++ fault_text fault)) (length name.now + (length told.now + 97))
        line.old line.new result }
{
    add_both(line, name, told)?;
    add_fault(line, fault)
}

// The words are no command.
fn add_usage(line: &mut Line, place: u64, why: UsageWhy) -> Result<(), Memory>
    ensures { AddsToLine (codes "word " ++ (decimal place ++ (codes ": " ++ why_text why))) 61
        line.old line.new result }
{
    add_counted(line, "word ", place, ": ")?;
    line.add(why_text(why))
}

// A chunk, by its id and its entry.
fn add_chunk(line: &mut Line, entry: u64, id: &ChunkId, told: &str) -> Result<(), Memory>
    ensures { AddsToLine (codes "chunk " ++ (encode_lower id.now.0
        ++ (codes " of entry " ++ (decimal entry ++ told.now))))
        (120 + length told.now) line.old line.new result }
{
    line.add("chunk ")?;
    line.add_digest(&id.0)?;
    add_counted(line, " of entry ", entry, told)
}

// The store holds other bytes under the id.
fn add_damaged(line: &mut Line, entry: u64, id: &ChunkId, store: u32) -> Result<(), Memory>
    ensures { AddsToLine (codes "chunk " ++ (encode_lower id.now.0
        ++ (codes " of entry " ++ (decimal entry ++ (codes " is damaged in store " ++ decimal store))))) 181
        line.old line.new result }
{
    add_chunk(line, entry, id, " is damaged in store ")?;
    line.add_number(store as u64)
}

// The chunk of the entry has another digest than the listed id.
fn add_mismatch(line: &mut Line, entry: u64, got: &ChunkId) -> Result<(), Memory>
    ensures { AddsToLine (codes "entry " ++ (decimal entry ++ (codes " has the name " ++ encode_lower got.now.0))) 124
        line.old line.new result }
{
    add_counted(line, "entry ", entry, " has the name ")?;
    line.add_digest(&got.0)
}

// Images can't be cut by the sizes.
fn add_sizes(line: &mut Line, why: SizeFault) -> Result<(), Memory>
    ensures { AddsToLine (codes "bad chunk sizes: " ++ size_text why) 28 line.old line.new result }
{
    add_both(line, "bad chunk sizes: ", size_text(why))
}

// How a command ended that isn't done.
fn add_text(line: &mut Line, outcome: &Outcome) -> Result<(), Memory>
    ensures { AddsToLine (text_of outcome.now) (length (name_in outcome.now) + 200) line.old line.new result }
{
    match outcome {
        Outcome::Done => Ok(()),
        Outcome::Usage { place, why } => add_usage(line, *place, *why),
        Outcome::NoFile { name } => add_both(line, name.as_str(), ": no such file"),
        Outcome::NoFolder { name } => add_both(line, name.as_str(), ": no such folder"),
        Outcome::BadIndex { name, fault } => add_bad_index(
            line,
            name.as_str(),
            ": bad index: ",
            *fault,
        ),
        Outcome::Sizes(why) => add_sizes(line, *why),
        Outcome::Missing { entry, id } => add_chunk(line, *entry, id, " is missing"),
        Outcome::Damaged {
            entry,
            id,
            store,
            ..
        } => add_damaged(line, *entry, id, store.number),
        Outcome::Mismatch { entry, got } => add_mismatch(line, *entry, got),
        Outcome::Length { size } => add_counted(line, "the file has ", *size, " bytes"),
        Outcome::Changed { entry, .. } => add_counted(
            line,
            "the image changed at entry ",
            *entry,
            "",
        ),
        Outcome::StoreFault { store } => add_counted(line, "store ", *store as u64, " failed"),
        Outcome::CacheFault => line.add("the cache failed"),
        Outcome::TargetFault => line.add("the target failed"),
        Outcome::FileFault { name } => add_both(line, name.as_str(), ": failed"),
        Outcome::OutFault => line.add("the output failed"),
        Outcome::ImageFault => line.add("the image failed"),
        Outcome::ListenFault => line.add("the listener failed"),
        Outcome::DamagedLeft { count } => add_counted(line, "damaged chunks left: ", *count, ""),
        Outcome::TooManyItems => line.add("too many chunks"),
        Outcome::Memory => line.add("no memory"),
    }
}

// The line of an outcome that isn't done.
#[tactic(auto, unfolding(crate::specs::ErrorLines::line_of))]
fn add_line(line: &mut Line, outcome: &Outcome) -> Result<(), Memory>
    ensures { AddsToLine (line_of (text_of outcome.now)) (length (name_in outcome.now) + 209) line.old line.new result }
{
    line.add("desync: ")?;
    add_text(line, outcome)?;
    line.add("\n")
}

// Puts the line of an outcome that isn't done.
fn put_told<E: Sink>(line: &mut Line, outcome: &Outcome, err: &mut E) -> Result<(), IoFault>
    requires empty { line.old.text ≡ [] }
    ensures ok { OnOk result ((E.output err.new).taken
        ≡ option_map (λ t. t ++ line_of (text_of outcome.now)) (E.output err.old).taken) }
    ensures err { result ≡ Err IoFault.Failed →
        PutsFront (line_of (text_of outcome.now)) (E.output err.old).taken (E.output err.new).taken }
    ensures kept { result ≡ Err IoFault.Memory → (E.output err.new).taken ≡ (E.output err.old).taken }
    ensures fits { FitsIn outcome.now line.old.room (E.room err.old) → result ≢ Err IoFault.Memory }
    ensures faults { CountsFaults IoFault.Failed IoFault.Memory
        (E.output err.old).faults (E.output err.new).faults result }
{
    match add_line(line, outcome) {
        Ok(()) => err.put(line.as_bytes()),
        Err(_) => Err(IoFault::Memory),
    }
}

/// Puts the line of the outcome, which is put together in an empty one. The answer tells whether it was put, and may be
/// left aside: how the command ended stands already.
pub fn put_error_line<E: Sink>(
    line: &mut Line,
    outcome: &Outcome,
    err: &mut E,
) -> Result<(), IoFault>
    requires empty { line.old.text ≡ [] }
    ensures ok { OnOk result ((E.output err.new).taken
        ≡ option_map (λ t. t ++ error_line_of outcome.now) (E.output err.old).taken) }
    // A front of the line was put.
    ensures err { result ≡ Err IoFault.Failed →
        PutsFront (error_line_of outcome.now) (E.output err.old).taken (E.output err.new).taken }
    ensures kept { result ≡ Err IoFault.Memory → (E.output err.new).taken ≡ (E.output err.old).taken }
    // Where the room was taken before, no memory is needed.
    ensures fits { FitsIn outcome.now line.old.room (E.room err.old) → result ≢ Err IoFault.Memory }
    // What is done has no line.
    ensures absent { outcome.now ≡ Outcome.Done → err.new ≡ err.old }
    ensures faults { CountsFaults IoFault.Failed IoFault.Memory
        (E.output err.old).faults (E.output err.new).faults result }
{
    match outcome {
        Outcome::Done => Ok(()),
        _ => put_told(line, outcome, err),
    }
}

/// Puts the line of `Memory`, which is put together in no room of its own.
#[tactic(auto, unfolding(crate::specs::ErrorLines::line_of))]
pub fn put_no_memory<E: Sink>(err: &mut E) -> Result<(), IoFault>
    ensures ok { OnOk result ((E.output err.new).taken
        ≡ option_map (λ t. t ++ error_line_of Outcome.Memory) (E.output err.old).taken) }
    ensures err { result ≡ Err IoFault.Failed →
        PutsFront (error_line_of Outcome.Memory) (E.output err.old).taken (E.output err.new).taken }
    ensures kept { result ≡ Err IoFault.Memory → (E.output err.new).taken ≡ (E.output err.old).taken }
    ensures faults { CountsFaults IoFault.Failed IoFault.Memory
        (E.output err.old).faults (E.output err.new).faults result }
{
    err.put(b"desync: no memory\n")
}
