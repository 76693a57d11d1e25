//! Writing an index file.

ghost use Rattle.std.specs.Prelude.{◌≡◌, ◌++◌, ◌≤◌, IfOk, OnOk, OnErr};
ghost use Rattle.std.specs.Option.{option_map};
ghost use Rattle.dsy_base.specs.Counts.{CountsFaults};
ghost use Rattle.dsy_base.specs.Disk.{PutsFront};
ghost use Rattle.dsy_base.specs.Texts.{Puts};
ghost use Rattle.caibx_fields.specs.Words.{words};
ghost use Rattle.caibx_codec.specs.Seen.{pair, pairs};
ghost use Rattle.caibx_codec.specs.Spelling.{item, items, front_words, written_tail, file_of};

use crate::index::{Entry, Index};
use caibx_fields::format::{HEAD_SIZE, HEAD_TYPE, MARKER, TABLE_OPEN, TABLE_TYPE};
use caibx_fields::word::words_in;
use dsy_base::fault::IoFault;
use dsy_base::sink::Sink;
use std::alloc::{AllocError, Global};

/// How many items are put at a time.
const BLOCK: usize = 1_024;

// Puts the bytes.
fn put<S: Sink>(out: &mut S, bytes: &[u8]) -> Result<(), IoFault>
    ensures bytes { Puts bytes.now (S.output out.old).taken (S.output out.new).taken result }
    ensures faults { CountsFaults IoFault.Failed IoFault.Memory (S.output out.old).faults (S.output out.new).faults
        result }
{
    out.put(bytes)
}

// Puts the bytes of the numbers.
fn put_words<S: Sink>(alloc: Global, numbers: &[u64], out: &mut S) -> Result<(), IoFault>
    ensures bytes { Puts (words numbers.now) (S.output out.old).taken (S.output out.new).taken result }
    ensures faults { CountsFaults IoFault.Failed IoFault.Memory (S.output out.old).faults (S.output out.new).faults
        result }
{
    match words_in(alloc, numbers) {
        Ok(bytes) => put(out, &bytes),
        Err(_) => Err(IoFault::Memory),
    }
}

// Appends the bytes of an item.
#[tactic(auto, unfolding(crate::specs::Spelling::item))]
fn push_item(bytes: &mut Vec<u8>, entry: &Entry) -> Result<(), AllocError>
    ensures { OnOk result (bytes.new.items ≡ bytes.old.items ++ item (pair entry.now)) }
{
    bytes.extend_from_slice(&entry.end.to_le_bytes())?;
    bytes.extend_from_slice(&entry.id.0)
}

// The bytes of the items.
#[tactic(auto, unfolding(crate::specs::Spelling::items))]
fn items_in(alloc: Global, entries: &[Entry]) -> Result<Vec<u8>, AllocError>
    ensures { IfOk result (λ v. v.items ≡ items (pairs entries.now)) }
{
    let mut bytes = Vec::new(alloc);
    for entry in entries {
        push_item(&mut bytes, entry)?;
    }
    Ok(bytes)
}

// Puts these items at once.
fn put_block<S: Sink>(alloc: Global, entries: &[Entry], out: &mut S) -> Result<(), IoFault>
    ensures bytes { Puts (items (pairs entries.now)) (S.output out.old).taken (S.output out.new).taken result }
    ensures faults { CountsFaults IoFault.Failed IoFault.Memory (S.output out.old).faults (S.output out.new).faults
        result }
{
    match items_in(alloc, entries) {
        Ok(bytes) => put(out, &bytes),
        Err(_) => Err(IoFault::Memory),
    }
}

// Puts the items, a block at a time.
fn put_items<S: Sink>(alloc: Global, entries: &[Entry], out: &mut S) -> Result<(), IoFault>
    ensures bytes { Puts (items (pairs entries.now)) (S.output out.old).taken (S.output out.new).taken result }
    ensures faults { CountsFaults IoFault.Failed IoFault.Memory (S.output out.old).faults (S.output out.new).faults
        result }
{
    let mut at = 0usize;
    while at < entries.len() {
        let end = at + (entries.len() - at).min(BLOCK);
        put_block(alloc, &entries[at..end], out)?;
        at = end;
    }
    Ok(())
}

// The words of the head and the table's head.
fn front_numbers(index: &Index) -> [u64; 8]
    ensures { result ≡ front_words index.now }
{
    [
        HEAD_SIZE,
        HEAD_TYPE,
        index.flags(),
        index.min(),
        index.avg(),
        index.max(),
        TABLE_OPEN,
        TABLE_TYPE,
    ]
}

// The words of the tail, with the table's offset and its size.
fn tail_numbers(index: &Index) -> [u64; 5]
    ensures { result ≡ written_tail index.now }
{
    index.rules();
    let size = 56 + 40 * index.count() as u64;
    [0, 0, HEAD_SIZE, size, MARKER]
}

// Puts the head and the table's head.
fn put_front<S: Sink>(alloc: Global, index: &Index, out: &mut S) -> Result<(), IoFault>
    ensures bytes { Puts (words (front_words index.now)) (S.output out.old).taken (S.output out.new).taken result }
    ensures faults { CountsFaults IoFault.Failed IoFault.Memory (S.output out.old).faults (S.output out.new).faults
        result }
{
    put_words(alloc, &front_numbers(index), out)
}

// Puts the tail.
fn put_tail<S: Sink>(alloc: Global, index: &Index, out: &mut S) -> Result<(), IoFault>
    ensures bytes { Puts (words (written_tail index.now)) (S.output out.old).taken (S.output out.new).taken result }
    ensures faults { CountsFaults IoFault.Failed IoFault.Memory (S.output out.old).faults (S.output out.new).faults
        result }
{
    put_words(alloc, &tail_numbers(index), out)
}

/// Puts the file of the index, as the one spelling that has the table's offset and size in its
/// tail. It needs memory for some items at a time.
pub fn write_index<S: Sink>(alloc: Global, index: &Index, out: &mut S) -> Result<(), IoFault>
    ensures ok { OnOk result ((S.output out.new).taken
        ≡ option_map (λ t. t ++ file_of index.now) (S.output out.old).taken) }
    // A front of the file was put.
    ensures err { OnErr result (PutsFront (file_of index.now) (S.output out.old).taken (S.output out.new).taken) }
    ensures faults { CountsFaults IoFault.Failed IoFault.Memory (S.output out.old).faults (S.output out.new).faults
        result }
{
    put_front(alloc, index, out)?;
    put_items(alloc, index.entries(), out)?;
    put_tail(alloc, index, out)
}
