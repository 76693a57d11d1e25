//! Entries of an index that one thread takes in order, while views of the image read slices ahead of it. Entries are
//! numbered from 0.

ghost use Rattle.std.specs.Prelude.{◌≡◌, ◌≤◌, [], All, IfOk, Ok, OnErr, OnOk, map, vec_capacity, vec_len};
ghost use Rattle.caibx_codec.specs.Listing.{count_of, image_length};
ghost use Rattle.image_slices.specs.Ahead.{IsAhead, TellsSlice};
ghost use Rattle.image_slices.specs.Consumers.{NoFaultCountFalls, ReadsOneImage};

use crate::ahead::Ahead;
use crate::view_reader::ViewReader;
use caibx_codec::index::Index;
use dsy_base::inner_folders::InnerFolders;
use dsy_base::view::View;
use read_ahead::consumer::Consumer;
use read_ahead::rounds::{take_all, take_alone};
use std::alloc::{AllocError, Global};
use std::thread::Threads;

// Makes a reader of each view. If memory is short, all views stay.
fn hire<'a, V: View, I: InnerFolders>(
    alloc: Global,
    index: &'a Index,
    inner: &'a Option<I>,
    views: &mut Vec<V>,
) -> Result<Vec<ViewReader<'a, V, I>>, AllocError>
    ensures kept { IfOk result (λ rs. views.old.items ≡ map (λ r. r.view) rs.items) }
    ensures index { IfOk result (λ rs. All (λ r. r.index.now ≡ index.now) rs.items) }
    ensures none { OnOk result (views.new.items ≡ []) }
    ensures room { IfOk result (λ rs. vec_len rs ≤ vec_capacity views.new) }
    ensures capacity { vec_capacity views.new ≡ vec_capacity views.old }
    ensures err { OnErr result (views.new.items ≡ views.old.items) }
{
    let mut readers = Vec::with_capacity(alloc, views.len())?;
    views.reverse();
    while let Some(view) = views.pop() {
        let Ok(()) = readers.push(ViewReader { view, index, inner }) else {
            unreachable!();
        };
    }
    Ok(readers)
}

// Takes the views back, in their order.
fn dismiss<V: View, I: InnerFolders>(readers: &mut Vec<ViewReader<'_, V, I>>, views: &mut Vec<V>)
    requires none { views.old.items ≡ [] }
    requires room { vec_len readers.old ≤ vec_capacity views.old }
    ensures kept { views.new.items ≡ map (λ r. r.view) readers.old.items }
    ensures capacity { vec_capacity views.old ≤ vec_capacity views.new }
{
    while let Some(reader) = readers.pop() {
        let Ok(()) = views.push(reader.view) else {
            unreachable!();
        };
    }
    views.reverse();
}

// Takes all entries, while the readers read ahead, and then the views back.
fn take_ahead<R: Threads + Sync, C: Consumer<Ahead>, V: View + Send, I: InnerFolders + Sync>(
    rt: &R,
    alloc: Global,
    consumer: &mut C,
    mut readers: Vec<ViewReader<'_, V, I>>,
    views: &mut Vec<V>,
) -> Result<(), C::Fault>
    requires none { views.old.items ≡ [] }
    requires room { vec_len readers ≤ vec_capacity views.old }
    requires count { All (λ r. count_of r.index.now ≡ C.count consumer.old) readers.items }
    requires size { All (λ r. image_length r.index.now ≡ (V.held r.view).size) readers.items }
    requires going { C.can_go_on consumer.old }
    requires trusted { All (λ r. (a : Ahead) → IsAhead r.index.now (TellsSlice r.index.now (V.held r.view).bytes) a
        → C.accepts consumer.old a) readers.items }
    ensures on { (first : C) → C.goes first consumer.old (Ok tt) → C.goes first consumer.new result }
    ensures going { OnOk result (C.can_go_on consumer.new) }
    ensures count { C.count consumer.new ≡ C.count consumer.old }
    ensures all { OnOk result (C.count consumer.new ≤ C.taken consumer.new) }
    ensures kept { map V.held views.new.items ≡ map (λ r. V.held r.view) readers.entry.items }
    ensures faults { NoFaultCountFalls (map (λ r. V.faults r.view) readers.entry.items)
        (map V.faults views.new.items) }
    ensures capacity { vec_capacity views.old ≤ vec_capacity views.new }
{
    let taken = take_all(rt, alloc, consumer, &mut readers);
    dismiss(&mut readers, views);
    taken
}

/// Lets the consumer take all entries, while each of the views reads slices ahead in a thread of its own, and creates
/// the subfolders of their chunks' files. Where there is no memory for the views' rooms the consumer is alone.
pub fn take_entries<
    'a,
    R: Threads + Sync,
    C: Consumer<Ahead>,
    V: View + Send,
    I: InnerFolders + Sync,
>(
    rt: &R,
    alloc: Global,
    index: &'a Index,
    inner: &'a Option<I>,
    consumer: &mut C,
    views: &mut Vec<V>,
) -> Result<(), C::Fault>
    requires count { C.count consumer.old ≡ count_of index.now }
    requires going { C.can_go_on consumer.old }
    requires alike { ReadsOneImage index.now (map V.held views.old.items) (C.accepts consumer.old) }
    ensures on { (first : C) → C.goes first consumer.old (Ok tt) → C.goes first consumer.new result }
    ensures going { OnOk result (C.can_go_on consumer.new) }
    ensures count { C.count consumer.new ≡ C.count consumer.old }
    ensures all { OnOk result (count_of index.now ≤ C.taken consumer.new) }
    ensures kept { map V.held views.new.items ≡ map V.held views.old.items }
    ensures faults { NoFaultCountFalls (map V.faults views.old.items) (map V.faults views.new.items) }
    ensures capacity { vec_capacity views.old ≤ vec_capacity views.new }
{
    match hire(alloc, index, inner, views) {
        Ok(readers) => take_ahead(rt, alloc, consumer, readers, views),
        Err(_) => take_alone(consumer),
    }
}
