//! An index in figures, as one line of JSON (RFC 8259). Sizes are in bytes.

ghost use Rattle.std.specs.Prelude.{◌≡◌, IfOk, string_bytes};
ghost use Rattle.dsy_base.specs.Counts.{CountsFaults};
ghost use Rattle.dsy_base.specs.Texts.{Puts};
ghost use Rattle.serde_json.specs.View.{members_view, view};
ghost use Rattle.verify_tool.specs.Texts.{text_of_info, unique_count};
ghost use Rattle.verify_tool.specs.Figures.{members_of, data_of, index_figures};

use caibx_codec::index::Index;
use dsy_base::fault::IoFault;
use dsy_base::sink::Sink;
use serde_json::{Map, Value, put};
use std::alloc::{AllocError, Global};
use std::collections::BTreeSet;

// The figures of an index but for what a store holds.
#[derive(Clone, Copy)]
struct Figures {
    average: u64,
    greatest: u64,
    least: u64,
    size: u64,
    total: u64,
    unique: u64,
}

// How many ids the index lists, each counted once.
fn unique_ids(alloc: Global, index: &Index) -> Result<u64, AllocError>
    ensures value { IfOk result (λ n. n ≡ unique_count index.now) }
{
    let mut ids = BTreeSet::new(alloc);
    for i in 0..index.count() {
        ids.insert(index.id(i).0)?;
    }
    Ok(ids.len() as u64)
}

impl Figures {
    fn of(alloc: Global, index: &Index) -> Result<Figures, AllocError>
        ensures value { IfOk result (λ f. f ≡ index_figures index.now) }
    {
        Ok(Figures {
            average: index.avg(),
            greatest: index.max(),
            least: index.min(),
            size: index.length(),
            total: index.count() as u64,
            unique: unique_ids(alloc, index)?,
        })
    }
}

// The members of the object, which are kept in the order of their keys.
fn members(alloc: Global, f: &Figures) -> Result<Map<String, Value>, AllocError>
    ensures value { IfOk result (λ m. members_view m.entries ≡ members_of f.now) }
{
    let mut map = Map::new(alloc);
    put(&mut map, alloc, "chunk-size-avg", Value::from(f.average))?;
    put(&mut map, alloc, "chunk-size-max", Value::from(f.greatest))?;
    put(&mut map, alloc, "chunk-size-min", Value::from(f.least))?;
    put(&mut map, alloc, "size", Value::from(f.size))?;
    put(&mut map, alloc, "total", Value::from(f.total))?;
    put(&mut map, alloc, "unique", Value::from(f.unique))?;
    Ok(map)
}

// The object, with what a store holds where one was asked.
fn object(alloc: Global, f: &Figures, in_store: Option<u64>) -> Result<Value, AllocError>
    ensures value { IfOk result (λ v. view v ≡ data_of f.now in_store) }
{
    let mut map = members(alloc, f)?;
    match in_store {
        None => Ok(Value::Object(map)),
        Some(n) => {
            put(&mut map, alloc, "in-store", Value::from(n))?;
            Ok(Value::Object(map))
        }
    }
}

// The line with its line feed.
fn line(alloc: Global, index: &Index, in_store: Option<u64>) -> Result<String, AllocError>
    ensures value { IfOk result (λ s. string_bytes s ≡ text_of_info index.now in_store) }
{
    let f = Figures::of(alloc, index)?;
    let mut text = object(alloc, &f, in_store)?.to_string(alloc)?;
    text.push('\n')?;
    Ok(text)
}

/// Puts the figures of an index as one line: an object of numbers in the order of their keys. `in_store` is how many of
/// its ids a store holds, where one was asked.
pub fn info<S: Sink>(
    alloc: Global,
    index: &Index,
    in_store: Option<u64>,
    out: &mut S,
) -> Result<(), IoFault>
    ensures bytes { Puts (text_of_info index.now in_store) (S.output out.old).taken (S.output out.new).taken result }
    ensures faults { CountsFaults IoFault.Failed IoFault.Memory (S.output out.old).faults (S.output out.new).faults
        result }
{
    match line(alloc, index, in_store) {
        Ok(text) => out.put(text.as_bytes()),
        Err(_) => Err(IoFault::Memory),
    }
}
