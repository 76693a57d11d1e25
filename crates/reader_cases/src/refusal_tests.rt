//! Ranges of images some of whose chunks can't be obtained.

use crate::compare::ok;
use crate::images::{
    ABC, ABX, ALL, DEF, GHI, Held, Listed, THREE, id_of, open, open_over, store_of,
};
use chunk_store::shows::Shows;
use chunk_store::store::Giver;
use dsy_base::fault::IoFault;
use image_reader::refused::ReadRefused;
use std::process::Abort;
use store_forms::scripted_store::Refuses;

const FIRST: Giver = Giver {
    number: 0,
    member: 0,
};

const WITHOUT_DEF: &[Held] = &[(ABC, b"abc"), (GHI, b"ghi")];

fn missing(rt: &impl Abort, entry: u64, digits: &str) -> ReadRefused {
    let id = id_of(rt, digits);
    ReadRefused::Missing { entry, id }
}

#[test]
fn a_chunk_that_is_missing_matters_inside_the_range_alone(rt: HostRuntime) {
    let alloc = rt.alloc();
    let mut opened = open_over(&rt, alloc, THREE, WITHOUT_DEF, 2);
    opened.gives(&rt, alloc, 0, b"abc", 1);
    opened.refuses(&rt, alloc, 2, 5, missing(&rt, 1, DEF), 2);
    opened.gives(&rt, alloc, 6, b"ghi", 3);
    opened.refuses(&rt, alloc, 5, 1, missing(&rt, 1, DEF), 4);
}

#[test]
fn what_is_kept_is_right_after_a_refusal(rt: HostRuntime) {
    let alloc = rt.alloc();
    let mut opened = open_over(&rt, alloc, THREE, WITHOUT_DEF, 2);
    opened.gives(&rt, alloc, 0, b"abc", 1);
    opened.refuses(&rt, alloc, 3, 3, missing(&rt, 1, DEF), 2);
    opened.gives(&rt, alloc, 0, b"abc", 2);
    opened.refuses(&rt, alloc, 3, 3, missing(&rt, 1, DEF), 3);
    let mut opened = open_over(&rt, alloc, THREE, WITHOUT_DEF, 1);
    opened.gives(&rt, alloc, 0, b"abc", 1);
    opened.refuses(&rt, alloc, 3, 3, missing(&rt, 1, DEF), 2);
    opened.gives(&rt, alloc, 0, b"abc", 3);
}

#[test]
fn a_damaged_chunk_is_named_with_what_its_store_shows(rt: HostRuntime) {
    let alloc = rt.alloc();
    let held: &[Held] = &[(ABC, b"abX"), (DEF, b"defg"), (GHI, b"ghi")];
    let mut opened = open_over(&rt, alloc, THREE, held, 2);
    let (abc, def) = (id_of(&rt, ABC), id_of(&rt, DEF));
    let spoiled = ReadRefused::Damaged {
        entry: 0,
        id: abc,
        store: FIRST,
        shows: Shows::Digest(id_of(&rt, ABX)),
    };
    let longer = ReadRefused::Damaged {
        entry: 1,
        id: def,
        store: FIRST,
        shows: Shows::Longer,
    };
    opened.refuses(&rt, alloc, 0, 9, spoiled, 1);
    opened.refuses(&rt, alloc, 3, 6, longer, 2);
    opened.gives(&rt, alloc, 6, b"ghi", 3);
}

// The id of `abc` is listed a second time, with two bytes.
#[test]
fn a_kept_chunk_of_another_size_is_not_used(rt: HostRuntime) {
    let alloc = rt.alloc();
    const TWO_SIZES: &[Listed] = &[(ABC, 3), (ABC, 2)];
    let mut opened = open_over(&rt, alloc, TWO_SIZES, ALL, 2);
    let why = ReadRefused::Damaged {
        entry: 1,
        id: id_of(&rt, ABC),
        store: FIRST,
        shows: Shows::Longer,
    };
    opened.gives(&rt, alloc, 0, b"abc", 1);
    opened.refuses(&rt, alloc, 3, 2, why, 2);
}

#[test]
fn the_next_store_is_asked_where_one_fails(rt: HostRuntime) {
    let alloc = rt.alloc();
    let failing = store_of(&rt, alloc, ALL, Refuses::Everything(IoFault::Failed));
    let good = store_of(&rt, alloc, WITHOUT_DEF, Refuses::Nothing);
    let mut opened = open(&rt, alloc, THREE, ok(&rt, vec![in alloc; failing, good]), 1);
    opened.gives(&rt, alloc, 0, b"abc", 1);
    opened.refuses(&rt, alloc, 0, 9, ReadRefused::StoreFault { store: 0 }, 2);
}

#[test]
fn want_of_memory_in_a_store_is_told(rt: HostRuntime) {
    let alloc = rt.alloc();
    let store = store_of(&rt, alloc, ALL, Refuses::Everything(IoFault::Memory));
    let mut opened = open(&rt, alloc, THREE, ok(&rt, vec![in alloc; store]), 1);
    opened.refuses(&rt, alloc, 0, 9, ReadRefused::Memory, 1);
}
