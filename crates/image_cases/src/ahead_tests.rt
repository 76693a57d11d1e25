//! Items of a round that are shared out.

use crate::compare::same;
use read_ahead::claims::{Claims, Sharing};
use std::process::Abort;

#[test]
fn entries_are_claimed_from_the_end_and_taken_from_the_front(rt: HostRuntime) {
    let claims = Claims::new(3, 8, Sharing::Claimed);
    same(&rt, claims.first_item(), Some(7));
    same(&rt, claims.takes(3), true);
    same(&rt, claims.item_after(7), Some(6));
    same(&rt, claims.takes(4), true);
    same(&rt, claims.takes(5), true);
    same(&rt, claims.takes(6), false);
    same(&rt, claims.item_after(6), None);
    let none = Claims::new(3, 3, Sharing::Claimed);
    same(&rt, none.first_item(), None);
    same(&rt, none.takes(3), false);
}

#[test]
fn each_reader_goes_to_all_entries_that_are_dealt(rt: HostRuntime) {
    let claims = Claims::new(3, 5, Sharing::Dealt);
    for _reader in 0..2 {
        same(&rt, claims.first_item(), Some(3));
        same(&rt, claims.item_after(3), Some(4));
        same(&rt, claims.item_after(4), None);
    }
    same(&rt, claims.takes(3), false);
    same(&rt, Claims::new(3, 3, Sharing::Dealt).first_item(), None);
}
