//! The tests of images: where their chunks end, their indexes by any number of views, and how they are stored, chopped
//! and made; and of what is done by an index: targets that are surveyed and assembled, images that are checked, and
//! stores that are checked, pruned and counted in.
#![tactic(auto)]

#[cfg(test)]
mod ahead_tests;
#[cfg(test)]
mod assembly_tests;
#[cfg(test)]
mod calls;
#[cfg(test)]
mod check_tests;
#[cfg(test)]
mod compare;
#[cfg(test)]
mod demo_tests;
#[cfg(test)]
mod end_tests;
#[cfg(test)]
mod images;
#[cfg(test)]
mod indexes;
#[cfg(test)]
mod ledger_tests;
#[cfg(test)]
mod prepare_tests;
#[cfg(test)]
mod scene_tests;
#[cfg(test)]
mod sharing_tests;
#[cfg(test)]
mod store_tests;
#[cfg(test)]
mod storing_tests;
#[cfg(test)]
mod survey_tests;
#[cfg(test)]
mod verifying_tests;
#[cfg(test)]
mod view_tests;
#[cfg(test)]
mod worker_tests;
