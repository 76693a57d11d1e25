//! The tests of the forms in memory; of chunks' ids, and of what holds chunks: stores in memory, folders, chains of
//! stores, and caches; and of index files, and plans by them.
#![tactic(auto)]

#[cfg(test)]
mod chain_tests;
#[cfg(test)]
mod chunk_tests;
#[cfg(test)]
mod compare;
#[cfg(test)]
mod digests;
#[cfg(test)]
mod folder_tests;
#[cfg(test)]
mod form_tests;
#[cfg(test)]
mod index_tests;
#[cfg(test)]
mod link_tests;
#[cfg(test)]
mod plan_tests;
#[cfg(test)]
mod ranges;
#[cfg(test)]
mod shelf_tests;
#[cfg(test)]
mod split_tests;
#[cfg(test)]
mod sure_tests;
