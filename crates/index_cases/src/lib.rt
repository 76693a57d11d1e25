//! The tests of indexes over HTTP: what a server of indexes answers and stores, and how an index is fetched.
#![tactic(auto)]

#[cfg(test)]
mod compare;
#[cfg(test)]
mod fetch_tests;
#[cfg(test)]
mod index_of_abc;
#[cfg(test)]
mod pieces;
#[cfg(test)]
mod request_tests;
#[cfg(test)]
mod server_tests;
