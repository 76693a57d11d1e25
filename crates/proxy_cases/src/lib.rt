//! The tests of a cache before stores over HTTP, for one connection and for several at once: what is sent, and what the
//! cache holds afterwards.
#![tactic(auto)]

#[cfg(test)]
mod chunk_abc;
#[cfg(test)]
mod compare;
#[cfg(test)]
mod locked_tests;
#[cfg(test)]
mod proxy_tests;
