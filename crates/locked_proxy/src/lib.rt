//! A cache before stores that threads share: the cache and each chain of stores behind a lock of its own, and a thread
//! for each connection that comes. Everything is counted in bytes.
#![tactic(auto)]

mod chain;
pub mod proxy_name;
pub mod serve_cache;
pub mod serve_proxy;
pub mod shelf;
