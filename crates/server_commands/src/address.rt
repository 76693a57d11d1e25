//! Addresses.

use dsy_base::name::Name;

/// Where a server listens. No host means all addresses.
#[derive(Drop)]
pub struct Address {
    pub host: Name,
    pub port: u16,
}
