//! The digests of `abc` and of no bytes, in digits. Those of `abc` are from FIPS 180-4's examples, that of no bytes is
//! from `openssl dgst -sha512-256`.

/// SHA-512/256 of `abc`.
pub const ABC: &str = "53048e2681941ef99b2e29b76b4c7dabe4c2d0c634fc6d46e0e2f13107e7af23";

/// The path of the chunk that has this digest.
pub const ABC_PATH: &str = "5304/53048e2681941ef99b2e29b76b4c7dabe4c2d0c634fc6d46e0e2f13107e7af23";

/// SHA-256 of `abc`.
pub const ABC_256: &str = "ba7816bf8f01cfea414140de5dae2223b00361a396177a9cb410ff61f20015ad";

/// SHA-512/256 of no bytes.
pub const NOTHING: &str = "c672b8d1ef56ed28ab87c3622c5114069bdd3ad7b8f9737498d0c01ecef0967a";
