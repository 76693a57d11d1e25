//! An image from a number, and a seed that differs from it in the middle. Offsets are bytes from 0,
//! ends are exclusive.

ghost use Rattle.std.specs.Prelude.{◌≡◌, ◌++◌, ◌/◌, ◌^◌, IfOk, OnOk};
ghost use Rattle.image_demo.specs.Images.{image_of, next_state, seed_of, bits_turned};

use std::alloc::{AllocError, Global};

// A linear congruence of Knuth's, as MMIX has it.
const FACTOR: u64 = 6_364_136_223_846_793_005;

const TERM: u64 = 1_442_695_040_888_963_407;

/// How many bytes of the seed differ from the image, where it has as many past its middle.
const TURNED: usize = 1_048_576;

// The next state of the generator.
fn next(state: u64) -> u64
    ensures { result ≡ next_state state }
{
    state.wrapping_mul(FACTOR).wrapping_add(TERM)
}

// Its top 8 bits.
fn top_byte(state: u64) -> u8
    ensures { result ≡ state / 2 ^ 56 }
{
    (state >> 56) as u8
}

/// So many bytes, by a generator that starts with the number.
pub fn image(alloc: Global, number: u64, size: usize) -> Result<Vec<u8>, AllocError>
    ensures { IfOk result (λ v. v.items ≡ image_of number size) }
{
    let mut bytes = Vec::with_capacity(alloc, size)?;
    let mut state = number;
    for _ in 0..size {
        state = next(state);
        let byte = top_byte(state);
        bytes.push(byte)?;
    }
    Ok(bytes)
}

// Adds the bytes with all their bits turned round.
fn push_turned(bytes: &mut Vec<u8>, part: &[u8]) -> Result<(), AllocError>
    ensures { OnOk result (bytes.new.items ≡ bytes.old.items ++ bits_turned part.now) }
{
    for byte in part {
        bytes.push(*byte ^ 255)?;
    }
    Ok(())
}

/// The seed of an image.
pub fn seed(alloc: Global, image: &[u8]) -> Result<Vec<u8>, AllocError>
    ensures { IfOk result (λ v. v.items ≡ seed_of image.now) }
{
    let start = image.len() / 2;
    let end = (start + TURNED).min(image.len());
    let mut bytes = Vec::with_capacity(alloc, image.len())?;
    bytes.extend_from_slice(&image[..start])?;
    push_turned(&mut bytes, &image[start..end])?;
    bytes.extend_from_slice(&image[end..])?;
    Ok(bytes)
}
