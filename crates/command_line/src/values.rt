//! What the values of options and the operands say. Sizes are in bytes.

ghost use Rattle.std.specs.Prelude.{◌≡◌, ◌<◌, ◌≤◌, ◌^◌, ◌∷◌, [], Some, None, option_map, length, position, IfSome};
ghost use Rattle.std.specs.Prelude.{◌==◌};
ghost use Rattle.std.specs.Path.{rfind_below};
ghost use Rattle.std.specs.Str.{IsCharBoundary};
ghost use Rattle.command_line.specs.Values.{with_digit, with_digits, number_up_to, number_in_word, workers_of};
ghost use Rattle.command_line.specs.Values.{retries_of, split_at, byte_count_of};
ghost use Rattle.command_line.specs.Values.{kib_of, sizes_of, listen_of, ends_in_caibx, is_seed, kind_in_word};

use chunk_store::id::DigestKind;
use command_words::location::is_index_url;

// The number that a digit makes of the digits before it.
fn with_digit(most: u64, n: u64, digit: u8) -> Option<u64>
    ensures value { result ≡ with_digit most n digit }
    ensures size { IfSome result (λ m. m ≤ most) }
{
    if !digit.is_ascii_digit() {
        return None;
    }
    let next = u128::from(n) * 10 + u128::from(digit - b'0');
    if next <= u128::from(most) {
        Some(next as u64)
    } else {
        None
    }
}

// The number that the digits make.
fn with_digits(most: u64, word: &[u8]) -> Option<u64>
    ensures value { result ≡ with_digits most 0 word.now }
    ensures size { IfSome result (λ n. n ≤ most) }
{
    let mut n = 0u64;
    for digit in word {
        match with_digit(most, n, *digit) {
            Some(next) => n = next,
            None => return None,
        }
    }
    Some(n)
}

fn number_up_to(most: u64, word: &[u8]) -> Option<u64>
    ensures value { result ≡ number_up_to most word.now }
    ensures size { IfSome result (λ n. n ≤ most) }
{
    if word.is_empty() || (word.len() > 1 && word[0] == b'0') {
        return None;
    }
    with_digits(most, word)
}

/// The number from `least` to `most` that the word is.
pub fn number(least: u64, most: u64, word: &[u8]) -> Option<u64>
    ensures value { result ≡ number_in_word least most word.now }
    ensures size { IfSome result (λ n. n ≤ most) }
{
    let n = number_up_to(most, word)?;
    if least <= n { Some(n) } else { None }
}

/// A number of bytes of an image.
pub fn byte_count(word: &str) -> Option<u64>
    ensures { result ≡ byte_count_of word.now }
{
    number(0, u64::MAX, word.as_bytes())
}

/// The number of workers.
pub fn workers(word: &[u8]) -> Option<u32>
    ensures { result ≡ workers_of word.now }
{
    let n = number(1, 32, word)?;
    Some(n as u32)
}

/// How often a call that failed is made again.
pub fn retries(word: &[u8]) -> Option<u32>
    ensures { result ≡ retries_of word.now }
{
    let n = number(0, 16, word)?;
    Some(n as u32)
}

// The place of the first such byte.
fn first_place(byte: u8, word: &[u8]) -> Option<usize>
    ensures value { result ≡ position (λ b. b == byte) word.now }
    ensures inside { IfSome result (λ k. k < length word.now) }
{
    word.iter().position(|b| *b == byte)
}

// What stands before and after the first such byte.
fn split_at(byte: u8, word: &[u8]) -> Option<(&[u8], &[u8])>
    ensures { option_map (λ p. (p.0.now, p.1.now)) result ≡ split_at byte word.now }
{
    let k = first_place(byte, word)?;
    Some((&word[..k], &word[k + 1..]))
}

// The bytes of a number of KiB.
fn kib(word: &[u8]) -> Option<u64>
    ensures { result ≡ kib_of word.now }
{
    let n = number(0, 9_999_999, word)?;
    Some(n * 1024)
}

/// The least, the average and the greatest size.
pub fn sizes(word: &[u8]) -> Option<[u64; 3]>
    ensures { result ≡ sizes_of word.now }
{
    let (least, rest) = split_at(b':', word)?;
    let (average, greatest) = split_at(b':', rest)?;
    let least = kib(least)?;
    let average = kib(average)?;
    let greatest = kib(greatest)?;
    Some([least, average, greatest])
}

// The place of the last `:`, at which the text may be cut.
#[tactic(auto, using(crate::proofs::Places::last_is))]
fn last_colon(word: &str) -> Option<usize>
    ensures value { result ≡ rfind_below 58 word.now (length word.now) }
    ensures inside { IfSome result (λ k. (k < length word.now) × IsCharBoundary word.now k) }
{
    word.rfind(':')
}

/// The host and the port of an address. The host may be empty, which means all addresses.
pub fn listen(word: &str) -> Option<(&str, u16)>
    ensures { option_map (λ p. (p.0.now, p.1)) result ≡ listen_of word.now }
{
    let k = last_colon(word)?;
    let n = number(1, 65535, &word.as_bytes()[k + 1..])?;
    Some((&word[..k], n as u16))
}

// Whether the word ends in `.caibx` and has more before it.
fn ends_in_caibx(word: &[u8]) -> bool
    ensures { result ≡ ends_in_caibx word.now }
{
    word.len() > 6 && word.ends_with(b".caibx")
}

/// Whether the word may name a seed's index, which is a file beside the seed's image.
pub fn is_seed(word: &str) -> bool
    ensures { result ≡ is_seed word.now }
{
    ends_in_caibx(word.as_bytes()) && !is_index_url(word)
}

/// The kind of digest that the word names.
pub fn digest(word: &str) -> Option<DigestKind>
    ensures { result ≡ kind_in_word word.now }
{
    match word {
        "sha512-256" => Some(DigestKind::Sha512T256),
        "sha256" => Some(DigestKind::Sha256),
        _ => None,
    }
}
