//! Words in the lines of a head (RFC 9110, sections 5.6.1 to 5.6.3).

ghost use Rattle.std.specs.Prelude.{◌≡◌};
ghost use Rattle.std.specs.Str.{str_eq_ignore_ascii_case};
ghost use Rattle.httparse.specs.Grammar.{is_ows, trim_ows};

// Whether the words are the same but for the case of their letters.
pub(crate) fn is_word(bytes: &[u8], word: &[u8]) -> bool
    ensures { result ≡ str_eq_ignore_ascii_case bytes.now word.now }
{
    bytes.eq_ignore_ascii_case(word)
}

fn is_blank(byte: u8) -> bool
    ensures { result ≡ is_ows byte }
{
    byte == b' ' || byte == b'\t'
}

// The word without the spaces and tabs at both ends.
pub(crate) fn trimmed(word: &[u8]) -> &[u8]
    ensures { result.now ≡ trim_ows word.now }
{
    let mut start = 0;
    let mut end = word.len();
    while start < end && is_blank(word[start]) {
        start += 1;
    }
    while start < end && is_blank(word[end - 1]) {
        end -= 1;
    }
    &word[start..end]
}
