// Kinds of bytes outside of words. Everything else in this crate stands above.
ghost use Rattle.std.specs.Prelude.{◌≡◌, ◌+◌, ◌<◌, slice_index};
ghost use Rattle.jimple_lex.specs.Bytes.{is_blank, is_quotable, goes_on};
ghost use Rattle.jimple_words.specs.Bytes.{is_digit, is_letter};

use jimple_words::bytes::{is_digit, is_letter};

pub fn is_blank(c: u8) -> bool
    ensures { result ≡ is_blank c }
{
    c == b' ' || c == b'\t' || c == b'\r' || c == b'\n'
}

pub fn is_quotable(c: u8) -> bool
    ensures { result ≡ is_quotable c }
{
    c != b'\'' && c != b'\n'
}

pub fn goes_on(before: u8, c: u8) -> bool
    ensures { result ≡ goes_on before c }
{
    is_digit(c)
        || is_letter(c)
        || c == b'.'
        || ((before == b'e' || before == b'E') && (c == b'+' || c == b'-'))
}

/// The byte there, or 0 behind the end.
pub fn byte_at(bytes: &[u8], at: usize) -> u8
    ensures { result ≡ slice_index bytes.now at }
{
    if at < bytes.len() { bytes[at] } else { 0 }
}
