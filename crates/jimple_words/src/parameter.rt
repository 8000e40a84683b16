// The kind of a word, by the number behind `parameter` where it has one. Kinds by text stand below; the kinds of tokens above.
ghost use Rattle.std.specs.Prelude.{◌≡◌};
ghost use Rattle.std.specs.List.{list_all};
ghost use Rattle.jimple_words.specs.Bytes.{is_digit};
ghost use Rattle.jimple_words.specs.Kinds.{is_decimal, parameter_kind, parameter_number, word_kind};

use crate::bytes::is_digit;
use crate::kind::Kind;
use crate::kinds::other_word;

/// What stands before the number.
const PREFIX: &[u8] = b"parameter";

/// The greatest number of a parameter.
const MOST: u16 = 254;

fn all_digits(bytes: &[u8]) -> bool
    ensures { result ≡ list_all is_digit bytes.now }
{
    bytes.iter().all(|byte| is_digit(*byte))
}

/// One or more digits.
fn is_decimal(digits: &[u8]) -> bool
    ensures { result ≡ is_decimal digits.now }
{
    !digits.is_empty() && all_digits(digits)
}

/// The number that the digits write, where it is at most 254, the greatest of a parameter. It ends at the first front of
/// them that writes too much.
pub fn parameter_number(digits: &[u8]) -> Option<u8>
    ensures { result ≡ parameter_number digits.now }
{
    let mut number: u16 = 0;
    for digit in digits {
        number = number * 10 + digit.saturating_sub(b'0') as u16;
        if number > MOST {
            return None;
        }
    }
    Some(number as u8)
}

/// The kind by the number that the digits write.
fn parameter_kind(digits: &[u8]) -> Kind
    ensures { result ≡ parameter_kind digits.now }
{
    match parameter_number(digits) {
        Some(_) => Kind::Parameter,
        None => Kind::HighParameter,
    }
}

/// The kind of a word that is no keyword.
pub fn word_kind(text: &[u8]) -> Kind
    ensures { result ≡ word_kind text.now }
{
    match text.strip_prefix(PREFIX) {
        Some(digits) if is_decimal(digits) => parameter_kind(digits),
        _ => other_word(text),
    }
}
