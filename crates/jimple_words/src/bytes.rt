// Kinds of bytes that words are made of. The kinds of words stand above.
ghost use Rattle.std.specs.Prelude.{◌≡◌};
ghost use Rattle.jimple_words.specs.Bytes.{is_digit, is_letter, begins_plain, is_plain};

/// One of `0` to `9`.
pub fn is_digit(c: u8) -> bool
    ensures { result ≡ is_digit c }
{
    c >= b'0' && c <= b'9'
}

/// One of the 52 letters of ASCII.
pub fn is_letter(c: u8) -> bool
    ensures { result ≡ is_letter c }
{
    (c >= b'A' && c <= b'Z') || (c >= b'a' && c <= b'z')
}

/// What a plain segment of a word begins with.
pub fn begins_plain(c: u8) -> bool
    ensures { result ≡ begins_plain c }
{
    is_letter(c) || c == b'_' || c == b'$' || c == b'\\' || c >= 128
}

/// What a plain segment of a word is made of.
pub fn is_plain(c: u8) -> bool
    ensures { result ≡ is_plain c }
{
    begins_plain(c) || is_digit(c) || c == b'#'
}
