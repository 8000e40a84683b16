// What begins at the front of a text, by its first bytes. The lexer stands above.
ghost use Rattle.std.specs.Prelude.{◌≡◌, ◌<◌, ◌==◌, ◌||◌, ◌&&◌, suc, length, drop, slice_index};
ghost use Rattle.jimple_lex.specs.Bytes.{single_quote, hash, minus};
ghost use Rattle.jimple_words.specs.Bytes.{is_digit, begins_plain};
ghost use Rattle.jimple_lex.specs.Front.{front, front_of_sign, begins_initializer, begins_digit};
ghost use Rattle.jimple_lex.specs.Tokens.{begins_comment};
ghost use Rattle.jimple_lex.specs.Faults.{opens};

use crate::bytes::{byte_at, is_blank};
use jimple_words::bytes::{begins_plain, is_digit};

/// What may stand at a place, as its first bytes show.
#[derive(Clone, Copy)]
pub enum Front {
    Blank,
    Comment,
    Word,
    Number,
    Text,
    Sign,
}

// Whether `<init>` or `<clinit>` stands at the front.
fn begins_initializer(text: &[u8]) -> bool
    ensures { result ≡ begins_initializer text.now }
{
    matches!(
        text,
        [b'<', b'i', b'n', b'i', b't', b'>', ..]
            | [b'<', b'c', b'l', b'i', b'n', b'i', b't', b'>', ..]
    )
}

// Whether `//` or `/*` stands there.
fn begins_comment(bytes: &[u8], at: usize) -> bool
    requires { at < length bytes.now }
    ensures { result ≡ begins_comment (drop at bytes.now) }
{
    let next = byte_at(bytes, at + 1);
    bytes[at] == b'/' && (next == b'/' || next == b'*')
}

fn begins_segment(c: u8) -> bool
    ensures { result ≡ (begins_plain c || (c == single_quote)) }
{
    begins_plain(c) || c == b'\''
}

fn begins_unsigned(c: u8) -> bool
    ensures { result ≡ (is_digit c || (c == hash)) }
{
    is_digit(c) || c == b'#'
}

// Whether `-` stands there, and a digit behind it.
fn begins_negative(bytes: &[u8], at: usize) -> bool
    requires { at < length bytes.now }
    ensures { result ≡ ((slice_index bytes.now at == minus) && begins_digit (drop (suc at) bytes.now)) }
{
    bytes[at] == b'-' && is_digit(byte_at(bytes, at + 1))
}

// What may stand there, where a byte stands that begins neither a blank nor a segment nor a number without `-`.
fn front_of_sign(bytes: &[u8], at: usize) -> Front
    requires { at < length bytes.now }
    ensures { result ≡ front_of_sign (slice_index bytes.now at) (drop (suc at) bytes.now) }
{
    let c = bytes[at];
    if c == b'"' {
        Front::Text
    } else if begins_negative(bytes, at) {
        Front::Number
    } else if begins_comment(bytes, at) {
        Front::Comment
    } else if begins_initializer(&bytes[at..]) {
        Front::Word
    } else {
        Front::Sign
    }
}

/// What may stand there.
pub fn front_at(bytes: &[u8], at: usize) -> Front
    requires { at < length bytes.now }
    ensures { result ≡ front (drop at bytes.now) }
{
    let c = bytes[at];
    if is_blank(c) {
        Front::Blank
    } else if begins_segment(c) {
        Front::Word
    } else if begins_unsigned(c) {
        Front::Number
    } else {
        front_of_sign(bytes, at)
    }
}

/// Whether a string, a quoted segment or a comment begins there.
pub fn opens_at(bytes: &[u8], at: usize) -> bool
    requires { at < length bytes.now }
    ensures { result ≡ opens (drop at bytes.now) }
{
    let c = bytes[at];
    c == b'"' || c == b'\'' || (c == b'/' && byte_at(bytes, at + 1) == b'*')
}
