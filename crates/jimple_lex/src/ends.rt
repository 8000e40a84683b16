// Where numbers, strings, signs and comments end. Runs stand below, the lexer above.
ghost use Rattle.std.specs.Prelude.{◌≡◌, ◌<◌, ◌+◌, length, drop, slice_index};
ghost use Rattle.jimple_lex.specs.Bytes.{double_quote, hash, minus};
ghost use Rattle.jimple_lex.specs.Forms.{IsNumber, IsString, IsComment};
ghost use Rattle.jimple_lex.specs.Tokens.{Longest, IsSign};
ghost use Rattle.jimple_lex.specs.Ends.{Ends};
ghost use Rattle.jimple_lex.specs.Front.{front};
ghost use Rattle.jimple_lex.specs.Signs.{is_single, is_pair, sign_length};
ghost use Rattle.jimple_lex.specs.declared.front.Front.TheVariants as fronts;

use crate::bytes::byte_at;
use crate::runs::{inside_end, letters_end, line_end, tail_end};
use jimple_words::bytes::{is_digit, is_letter};

// The end of a number in digits that begins with `-`, or its place where no digit follows.
fn negative_end(bytes: &[u8], at: usize) -> usize
    requires within { at < length bytes.now }
    requires front { slice_index bytes.now at ≡ minus }
    ensures { Ends (Longest IsNumber) bytes.now at result }
{
    let next = byte_at(bytes, at + 1);
    if is_digit(next) {
        tail_end(bytes, at + 2)
    } else {
        at
    }
}

// The end of a number by name that begins with `#-`, or its place where no letter follows.
fn negative_name_end(bytes: &[u8], at: usize) -> usize
    requires within { at < length bytes.now }
    requires front { slice_index bytes.now at ≡ hash }
    requires next { slice_index bytes.now (at + 1) ≡ minus }
    ensures { Ends (Longest IsNumber) bytes.now at result }
{
    let third = byte_at(bytes, at + 2);
    if is_letter(third) {
        letters_end(bytes, at + 3)
    } else {
        at
    }
}

// The end of a number by name, or its place where no letter follows `#`.
fn name_end(bytes: &[u8], at: usize) -> usize
    requires within { at < length bytes.now }
    requires front { slice_index bytes.now at ≡ hash }
    ensures { Ends (Longest IsNumber) bytes.now at result }
{
    let next = byte_at(bytes, at + 1);
    if is_letter(next) {
        letters_end(bytes, at + 2)
    } else if next == b'-' {
        negative_name_end(bytes, at)
    } else {
        at
    }
}

/// The end of the number there, or its place where none stands there.
pub fn number_end(bytes: &[u8], at: usize) -> usize
    requires { at < length bytes.now }
    ensures { Ends (Longest IsNumber) bytes.now at result }
{
    let c = bytes[at];
    if is_digit(c) {
        tail_end(bytes, at + 1)
    } else if c == b'-' {
        negative_end(bytes, at)
    } else if c == b'#' {
        name_end(bytes, at)
    } else {
        at
    }
}

/// The end of the string that begins there, or its place where it doesn't end.
pub fn text_end(bytes: &[u8], at: usize) -> usize
    requires within { at < length bytes.now }
    requires quote { slice_index bytes.now at ≡ double_quote }
    ensures { Ends (λ text rest. IsString text) bytes.now at result }
{
    let mut to = at + 1;
    'inside: while to < bytes.len() {
        let c = bytes[to];
        if c == b'"' {
            return to + 1;
        } else if c == b'\n' {
            return at;
        } else if c == b'\\' {
            if to + 1 == bytes.len() || bytes[to + 1] == b'\n' {
                return at;
            }
            to += 2;
        } else {
            to += 1;
        }
    }
    at
}

/// The end of the comment that begins there, or its place where it doesn't end.
pub fn comment_end(bytes: &[u8], at: usize) -> usize
    requires { at < length bytes.now }
    ensures { Ends IsComment bytes.now at result }
{
    if bytes[at] != b'/' {
        return at;
    }
    let next = byte_at(bytes, at + 1);
    if next == b'/' {
        return line_end(bytes, at + 2);
    }
    if next != b'*' {
        return at;
    }
    let close = inside_end(bytes, at + 2);
    if close == bytes.len() { at } else { close + 2 }
}

fn is_single(a: u8) -> bool
    ensures { result ≡ is_single a }
{
    matches!(
        a,
        b'{' | b'}'
            | b'('
            | b')'
            | b'['
            | b']'
            | b','
            | b';'
            | b':'
            | b'.'
            | b'@'
            | b'='
            | b'<'
            | b'>'
            | b'+'
            | b'-'
            | b'*'
            | b'/'
            | b'%'
            | b'&'
            | b'|'
            | b'^'
    )
}

fn is_pair(a: u8, b: u8) -> bool
    ensures { result ≡ is_pair a b }
{
    match b {
        b'=' => matches!(a, b':' | b'=' | b'!' | b'<' | b'>'),
        b'<' => a == b'<',
        b'>' => a == b'>',
        _ => false,
    }
}

// How many bytes the longest sign has that begins with these, or 0.
fn sign_length(a: u8, b: u8, c: u8) -> usize
    ensures { result ≡ sign_length a b c }
{
    if a == b'>' && b == b'>' && c == b'>' {
        3
    } else if is_pair(a, b) {
        2
    } else if is_single(a) {
        1
    } else {
        0
    }
}

/// The end of the longest sign there, or its place where none stands there.
pub fn sign_end(bytes: &[u8], at: usize) -> usize
    requires within { at < length bytes.now }
    requires front { front (drop at bytes.now) ≡ fronts.Sign }
    ensures { Ends IsSign bytes.now at result }
{
    at + sign_length(bytes[at], byte_at(bytes, at + 1), byte_at(bytes, at + 2))
}
