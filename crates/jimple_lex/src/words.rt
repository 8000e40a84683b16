// Words: where a segment and a word end. Runs stand below, the lexer above.
ghost use Rattle.std.specs.Prelude.{◌≡◌, ◌≤◌, ◌<◌, length, drop, slice_index};
ghost use Rattle.jimple_lex.specs.Bytes.{single_quote};
ghost use Rattle.jimple_lex.specs.Forms.{IsSegment, IsJoined, IsWord};
ghost use Rattle.jimple_lex.specs.Tokens.{Longest};
ghost use Rattle.jimple_lex.specs.Ends.{Ends, EndsLongest, part};
ghost use Rattle.jimple_lex.specs.Front.{IsInitializer};

use crate::bytes::byte_at;
use crate::runs::{plain_end, quotable_end};
use jimple_words::bytes::begins_plain;

// The end of a segment in quotes, or its place where it doesn't end.
fn quoted_end(bytes: &[u8], at: usize) -> usize
    requires within { at < length bytes.now }
    requires quote { slice_index bytes.now at ≡ single_quote }
    ensures { EndsLongest IsSegment bytes.now at result }
{
    let to = quotable_end(bytes, at + 1);
    if byte_at(bytes, to) == b'\'' {
        to + 1
    } else {
        at
    }
}

// The end of the segment there, or its place where none stands there.
fn segment_end(bytes: &[u8], at: usize) -> usize
    requires { at ≤ length bytes.now }
    ensures { EndsLongest IsSegment bytes.now at result }
{
    let c = byte_at(bytes, at);
    if begins_plain(c) {
        plain_end(bytes, at + 1)
    } else if c == b'\'' {
        quoted_end(bytes, at)
    } else {
        at
    }
}

// The end of the segments joined by dots, of which the first ends at `first`.
fn joined_end(bytes: &[u8], at: usize, first: usize) -> usize
    requires some { at < first }
    requires within { first ≤ length bytes.now }
    requires segment { Longest IsSegment (part bytes.now at first) (drop first bytes.now) }
    ensures order { at < result }
    ensures within { result ≤ length bytes.now }
    ensures longest { Longest IsJoined (part bytes.now at result) (drop result bytes.now) }
{
    let mut to = first;
    'dots: while byte_at(bytes, to) == b'.' {
        let next = segment_end(bytes, to + 1);
        if next == to + 1 {
            return to;
        }
        to = next;
    }
    to
}

// The end of `<init>` or `<clinit>`, or its place where neither stands there.
fn initializer_end(bytes: &[u8], at: usize) -> usize
    requires { at < length bytes.now }
    ensures { Ends IsInitializer bytes.now at result }
{
    match &bytes[at..] {
        [b'<', b'i', b'n', b'i', b't', b'>', ..] => at + 6,
        [b'<', b'c', b'l', b'i', b'n', b'i', b't', b'>', ..] => at + 8,
        _ => at,
    }
}

/// The end of the word there, or its place where none stands there.
pub fn word_end(bytes: &[u8], at: usize) -> usize
    requires { at < length bytes.now }
    ensures { Ends (Longest IsWord) bytes.now at result }
{
    if bytes[at] == b'<' {
        return initializer_end(bytes, at);
    }
    let first = segment_end(bytes, at);
    if first == at {
        at
    } else {
        joined_end(bytes, at, first)
    }
}
