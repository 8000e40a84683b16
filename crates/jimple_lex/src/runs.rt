// Runs of bytes of one kind: where each ends. The kinds of bytes stand below, the ends of tokens above.
ghost use Rattle.std.specs.Prelude.{◌≡◌, ◌≤◌, ◌<◌, ◌-◌, not, ◌==◌, ◌&&◌, suc, length, slice_index};
ghost use Rattle.jimple_lex.specs.Bytes.{is_quotable, goes_on, line_feed};
ghost use Rattle.jimple_words.specs.Bytes.{is_letter, is_plain};
ghost use Rattle.jimple_lex.specs.Ends.{EndsRun};

use crate::bytes::{byte_at, goes_on, is_quotable};
use jimple_words::bytes::{is_letter, is_plain};

/// The end of the bytes of a plain segment.
pub fn plain_end(bytes: &[u8], from: usize) -> usize
    requires { from ≤ length bytes.now }
    ensures { EndsRun (λ k. is_plain (slice_index bytes.now k)) (length bytes.now) from result }
{
    let mut to = from;
    while to < bytes.len() && is_plain(bytes[to]) {
        to += 1;
    }
    to
}

pub fn letters_end(bytes: &[u8], from: usize) -> usize
    requires { from ≤ length bytes.now }
    ensures { EndsRun (λ k. is_letter (slice_index bytes.now k)) (length bytes.now) from result }
{
    let mut to = from;
    while to < bytes.len() && is_letter(bytes[to]) {
        to += 1;
    }
    to
}

/// The end of what may stand between quotes.
pub fn quotable_end(bytes: &[u8], from: usize) -> usize
    requires { from ≤ length bytes.now }
    ensures { EndsRun (λ k. is_quotable (slice_index bytes.now k)) (length bytes.now) from result }
{
    let mut to = from;
    while to < bytes.len() && is_quotable(bytes[to]) {
        to += 1;
    }
    to
}

pub fn line_end(bytes: &[u8], from: usize) -> usize
    requires { from ≤ length bytes.now }
    ensures { EndsRun (λ k. not (slice_index bytes.now k == line_feed)) (length bytes.now) from result }
{
    let mut to = from;
    while to < bytes.len() && bytes[to] != b'\n' {
        to += 1;
    }
    to
}

/// The end of what a number goes on with behind its first digit, which stands before `from`.
pub fn tail_end(bytes: &[u8], from: usize) -> usize
    requires low { 0 < from }
    requires high { from ≤ length bytes.now }
    ensures { EndsRun (λ k. goes_on (slice_index bytes.now (k - 1)) (slice_index bytes.now k)) (length bytes.now) from result }
{
    let mut to = from;
    while to < bytes.len() && goes_on(bytes[to - 1], bytes[to]) {
        to += 1;
    }
    to
}

// Whether `*/` stands there.
fn closes(bytes: &[u8], at: usize) -> bool
    requires { at < length bytes.now }
    ensures { result ≡ ((slice_index bytes.now at == 42) && (slice_index bytes.now (suc at) == 47)) }
{
    bytes[at] == b'*' && byte_at(bytes, at + 1) == b'/'
}

/// The place of the first `*/`, or the length.
pub fn inside_end(bytes: &[u8], from: usize) -> usize
    requires { from ≤ length bytes.now }
    ensures { EndsRun (λ k. not ((slice_index bytes.now k == 42) && (slice_index bytes.now (suc k) == 47))) (length bytes.now) from result }
{
    let mut to = from;
    while to < bytes.len() && !closes(bytes, to) {
        to += 1;
    }
    to
}
