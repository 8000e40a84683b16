// The text of a name: its segments, quoted where a reader of words needs it.
// The operands stand above; words and kinds of bytes below.
ghost use Rattle.std.specs.Prelude.{◌≡◌, ◌++◌, ◌==◌, not, OnOk};
ghost use Rattle.std.specs.List.{list_any, position};
ghost use Rattle.std.specs.Str.{bytes_eq};
ghost use Rattle.jimple_words.specs.Bytes.{is_plain};
ghost use Rattle.jimple_tree.specs.Names.{
  begins_badly,
  initializers,
  is_one_of,
  name_text,
  needs_quotes,
  primitives,
  quoted_name,
  segment_text,
};

use jimple_words::bytes::{is_digit, is_plain};
use jimple_words::is_reserved;
use std::alloc::AllocError;

/// Whether a text is this word.
fn is_word(text: &[u8], word: &[u8]) -> bool
    ensures { result ≡ bytes_eq text.now word.now }
{
    text == word
}

/// Whether a base is the name of a primitive type.
#[tactic(auto, unfolding(crate::specs::Names::is_one_of, crate::specs::Names::primitives))]
pub(crate) fn is_primitive(base: &[u8]) -> bool
    ensures { result ≡ is_one_of primitives base.now }
{
    is_word(base, b"void")
        || is_word(base, b"boolean")
        || is_word(base, b"byte")
        || is_word(base, b"short")
        || is_word(base, b"char")
        || is_word(base, b"int")
        || is_word(base, b"long")
        || is_word(base, b"float")
        || is_word(base, b"double")
        || is_word(base, b"null_type")
        || is_word(base, b"unknown")
}

/// Whether a whole name is `<init>` or `<clinit>`.
#[tactic(auto, unfolding(crate::specs::Names::is_one_of, crate::specs::Names::initializers))]
fn is_initializer(name: &[u8]) -> bool
    ensures { result ≡ is_one_of initializers name.now }
{
    is_word(name, b"<init>") || is_word(name, b"<clinit>")
}

/// Whether a segment is empty or begins with a digit or `#`.
fn begins_badly(segment: &[u8]) -> bool
    ensures { result ≡ begins_badly segment.now }
{
    match segment {
        [] => true,
        [first, ..] => is_digit(*first) || *first == b'#',
    }
}

/// Whether a segment has a byte that none without quotes holds.
fn has_odd_byte(segment: &[u8]) -> bool
    ensures { result ≡ list_any (λ b. not (is_plain b)) segment.now }
{
    segment.iter().any(|b| !is_plain(*b))
}

/// Whether a segment is written in quotes.
#[tactic(auto, unfolding(crate::specs::Names::needs_quotes))]
fn needs_quotes(segment: &[u8]) -> bool
    ensures { result ≡ needs_quotes segment.now }
{
    begins_badly(segment) || has_odd_byte(segment) || is_reserved(segment)
}

/// Writes a segment, in quotes where it needs them.
fn write_segment(out: &mut Vec<u8>, segment: &[u8]) -> Result<(), AllocError>
    ensures { OnOk result (out.new.items ≡ out.old.items ++ segment_text segment.now) }
{
    if needs_quotes(segment) {
        out.extend_from_slice(b"'")?;
        out.extend_from_slice(segment)?;
        out.extend_from_slice(b"'")
    } else {
        out.extend_from_slice(segment)
    }
}

/// The place of the first dot.
fn first_dot(text: &[u8]) -> Option<usize>
    ensures { result ≡ position (λ b. b == 46) text.now }
{
    text.iter().position(|b| *b == b'.')
}

/// Writes a name segment by segment, `<init>` and `<clinit>` in quotes too.
pub(crate) fn write_quoted_name(out: &mut Vec<u8>, name: &[u8]) -> Result<(), AllocError>
    ensures { OnOk result (out.new.items ≡ out.old.items ++ quoted_name name.now) }
{
    let mut rest = name;
    while let Some(dot) = first_dot(rest) {
        write_segment(out, &rest[..dot])?;
        out.extend_from_slice(b".")?;
        rest = &rest[dot + 1..];
    }
    write_segment(out, rest)
}

/// Writes a name.
#[tactic(auto, unfolding(crate::specs::Names::name_text))]
pub(crate) fn write_name(out: &mut Vec<u8>, name: &[u8]) -> Result<(), AllocError>
    ensures { OnOk result (out.new.items ≡ out.old.items ++ name_text name.now) }
{
    if is_initializer(name) {
        out.extend_from_slice(name)
    } else {
        write_quoted_name(out, name)
    }
}
