// The words behind a signature: permissions, an arrow and a mark. `cursor` and `line` stand below; `entry` above.
ghost use Rattle.std.specs.Prelude.{◌≡◌, ◌↔◌, Bool, IsTrue, IfSome, IfNone};
ghost use Rattle.std.specs.List.{list_all};
ghost use Rattle.source_sink.specs.Lists.{is_word_byte, IsWord, IsMark, IsMarked};
ghost use Rattle.source_sink.specs.ReadingLists.{IsNext, HasNoWord, IsMarkAlone};

use crate::cursor::is_white_space;
use crate::line::Kind;
use list_lines::{without_blanks_before, word_len};

const SOURCE: Kind = Kind {
    source: true,
    sink: false,
};

const SINK: Kind = Kind {
    source: false,
    sink: true,
};

const BOTH: Kind = Kind {
    source: true,
    sink: true,
};

fn has_no_white_space(text: &[u8]) -> bool
    ensures { result ≡ list_all is_word_byte text.now }
{
    text.iter().all(|c| !is_white_space(*c))
}

fn is_word(text: &[u8]) -> bool
    ensures { IsTrue result ↔ IsWord text.now }
{
    !text.is_empty() && has_no_white_space(text)
}

// The word in front, behind one blank or more, and what stands behind it.
fn next_word(text: &[u8]) -> Option<(&[u8], &[u8])>
    ensures some { IfSome result (λ parts. IsNext parts.0.now text.now parts.1.now) }
    ensures none { IfNone result (HasNoWord text.now) }
{
    let from = without_blanks_before(text);
    let (word, rest) = from.split_at(word_len(from));
    if from.len() == text.len() || !is_word(word) {
        return None;
    }
    Some((word, rest))
}

fn kind_of(mark: &[u8]) -> Option<Kind>
    ensures some { IfSome result (λ kind. IsMark kind.source kind.sink mark.now) }
    ensures none { IfNone result ((source sink : Bool) → IsMark source sink mark.now → ⊥) }
{
    if mark == b"_SOURCE_".as_slice() {
        Some(SOURCE)
    } else if mark == b"_SINK_".as_slice() {
        Some(SINK)
    } else if mark == b"_BOTH_".as_slice() {
        Some(BOTH)
    } else {
        None
    }
}

// What a text says that is to be a mark alone.
fn kind_alone(text: &[u8]) -> Option<Kind>
    ensures some { IfSome result (λ kind. IsMarkAlone kind.source kind.sink text.now) }
    ensures none { IfNone result ((source sink : Bool) → IsMarkAlone source sink text.now → ⊥) }
{
    let Some((mark, rest)) = next_word(text) else {
        return None;
    };
    if !rest.is_empty() {
        return None;
    }
    kind_of(mark)
}

/// What the text behind a signature says of its method, or none where it isn't permissions, an arrow and a mark.
pub fn kind_behind(text: &[u8]) -> Option<Kind>
    ensures some { IfSome result (λ kind. IsMarked kind.source kind.sink text.now) }
    ensures none { IfNone result ((source sink : Bool) → IsMarked source sink text.now → ⊥) }
{
    let mut left = text;
    'words: while let Some((word, rest)) = next_word(left) {
        if word == b"->".as_slice() {
            return kind_alone(rest);
        }
        left = rest;
    }
    None
}
