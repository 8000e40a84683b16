// What a text is answered with. The tables stand above.
use crate::answer::Answer::{
    BadByte, Classes, DoubleName, OpenText, Syntax, TooMany, UnknownLabel, UnknownLocal,
    Unsupported, UnsupportedWord, WordBefore,
};
use clean_base::{Form, InputFault, Stop};
use jimple_grammar::{ParseStop, Reason, read_tokens};
use jimple_lex::{Token, lex};
use jimple_text::read_classes;
use std::alloc::{AllocError, Global};

/// So many classes, or a fault at the mark.
#[derive(Clone, Copy, Debug)]
pub enum Answer {
    Classes(usize),
    BadByte,
    OpenText,
    Syntax,
    /// A form that isn't supported.
    Unsupported(Form),
    /// A word that isn't supported, to the grammar alone.
    UnsupportedWord,
    /// A colon behind a word that isn't supported, to the grammar alone.
    WordBefore,
    TooMany,
    DoubleName,
    UnknownLocal,
    UnknownLabel,
}

/// A text, and its answer.
pub type Row = (&'static [u8], Answer);

/// Stands where a text has its fault, and is no part of the text. No token begins with it.
const MARK: u8 = b'`';

/// The text without its mark, and where the mark stands, which is the end of the text where it has none.
fn unmarked(alloc: Global, marked: &[u8]) -> Result<(Vec<u8>, u64), AllocError> {
    let mut text = Vec::new(alloc);
    let mut mark = None;
    for byte in marked {
        if *byte == MARK {
            mark = Some(text.len() as u64);
        } else {
            text.push(*byte)?;
        }
    }
    let place = match mark {
        Some(at) => at,
        None => text.len() as u64,
    };
    Ok((text, place))
}

/// A piece so many times between others.
pub fn repeated(
    alloc: Global,
    head: &[u8],
    piece: &[u8],
    count: usize,
    foot: &[u8],
) -> Result<Vec<u8>, AllocError> {
    let mut text = Vec::new(alloc);
    text.extend_from_slice(head)?;
    for _ in 0..count {
        text.extend_from_slice(piece)?;
    }
    text.extend_from_slice(foot)?;
    Ok(text)
}

/// The fault of file 3 that the answer tells.
fn fault(answer: Answer, at: u64) -> Option<InputFault> {
    let file = 3;
    match answer {
        Classes(_) | UnsupportedWord | WordBefore => None,
        BadByte => Some(InputFault::BadByte { file, at }),
        OpenText => Some(InputFault::OpenText { file, at }),
        Syntax => Some(InputFault::Syntax { file, at }),
        Unsupported(form) => Some(InputFault::Unsupported { file, at, form }),
        TooMany => Some(InputFault::TooMany { file, at }),
        DoubleName => Some(InputFault::DoubleName { file, at }),
        UnknownLocal => Some(InputFault::UnknownLocal { file, at }),
        UnknownLabel => Some(InputFault::UnknownLabel { file, at }),
    }
}

/// The reader of classes answers so to the text without its mark.
pub fn is_answered(alloc: Global, marked: &[u8], wanted: Answer) -> Result<bool, AllocError> {
    let (text, place) = unmarked(alloc, marked)?;
    let bytes = text.as_slice();
    if bytes.len() >= 4_294_967_296 {
        return Ok(false);
    }
    Ok(match (read_classes(alloc, bytes, 3), wanted) {
        (Ok(classes), Classes(count)) => classes.len() == count,
        (Err(Stop::Fault(found)), _) => fault(wanted, place) == Some(found),
        _ => false,
    })
}

/// Where the first of so many last tokens stands, which is the end for none.
fn place_of(tokens: &[Token], left: usize, end: usize) -> Option<u64> {
    let number = tokens.len().checked_sub(left)?;
    match tokens.get(number) {
        Some(token) => Some(token.from),
        None => Some(end as u64),
    }
}

/// The grammar alone answers so to the text without its mark.
pub fn is_spelled(alloc: Global, marked: &[u8], wanted: Answer) -> Result<bool, AllocError> {
    let (text, place) = unmarked(alloc, marked)?;
    let bytes = text.as_slice();
    if bytes.len() >= 4_294_967_296 {
        return Ok(false);
    }
    let Ok(tokens) = lex(alloc, bytes, 0) else {
        return Ok(false);
    };
    let tokens = tokens.as_slice();
    let left = match (read_tokens(alloc, bytes, tokens), wanted) {
        (Ok(classes), Classes(count)) => return Ok(classes.as_slice().len() == count),
        (Err(ParseStop::Syntax(left)), Syntax) => left,
        (Err(ParseStop::Refused(Reason::Unsupported, left)), UnsupportedWord) => left,
        (Err(ParseStop::Refused(Reason::TooMany, left)), TooMany) => left,
        (Err(ParseStop::Refused(Reason::WordBefore, left)), WordBefore) => left,
        _ => return Ok(false),
    };
    Ok(place_of(tokens, left, bytes.len()) == Some(place))
}
