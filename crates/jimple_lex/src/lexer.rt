// Reads the tokens of a text from its front to its end.
ghost use Rattle.std.specs.Prelude.{◌≡◌, ◌≤◌, ◌<◌, ℕ, List, length, All, IfOk, IfErr, drop};
ghost use Rattle.jimple_lex.specs.declared.token.Token.{Token};
ghost use Rattle.jimple_lex.specs.Lexed.{Lexed, InOrder};
ghost use Rattle.jimple_lex.specs.Faults.{FaultKind, FirstFault, Refused};
ghost use Rattle.jimple_lex.specs.Front.{front, FormOf, kind_of, FaultAt};
ghost use Rattle.jimple_lex.specs.Ends.{Ends};

use crate::ends::{comment_end, number_end, sign_end, text_end};
use crate::front::{Front, front_at, opens_at};
use crate::words::word_end;
use crate::{Token, TokenKind};
use clean_base::{InputFault, Stop};
use jimple_words::is_keyword;
use std::alloc::Global;

// Where the piece ends that stands there, or its place where none does.
fn piece_end(bytes: &[u8], at: usize, begins: Front) -> usize
    requires within { at < length bytes.now }
    requires front { begins ≡ front (drop at bytes.now) }
    ensures { Ends (FormOf begins) bytes.now at result }
{
    match begins {
        Front::Blank => at + 1,
        Front::Comment => comment_end(bytes, at),
        Front::Word => word_end(bytes, at),
        Front::Number => number_end(bytes, at),
        Front::Text => text_end(bytes, at),
        Front::Sign => sign_end(bytes, at),
    }
}

// The kind of the token, or none for a blank and a comment.
fn kind_of(text: &[u8], begins: Front) -> Option<TokenKind>
    ensures { result ≡ kind_of begins text.now }
{
    match begins {
        Front::Blank | Front::Comment => None,
        Front::Word => Some(if is_keyword(text) {
            TokenKind::Keyword
        } else {
            TokenKind::Word
        }),
        Front::Number => Some(TokenKind::Number),
        Front::Text => Some(TokenKind::Text),
        Front::Sign => Some(TokenKind::Sign),
    }
}

// Why nothing stands there.
fn fault_at(bytes: &[u8], at: usize, file: u32) -> InputFault
    requires { at < length bytes.now }
    ensures { FaultAt file (drop at bytes.now) at result }
{
    let place = at as u64;
    if opens_at(bytes, at) {
        InputFault::OpenText { file, at: place }
    } else {
        InputFault::BadByte { file, at: place }
    }
}

/// The tokens of a text, in its order. `file` is the file's place in the order of reading, as faults name it.
///
/// An error is want of memory, or the first fault of the text: `BadByte` where no token begins, `OpenText` where a
/// string, a quoted name or a comment begins and doesn't end (docs/FORMATS.md, "Tokens").
pub fn lex(alloc: Global, bytes: &[u8], file: u32) -> Result<Vec<Token>, Stop>
    ensures ok { IfOk result (λ ts. Lexed 0 bytes.now ts.items) }
    ensures only { IfOk result (λ ts. (us : List Token) → Lexed 0 bytes.now us → us ≡ ts.items) }
    ensures faultless { IfOk result (λ ts. (kind : FaultKind) (place : ℕ) → FirstFault 0 bytes.now kind place → ⊥) }
    ensures spans { IfOk result (λ ts. All (λ t. (t.from < t.to) × (t.to ≤ length bytes.now)) ts.items) }
    ensures order { IfOk result (λ ts. InOrder 0 ts.items) }
    ensures err { IfErr result (Refused file bytes.now) }
{
    let mut out = Vec::new(alloc);
    let mut at = 0usize;
    'pieces: while at < bytes.len() {
        let begins = front_at(bytes, at);
        let to = piece_end(bytes, at, begins);
        if to == at {
            return Err(Stop::Fault(fault_at(bytes, at, file)));
        }
        if let Some(kind) = kind_of(&bytes[at..to], begins) {
            let token = Token {
                kind,
                from: at as u64,
                to: to as u64,
            };
            let Ok(()) = out.push(token) else {
                return Err(Stop::OutOfMemory);
            };
        }
        at = to;
    }
    Ok(out)
}
