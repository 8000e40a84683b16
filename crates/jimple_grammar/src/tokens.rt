// The tokens of a text as the grammar sees them. Kinds by text stand below; the reader of a whole file above.
ghost use Rattle.std.specs.Prelude.{◌≡◌, ◌<◌, ◌≤◌, ◌^◌, All, IfOk, length};
ghost use Rattle.jimple_grammar.specs.Lexemes.{kind_of, lexeme, lexemes};

use crate::lexeme::Lexeme;
use jimple_lex::{Token, TokenKind};
use jimple_words::kind::Kind;
use jimple_words::{keyword_kind, sign_kind, word_kind};
use std::alloc::{AllocError, Global};

/// The kind of a token of that text.
pub fn kind_of(kind: TokenKind, text: &[u8]) -> Kind
    ensures { result ≡ kind_of kind text.now }
{
    match kind {
        TokenKind::Word => word_kind(text),
        TokenKind::Keyword => keyword_kind(text),
        TokenKind::Number => Kind::Number,
        TokenKind::Text => Kind::Text,
        TokenKind::Sign => sign_kind(text),
    }
}

fn lexeme(bytes: &[u8], token: Token) -> Lexeme
    requires { (token.from < token.to) × (token.to ≤ length bytes.now) × (length bytes.now < 2 ^ 32) }
    ensures { result ≡ lexeme bytes.now token }
{
    let text = &bytes[token.from as usize..token.to as usize];
    Lexeme {
        kind: kind_of(token.kind, text),
        from: token.from as u32,
        to: token.to as u32,
    }
}

/// The tokens of the text, each with its kind.
pub(crate) fn lexemes(
    alloc: Global,
    bytes: &[u8],
    tokens: &[Token],
) -> Result<Vec<Lexeme>, AllocError>
    requires { All (λ t. (t.from < t.to) × (t.to ≤ length bytes.now)) tokens.now × (length bytes.now < 2 ^ 32) }
    ensures { IfOk result (λ ls. ls.items ≡ lexemes bytes.now tokens.now) }
{
    let mut lexemes = Vec::with_capacity(alloc, tokens.len())?;
    for token in tokens {
        lexemes.push(lexeme(bytes, *token))?;
    }
    Ok(lexemes)
}
