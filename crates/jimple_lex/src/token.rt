// What a token is. The lexer makes them, the reader of classes takes them.

/// What kind of token (docs/FORMATS.md, "Tokens").
#[derive(Clone, Copy, Debug, PartialEq, Eq)]
pub enum TokenKind {
    Word,
    Keyword,
    Number,
    Text,
    Sign,
}

/// A token and its place: its bytes are those from `from` up to, and without, `to`.
#[derive(Clone, Copy, Debug, PartialEq, Eq)]
pub struct Token {
    pub kind: TokenKind,
    pub from: u64,
    pub to: u64,
}
