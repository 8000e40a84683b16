// A token as the grammar sees it. Kinds stand below; the raw tree, the parser and the pass over names above.
use jimple_words::kind::Kind;

/// A token of a kind, and the bytes from `from` to, and without, `to` where it stands.
#[derive(Clone, Copy)]
pub struct Lexeme {
    pub kind: Kind,
    pub from: u32,
    pub to: u32,
}
