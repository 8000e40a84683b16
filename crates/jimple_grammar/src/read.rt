// The reader of a whole file: tokens in, the raw tree or the place of the first fault out. The readers of forms stand below;
// the pass over names above.
ghost use Rattle.std.specs.Prelude.{◌<◌, ◌≤◌, ◌^◌, All, Contains, IfOk, length};
ghost use Rattle.jimple_grammar.specs.AsWritten.{Same, WithStatement, file_as_written, code_as_written, items_as_written};
ghost use Rattle.jimple_grammar.specs.Fits.{ClassFits};
ghost use Rattle.jimple_grammar.specs.Forms.{file};
ghost use Rattle.jimple_grammar.specs.Lexemes.{lexemes};
ghost use Rattle.jimple_grammar.specs.Stops.{Told, IsSettled};

use crate::cursor::{Cursor, ParseStop};
use crate::lexeme::Lexeme;
use crate::raw::RawClass;
use crate::tokens::lexemes;
use clean_base::Seq;
use jimple_lex::Token;
use std::alloc::Global;

/// Reads a file that takes all the tokens.
fn read_file(alloc: Global, tokens: &[Lexeme]) -> Result<Seq<RawClass>, ParseStop>
    ensures { Told file tokens.now result }
{
    let mut cursor = Cursor::new(tokens);
    let found = cursor.file(alloc)?;
    if cursor.is_at_end() {
        Ok(Seq::from_vec(found))
    } else {
        Err(ParseStop::Syntax(cursor.remaining()))
    }
}

/// Reads the classes of a text, given with its tokens.
///
/// The classes hold tokens of the text, each of a kind that stands in its place, and keep the grammar's rules on numbers.
///
/// An error is want of memory, or tells how many tokens are left where they stop to begin a file: the first of them is
/// refused for a reason of its own, or is a syntax fault.
///
/// The grammar has what productions share in front of them. It has the spellings and the beginnings of the productions of
/// docs/FORMATS.md as they are written there, where the code of a body is items with at least one statement among them.
#[tactic(auto, using(crate::proofs::AsWrittenMembers::file_same, crate::proofs::AsWrittenCode::code_written, crate::proofs::Settled::file_settled))]
pub fn read_tokens(
    alloc: Global,
    bytes: &[u8],
    tokens: &[Token],
) -> Result<Seq<RawClass>, ParseStop>
    requires { All (λ t. (t.from < t.to) × (t.to ≤ length bytes.now)) tokens.now × (length bytes.now < 2 ^ 32) }
    ensures told { Told file (lexemes bytes.now tokens.now) result }
    ensures settled { IsSettled file (lexemes bytes.now tokens.now) }
    ensures productions { Same file file_as_written }
    ensures code { WithStatement code_as_written items_as_written }
    ensures fits { IfOk result (λ cs. All (ClassFits (Contains (lexemes bytes.now tokens.now)) (length tokens.now)) cs) }
{
    let lexemes = lexemes(alloc, bytes, tokens)?;
    read_file(alloc, lexemes.as_slice())
}
