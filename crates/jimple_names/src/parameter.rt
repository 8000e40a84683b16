// The number in the word of a parameter. The pass over names stands above.
ghost use Rattle.std.specs.Prelude.{◌≡◌, ◌≤◌};
ghost use Rattle.jimple_words.specs.Kinds.{read_digits};
ghost use Rattle.jimple_names.specs.Tree.{parameter_of};

use crate::texts::text;
use jimple_grammar::lexeme::Lexeme;
use jimple_words::parameter_number;

/// How many bytes `parameter` has.
const PREFIX: usize = 9;

/// The number that the digits write.
#[tactic(auto, using(crate::proofs::Parameters::low_number))]
fn number(digits: &[u8]) -> u8
    requires { read_digits 0 digits.now ≤ 254 }
    ensures { result ≡ read_digits 0 digits.now }
{
    parameter_number(digits).unwrap_or(0)
}

/// The number of the parameter that the word names.
pub fn parameter_of(bytes: &[u8], word: Lexeme) -> u8
    requires { parameter_of bytes.now word ≤ 254 }
    ensures { result ≡ parameter_of bytes.now word }
{
    let word = text(bytes, word);
    let from = word.len().min(PREFIX);
    number(&word[from..])
}
