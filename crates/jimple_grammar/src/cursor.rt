// What is left of the tokens, and one comparison each to look at or take the one in front.
// Lexemes stand below; the readers of forms above.
ghost use Rattle.std.specs.Prelude.{◌≡◌, ◌==◌, [], ◌∷◌, length};
ghost use Rattle.jimple_grammar.specs.Reading.{sees, sees_one, read_token, read_refused, reading};
ghost use Rattle.jimple_grammar.specs.Gives.{Gives, reason_number};
ghost use Rattle.jimple_words.specs.Kind.{Kinds};
ghost use Rattle.jimple_words.specs.Sets.{names, plain_names, types, words, constants, conditions, operators, sure_types, based_calls, switches};
ghost use Rattle.jimple_grammar.specs.Forms.{modifier, before_item, before_label, before_length, before_decl, before_modifier, before_class_modifier, before_member, before_class};

use crate::lexeme::Lexeme;
use jimple_words::kind::Kind;
use std::alloc::{AllocError, AllocFailed};

/// Why a token is refused.
#[derive(Clone, Copy)]
pub enum Reason {
    /// It is a word that isn't supported.
    Unsupported,
    /// It is a name too many.
    TooMany,
    /// It is a colon behind a word that isn't supported.
    WordBefore,
}

/// Why the parser stops, with how many of the tokens are left there.
#[derive(Drop)]
pub enum ParseStop {
    OutOfMemory,
    /// The tokens no longer begin the form.
    Syntax(usize),
    /// A token that is refused.
    Refused(Reason, usize),
}

impl From<AllocError> for ParseStop {
    ghost use Rattle.std.specs.Prelude.{◌≡◌};
    ghost use Rattle.jimple_grammar.specs.declared.cursor.ParseStop.TheVariants.{OutOfMemory};

    ghost from_gives = { λ _ e. e ≡ OutOfMemory };

    fn from(_e: AllocError) -> ParseStop {
        ParseStop::OutOfMemory
    }
}

impl<T: Drop> From<AllocFailed<T>> for ParseStop {
    ghost use Rattle.std.specs.Prelude.{◌≡◌};
    ghost use Rattle.jimple_grammar.specs.declared.cursor.ParseStop.TheVariants.{OutOfMemory};

    ghost from_gives = { λ _ e. e ≡ OutOfMemory };

    fn from(_e: AllocFailed<T>) -> ParseStop {
        ParseStop::OutOfMemory
    }
}

/// What is left of the tokens.
#[derive(Drop)]
pub struct Cursor<'a> {
    left: &'a [Lexeme],
}

impl<'a> Cursor<'a> {
    /// All the tokens are left.
    pub fn new(tokens: &'a [Lexeme]) -> Cursor<'a>
        ensures { result.left.now ≡ tokens.now }
    {
        Cursor { left: tokens }
    }

    /// No token is left.
    pub fn is_at_end(&self) -> bool
        ensures { result ≡ (length self.now.left.now == 0) }
    {
        self.left.is_empty()
    }

    /// How many tokens are left.
    pub fn remaining(&self) -> usize
        ensures { result ≡ length self.now.left.now }
    {
        self.left.len()
    }

    /// A token of that kind stands in front.
    pub fn sees(&self, kind: Kind) -> bool
        ensures { result ≡ sees ((kind ∷ []) ∷ []) self.now.left.now }
    {
        match self.left {
            [token, ..] => token.kind.is(kind),
            [] => false,
        }
    }

    pub fn sees_name(&self) -> bool
        ensures { result ≡ sees (names ∷ []) self.now.left.now }
    {
        match self.left {
            [token, ..] => token.kind.is_name(),
            [] => false,
        }
    }

    pub fn sees_plain_name(&self) -> bool
        ensures { result ≡ sees (plain_names ∷ []) self.now.left.now }
    {
        match self.left {
            [token, ..] => token.kind.is_plain_name(),
            [] => false,
        }
    }

    pub fn sees_type(&self) -> bool
        ensures { result ≡ sees (types ∷ []) self.now.left.now }
    {
        match self.left {
            [token, ..] => token.kind.is_type(),
            [] => false,
        }
    }

    pub fn sees_sure_type(&self) -> bool
        ensures { result ≡ sees (sure_types ∷ []) self.now.left.now }
    {
        match self.left {
            [token, ..] => token.kind.is_sure_type(),
            [] => false,
        }
    }

    pub fn sees_word(&self) -> bool
        ensures { result ≡ sees (words ∷ []) self.now.left.now }
    {
        match self.left {
            [token, ..] => token.kind.is_word(),
            [] => false,
        }
    }

    pub fn sees_constant(&self) -> bool
        ensures { result ≡ sees (constants ∷ []) self.now.left.now }
    {
        match self.left {
            [token, ..] => token.kind.is_constant(),
            [] => false,
        }
    }

    pub fn sees_condition(&self) -> bool
        ensures { result ≡ sees (conditions ∷ []) self.now.left.now }
    {
        match self.left {
            [token, ..] => token.kind.is_condition(),
            [] => false,
        }
    }

    pub fn sees_operator(&self) -> bool
        ensures { result ≡ sees (operators ∷ []) self.now.left.now }
    {
        match self.left {
            [token, ..] => token.kind.is_operator(),
            [] => false,
        }
    }

    pub fn sees_based_call(&self) -> bool
        ensures { result ≡ sees (based_calls ∷ []) self.now.left.now }
    {
        match self.left {
            [token, ..] => token.kind.is_based_call(),
            [] => false,
        }
    }

    pub fn sees_switch(&self) -> bool
        ensures { result ≡ sees (switches ∷ []) self.now.left.now }
    {
        match self.left {
            [token, ..] => token.kind.is_switch(),
            [] => false,
        }
    }

    /// A label or a statement stands in front.
    pub fn sees_item(&self) -> bool
        ensures { result ≡ sees_one before_item self.now.left.now }
    {
        match self.left {
            [token, ..] => token.kind.is_name() || token.kind.is_statement_word(),
            [] => false,
        }
    }

    /// A label stands in front: a name, and a colon behind it.
    pub fn sees_label(&self) -> bool
        ensures { result ≡ sees_one before_label self.now.left.now }
    {
        match self.left {
            [front, behind, ..] => front.kind.is_name() && behind.kind.is(Kind::Colon),
            _ => false,
        }
    }

    /// One more length of an array stands in front: `[`, and not `]` behind it.
    pub fn sees_length(&self) -> bool
        ensures { result ≡ sees_one before_length self.now.left.now }
    {
        match self.left {
            [front, behind, ..] => {
                front.kind.is(Kind::OpenBracket)
                    && (behind.kind.is_name()
                        || behind.kind.is_constant()
                        || behind.kind.is(Kind::Class))
            }
            _ => false,
        }
    }

    /// A declaration stands in front: a primitive, a name and a name behind it, or a name and `[]`.
    pub fn sees_decl(&self) -> bool
        ensures { result ≡ sees_one before_decl self.now.left.now }
    {
        match self.left {
            [front, behind, third, ..] => {
                front.kind.is_primitive()
                    || (front.kind.is_name()
                        && (behind.kind.is_name()
                            || (behind.kind.is(Kind::OpenBracket)
                                && third.kind.is(Kind::CloseBracket))))
            }
            [front, behind] => {
                front.kind.is_primitive() || (front.kind.is_name() && behind.kind.is_name())
            }
            [front] => front.kind.is_primitive(),
            [] => false,
        }
    }

    /// A modifier stands in front: a keyword, or a further word and a word behind it.
    pub fn sees_modifier(&self) -> bool
        ensures { result ≡ sees_one before_modifier self.now.left.now }
    {
        match self.left {
            [front, behind, ..] => {
                front.kind.is_modifier() || (front.kind.is(Kind::Further) && behind.kind.is_word())
            }
            [front] => front.kind.is_modifier(),
            [] => false,
        }
    }

    /// A modifier of a class stands in front.
    pub fn sees_class_modifier(&self) -> bool
        ensures { result ≡ sees_one before_class_modifier self.now.left.now }
    {
        match self.left {
            [token, ..] => token.kind.is_modifier() || token.kind.is(Kind::Further),
            [] => false,
        }
    }

    /// A member stands in front.
    pub fn sees_member(&self) -> bool
        ensures { result ≡ sees_one before_member self.now.left.now }
    {
        match self.left {
            [token, ..] => token.kind.is_modifier() || token.kind.is_type(),
            [] => false,
        }
    }

    /// A class stands in front.
    pub fn sees_class(&self) -> bool
        ensures { result ≡ sees_one before_class self.now.left.now }
    {
        match self.left {
            [token, ..] => {
                token.kind.is_modifier()
                    || matches!(token.kind, Kind::Further | Kind::Class | Kind::Interface)
            }
            [] => false,
        }
    }

    // Takes the token in front, where it fits.
    fn take_if(&mut self, fits: bool) -> Result<Lexeme, ParseStop>
        ensures { (ks : Kinds) → fits ≡ sees (ks ∷ []) self.old.left.now → Gives (λ x. x) result self.new.left.now (read_token ks self.old.left.now) }
    {
        match self.left {
            [token, left @ ..] if fits => {
                self.left = left;
                Ok(*token)
            }
            _ => Err(ParseStop::Syntax(self.remaining())),
        }
    }

    /// A token that is refused for that reason stands in front, where it fits, and else none that goes on.
    pub fn refuse<T: Drop>(&self, reason: Reason, fits: bool) -> Result<T, ParseStop>
        ensures { (ks : Kinds) → fits ≡ sees (ks ∷ []) self.now.left.now → Gives (λ x. x) result self.now.left.now (read_refused (reason_number reason) ks self.now.left.now) }
    {
        if fits {
            Err(ParseStop::Refused(reason, self.remaining()))
        } else {
            Err(ParseStop::Syntax(self.remaining()))
        }
    }

    pub fn take(&mut self, kind: Kind) -> Result<Lexeme, ParseStop>
        ensures { Gives (λ x. x) result self.new.left.now (read_token (kind ∷ []) self.old.left.now) }
    {
        let fits = self.sees(kind);
        self.take_if(fits)
    }

    pub fn take_name(&mut self) -> Result<Lexeme, ParseStop>
        ensures { Gives (λ x. x) result self.new.left.now (read_token names self.old.left.now) }
    {
        let fits = self.sees_name();
        self.take_if(fits)
    }

    pub fn take_plain_name(&mut self) -> Result<Lexeme, ParseStop>
        ensures { Gives (λ x. x) result self.new.left.now (read_token plain_names self.old.left.now) }
    {
        let fits = self.sees_plain_name();
        self.take_if(fits)
    }

    pub fn take_type(&mut self) -> Result<Lexeme, ParseStop>
        ensures { Gives (λ x. x) result self.new.left.now (read_token types self.old.left.now) }
    {
        let fits = self.sees_type();
        self.take_if(fits)
    }

    pub fn take_sure_type(&mut self) -> Result<Lexeme, ParseStop>
        ensures { Gives (λ x. x) result self.new.left.now (read_token sure_types self.old.left.now) }
    {
        let fits = self.sees_sure_type();
        self.take_if(fits)
    }

    pub fn take_word(&mut self) -> Result<Lexeme, ParseStop>
        ensures { Gives (λ x. x) result self.new.left.now (read_token words self.old.left.now) }
    {
        let fits = self.sees_word();
        self.take_if(fits)
    }

    pub fn take_constant(&mut self) -> Result<Lexeme, ParseStop>
        ensures { Gives (λ x. x) result self.new.left.now (read_token constants self.old.left.now) }
    {
        let fits = self.sees_constant();
        self.take_if(fits)
    }

    pub fn take_condition(&mut self) -> Result<Lexeme, ParseStop>
        ensures { Gives (λ x. x) result self.new.left.now (read_token conditions self.old.left.now) }
    {
        let fits = self.sees_condition();
        self.take_if(fits)
    }

    pub fn take_operator(&mut self) -> Result<Lexeme, ParseStop>
        ensures { Gives (λ x. x) result self.new.left.now (read_token operators self.old.left.now) }
    {
        let fits = self.sees_operator();
        self.take_if(fits)
    }

    pub fn take_based_call(&mut self) -> Result<Lexeme, ParseStop>
        ensures { Gives (λ x. x) result self.new.left.now (read_token based_calls self.old.left.now) }
    {
        let fits = self.sees_based_call();
        self.take_if(fits)
    }

    pub fn take_switch(&mut self) -> Result<Lexeme, ParseStop>
        ensures { Gives (λ x. x) result self.new.left.now (read_token switches self.old.left.now) }
    {
        let fits = self.sees_switch();
        self.take_if(fits)
    }

    pub fn take_modifier(&mut self) -> Result<Lexeme, ParseStop>
        ensures { Gives (λ x. x) result self.new.left.now (reading modifier self.old.left.now) }
    {
        let fits = self.sees_class_modifier();
        self.take_if(fits)
    }
}
