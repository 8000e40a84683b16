// Reads names, types and signatures, a function for each form. The cursor stands below; the readers of operands, and of
// bodies and members, above.
ghost use Rattle.std.specs.Prelude.{◌+◌, ◌≤◌, [], length, IfOk};
ghost use Rattle.jimple_words.specs.declared.kind.Kind.TheVariants as kinds;
ghost use Rattle.jimple_grammar.specs.Grammar.{◌*>◌};
ghost use Rattle.jimple_grammar.specs.Reading.{reading};
ghost use Rattle.jimple_grammar.specs.Gives.{Gives};
ghost use Rattle.jimple_grammar.specs.Forms.{sign, name, several_names, bracket_pair, brackets, ty, several_types, params, sig, field_sig};

use crate::cursor::{Cursor, ParseStop};
use crate::lexeme::Lexeme;
use crate::raw::{RawFieldSig, RawSig, RawType};
use clean_base::Seq;
use jimple_words::kind::Kind;
use std::alloc::Global;

impl<'a> Cursor<'a> {
    fn next_name(&mut self) -> Result<Lexeme, ParseStop>
        ensures { Gives (λ x. x) result self.new.left.now (reading (sign kinds.Comma *> name) self.old.left.now) }
    {
        self.take(Kind::Comma)?;
        self.take_name()
    }

    #[tactic(auto, unfolding(crate::specs::Forms::several_names))]
    pub fn several_names(&mut self, alloc: Global) -> Result<Vec<Lexeme>, ParseStop>
        ensures { Gives (λ v. v.items) result self.new.left.now (reading several_names self.old.left.now) }
    {
        let front = self.take_name()?;
        let mut names = Vec::new(alloc);
        names.push(front)?;
        while self.sees(Kind::Comma) {
            let next = self.next_name()?;
            names.push(next)?;
        }
        Ok(names)
    }

    pub fn bracket_pair(&mut self) -> Result<Lexeme, ParseStop>
        ensures { Gives (λ x. x) result self.new.left.now (reading bracket_pair self.old.left.now) }
    {
        self.take(Kind::OpenBracket)?;
        self.take(Kind::CloseBracket)
    }

    /// How many `[]` stand in front: no more than there are tokens.
    #[tactic(auto, unfolding(crate::specs::Forms::brackets))]
    pub fn brackets(&mut self) -> Result<u64, ParseStop>
        ensures gives { Gives (λ x. x) result self.new.left.now (reading brackets self.old.left.now) }
        ensures small { IfOk result (λ n. n + length self.new.left.now ≤ length self.old.left.now) }
    {
        let mut dims = 0u64;
        while self.sees(Kind::OpenBracket) {
            self.bracket_pair()?;
            dims += 1;
        }
        Ok(dims)
    }

    #[tactic(auto, unfolding(crate::specs::Forms::ty))]
    pub fn ty(&mut self) -> Result<RawType, ParseStop>
        ensures { Gives (λ x. x) result self.new.left.now (reading ty self.old.left.now) }
    {
        let base = self.take_type()?;
        let dims = self.brackets()?;
        Ok(RawType { base, dims })
    }

    fn next_type(&mut self) -> Result<RawType, ParseStop>
        ensures { Gives (λ x. x) result self.new.left.now (reading (sign kinds.Comma *> ty) self.old.left.now) }
    {
        self.take(Kind::Comma)?;
        self.ty()
    }

    #[tactic(auto, unfolding(crate::specs::Forms::several_types))]
    pub fn several_types(&mut self, alloc: Global) -> Result<Vec<RawType>, ParseStop>
        ensures { Gives (λ v. v.items) result self.new.left.now (reading several_types self.old.left.now) }
    {
        let front = self.ty()?;
        let mut types = Vec::new(alloc);
        types.push(front)?;
        while self.sees(Kind::Comma) {
            let next = self.next_type()?;
            types.push(next)?;
        }
        Ok(types)
    }

    #[tactic(auto, unfolding(crate::specs::Forms::params, crate::specs::Forms::several_types, crate::specs::Forms::ty))]
    pub fn params(&mut self, alloc: Global) -> Result<Vec<RawType>, ParseStop>
        ensures { Gives (λ v. v.items) result self.new.left.now (reading params self.old.left.now) }
    {
        if self.sees_type() {
            self.several_types(alloc)
        } else {
            Ok(Vec::new(alloc))
        }
    }

    #[tactic(auto, unfolding(crate::specs::Forms::sig))]
    pub fn sig(&mut self, alloc: Global) -> Result<RawSig, ParseStop>
        ensures { Gives (λ x. x) result self.new.left.now (reading sig self.old.left.now) }
    {
        self.take(Kind::Less)?;
        let class = self.take_name()?;
        self.take(Kind::Colon)?;
        let result = self.ty()?;
        let name = self.take_word()?;
        self.take(Kind::OpenParen)?;
        let params = self.params(alloc)?;
        self.take(Kind::CloseParen)?;
        self.take(Kind::Greater)?;
        Ok(RawSig {
            class,
            result,
            name,
            params: Seq::from_vec(params),
        })
    }

    #[tactic(auto, unfolding(crate::specs::Forms::field_sig))]
    pub fn field_sig(&mut self) -> Result<RawFieldSig, ParseStop>
        ensures { Gives (λ x. x) result self.new.left.now (reading field_sig self.old.left.now) }
    {
        self.take(Kind::Less)?;
        let class = self.take_name()?;
        self.take(Kind::Colon)?;
        let ty = self.ty()?;
        let name = self.take_word()?;
        self.take(Kind::Greater)?;
        Ok(RawFieldSig { class, ty, name })
    }
}
