// Reads operands and calls, a function for each form. Types and signatures stand below; the readers of right sides and of
// statements above.
ghost use Rattle.std.specs.Prelude.{◌≡◌, [], ◌∷◌, ◌++◌};
ghost use Rattle.jimple_words.specs.declared.kind.Kind.TheVariants as kinds;
ghost use Rattle.jimple_grammar.specs.Grammar.{times};
ghost use Rattle.jimple_grammar.specs.Reading.{reading, sees};
ghost use Rattle.jimple_grammar.specs.Gives.{Gives, GivesMore};
ghost use Rattle.jimple_words.specs.Sets.{plain_names, constants};
ghost use Rattle.jimple_grammar.specs.Forms.{constant, handle, imm, next_imm, args, callee, call};

use crate::cursor::{Cursor, ParseStop, Reason};
use crate::raw::{RawCall, RawCallee, RawImm};
use clean_base::Seq;
use jimple_words::kind::Kind;
use std::alloc::Global;

impl<'a> Cursor<'a> {
    #[tactic(auto, unfolding(crate::specs::Forms::constant))]
    pub fn constant(&mut self) -> Result<RawImm, ParseStop>
        ensures { Gives (λ x. x) result self.new.left.now (reading constant self.old.left.now) }
    {
        if self.sees_constant() {
            let token = self.take_constant()?;
            return Ok(RawImm::Literal(token));
        }
        self.take(Kind::Class)?;
        let text = self.take(Kind::Text)?;
        Ok(RawImm::Class(text))
    }

    /// `methodhandle` or `methodtype`, which is refused before a colon.
    #[tactic(auto, unfolding(crate::specs::Forms::handle))]
    pub fn handle(&mut self) -> Result<RawImm, ParseStop>
        ensures { Gives (λ x. x) result self.new.left.now (reading handle self.old.left.now) }
    {
        let word = self.take(Kind::Handle)?;
        if self.sees(Kind::Colon) {
            return Err(ParseStop::Refused(Reason::WordBefore, self.remaining()));
        }
        Ok(RawImm::Local(word))
    }

    #[tactic(auto, unfolding(crate::specs::Forms::imm, crate::specs::Forms::handle))]
    pub fn imm(&mut self) -> Result<RawImm, ParseStop>
        ensures { Gives (λ x. x) result self.new.left.now (reading imm self.old.left.now) }
    {
        if self.sees_plain_name() {
            let word = self.take_plain_name()?;
            return Ok(RawImm::Local(word));
        }
        if self.sees(Kind::Handle) {
            return self.handle();
        }
        self.constant()
    }

    #[tactic(auto, unfolding(crate::specs::Forms::next_imm))]
    fn next_imm(&mut self) -> Result<RawImm, ParseStop>
        ensures { Gives (λ x. x) result self.new.left.now (reading next_imm self.old.left.now) }
    {
        self.take(Kind::Comma)?;
        self.imm()
    }

    fn later_args(&mut self, args: &mut Vec<RawImm>, count: usize) -> Result<(), ParseStop>
        ensures { GivesMore result args.old.items args.new.items self.new.left.now (reading (times count next_imm) self.old.left.now) }
    {
        for _ in 0..count {
            let next = self.next_imm()?;
            args.push(next)?;
        }
        Ok(())
    }

    /// So many operands, with commas between.
    #[tactic(auto, unfolding(crate::specs::Forms::args))]
    pub fn args(&mut self, alloc: Global, count: usize) -> Result<Vec<RawImm>, ParseStop>
        ensures { Gives (λ v. v.items) result self.new.left.now (reading (args count) self.old.left.now) }
    {
        let mut args = Vec::new(alloc);
        if count > 0 {
            let front = self.imm()?;
            args.push(front)?;
            self.later_args(&mut args, count - 1)?;
        }
        Ok(args)
    }

    #[tactic(auto, unfolding(crate::specs::Forms::callee))]
    pub fn callee(&mut self, alloc: Global) -> Result<RawCallee, ParseStop>
        ensures { Gives (λ x. x) result self.new.left.now (reading callee self.old.left.now) }
    {
        if self.sees(Kind::Staticinvoke) {
            let word = self.take(Kind::Staticinvoke)?;
            let sig = self.sig(alloc)?;
            return Ok(RawCallee {
                word,
                base: None,
                sig,
            });
        }
        if self.sees_based_call() {
            let word = self.take_based_call()?;
            let base = self.take_name()?;
            self.take(Kind::Dot)?;
            let sig = self.sig(alloc)?;
            return Ok(RawCallee {
                word,
                base: Some(base),
                sig,
            });
        }
        let fits = self.sees(Kind::Dynamicinvoke);
        self.refuse(Reason::Unsupported, fits)
    }

    #[tactic(auto, unfolding(crate::specs::Forms::call))]
    pub fn call(&mut self, alloc: Global) -> Result<RawCall, ParseStop>
        ensures { Gives (λ x. x) result self.new.left.now (reading call self.old.left.now) }
    {
        let callee = self.callee(alloc)?;
        self.take(Kind::OpenParen)?;
        let args = self.args(alloc, callee.sig.params.as_slice().len())?;
        self.take(Kind::CloseParen)?;
        Ok(RawCall {
            callee,
            args: Seq::from_vec(args),
        })
    }

    /// A number, a string, `null` or `class` stands in front.
    pub fn sees_literal(&self) -> bool
        ensures { result ≡ sees ((constants ++ kinds.Class ∷ []) ∷ []) self.now.left.now }
    {
        self.sees_constant() || self.sees(Kind::Class)
    }

    /// An operand stands in front.
    pub fn sees_imm(&self) -> bool
        ensures { result ≡ sees ((plain_names ++ kinds.Handle ∷ constants ++ kinds.Class ∷ []) ∷ []) self.now.left.now }
    {
        self.sees_name() || self.sees_literal()
    }

    /// A call stands in front, or one that is refused.
    pub fn sees_call(&self) -> bool
        ensures { result ≡ sees ((kinds.Staticinvoke ∷ kinds.Virtualinvoke ∷ kinds.Interfaceinvoke ∷ kinds.Specialinvoke ∷ kinds.Dynamicinvoke ∷ []) ∷ []) self.now.left.now }
    {
        self.sees(Kind::Staticinvoke) || self.sees_based_call() || self.sees(Kind::Dynamicinvoke)
    }
}
