// Reads what an assignment to a local reads, a function for each form. Operands and calls stand below; the readers of
// statements above.
ghost use Rattle.jimple_grammar.specs.Reading.{reading};
ghost use Rattle.jimple_grammar.specs.Gives.{Gives, GivesMoreWith};
ghost use Rattle.jimple_grammar.specs.Forms.{element, behind_operand, behind_local, behind_handle, cast, new_array, later_lengths, new_multi, local_rhs, handle_rhs, constant_rhs, new_object, length_of, negated, static_load, called, rhs};

use crate::cursor::{Cursor, ParseStop, Reason};
use crate::lexeme::Lexeme;
use crate::raw::{RawImm, RawNewMulti, RawRhs};
use clean_base::Seq;
use jimple_words::kind::Kind;
use std::alloc::Global;

impl<'a> Cursor<'a> {
    #[tactic(auto, unfolding(crate::specs::Forms::element))]
    pub fn element(&mut self) -> Result<RawImm, ParseStop>
        ensures { Gives (λ x. x) result self.new.left.now (reading element self.old.left.now) }
    {
        self.take(Kind::OpenBracket)?;
        let index = self.imm()?;
        self.take(Kind::CloseBracket)?;
        Ok(index)
    }

    #[tactic(auto, unfolding(crate::specs::Forms::behind_operand))]
    fn behind_operand(&mut self, left: RawImm) -> Result<RawRhs, ParseStop>
        ensures { Gives (λ x. x) result self.new.left.now (reading (behind_operand left) self.old.left.now) }
    {
        if self.sees(Kind::Instanceof) {
            self.take(Kind::Instanceof)?;
            let ty = self.ty()?;
            return Ok(RawRhs::InstanceOf(left, ty));
        }
        if self.sees_operator() {
            let operator = self.take_operator()?;
            let right = self.imm()?;
            return Ok(RawRhs::Binary(left, operator, right));
        }
        Ok(RawRhs::Use(left))
    }

    #[tactic(auto, unfolding(crate::specs::Forms::behind_local, crate::specs::Forms::element))]
    fn behind_local(&mut self, base: Lexeme) -> Result<RawRhs, ParseStop>
        ensures { Gives (λ x. x) result self.new.left.now (reading (behind_local base) self.old.left.now) }
    {
        if self.sees(Kind::Dot) {
            self.take(Kind::Dot)?;
            let field = self.field_sig()?;
            return Ok(RawRhs::Load(base, field));
        }
        if self.sees(Kind::OpenBracket) {
            let index = self.element()?;
            return Ok(RawRhs::LoadElement(base, index));
        }
        self.behind_operand(RawImm::Local(base))
    }

    #[tactic(auto, unfolding(crate::specs::Forms::behind_handle))]
    fn behind_handle(&mut self, base: Lexeme) -> Result<RawRhs, ParseStop>
        ensures { Gives (λ x. x) result self.new.left.now (reading (behind_handle base) self.old.left.now) }
    {
        if self.sees(Kind::Colon) {
            return Err(ParseStop::Refused(Reason::WordBefore, self.remaining()));
        }
        self.behind_local(base)
    }

    #[tactic(auto, unfolding(crate::specs::Forms::cast))]
    fn cast(&mut self) -> Result<RawRhs, ParseStop>
        ensures { Gives (λ x. x) result self.new.left.now (reading cast self.old.left.now) }
    {
        self.take(Kind::OpenParen)?;
        let ty = self.ty()?;
        self.take(Kind::CloseParen)?;
        let value = self.imm()?;
        Ok(RawRhs::Cast(ty, value))
    }

    #[tactic(auto, unfolding(crate::specs::Forms::new_array))]
    fn new_array(&mut self) -> Result<RawRhs, ParseStop>
        ensures { Gives (λ x. x) result self.new.left.now (reading new_array self.old.left.now) }
    {
        self.take(Kind::Newarray)?;
        self.take(Kind::OpenParen)?;
        let ty = self.ty()?;
        self.take(Kind::CloseParen)?;
        let length = self.element()?;
        Ok(RawRhs::NewArray(ty, length))
    }

    /// Adds further lengths, and gives how many empty brackets stand behind them.
    #[tactic(auto, unfolding(crate::specs::Forms::later_lengths))]
    fn later_lengths(&mut self, lengths: &mut Vec<RawImm>) -> Result<u64, ParseStop>
        ensures { GivesMoreWith result lengths.old.items lengths.new.items self.new.left.now (reading later_lengths self.old.left.now) }
    {
        while self.sees_length() {
            let next = self.element()?;
            lengths.push(next)?;
        }
        self.brackets()
    }

    #[tactic(auto, unfolding(crate::specs::Forms::new_multi))]
    fn new_multi(&mut self, alloc: Global) -> Result<RawRhs, ParseStop>
        ensures { Gives (λ x. x) result self.new.left.now (reading new_multi self.old.left.now) }
    {
        self.take(Kind::Newmultiarray)?;
        self.take(Kind::OpenParen)?;
        let ty = self.ty()?;
        self.take(Kind::CloseParen)?;
        let front = self.element()?;
        let mut lengths = Vec::new(alloc);
        lengths.push(front)?;
        let bare = self.later_lengths(&mut lengths)?;
        Ok(RawRhs::NewMulti(RawNewMulti {
            ty,
            lengths: Seq::from_vec(lengths),
            bare,
        }))
    }

    #[tactic(auto, unfolding(crate::specs::Forms::local_rhs))]
    fn local_rhs(&mut self) -> Result<RawRhs, ParseStop>
        ensures { Gives (λ x. x) result self.new.left.now (reading local_rhs self.old.left.now) }
    {
        let base = self.take_plain_name()?;
        self.behind_local(base)
    }

    #[tactic(auto, unfolding(crate::specs::Forms::handle_rhs))]
    fn handle_rhs(&mut self) -> Result<RawRhs, ParseStop>
        ensures { Gives (λ x. x) result self.new.left.now (reading handle_rhs self.old.left.now) }
    {
        let base = self.take(Kind::Handle)?;
        self.behind_handle(base)
    }

    #[tactic(auto, unfolding(crate::specs::Forms::constant_rhs))]
    fn constant_rhs(&mut self) -> Result<RawRhs, ParseStop>
        ensures { Gives (λ x. x) result self.new.left.now (reading constant_rhs self.old.left.now) }
    {
        let left = self.constant()?;
        self.behind_operand(left)
    }

    #[tactic(auto, unfolding(crate::specs::Forms::new_object))]
    fn new_object(&mut self) -> Result<RawRhs, ParseStop>
        ensures { Gives (λ x. x) result self.new.left.now (reading new_object self.old.left.now) }
    {
        self.take(Kind::New)?;
        let class = self.take_name()?;
        Ok(RawRhs::New(class))
    }

    #[tactic(auto, unfolding(crate::specs::Forms::length_of))]
    fn length_of(&mut self) -> Result<RawRhs, ParseStop>
        ensures { Gives (λ x. x) result self.new.left.now (reading length_of self.old.left.now) }
    {
        self.take(Kind::Lengthof)?;
        let array = self.imm()?;
        Ok(RawRhs::Length(array))
    }

    #[tactic(auto, unfolding(crate::specs::Forms::negated))]
    fn negated(&mut self) -> Result<RawRhs, ParseStop>
        ensures { Gives (λ x. x) result self.new.left.now (reading negated self.old.left.now) }
    {
        self.take(Kind::Neg)?;
        let value = self.imm()?;
        Ok(RawRhs::Neg(value))
    }

    #[tactic(auto, unfolding(crate::specs::Forms::static_load))]
    fn static_load(&mut self) -> Result<RawRhs, ParseStop>
        ensures { Gives (λ x. x) result self.new.left.now (reading static_load self.old.left.now) }
    {
        let field = self.field_sig()?;
        Ok(RawRhs::LoadStatic(field))
    }

    #[tactic(auto, unfolding(crate::specs::Forms::called))]
    fn called(&mut self, alloc: Global) -> Result<RawRhs, ParseStop>
        ensures { Gives (λ x. x) result self.new.left.now (reading called self.old.left.now) }
    {
        let call = self.call(alloc)?;
        Ok(RawRhs::Call(call))
    }

    #[tactic(auto, unfolding(crate::specs::Forms::rhs, crate::specs::Forms::local_rhs, crate::specs::Forms::handle_rhs, crate::specs::Forms::constant_rhs, crate::specs::Forms::constant, crate::specs::Forms::cast, crate::specs::Forms::static_load, crate::specs::Forms::field_sig, crate::specs::Forms::new_object, crate::specs::Forms::new_array, crate::specs::Forms::new_multi, crate::specs::Forms::length_of, crate::specs::Forms::negated))]
    pub fn rhs(&mut self, alloc: Global) -> Result<RawRhs, ParseStop>
        ensures { Gives (λ x. x) result self.new.left.now (reading rhs self.old.left.now) }
    {
        if self.sees_plain_name() {
            self.local_rhs()
        } else if self.sees(Kind::Handle) {
            self.handle_rhs()
        } else if self.sees_literal() {
            self.constant_rhs()
        } else if self.sees(Kind::OpenParen) {
            self.cast()
        } else if self.sees(Kind::Less) {
            self.static_load()
        } else if self.sees(Kind::New) {
            self.new_object()
        } else if self.sees(Kind::Newarray) {
            self.new_array()
        } else if self.sees(Kind::Newmultiarray) {
            self.new_multi(alloc)
        } else if self.sees(Kind::Lengthof) {
            self.length_of()
        } else if self.sees(Kind::Neg) {
            self.negated()
        } else {
            self.called(alloc)
        }
    }
}
