// Reads statements, a function for each form. Right sides, operands and calls stand below; the readers of bodies above.
ghost use Rattle.std.specs.Prelude.{◌≡◌, [], ◌∷◌};
ghost use Rattle.jimple_words.specs.declared.kind.Kind.TheVariants as kinds;
ghost use Rattle.jimple_grammar.specs.Grammar.{either};
ghost use Rattle.jimple_grammar.specs.Reading.{reading, sees};
ghost use Rattle.jimple_grammar.specs.Gives.{Gives};
ghost use Rattle.jimple_grammar.specs.Forms.{this_given, param_given, caught_given, given_value, stored, identity, assign, store_field, store_element, local_stmt, store_static, call_stmt, jump, if_stmt, goto_stmt, case, cases, switch_stmt, returned, return_stmt, throw_stmt, nop_stmt, enter_stmt, exit_stmt, word_stmt, stmt};

use crate::cursor::{Cursor, ParseStop, Reason};
use crate::lexeme::Lexeme;
use crate::raw::{RawCase, RawGiven, RawImm, RawStmt, RawSwitch};
use clean_base::Seq;
use jimple_words::kind::Kind;
use std::alloc::Global;

impl<'a> Cursor<'a> {
    #[tactic(auto, unfolding(crate::specs::Forms::this_given))]
    fn this_given(&mut self) -> Result<RawGiven, ParseStop>
        ensures { Gives (λ x. x) result self.new.left.now (reading this_given self.old.left.now) }
    {
        self.take(Kind::This)?;
        self.take(Kind::Colon)?;
        let ty = self.ty()?;
        Ok(RawGiven::This(ty))
    }

    #[tactic(auto, unfolding(crate::specs::Forms::param_given))]
    fn param_given(&mut self) -> Result<RawGiven, ParseStop>
        ensures { Gives (λ x. x) result self.new.left.now (reading param_given self.old.left.now) }
    {
        let word = self.take(Kind::Parameter)?;
        self.take(Kind::Colon)?;
        let ty = self.ty()?;
        Ok(RawGiven::Param(word, ty))
    }

    #[tactic(auto, unfolding(crate::specs::Forms::caught_given))]
    fn caught_given(&mut self) -> Result<RawGiven, ParseStop>
        ensures { Gives (λ x. x) result self.new.left.now (reading caught_given self.old.left.now) }
    {
        self.take(Kind::Caughtexception)?;
        Ok(RawGiven::Caught)
    }

    #[tactic(auto, unfolding(crate::specs::Forms::given_value, crate::specs::Forms::this_given, crate::specs::Forms::param_given, crate::specs::Forms::caught_given))]
    fn given_value(&mut self) -> Result<RawGiven, ParseStop>
        ensures { Gives (λ x. x) result self.new.left.now (reading given_value self.old.left.now) }
    {
        self.take(Kind::At)?;
        if self.sees(Kind::This) {
            self.this_given()
        } else if self.sees(Kind::Parameter) {
            self.param_given()
        } else if self.sees(Kind::Caughtexception) {
            self.caught_given()
        } else {
            let fits = self.sees(Kind::HighParameter);
            self.refuse(Reason::TooMany, fits)
        }
    }

    fn stored(&mut self) -> Result<RawImm, ParseStop>
        ensures { Gives (λ x. x) result self.new.left.now (reading stored self.old.left.now) }
    {
        self.take(Kind::Equals)?;
        self.imm()
    }

    #[tactic(auto, unfolding(crate::specs::Forms::identity))]
    fn identity(&mut self, local: Lexeme) -> Result<RawStmt, ParseStop>
        ensures { Gives (λ x. x) result self.new.left.now (reading (identity local) self.old.left.now) }
    {
        self.take(Kind::ColonEquals)?;
        let value = self.given_value()?;
        Ok(RawStmt::Identity(local, value))
    }

    #[tactic(auto, unfolding(crate::specs::Forms::assign))]
    fn assign(&mut self, alloc: Global, local: Lexeme) -> Result<RawStmt, ParseStop>
        ensures { Gives (λ x. x) result self.new.left.now (reading (assign local) self.old.left.now) }
    {
        self.take(Kind::Equals)?;
        let value = self.rhs(alloc)?;
        Ok(RawStmt::Assign(local, value))
    }

    #[tactic(auto, unfolding(crate::specs::Forms::store_field))]
    fn store_field(&mut self, base: Lexeme) -> Result<RawStmt, ParseStop>
        ensures { Gives (λ x. x) result self.new.left.now (reading (store_field base) self.old.left.now) }
    {
        self.take(Kind::Dot)?;
        let field = self.field_sig()?;
        let value = self.stored()?;
        Ok(RawStmt::StoreField(base, field, value))
    }

    #[tactic(auto, unfolding(crate::specs::Forms::store_element))]
    fn store_element(&mut self, base: Lexeme) -> Result<RawStmt, ParseStop>
        ensures { Gives (λ x. x) result self.new.left.now (reading (store_element base) self.old.left.now) }
    {
        let index = self.element()?;
        let value = self.stored()?;
        Ok(RawStmt::StoreElement(base, index, value))
    }

    /// What a local becomes, before the semicolon.
    #[tactic(auto, unfolding(crate::specs::Forms::identity, crate::specs::Forms::assign, crate::specs::Forms::store_field))]
    fn local_change(&mut self, alloc: Global, local: Lexeme) -> Result<RawStmt, ParseStop>
        ensures { Gives (λ x. x) result self.new.left.now (reading (either (identity local) (either (assign local) (either (store_field local) (store_element local)))) self.old.left.now) }
    {
        if self.sees(Kind::ColonEquals) {
            self.identity(local)
        } else if self.sees(Kind::Equals) {
            self.assign(alloc, local)
        } else if self.sees(Kind::Dot) {
            self.store_field(local)
        } else {
            self.store_element(local)
        }
    }

    /// What stands behind the local that a statement begins with.
    #[tactic(auto, unfolding(crate::specs::Forms::local_stmt))]
    pub fn local_stmt(&mut self, alloc: Global, local: Lexeme) -> Result<RawStmt, ParseStop>
        ensures { Gives (λ x. x) result self.new.left.now (reading (local_stmt local) self.old.left.now) }
    {
        let change = self.local_change(alloc, local)?;
        self.take(Kind::Semicolon)?;
        Ok(change)
    }

    #[tactic(auto, unfolding(crate::specs::Forms::store_static))]
    fn store_static(&mut self) -> Result<RawStmt, ParseStop>
        ensures { Gives (λ x. x) result self.new.left.now (reading store_static self.old.left.now) }
    {
        let field = self.field_sig()?;
        let value = self.stored()?;
        self.take(Kind::Semicolon)?;
        Ok(RawStmt::StoreStatic(field, value))
    }

    #[tactic(auto, unfolding(crate::specs::Forms::call_stmt))]
    fn call_stmt(&mut self, alloc: Global) -> Result<RawStmt, ParseStop>
        ensures { Gives (λ x. x) result self.new.left.now (reading call_stmt self.old.left.now) }
    {
        let call = self.call(alloc)?;
        self.take(Kind::Semicolon)?;
        Ok(RawStmt::Call(call))
    }

    fn jump(&mut self) -> Result<Lexeme, ParseStop>
        ensures { Gives (λ x. x) result self.new.left.now (reading jump self.old.left.now) }
    {
        self.take(Kind::Goto)?;
        let label = self.take_name()?;
        self.take(Kind::Semicolon)?;
        Ok(label)
    }

    #[tactic(auto, unfolding(crate::specs::Forms::if_stmt))]
    fn if_stmt(&mut self) -> Result<RawStmt, ParseStop>
        ensures { Gives (λ x. x) result self.new.left.now (reading if_stmt self.old.left.now) }
    {
        self.take(Kind::If)?;
        let left = self.imm()?;
        let condition = self.take_condition()?;
        let right = self.imm()?;
        let label = self.jump()?;
        Ok(RawStmt::If(left, condition, right, label))
    }

    #[tactic(auto, unfolding(crate::specs::Forms::goto_stmt))]
    fn goto_stmt(&mut self) -> Result<RawStmt, ParseStop>
        ensures { Gives (λ x. x) result self.new.left.now (reading goto_stmt self.old.left.now) }
    {
        let label = self.jump()?;
        Ok(RawStmt::Goto(label))
    }

    #[tactic(auto, unfolding(crate::specs::Forms::case))]
    fn case(&mut self) -> Result<RawCase, ParseStop>
        ensures { Gives (λ x. x) result self.new.left.now (reading case self.old.left.now) }
    {
        self.take(Kind::Case)?;
        let value = self.take(Kind::Number)?;
        self.take(Kind::Colon)?;
        let target = self.jump()?;
        Ok(RawCase { value, target })
    }

    #[tactic(auto, unfolding(crate::specs::Forms::cases))]
    fn cases(&mut self, alloc: Global) -> Result<Vec<RawCase>, ParseStop>
        ensures { Gives (λ v. v.items) result self.new.left.now (reading cases self.old.left.now) }
    {
        let mut cases = Vec::new(alloc);
        while self.sees(Kind::Case) {
            let next = self.case()?;
            cases.push(next)?;
        }
        Ok(cases)
    }

    #[tactic(auto, unfolding(crate::specs::Forms::switch_stmt))]
    fn switch_stmt(&mut self, alloc: Global) -> Result<RawStmt, ParseStop>
        ensures { Gives (λ x. x) result self.new.left.now (reading switch_stmt self.old.left.now) }
    {
        let word = self.take_switch()?;
        self.take(Kind::OpenParen)?;
        let key = self.imm()?;
        self.take(Kind::CloseParen)?;
        self.take(Kind::OpenBrace)?;
        let cases = self.cases(alloc)?;
        self.take(Kind::Default)?;
        self.take(Kind::Colon)?;
        let default = self.jump()?;
        self.take(Kind::CloseBrace)?;
        if self.sees(Kind::Semicolon) {
            self.take(Kind::Semicolon)?;
        }
        Ok(RawStmt::Switch(RawSwitch {
            word,
            key,
            cases: Seq::from_vec(cases),
            default,
        }))
    }

    #[tactic(auto, unfolding(crate::specs::Forms::returned, crate::specs::Forms::imm, crate::specs::Forms::handle, crate::specs::Forms::constant))]
    fn returned(&mut self) -> Result<Option<RawImm>, ParseStop>
        ensures { Gives (λ x. x) result self.new.left.now (reading returned self.old.left.now) }
    {
        if self.sees_imm() {
            let value = self.imm()?;
            Ok(Some(value))
        } else {
            Ok(None)
        }
    }

    #[tactic(auto, unfolding(crate::specs::Forms::return_stmt))]
    fn return_stmt(&mut self) -> Result<RawStmt, ParseStop>
        ensures { Gives (λ x. x) result self.new.left.now (reading return_stmt self.old.left.now) }
    {
        self.take(Kind::Return)?;
        let value = self.returned()?;
        self.take(Kind::Semicolon)?;
        Ok(RawStmt::Return(value))
    }

    #[tactic(auto, unfolding(crate::specs::Forms::throw_stmt))]
    fn throw_stmt(&mut self) -> Result<RawStmt, ParseStop>
        ensures { Gives (λ x. x) result self.new.left.now (reading throw_stmt self.old.left.now) }
    {
        self.take(Kind::Throw)?;
        let value = self.imm()?;
        self.take(Kind::Semicolon)?;
        Ok(RawStmt::Throw(value))
    }

    #[tactic(auto, unfolding(crate::specs::Forms::nop_stmt))]
    fn nop_stmt(&mut self) -> Result<RawStmt, ParseStop>
        ensures { Gives (λ x. x) result self.new.left.now (reading nop_stmt self.old.left.now) }
    {
        self.take(Kind::Nop)?;
        self.take(Kind::Semicolon)?;
        Ok(RawStmt::Nop)
    }

    #[tactic(auto, unfolding(crate::specs::Forms::enter_stmt))]
    fn enter_stmt(&mut self) -> Result<RawStmt, ParseStop>
        ensures { Gives (λ x. x) result self.new.left.now (reading enter_stmt self.old.left.now) }
    {
        self.take(Kind::Entermonitor)?;
        let value = self.imm()?;
        self.take(Kind::Semicolon)?;
        Ok(RawStmt::Enter(value))
    }

    #[tactic(auto, unfolding(crate::specs::Forms::exit_stmt))]
    fn exit_stmt(&mut self) -> Result<RawStmt, ParseStop>
        ensures { Gives (λ x. x) result self.new.left.now (reading exit_stmt self.old.left.now) }
    {
        self.take(Kind::Exitmonitor)?;
        let value = self.imm()?;
        self.take(Kind::Semicolon)?;
        Ok(RawStmt::Exit(value))
    }

    /// A statement that doesn't begin with a local.
    #[tactic(auto, unfolding(crate::specs::Forms::word_stmt, crate::specs::Forms::store_static, crate::specs::Forms::field_sig, crate::specs::Forms::call_stmt, crate::specs::Forms::call, crate::specs::Forms::callee, crate::specs::Forms::if_stmt, crate::specs::Forms::goto_stmt, crate::specs::Forms::switch_stmt, crate::specs::Forms::return_stmt, crate::specs::Forms::throw_stmt, crate::specs::Forms::nop_stmt, crate::specs::Forms::enter_stmt, crate::specs::Forms::exit_stmt))]
    pub fn word_stmt(&mut self, alloc: Global) -> Result<RawStmt, ParseStop>
        ensures { Gives (λ x. x) result self.new.left.now (reading word_stmt self.old.left.now) }
    {
        if self.sees(Kind::Less) {
            self.store_static()
        } else if self.sees_call() {
            self.call_stmt(alloc)
        } else if self.sees(Kind::If) {
            self.if_stmt()
        } else if self.sees(Kind::Goto) {
            self.goto_stmt()
        } else if self.sees_switch() {
            self.switch_stmt(alloc)
        } else if self.sees(Kind::Return) {
            self.return_stmt()
        } else if self.sees(Kind::Throw) {
            self.throw_stmt()
        } else if self.sees(Kind::Nop) {
            self.nop_stmt()
        } else if self.sees(Kind::Entermonitor) {
            self.enter_stmt()
        } else if self.sees(Kind::Exitmonitor) {
            self.exit_stmt()
        } else {
            let fits = self.sees_refused_stmt();
            self.refuse(Reason::Unsupported, fits)
        }
    }

    #[tactic(auto, unfolding(crate::specs::Forms::stmt))]
    pub fn stmt(&mut self, alloc: Global) -> Result<RawStmt, ParseStop>
        ensures { Gives (λ x. x) result self.new.left.now (reading stmt self.old.left.now) }
    {
        if self.sees_name() {
            let local = self.take_name()?;
            self.local_stmt(alloc, local)
        } else {
            self.word_stmt(alloc)
        }
    }

    /// A statement that isn't supported stands in front.
    fn sees_refused_stmt(&self) -> bool
        ensures { result ≡ sees ((kinds.Ret ∷ kinds.Breakpoint ∷ []) ∷ []) self.now.left.now }
    {
        self.sees(Kind::Ret) || self.sees(Kind::Breakpoint)
    }
}
