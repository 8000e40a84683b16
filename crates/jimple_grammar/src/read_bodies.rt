// Reads bodies, one function for each form: declarations, statements with their labels, and catch clauses.
// The readers of types and statements stand below; the readers of members and classes above.
ghost use Rattle.std.specs.Prelude.{[]};
ghost use Rattle.jimple_grammar.specs.Grammar.{both};
ghost use Rattle.jimple_grammar.specs.Reading.{reading};
ghost use Rattle.jimple_grammar.specs.Gives.{Gives, GivesMore};
ghost use Rattle.jimple_grammar.specs.Forms.{label, behind_name, item, catch, catches, later_items, front_items, stmt, code, code_catches, slot, next_slot, later_slots, slots, decl, block, body};

use crate::cursor::{Cursor, ParseStop, Reason};
use crate::lexeme::Lexeme;
use crate::raw::{RawBody, RawCatch, RawCode, RawDecl, RawItem, RawStmt};
use clean_base::Seq;
use clean_base::limits::MOST_LOCALS;
use jimple_words::kind::Kind;
use std::alloc::Global;

impl<'a> Cursor<'a> {
    fn label(&mut self) -> Result<Lexeme, ParseStop>
        ensures { Gives (λ x. x) result self.new.left.now (reading label self.old.left.now) }
    {
        let name = self.take_name()?;
        self.take(Kind::Colon)?;
        Ok(name)
    }

    #[tactic(auto, unfolding(crate::specs::Forms::behind_name))]
    fn behind_name(&mut self, alloc: Global, name: Lexeme) -> Result<RawItem, ParseStop>
        ensures { Gives (λ x. x) result self.new.left.now (reading (behind_name name) self.old.left.now) }
    {
        if self.sees(Kind::Colon) {
            self.take(Kind::Colon)?;
            return Ok(RawItem::Label(name));
        }
        let stmt = self.local_stmt(alloc, name)?;
        Ok(RawItem::Stmt(stmt))
    }

    #[tactic(auto, unfolding(crate::specs::Forms::item))]
    fn item(&mut self, alloc: Global) -> Result<RawItem, ParseStop>
        ensures { Gives (λ x. x) result self.new.left.now (reading item self.old.left.now) }
    {
        if self.sees_name() {
            let name = self.take_name()?;
            return self.behind_name(alloc, name);
        }
        let stmt = self.word_stmt(alloc)?;
        Ok(RawItem::Stmt(stmt))
    }

    #[tactic(auto, unfolding(crate::specs::Forms::later_items))]
    fn later_items(&mut self, alloc: Global) -> Result<Vec<RawItem>, ParseStop>
        ensures { Gives (λ v. v.items) result self.new.left.now (reading later_items self.old.left.now) }
    {
        let mut items = Vec::new(alloc);
        while self.sees_item() {
            let next = self.item(alloc)?;
            items.push(next)?;
        }
        Ok(items)
    }

    // The first statement, and what stands behind it.
    fn front_items(&mut self, alloc: Global) -> Result<(RawStmt, Seq<RawItem>), ParseStop>
        ensures { Gives (λ x. x) result self.new.left.now (reading (both front_items stmt later_items) self.old.left.now) }
    {
        let front = self.stmt(alloc)?;
        let rest = self.later_items(alloc)?;
        Ok((front, Seq::from_vec(rest)))
    }

    #[tactic(auto, unfolding(crate::specs::Forms::code))]
    fn code(&mut self, alloc: Global) -> Result<RawCode, ParseStop>
        ensures { Gives (λ x. x) result self.new.left.now (reading code self.old.left.now) }
    {
        let mut labels = Vec::new(alloc);
        while self.sees_label() {
            let next = self.label()?;
            labels.push(next)?;
        }
        let (front, rest) = self.front_items(alloc)?;
        Ok(RawCode {
            labels: Seq::from_vec(labels),
            front,
            rest,
        })
    }

    #[tactic(auto, unfolding(crate::specs::Forms::catch))]
    fn catch(&mut self) -> Result<RawCatch, ParseStop>
        ensures { Gives (λ x. x) result self.new.left.now (reading catch self.old.left.now) }
    {
        self.take(Kind::Catch)?;
        let class = self.take_name()?;
        self.take(Kind::From)?;
        let from = self.take_name()?;
        self.take(Kind::To)?;
        let to = self.take_name()?;
        self.take(Kind::With)?;
        let with = self.take_name()?;
        self.take(Kind::Semicolon)?;
        Ok(RawCatch {
            class,
            from,
            to,
            with,
        })
    }

    #[tactic(auto, unfolding(crate::specs::Forms::catches))]
    fn catches(&mut self, alloc: Global) -> Result<Vec<RawCatch>, ParseStop>
        ensures { Gives (λ v. v.items) result self.new.left.now (reading catches self.old.left.now) }
    {
        let mut catches = Vec::new(alloc);
        while self.sees(Kind::Catch) {
            let next = self.catch()?;
            catches.push(next)?;
        }
        Ok(catches)
    }

    // A name, where there is room for one more.
    #[tactic(auto, unfolding(crate::specs::Forms::slot))]
    fn slot(&mut self, room: usize) -> Result<Lexeme, ParseStop>
        ensures { Gives (λ x. x) result self.new.left.now (reading (slot room) self.old.left.now) }
    {
        if room == 0 {
            return self.refuse(Reason::TooMany, self.sees_name());
        }
        self.take_name()
    }

    fn next_slot(&mut self, room: usize) -> Result<Lexeme, ParseStop>
        ensures { Gives (λ x. x) result self.new.left.now (reading (next_slot room) self.old.left.now) }
    {
        self.take(Kind::Comma)?;
        self.slot(room)
    }

    // Further names, in the room that is left behind the first one.
    #[tactic(auto, unfolding(crate::specs::Forms::later_slots))]
    fn later_slots(&mut self, names: &mut Vec<Lexeme>, mut room: usize) -> Result<(), ParseStop>
        ensures { GivesMore result names.old.items names.new.items self.new.left.now (reading (later_slots room) self.old.left.now) }
    {
        while self.sees(Kind::Comma) {
            let next = self.next_slot(room)?;
            names.push(next)?;
            room = room.saturating_sub(1);
        }
        Ok(())
    }

    #[tactic(auto, unfolding(crate::specs::Forms::slots))]
    fn slots(&mut self, alloc: Global, room: usize) -> Result<Vec<Lexeme>, ParseStop>
        ensures { Gives (λ v. v.items) result self.new.left.now (reading (slots room) self.old.left.now) }
    {
        let front = self.slot(room)?;
        let mut names = Vec::new(alloc);
        names.push(front)?;
        self.later_slots(&mut names, room.saturating_sub(1))?;
        Ok(names)
    }

    #[tactic(auto, unfolding(crate::specs::Forms::decl))]
    fn decl(&mut self, alloc: Global, room: usize) -> Result<RawDecl, ParseStop>
        ensures { Gives (λ x. x) result self.new.left.now (reading (decl room) self.old.left.now) }
    {
        let ty = self.ty()?;
        let names = self.slots(alloc, room)?;
        self.take(Kind::Semicolon)?;
        Ok(RawDecl {
            ty,
            names: Seq::from_vec(names),
        })
    }

    // Statements, and the catch clauses behind them.
    fn code_catches(&mut self, alloc: Global) -> Result<(RawCode, Seq<RawCatch>), ParseStop>
        ensures { Gives (λ x. x) result self.new.left.now (reading (both code_catches code catches) self.old.left.now) }
    {
        let code = self.code(alloc)?;
        let catches = self.catches(alloc)?;
        Ok((code, Seq::from_vec(catches)))
    }

    #[tactic(auto, unfolding(crate::specs::Forms::block))]
    fn block(&mut self, alloc: Global) -> Result<RawBody, ParseStop>
        ensures { Gives (λ x. x) result self.new.left.now (reading block self.old.left.now) }
    {
        let mut decls = Vec::new(alloc);
        let mut room = MOST_LOCALS;
        while self.sees_decl() {
            let next = self.decl(alloc, room)?;
            room = room.saturating_sub(next.names.as_slice().len());
            decls.push(next)?;
        }
        let (code, catches) = self.code_catches(alloc)?;
        Ok(RawBody {
            decls: Seq::from_vec(decls),
            code,
            catches,
        })
    }

    #[tactic(auto, unfolding(crate::specs::Forms::body))]
    pub fn body(&mut self, alloc: Global) -> Result<RawBody, ParseStop>
        ensures { Gives (λ x. x) result self.new.left.now (reading body self.old.left.now) }
    {
        self.take(Kind::OpenBrace)?;
        let body = self.block(alloc)?;
        self.take(Kind::CloseBrace)?;
        Ok(body)
    }
}
