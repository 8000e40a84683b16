// Reads members, classes and files, one function for each form. The readers of types, statements and bodies stand below;
// the reader of a whole file above.
ghost use Rattle.std.specs.Prelude.{[]};
ghost use Rattle.jimple_words.specs.declared.kind.Kind.TheVariants as kinds;
ghost use Rattle.jimple_grammar.specs.Grammar.{both, plain};
ghost use Rattle.jimple_grammar.specs.Reading.{reading};
ghost use Rattle.jimple_grammar.specs.Gives.{Gives, GivesMore};
ghost use Rattle.jimple_grammar.specs.Forms.{sign, before_member, param_slot, next_param, later_params, heading_params, throws, body_or_none, member_type, head, method_rest, behind_head, member, implements, extends_one, extends_several, class_heading, interface_heading, heading, members, heading_members, class, file};

use crate::cursor::{Cursor, ParseStop, Reason};
use crate::lexeme::Lexeme;
use crate::raw::{RawBody, RawClass, RawHead, RawHeading, RawMember, RawMethod, RawType};
use clean_base::Seq;
use clean_base::limits::MOST_PARAMS;
use jimple_words::kind::Kind;
use std::alloc::Global;

impl<'a> Cursor<'a> {
    // A type, where there is room for one more.
    #[tactic(auto, unfolding(crate::specs::Forms::param_slot))]
    fn param_slot(&mut self, room: usize) -> Result<RawType, ParseStop>
        ensures { Gives (λ x. x) result self.new.left.now (reading (param_slot room) self.old.left.now) }
    {
        if room == 0 {
            return self.refuse(Reason::TooMany, self.sees_type());
        }
        self.ty()
    }

    fn next_param(&mut self, room: usize) -> Result<RawType, ParseStop>
        ensures { Gives (λ x. x) result self.new.left.now (reading (next_param room) self.old.left.now) }
    {
        self.take(Kind::Comma)?;
        self.param_slot(room)
    }

    // Further types, in the room that is left behind the first one.
    #[tactic(auto, unfolding(crate::specs::Forms::later_params))]
    fn later_params(&mut self, params: &mut Vec<RawType>) -> Result<(), ParseStop>
        ensures { GivesMore result params.old.items params.new.items self.new.left.now (reading later_params self.old.left.now) }
    {
        let mut room = MOST_PARAMS - 1;
        while self.sees(Kind::Comma) {
            let next = self.next_param(room)?;
            params.push(next)?;
            room = room.saturating_sub(1);
        }
        Ok(())
    }

    #[tactic(auto, unfolding(crate::specs::Forms::heading_params, crate::specs::Forms::ty))]
    fn heading_params(&mut self, alloc: Global) -> Result<Vec<RawType>, ParseStop>
        ensures { Gives (λ v. v.items) result self.new.left.now (reading heading_params self.old.left.now) }
    {
        let mut params = Vec::new(alloc);
        if self.sees_type() {
            let front = self.ty()?;
            params.push(front)?;
            self.later_params(&mut params)?;
        }
        Ok(params)
    }

    #[tactic(auto, unfolding(crate::specs::Forms::throws))]
    fn throws(&mut self, alloc: Global) -> Result<Vec<Lexeme>, ParseStop>
        ensures { Gives (λ v. v.items) result self.new.left.now (reading throws self.old.left.now) }
    {
        if self.sees(Kind::Throws) {
            self.take(Kind::Throws)?;
            self.several_names(alloc)
        } else {
            Ok(Vec::new(alloc))
        }
    }

    #[tactic(auto, unfolding(crate::specs::Forms::body_or_none))]
    fn body_or_none(&mut self, alloc: Global) -> Result<Option<RawBody>, ParseStop>
        ensures { Gives (λ x. x) result self.new.left.now (reading body_or_none self.old.left.now) }
    {
        if self.sees(Kind::Semicolon) {
            self.take(Kind::Semicolon)?;
            return Ok(None);
        }
        let body = self.body(alloc)?;
        Ok(Some(body))
    }

    // A type and a name, behind the modifiers: a word that may be one is a type only where brackets follow.
    #[tactic(auto, unfolding(crate::specs::Forms::member_type))]
    fn member_type(&mut self) -> Result<(RawType, Lexeme), ParseStop>
        ensures { Gives (λ x. x) result self.new.left.now (reading member_type self.old.left.now) }
    {
        if self.sees_sure_type() {
            let base = self.take_sure_type()?;
            let dims = self.brackets()?;
            let name = self.take_word()?;
            return Ok((RawType { base, dims }, name));
        }
        let base = self.take(Kind::Further)?;
        self.bracket_pair()?;
        let dims = self.brackets()?;
        let name = self.take_word()?;
        Ok((
            RawType {
                base,
                dims: dims + 1,
            },
            name,
        ))
    }

    #[tactic(auto, unfolding(crate::specs::Forms::head))]
    fn head(&mut self, alloc: Global) -> Result<RawHead, ParseStop>
        ensures { Gives (λ x. x) result self.new.left.now (reading head self.old.left.now) }
    {
        let mut modifiers = Vec::new(alloc);
        while self.sees_modifier() {
            let next = self.take_modifier()?;
            modifiers.push(next)?;
        }
        let (ty, name) = self.member_type()?;
        Ok(RawHead {
            modifiers: Seq::from_vec(modifiers),
            ty,
            name,
        })
    }

    #[tactic(auto, unfolding(crate::specs::Forms::method_rest))]
    fn method_rest(&mut self, alloc: Global, head: RawHead) -> Result<RawMember, ParseStop>
        ensures { Gives (λ x. x) result self.new.left.now (reading (method_rest head) self.old.left.now) }
    {
        self.take(Kind::OpenParen)?;
        let params = self.heading_params(alloc)?;
        self.take(Kind::CloseParen)?;
        let throws = self.throws(alloc)?;
        let body = self.body_or_none(alloc)?;
        let method = RawMethod {
            params: Seq::from_vec(params),
            throws: Seq::from_vec(throws),
            body,
        };
        Ok(RawMember::Method(head, method))
    }

    #[tactic(auto, unfolding(crate::specs::Forms::behind_head))]
    fn behind_head(&mut self, alloc: Global, head: RawHead) -> Result<RawMember, ParseStop>
        ensures { Gives (λ x. x) result self.new.left.now (reading (behind_head head) self.old.left.now) }
    {
        if self.sees(Kind::Semicolon) {
            self.take(Kind::Semicolon)?;
            return Ok(RawMember::Field(head));
        }
        self.method_rest(alloc, head)
    }

    #[tactic(auto, unfolding(crate::specs::Forms::member))]
    fn member(&mut self, alloc: Global) -> Result<RawMember, ParseStop>
        ensures { Gives (λ x. x) result self.new.left.now (reading member self.old.left.now) }
    {
        let head = self.head(alloc)?;
        self.behind_head(alloc, head)
    }

    #[tactic(auto, unfolding(crate::specs::Forms::implements))]
    fn implements(&mut self, alloc: Global) -> Result<Vec<Lexeme>, ParseStop>
        ensures { Gives (λ v. v.items) result self.new.left.now (reading implements self.old.left.now) }
    {
        if self.sees(Kind::Implements) {
            self.take(Kind::Implements)?;
            self.several_names(alloc)
        } else {
            Ok(Vec::new(alloc))
        }
    }

    #[tactic(auto, unfolding(crate::specs::Forms::extends_one))]
    fn extends_one(&mut self, alloc: Global) -> Result<Vec<Lexeme>, ParseStop>
        ensures { Gives (λ v. v.items) result self.new.left.now (reading extends_one self.old.left.now) }
    {
        let mut names = Vec::new(alloc);
        if self.sees(Kind::Extends) {
            self.take(Kind::Extends)?;
            let name = self.take_name()?;
            names.push(name)?;
        }
        Ok(names)
    }

    #[tactic(auto, unfolding(crate::specs::Forms::extends_several))]
    fn extends_several(&mut self, alloc: Global) -> Result<Vec<Lexeme>, ParseStop>
        ensures { Gives (λ v. v.items) result self.new.left.now (reading extends_several self.old.left.now) }
    {
        if self.sees(Kind::Extends) {
            self.take(Kind::Extends)?;
            self.several_names(alloc)
        } else {
            Ok(Vec::new(alloc))
        }
    }

    #[tactic(auto, unfolding(crate::specs::Forms::class_heading))]
    fn class_heading(&mut self, alloc: Global) -> Result<RawHeading, ParseStop>
        ensures { Gives (λ x. x) result self.new.left.now (reading class_heading self.old.left.now) }
    {
        self.take(Kind::Class)?;
        let name = self.take_name()?;
        let extends = self.extends_one(alloc)?;
        let implements = self.implements(alloc)?;
        Ok(RawHeading {
            is_interface: false,
            name,
            extends: Seq::from_vec(extends),
            implements: Seq::from_vec(implements),
        })
    }

    #[tactic(auto, unfolding(crate::specs::Forms::interface_heading))]
    fn interface_heading(&mut self, alloc: Global) -> Result<RawHeading, ParseStop>
        ensures { Gives (λ x. x) result self.new.left.now (reading interface_heading self.old.left.now) }
    {
        self.take(Kind::Interface)?;
        let name = self.take_name()?;
        let extends = self.extends_several(alloc)?;
        let implements = self.implements(alloc)?;
        Ok(RawHeading {
            is_interface: true,
            name,
            extends: Seq::from_vec(extends),
            implements: Seq::from_vec(implements),
        })
    }

    #[tactic(auto, unfolding(crate::specs::Forms::heading, crate::specs::Forms::class_heading))]
    fn heading(&mut self, alloc: Global) -> Result<RawHeading, ParseStop>
        ensures { Gives (λ x. x) result self.new.left.now (reading heading self.old.left.now) }
    {
        if self.sees(Kind::Class) {
            self.class_heading(alloc)
        } else {
            self.interface_heading(alloc)
        }
    }

    // The members, and the brace behind them.
    fn later_members(&mut self, alloc: Global) -> Result<Vec<RawMember>, ParseStop>
        ensures { Gives (λ v. v.items) result self.new.left.now (reading (plain (λ xs end. xs) before_member member (sign kinds.CloseBrace)) self.old.left.now) }
    {
        let mut members = Vec::new(alloc);
        while self.sees_member() {
            let next = self.member(alloc)?;
            members.push(next)?;
        }
        self.take(Kind::CloseBrace)?;
        Ok(members)
    }

    #[tactic(auto, unfolding(crate::specs::Forms::members))]
    fn members(&mut self, alloc: Global) -> Result<Vec<RawMember>, ParseStop>
        ensures { Gives (λ v. v.items) result self.new.left.now (reading members self.old.left.now) }
    {
        self.take(Kind::OpenBrace)?;
        self.later_members(alloc)
    }

    fn heading_members(&mut self, alloc: Global) -> Result<(RawHeading, Seq<RawMember>), ParseStop>
        ensures { Gives (λ x. x) result self.new.left.now (reading (both heading_members heading members) self.old.left.now) }
    {
        let heading = self.heading(alloc)?;
        let members = self.members(alloc)?;
        Ok((heading, Seq::from_vec(members)))
    }

    #[tactic(auto, unfolding(crate::specs::Forms::class))]
    fn class(&mut self, alloc: Global) -> Result<RawClass, ParseStop>
        ensures { Gives (λ x. x) result self.new.left.now (reading class self.old.left.now) }
    {
        let mut modifiers = Vec::new(alloc);
        while self.sees_class_modifier() {
            let next = self.take_modifier()?;
            modifiers.push(next)?;
        }
        let (heading, members) = self.heading_members(alloc)?;
        Ok(RawClass {
            modifiers: Seq::from_vec(modifiers),
            heading,
            members,
        })
    }

    /// Reads classes from the front of the tokens, as many as there are.
    #[tactic(auto, unfolding(crate::specs::Forms::file))]
    pub fn file(&mut self, alloc: Global) -> Result<Vec<RawClass>, ParseStop>
        ensures { Gives (λ v. v.items) result self.new.left.now (reading file self.old.left.now) }
    {
        let mut classes = Vec::new(alloc);
        while self.sees_class() {
            let next = self.class(alloc)?;
            classes.push(next)?;
        }
        Ok(classes)
    }
}
