// Statements with their locals by number and their labels by place. Names stand below; the pass over bodies above.
ghost use Rattle.std.specs.Prelude.{map, None};
ghost use Rattle.std.specs.Option.{option_map};
ghost use Rattle.jimple_grammar.specs.Fits.{GivenFits, RhsFits, StmtFits, NewMultiFits};
ghost use Rattle.jimple_grammar.specs.declared.raw.RawRhs.TheVariants as raw_rhs;
ghost use Rattle.jimple_grammar.specs.declared.raw.RawStmt.TheVariants as raw_stmt;
ghost use Rattle.jimple_names.specs.Tree.{local_of, target_of, imm_of, invoke_of, given_of, rhs_of, case_of, stmt_of, catch_of};
ghost use Rattle.jimple_names.specs.Faults.{local_fault, label_fault, end_fault, imm_fault, base_fault, call_fault, rhs_fault, case_fault, value_fault, stmt_fault, catch_fault, first};
ghost use Rattle.jimple_names.specs.Named.{Named};
ghost use Rattle.jimple_names.specs.Resolving.{seen};
ghost use Rattle.jimple_names.specs.Resolving as asked;

use crate::kinds::{call_of, cond_of, is_table, op_of};
use crate::parameter::parameter_of;
use crate::scope::Names;
use crate::stop::{NameFault, NameStop};
use crate::texts::{class_literal, field_sig_of, literal, name, sig_of, text, type_of};
use clean_base::{LocalId, Seq};
use jimple_grammar::lexeme::Lexeme;
use jimple_grammar::raw::{
    RawCall, RawCase, RawCatch, RawFieldSig, RawGiven, RawImm, RawNewMulti, RawRhs, RawStmt,
    RawSwitch, RawType,
};
use jimple_tree::{Case, Catch, Given, Imm, Invoke, Place, Rhs, Stmt};
use std::alloc::Global;

/// The bytes of the text, the names of a body, and how many statements it has.
#[derive(Drop)]
pub struct Resolver<'a> {
    pub bytes: &'a [u8],
    pub names: Names<'a>,
    pub count: u32,
}

// Names and operands

impl<'a> Resolver<'a> {
    pub fn local(&self, alloc: Global, token: Lexeme) -> Result<LocalId, NameStop>
        ensures { Named (λ x. x) result (local_of self.now.bytes.now (seen self.now.names.locals.now self.now.names.labels.now self.now.count) token) (local_fault self.now.bytes.now (seen self.now.names.locals.now self.now.names.labels.now self.now.count) token) }
    {
        match self.names.local(alloc, text(self.bytes, token))? {
            Some(number) => Ok(LocalId(number)),
            None => Err(NameStop::Fault(NameFault::UnknownLocal(token.from))),
        }
    }

    /// The place of the statement behind a label.
    pub fn label(&self, alloc: Global, token: Lexeme) -> Result<u32, NameStop>
        ensures { Named (λ x. x) result (target_of self.now.bytes.now (seen self.now.names.locals.now self.now.names.labels.now self.now.count) token) (label_fault self.now.bytes.now (seen self.now.names.locals.now self.now.names.labels.now self.now.count) token) }
    {
        match self.names.label(alloc, text(self.bytes, token))? {
            Some(place) if place < self.count => Ok(place),
            _ => Err(NameStop::Fault(NameFault::UnknownLabel(token.from))),
        }
    }

    /// The place behind a range that ends at a label.
    pub fn end(&self, alloc: Global, token: Lexeme) -> Result<u32, NameStop>
        ensures { Named (λ x. x) result (target_of self.now.bytes.now (seen self.now.names.locals.now self.now.names.labels.now self.now.count) token) (end_fault self.now.bytes.now (seen self.now.names.locals.now self.now.names.labels.now self.now.count) token) }
    {
        match self.names.label(alloc, text(self.bytes, token))? {
            Some(place) => Ok(place),
            None => Err(NameStop::Fault(NameFault::UnknownLabel(token.from))),
        }
    }

    pub fn imm(&self, alloc: Global, raw: RawImm) -> Result<Imm, NameStop>
        ensures { Named (λ x. x) result (imm_of self.now.bytes.now (seen self.now.names.locals.now self.now.names.labels.now self.now.count) raw) (imm_fault self.now.bytes.now (seen self.now.names.locals.now self.now.names.labels.now self.now.count) raw) }
    {
        match raw {
            RawImm::Local(token) => Ok(Imm::Local(self.local(alloc, token)?)),
            RawImm::Literal(token) => Ok(Imm::Literal(literal(alloc, self.bytes, token)?)),
            RawImm::Class(token) => Ok(Imm::Literal(class_literal(alloc, self.bytes, token)?)),
        }
    }

    pub fn imms(&self, alloc: Global, raw: &[RawImm]) -> Result<Vec<Imm>, NameStop>
        ensures { Named (λ v. v.items) result (map (imm_of self.now.bytes.now (seen self.now.names.locals.now self.now.names.labels.now self.now.count)) raw.now) (first (imm_fault self.now.bytes.now (seen self.now.names.locals.now self.now.names.labels.now self.now.count)) raw.now) }
    {
        let mut imms = Vec::with_capacity(alloc, raw.len())?;
        for operand in raw {
            let imm = self.imm(alloc, *operand)?;
            imms.push(imm)?;
        }
        Ok(imms)
    }

    pub fn base(&self, alloc: Global, raw: Option<Lexeme>) -> Result<Option<LocalId>, NameStop>
        ensures { Named (λ x. x) result (option_map (local_of self.now.bytes.now (seen self.now.names.locals.now self.now.names.labels.now self.now.count)) raw) (base_fault self.now.bytes.now (seen self.now.names.locals.now self.now.names.labels.now self.now.count) raw) }
    {
        match raw {
            Some(token) => Ok(Some(self.local(alloc, token)?)),
            None => Ok(None),
        }
    }

    pub fn call(&self, alloc: Global, raw: &RawCall) -> Result<Invoke, NameStop>
        ensures { Named (λ x. x) result (invoke_of self.now.bytes.now (seen self.now.names.locals.now self.now.names.labels.now self.now.count) raw.now) (call_fault self.now.bytes.now (seen self.now.names.locals.now self.now.names.labels.now self.now.count) raw.now) }
    {
        let base = self.base(alloc, raw.callee.base)?;
        let args = self.imms(alloc, raw.args.as_slice())?;
        let sig = sig_of(alloc, self.bytes, &raw.callee.sig)?;
        Ok(Invoke {
            kind: call_of(raw.callee.word.kind),
            base,
            sig,
            args: Seq::from_vec(args),
        })
    }
}

// Right sides

impl<'a> Resolver<'a> {
    /// What an identity statement gives; no name in it has a fault.
    fn given(&self, alloc: Global, raw: &RawGiven) -> Result<Given, NameStop>
        requires { asked.Given self.now.bytes.now (λ P n. GivenFits P n raw.now) }
        ensures { Named (λ x. x) result (given_of self.now.bytes.now (seen self.now.names.locals.now self.now.names.labels.now self.now.count) raw.now) None }
    {
        match raw {
            RawGiven::This(ty) => Ok(Given::This(type_of(alloc, self.bytes, *ty)?)),
            RawGiven::Param(word, ty) => {
                let number = parameter_of(self.bytes, *word);
                Ok(Given::Param(number, type_of(alloc, self.bytes, *ty)?))
            }
            RawGiven::Caught => Ok(Given::Caught),
        }
    }

    fn cast(&self, alloc: Global, ty: RawType, value: RawImm) -> Result<Rhs, NameStop>
        ensures { Named (λ x. x) result (rhs_of self.now.bytes.now (seen self.now.names.locals.now self.now.names.labels.now self.now.count) (raw_rhs.Cast ty value)) (imm_fault self.now.bytes.now (seen self.now.names.locals.now self.now.names.labels.now self.now.count) value) }
    {
        let value = self.imm(alloc, value)?;
        let ty = type_of(alloc, self.bytes, ty)?;
        Ok(Rhs::Cast(ty, value))
    }

    fn load(&self, alloc: Global, base: Lexeme, field: RawFieldSig) -> Result<Rhs, NameStop>
        ensures { Named (λ x. x) result (rhs_of self.now.bytes.now (seen self.now.names.locals.now self.now.names.labels.now self.now.count) (raw_rhs.Load base field)) (local_fault self.now.bytes.now (seen self.now.names.locals.now self.now.names.labels.now self.now.count) base) }
    {
        let base = self.local(alloc, base)?;
        let sig = field_sig_of(alloc, self.bytes, field)?;
        Ok(Rhs::Load { base, sig })
    }

    fn load_static(&self, alloc: Global, field: RawFieldSig) -> Result<Rhs, NameStop>
        ensures { Named (λ x. x) result (rhs_of self.now.bytes.now (seen self.now.names.locals.now self.now.names.labels.now self.now.count) (raw_rhs.LoadStatic field)) None }
    {
        Ok(Rhs::StaticLoad(field_sig_of(alloc, self.bytes, field)?))
    }

    fn element(&self, alloc: Global, base: Lexeme, index: RawImm) -> Result<Rhs, NameStop>
        ensures { Named (λ x. x) result (rhs_of self.now.bytes.now (seen self.now.names.locals.now self.now.names.labels.now self.now.count) (raw_rhs.LoadElement base index)) (rhs_fault self.now.bytes.now (seen self.now.names.locals.now self.now.names.labels.now self.now.count) (raw_rhs.LoadElement base index)) }
    {
        let base = self.local(alloc, base)?;
        let index = self.imm(alloc, index)?;
        Ok(Rhs::Element { base, index })
    }

    fn new_object(&self, alloc: Global, class: Lexeme) -> Result<Rhs, NameStop>
        ensures { Named (λ x. x) result (rhs_of self.now.bytes.now (seen self.now.names.locals.now self.now.names.labels.now self.now.count) (raw_rhs.New class)) None }
    {
        Ok(Rhs::New(name(alloc, self.bytes, class)?))
    }

    fn new_array(&self, alloc: Global, ty: RawType, len: RawImm) -> Result<Rhs, NameStop>
        ensures { Named (λ x. x) result (rhs_of self.now.bytes.now (seen self.now.names.locals.now self.now.names.labels.now self.now.count) (raw_rhs.NewArray ty len)) (imm_fault self.now.bytes.now (seen self.now.names.locals.now self.now.names.labels.now self.now.count) len) }
    {
        let len = self.imm(alloc, len)?;
        let ty = type_of(alloc, self.bytes, ty)?;
        Ok(Rhs::NewArray { ty, len })
    }

    fn new_multi(&self, alloc: Global, raw: &RawNewMulti) -> Result<Rhs, NameStop>
        requires { asked.Given self.now.bytes.now (λ P n. NewMultiFits P n raw.now) }
        ensures { Named (λ x. x) result (rhs_of self.now.bytes.now (seen self.now.names.locals.now self.now.names.labels.now self.now.count) (raw_rhs.NewMulti raw.now)) (first (imm_fault self.now.bytes.now (seen self.now.names.locals.now self.now.names.labels.now self.now.count)) raw.now.lengths) }
    {
        let lens = self.imms(alloc, raw.lengths.as_slice())?;
        let ty = type_of(alloc, self.bytes, raw.ty)?;
        Ok(Rhs::NewMulti {
            ty,
            lens: Seq::from_vec(lens),
            bare: raw.bare as u32,
        })
    }

    fn instance_of(&self, alloc: Global, value: RawImm, ty: RawType) -> Result<Rhs, NameStop>
        ensures { Named (λ x. x) result (rhs_of self.now.bytes.now (seen self.now.names.locals.now self.now.names.labels.now self.now.count) (raw_rhs.InstanceOf value ty)) (imm_fault self.now.bytes.now (seen self.now.names.locals.now self.now.names.labels.now self.now.count) value) }
    {
        let value = self.imm(alloc, value)?;
        let ty = type_of(alloc, self.bytes, ty)?;
        Ok(Rhs::InstanceOf(value, ty))
    }

    fn binary(
        &self,
        alloc: Global,
        left: RawImm,
        op: Lexeme,
        right: RawImm,
    ) -> Result<Rhs, NameStop>
        ensures { Named (λ x. x) result (rhs_of self.now.bytes.now (seen self.now.names.locals.now self.now.names.labels.now self.now.count) (raw_rhs.Binary left op right)) (rhs_fault self.now.bytes.now (seen self.now.names.locals.now self.now.names.labels.now self.now.count) (raw_rhs.Binary left op right)) }
    {
        let left = self.imm(alloc, left)?;
        let right = self.imm(alloc, right)?;
        let op = op_of(op.kind);
        Ok(Rhs::Binary { op, left, right })
    }

    fn rhs(&self, alloc: Global, raw: &RawRhs) -> Result<Rhs, NameStop>
        requires { asked.Given self.now.bytes.now (λ P n. RhsFits P n raw.now) }
        ensures { Named (λ x. x) result (rhs_of self.now.bytes.now (seen self.now.names.locals.now self.now.names.labels.now self.now.count) raw.now) (rhs_fault self.now.bytes.now (seen self.now.names.locals.now self.now.names.labels.now self.now.count) raw.now) }
    {
        match raw {
            RawRhs::Use(value) => Ok(Rhs::Use(self.imm(alloc, *value)?)),
            RawRhs::Cast(ty, value) => self.cast(alloc, *ty, *value),
            RawRhs::Load(base, field) => self.load(alloc, *base, *field),
            RawRhs::LoadStatic(field) => self.load_static(alloc, *field),
            RawRhs::LoadElement(base, index) => self.element(alloc, *base, *index),
            RawRhs::New(class) => self.new_object(alloc, *class),
            RawRhs::NewArray(ty, len) => self.new_array(alloc, *ty, *len),
            RawRhs::NewMulti(multi) => self.new_multi(alloc, multi),
            RawRhs::InstanceOf(value, ty) => self.instance_of(alloc, *value, *ty),
            RawRhs::Length(value) => Ok(Rhs::Length(self.imm(alloc, *value)?)),
            RawRhs::Neg(value) => Ok(Rhs::Neg(self.imm(alloc, *value)?)),
            RawRhs::Binary(left, op, right) => self.binary(alloc, *left, *op, *right),
            RawRhs::Call(call) => Ok(Rhs::Call(self.call(alloc, call)?)),
        }
    }
}

// Statements

impl<'a> Resolver<'a> {
    fn identity(&self, alloc: Global, local: Lexeme, raw: &RawGiven) -> Result<Stmt, NameStop>
        requires { asked.Given self.now.bytes.now (λ P n. GivenFits P n raw.now) }
        ensures { Named (λ x. x) result (stmt_of self.now.bytes.now (seen self.now.names.locals.now self.now.names.labels.now self.now.count) (raw_stmt.Identity local raw.now)) (local_fault self.now.bytes.now (seen self.now.names.locals.now self.now.names.labels.now self.now.count) local) }
    {
        let local = self.local(alloc, local)?;
        let what = self.given(alloc, raw)?;
        Ok(Stmt::Identity { local, what })
    }

    fn assign(&self, alloc: Global, local: Lexeme, raw: &RawRhs) -> Result<Stmt, NameStop>
        requires { asked.Given self.now.bytes.now (λ P n. RhsFits P n raw.now) }
        ensures { Named (λ x. x) result (stmt_of self.now.bytes.now (seen self.now.names.locals.now self.now.names.labels.now self.now.count) (raw_stmt.Assign local raw.now)) (stmt_fault self.now.bytes.now (seen self.now.names.locals.now self.now.names.labels.now self.now.count) (raw_stmt.Assign local raw.now)) }
    {
        let place = Place::Local(self.local(alloc, local)?);
        let rhs = self.rhs(alloc, raw)?;
        Ok(Stmt::Assign { place, rhs })
    }

    fn store_field(
        &self,
        alloc: Global,
        base: Lexeme,
        field: RawFieldSig,
        value: RawImm,
    ) -> Result<Stmt, NameStop>
        ensures { Named (λ x. x) result (stmt_of self.now.bytes.now (seen self.now.names.locals.now self.now.names.labels.now self.now.count) (raw_stmt.StoreField base field value)) (stmt_fault self.now.bytes.now (seen self.now.names.locals.now self.now.names.labels.now self.now.count) (raw_stmt.StoreField base field value)) }
    {
        let base = self.local(alloc, base)?;
        let rhs = Rhs::Use(self.imm(alloc, value)?);
        let sig = field_sig_of(alloc, self.bytes, field)?;
        let place = Place::Field { base, sig };
        Ok(Stmt::Assign { place, rhs })
    }

    fn store_element(
        &self,
        alloc: Global,
        base: Lexeme,
        index: RawImm,
        value: RawImm,
    ) -> Result<Stmt, NameStop>
        ensures { Named (λ x. x) result (stmt_of self.now.bytes.now (seen self.now.names.locals.now self.now.names.labels.now self.now.count) (raw_stmt.StoreElement base index value)) (stmt_fault self.now.bytes.now (seen self.now.names.locals.now self.now.names.labels.now self.now.count) (raw_stmt.StoreElement base index value)) }
    {
        let base = self.local(alloc, base)?;
        let index = self.imm(alloc, index)?;
        let rhs = Rhs::Use(self.imm(alloc, value)?);
        let place = Place::Element { base, index };
        Ok(Stmt::Assign { place, rhs })
    }

    fn store_static(
        &self,
        alloc: Global,
        field: RawFieldSig,
        value: RawImm,
    ) -> Result<Stmt, NameStop>
        ensures { Named (λ x. x) result (stmt_of self.now.bytes.now (seen self.now.names.locals.now self.now.names.labels.now self.now.count) (raw_stmt.StoreStatic field value)) (imm_fault self.now.bytes.now (seen self.now.names.locals.now self.now.names.labels.now self.now.count) value) }
    {
        let rhs = Rhs::Use(self.imm(alloc, value)?);
        let place = Place::Static(field_sig_of(alloc, self.bytes, field)?);
        Ok(Stmt::Assign { place, rhs })
    }

    fn if_stmt(
        &self,
        alloc: Global,
        left: RawImm,
        cond: Lexeme,
        right: RawImm,
        target: Lexeme,
    ) -> Result<Stmt, NameStop>
        ensures { Named (λ x. x) result (stmt_of self.now.bytes.now (seen self.now.names.locals.now self.now.names.labels.now self.now.count) (raw_stmt.If left cond right target)) (stmt_fault self.now.bytes.now (seen self.now.names.locals.now self.now.names.labels.now self.now.count) (raw_stmt.If left cond right target)) }
    {
        let left = self.imm(alloc, left)?;
        let right = self.imm(alloc, right)?;
        let target = self.label(alloc, target)?;
        let cond = cond_of(cond.kind);
        Ok(Stmt::If {
            left,
            cond,
            right,
            target,
        })
    }

    fn case(&self, alloc: Global, raw: RawCase) -> Result<Case, NameStop>
        ensures { Named (λ x. x) result (case_of self.now.bytes.now (seen self.now.names.locals.now self.now.names.labels.now self.now.count) raw) (case_fault self.now.bytes.now (seen self.now.names.locals.now self.now.names.labels.now self.now.count) raw) }
    {
        let target = self.label(alloc, raw.target)?;
        let value = literal(alloc, self.bytes, raw.value)?;
        Ok(Case { value, target })
    }

    fn cases(&self, alloc: Global, raw: &[RawCase]) -> Result<Vec<Case>, NameStop>
        ensures { Named (λ v. v.items) result (map (case_of self.now.bytes.now (seen self.now.names.locals.now self.now.names.labels.now self.now.count)) raw.now) (first (case_fault self.now.bytes.now (seen self.now.names.locals.now self.now.names.labels.now self.now.count)) raw.now) }
    {
        let mut cases = Vec::with_capacity(alloc, raw.len())?;
        for next in raw {
            let case = self.case(alloc, *next)?;
            cases.push(case)?;
        }
        Ok(cases)
    }

    fn switch(&self, alloc: Global, raw: &RawSwitch) -> Result<Stmt, NameStop>
        ensures { Named (λ x. x) result (stmt_of self.now.bytes.now (seen self.now.names.locals.now self.now.names.labels.now self.now.count) (raw_stmt.Switch raw.now)) (stmt_fault self.now.bytes.now (seen self.now.names.locals.now self.now.names.labels.now self.now.count) (raw_stmt.Switch raw.now)) }
    {
        let key = self.imm(alloc, raw.key)?;
        let cases = self.cases(alloc, raw.cases.as_slice())?;
        let default = self.label(alloc, raw.default)?;
        Ok(Stmt::Switch {
            table: is_table(raw.word.kind),
            key,
            cases: Seq::from_vec(cases),
            default,
        })
    }

    fn return_stmt(&self, alloc: Global, value: Option<RawImm>) -> Result<Stmt, NameStop>
        ensures { Named (λ x. x) result (stmt_of self.now.bytes.now (seen self.now.names.locals.now self.now.names.labels.now self.now.count) (raw_stmt.Return value)) (value_fault self.now.bytes.now (seen self.now.names.locals.now self.now.names.labels.now self.now.count) value) }
    {
        match value {
            Some(value) => Ok(Stmt::Return(Some(self.imm(alloc, value)?))),
            None => Ok(Stmt::Return(None)),
        }
    }

    pub fn stmt(&self, alloc: Global, raw: &RawStmt) -> Result<Stmt, NameStop>
        requires { asked.Given self.now.bytes.now (λ P n. StmtFits P n raw.now) }
        ensures { Named (λ x. x) result (stmt_of self.now.bytes.now (seen self.now.names.locals.now self.now.names.labels.now self.now.count) raw.now) (stmt_fault self.now.bytes.now (seen self.now.names.locals.now self.now.names.labels.now self.now.count) raw.now) }
    {
        match raw {
            RawStmt::Identity(local, given) => self.identity(alloc, *local, given),
            RawStmt::Assign(local, rhs) => self.assign(alloc, *local, rhs),
            RawStmt::StoreField(base, field, value) => {
                self.store_field(alloc, *base, *field, *value)
            }
            RawStmt::StoreElement(base, index, value) => {
                self.store_element(alloc, *base, *index, *value)
            }
            RawStmt::StoreStatic(field, value) => self.store_static(alloc, *field, *value),
            RawStmt::Call(call) => Ok(Stmt::Call(self.call(alloc, call)?)),
            RawStmt::If(left, cond, right, target) => {
                self.if_stmt(alloc, *left, *cond, *right, *target)
            }
            RawStmt::Goto(target) => Ok(Stmt::Goto(self.label(alloc, *target)?)),
            RawStmt::Switch(switch) => self.switch(alloc, switch),
            RawStmt::Return(value) => self.return_stmt(alloc, *value),
            RawStmt::Throw(value) => Ok(Stmt::Throw(self.imm(alloc, *value)?)),
            RawStmt::Nop => Ok(Stmt::Nop),
            RawStmt::Enter(value) => Ok(Stmt::Enter(self.imm(alloc, *value)?)),
            RawStmt::Exit(value) => Ok(Stmt::Exit(self.imm(alloc, *value)?)),
        }
    }

    fn catch(&self, alloc: Global, raw: RawCatch) -> Result<Catch, NameStop>
        ensures { Named (λ x. x) result (catch_of self.now.bytes.now (seen self.now.names.locals.now self.now.names.labels.now self.now.count) raw) (catch_fault self.now.bytes.now (seen self.now.names.locals.now self.now.names.labels.now self.now.count) raw) }
    {
        let from = self.label(alloc, raw.from)?;
        let to = self.end(alloc, raw.to)?;
        let with = self.label(alloc, raw.with)?;
        let class = name(alloc, self.bytes, raw.class)?;
        Ok(Catch {
            class,
            from,
            to,
            with,
        })
    }

    pub fn catches(&self, alloc: Global, raw: &[RawCatch]) -> Result<Vec<Catch>, NameStop>
        ensures { Named (λ v. v.items) result (map (catch_of self.now.bytes.now (seen self.now.names.locals.now self.now.names.labels.now self.now.count)) raw.now) (first (catch_fault self.now.bytes.now (seen self.now.names.locals.now self.now.names.labels.now self.now.count)) raw.now) }
    {
        let mut catches = Vec::with_capacity(alloc, raw.len())?;
        for next in raw {
            let catch = self.catch(alloc, *next)?;
            catches.push(catch)?;
        }
        Ok(catches)
    }
}
