// A whole program, and how it is read. What a statement's view says stands below.
ghost use Rattle.std.specs.Prelude.{◌≡◌, ◌↔◌, ◌<◌, ◌≤◌, ◌+◌, ◌-◌, [], length, slice_index_or, Contains, IsTrue, IfSome, IfNone};
ghost use Rattle.clean_base.specs.Lists.{At};
ghost use Rattle.clean_base.specs.declared.ids.MethodId.{MethodId};
ghost use Rattle.clean_base.specs.declared.ids.StmtId.{StmtId};
ghost use Rattle.class_table.specs.Methods.{all_methods, IsNumber};
ghost use Rattle.flow_rules.specs.Code.{IsWhole, Stands, StandsIn, Follows, IsTarget, Leads, IsReturn, IsCatch, MayThrow, method_of};
ghost use Rattle.flow_rules.specs.Own.{IsStmt, IsField, IsLocalOf, IsNamed};
ghost use Rattle.program_code.specs.App.{IsMethod, locals_of};
ghost use Rattle.jimple_tree.specs.declared.tree.Class.{Class};
ghost use Rattle.jimple_tree.specs.declared.tree.Local.{Local};
ghost use Rattle.jimple_tree.specs.declared.tree.Method.{Method};
ghost use Rattle.program_code.specs.Parts.{ArePartsOf, app_of};

use crate::parts::Parts;
use crate::stmts::{locals_of, raises, takes};
use access_path::View;
use class_table::ClassTable;
use clean_base::{FieldId, LocalId, MethodId, Name, StmtId};
use flat_rows::FlatRows;
use jimple_tree::FieldSig;
use std::marker::Model;

/// A whole program. None of its readers takes memory.
#[derive(Drop)]
pub struct Program {
    parts: Parts,
}

impl Model for Program {
    ghost use Rattle.program_code.specs.App.{App};
    ghost use Rattle.program_code.specs.Parts.{ArePartsOf, app_of};

    ghost Value = { App };

    ghost view = { λ p. app_of p.parts };

    ghost invariant = { λ p. ArePartsOf p.parts };
}

// The row with this number.
fn row<T: Copy>(rows: &FlatRows<T>, at: u32) -> &[T]
    requires { at < length rows.now }
    ensures { result.now ≡ slice_index_or rows.now at [] }
{
    rows.row(at as usize)
}

impl Program {
    /// The program of these parts.
    pub fn new(parts: Parts) -> Program
        requires { ArePartsOf parts }
        ensures { result ≡ app_of parts }
    {
        Program { parts }
    }

    /// The method where the program is entered.
    pub fn root(&self) -> MethodId
        ensures is { result ≡ self.now.code.root }
        ensures whole { IsWhole self.now.code }
        ensures named { IsNamed self.now.code }
    {
        self.parts.root
    }

    /// How many methods have a body.
    pub fn methods(&self) -> u32
        ensures { result ≡ length self.now.code.firsts }
    {
        self.parts.firsts.as_slice().len() as u32
    }

    /// How many statements all bodies have.
    pub fn stmts(&self) -> u32
        ensures views { result ≡ length self.now.code.views }
        ensures owners { result ≡ length self.now.code.owners }
    {
        self.parts.views.as_slice().len() as u32
    }

    /// How many fields there are, with the two that no class declares.
    pub fn fields(&self) -> u32
        ensures { result ≡ self.now.code.fields }
    {
        self.parts.fields.count()
    }

    /// How many locals the method has.
    pub fn locals(&self, m: MethodId) -> u32
        requires { IsMethod self.now.code m }
        ensures { At self.now.code.locals m.0 result }
    {
        self.parts.locals.as_slice()[m.0 as usize]
    }

    /// The method in which the statement stands.
    pub fn method_of(&self, s: StmtId) -> MethodId
        requires { IsStmt self.now.code s }
        ensures is { result ≡ method_of self.now.code s }
        ensures here { StandsIn self.now.code s result }
        ensures method { IsMethod self.now.code result }
    {
        self.parts.owners.as_slice()[s.0 as usize]
    }

    /// The method's first statement.
    pub fn first(&self, m: MethodId) -> StmtId
        requires { IsMethod self.now.code m }
        ensures is { At self.now.code.firsts m.0 result }
        ensures before { (s : StmtId) → StandsIn self.now.code s m → result.0 ≤ s.0 }
    {
        self.parts.firsts.as_slice()[m.0 as usize]
    }

    /// The statement's place in its body, counted from 0.
    pub fn place_of(&self, s: StmtId) -> u32
        requires { IsStmt self.now.code s }
        ensures { (first : StmtId) → At self.now.code.firsts (method_of self.now.code s).0 first → first.0 + result ≡ s.0 }
    {
        s.0 - self.first(self.method_of(s)).0
    }

    /// The method's return statements.
    pub fn returns(&self, m: MethodId) -> &[StmtId]
        requires { IsMethod self.now.code m }
        ensures { (s : StmtId) → Contains result.now s ↔ (StandsIn self.now.code s m × IsReturn self.now.code s) }
    {
        row(&self.parts.returns, m.0)
    }

    /// The method's statements that an exception may leave.
    pub fn throws(&self, m: MethodId) -> &[StmtId]
        requires { IsMethod self.now.code m }
        ensures { (s : StmtId) → Contains result.now s ↔ (StandsIn self.now.code s m × MayThrow self.now.code s) }
    {
        row(&self.parts.throws, m.0)
    }

    /// The statements that may run next.
    pub fn succs(&self, s: StmtId) -> &[StmtId]
        requires { IsStmt self.now.code s }
        ensures are { (q : StmtId) → Contains result.now q ↔ Follows self.now.code s q }
        ensures stmts { (q : StmtId) → Contains result.now q → IsStmt self.now.code q }
    {
        row(&self.parts.nexts, s.0)
    }

    /// The statements after which this one may run next.
    pub fn preds(&self, s: StmtId) -> &[StmtId]
        requires { IsStmt self.now.code s }
        ensures are { (p : StmtId) → Contains result.now p ↔ Follows self.now.code p s }
        ensures stmts { (p : StmtId) → Contains result.now p → IsStmt self.now.code p }
    {
        row(&self.parts.preds, s.0)
    }

    /// The statement as the flow rules see it.
    pub fn view(&self, s: StmtId) -> &View
        requires { IsStmt self.now.code s }
        ensures { Stands self.now.code s result.now }
    {
        &self.parts.views.as_slice()[s.0 as usize]
    }

    /// The methods that the statement calls: none but at an open call.
    pub fn targets_of(&self, s: StmtId) -> &[MethodId]
        requires { IsStmt self.now.code s }
        ensures are { (m : MethodId) → Contains result.now m ↔ IsTarget self.now.code s m }
        ensures methods { (m : MethodId) → Contains result.now m → IsMethod self.now.code m }
    {
        row(&self.parts.targets, s.0)
    }

    /// Whether open calls lead from the one method to the other, by zero or more of them.
    pub fn closure_has(&self, m: MethodId, n: MethodId) -> bool
        requires from { IsMethod self.now.code m }
        requires to { IsMethod self.now.code n }
        ensures { IsTrue result ↔ Leads self.now.code m n }
    {
        self.parts.closure.has(m.0, n.0)
    }

    /// Whether the statement takes the exception that is on its way.
    pub fn is_catch(&self, s: StmtId) -> bool
        requires { IsStmt self.now.code s }
        ensures { IsTrue result ↔ IsCatch self.now.code s }
    {
        takes(self.view(s))
    }

    /// Whether an exception may leave the statement.
    pub fn may_throw(&self, s: StmtId) -> bool
        requires { IsStmt self.now.code s }
        ensures { IsTrue result ↔ MayThrow self.now.code s }
    {
        raises(self.view(s))
    }

    /// The classes. Their methods with a body have the same numbers.
    pub fn table(&self) -> &ClassTable
        ensures is { result.now ≡ self.now.classes }
        ensures methods { length (all_methods self.now.classes) ≡ length self.now.code.firsts }
    {
        &self.parts.table
    }

    /// The name of a local of the method.
    pub fn local_name(&self, m: MethodId, x: LocalId) -> &Name
        requires method { IsMethod self.now.code m }
        requires local { IsLocalOf self.now.code m x }
        ensures { (c : Class) × (method : Method) × (local : Local) × IsNumber self.now.classes m c method × At (locals_of method) x.0 local × (result.now ≡ local.name) }
    {
        let method = self.parts.table.method(m);
        &locals_of(method)[x.0 as usize].name
    }

    /// The field with this number: none for the two that no class declares.
    pub fn field_sig(&self, f: FieldId) -> Option<&FieldSig>
        requires { IsField self.now.code f }
        ensures some { IfSome result (λ sig. (2 ≤ f.0) × At self.now.fields (f.0 - 2) sig.now) }
        ensures none { IfNone result (f.0 < 2) }
    {
        self.parts.fields.sig(f)
    }
}
