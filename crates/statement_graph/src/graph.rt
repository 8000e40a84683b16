// The graph of all statements of a table of classes. Statements are listed below; what goes along statements stands above.
ghost use Rattle.std.specs.Prelude.{◌≡◌, ◌↔◌, ◌<◌, ◌≤◌, ◌+◌, [], ℕ, List, All, Contains, IfOk, OnOk, length, map};
ghost use Rattle.std.specs.List.Sorted.{IsStrictlyIncreasing};
ghost use Rattle.clean_base.specs.declared.ids.MethodId.{MethodId};
ghost use Rattle.clean_base.specs.declared.ids.StmtId.{StmtId};
ghost use Rattle.jimple_tree.specs.declared.tree.Body.{Body};
ghost use Rattle.jimple_tree.specs.declared.tree.Class.{Class};
ghost use Rattle.jimple_tree.specs.declared.tree.Method.{Method};
ghost use Rattle.jimple_tree.specs.declared.tree.Stmt.{Stmt};
ghost use Rattle.class_table.specs.Methods.{all_methods, stmts_in};
ghost use Rattle.flat_rows.specs.Rows.{AddsToLast};
ghost use Rattle.statement_graph.specs.Kept.{stmt_id};
ghost use Rattle.statement_graph.specs.Statements.{first_of, AreStatements, IsAt, IsOf, IsStmt, Leads, Together};

use crate::listed::{Listed, list_all};
use class_table::ClassTable;
use clean_base::{MethodId, Seq, StmtId};
use flat_rows::{FlatRows, converse};
use std::alloc::{AllocError, Global};
use std::marker::Model;

/// The statements of all bodies of a table's classes by number, method by method, and where each of them leads.
#[derive(Drop)]
pub struct StatementGraph<'a> {
    table: &'a ClassTable,
    firsts: Vec<StmtId>,
    owners: Vec<MethodId>,
    succs: FlatRows<StmtId>,
    preds: FlatRows<StmtId>,
}

/// For each method its first statement; for each statement its method, its successors, and the statements of which it is one.
#[derive(Drop)]
pub struct StatementLists {
    pub firsts: Seq<StmtId>,
    pub owners: Seq<MethodId>,
    pub succs: FlatRows<StmtId>,
    pub preds: FlatRows<StmtId>,
}

impl<'a> Model for StatementGraph<'a> {
    ghost use Rattle.std.specs.Prelude.{List};
    ghost use Rattle.jimple_tree.specs.declared.tree.Class.{Class};
    ghost use Rattle.statement_graph.specs.Kept.{IsKept};

    ghost Value = { List Class };

    ghost view = { λ g. g.table.now };

    ghost invariant = { λ g. IsKept g.table.now g.firsts.items g.owners.items g.succs g.preds };
}

// Adds to the last row the statements with these numbers.
fn add_ids(rows: &mut FlatRows<StmtId>, numbers: &[u32]) -> Result<(), AllocError>
    requires { 0 < length rows.old }
    ensures { OnOk result (AddsToLast rows.old (map stmt_id numbers.now) rows.new) }
{
    for number in numbers {
        rows.add(StmtId(*number))?;
    }
    Ok(())
}

// Rows of statements by rows of their numbers.
fn numbered(alloc: Global, rows: &FlatRows<u32>) -> Result<FlatRows<StmtId>, AllocError>
    ensures { IfOk result (λ ids. ids ≡ map (map stmt_id) rows.now) }
{
    let mut ids = FlatRows::new(alloc);
    for at in 0..rows.len() {
        ids.open_row()?;
        add_ids(&mut ids, rows.row(at))?;
    }
    Ok(ids)
}

impl<'a> StatementGraph<'a> {
    /// The graph of a table's classes.
    pub fn new(alloc: Global, table: &'a ClassTable) -> Result<StatementGraph<'a>, AllocError>
        ensures { IfOk result (λ g. g ≡ table.now) }
    {
        // What is known of the classes: they are well formed, and have few statements.
        let _classes = table.given();
        let Listed {
            firsts,
            owners,
            rows,
        } = list_all(alloc, table)?;
        let back = converse(alloc, &rows)?;
        let succs = numbered(alloc, &rows)?;
        let preds = numbered(alloc, &back)?;
        Ok(StatementGraph {
            table,
            firsts,
            owners,
            succs,
            preds,
        })
    }

    /// The table whose statements these are.
    pub fn table(&self) -> &'a ClassTable
        ensures { result.now ≡ self.now }
    {
        self.table
    }

    /// How many statements there are.
    pub fn stmts(&self) -> u32
        ensures { result ≡ length (stmts_in self.now) }
    {
        self.owners.len() as u32
    }

    /// How many methods have a body.
    pub fn methods(&self) -> u32
        ensures { result ≡ length (all_methods self.now) }
    {
        self.firsts.len() as u32
    }

    /// The first statement of a method.
    pub fn first(&self, m: MethodId) -> StmtId
        requires { m.0 < length (all_methods self.now) }
        ensures number { result.0 ≡ first_of self.now m.0 }
        ensures stands { (c : Class) × (k : Method) × (b : Body) × (stmt : Stmt) × IsStmt self.now result m c k b 0 stmt }
    {
        self.firsts[m.0 as usize]
    }

    /// The number behind those of a method's statements.
    pub fn end(&self, m: MethodId) -> u32
        requires { m.0 < length (all_methods self.now) }
        ensures number { result ≡ first_of self.now (m.0 + 1) }
        ensures within { result ≤ length (stmts_in self.now) }
        ensures own { (s : StmtId) → IsOf self.now s m ↔ ((first_of self.now m.0 ≤ s.0) × (s.0 < result)) }
    {
        match self.firsts.get(m.0 as usize + 1) {
            Some(next) => next.0,
            None => self.owners.len() as u32,
        }
    }

    /// The method in which a statement stands.
    pub fn owner(&self, s: StmtId) -> MethodId
        requires { s.0 < length (stmts_in self.now) }
        ensures { (m : MethodId) → (result ≡ m) ↔ IsOf self.now s m }
    {
        self.owners[s.0 as usize]
    }

    /// The place of a statement in its body, counted from 0.
    pub fn place(&self, s: StmtId) -> u32
        requires { s.0 < length (stmts_in self.now) }
        ensures { (p : ℕ) → (result ≡ p) ↔ IsAt self.now s p }
    {
        let first = self.first(self.owner(s));
        s.0 - first.0
    }

    /// The successors of a statement, in order and each once.
    pub fn succs(&self, s: StmtId) -> &[StmtId]
        requires { s.0 < length (stmts_in self.now) }
        ensures ascending { IsStrictlyIncreasing (map (λ (q : StmtId). q.0) result.now) }
        ensures exact { (q : StmtId) → Contains result.now q ↔ Leads self.now s q }
        ensures within { All (λ (q : StmtId). q.0 < length (stmts_in self.now)) result.now }
        ensures together { All (Together self.now s) result.now }
    {
        self.succs.row(s.0 as usize)
    }

    /// The statements of which a statement is a successor, in order and each once.
    pub fn preds(&self, s: StmtId) -> &[StmtId]
        requires { s.0 < length (stmts_in self.now) }
        ensures ascending { IsStrictlyIncreasing (map (λ (q : StmtId). q.0) result.now) }
        ensures exact { (q : StmtId) → Contains result.now q ↔ Leads self.now q s }
        ensures within { All (λ (q : StmtId). q.0 < length (stmts_in self.now)) result.now }
        ensures together { All (Together self.now s) result.now }
    {
        self.preds.row(s.0 as usize)
    }

    /// The graph's lists, apart from its table.
    pub fn into_lists(self) -> StatementLists
        ensures { AreStatements self.entry result.firsts result.owners result.succs result.preds }
    {
        StatementLists {
            firsts: Seq::from_vec(self.firsts),
            owners: Seq::from_vec(self.owners),
            succs: self.succs,
            preds: self.preds,
        }
    }
}
