// The views of all statements of a program, and the methods that each calls. The view of one statement stands below; programs
// above.
ghost use Rattle.std.specs.Prelude.{◌≡◌, ◌+◌, ◌++◌, ◌∷◌, [], List, Contains, IfOk, IfSome, IfNone, None, OnOk, Some, length};
ghost use Rattle.clean_base.specs.Lists.{At};
ghost use Rattle.clean_base.specs.declared.ids.MethodId.{MethodId};
ghost use Rattle.access_path.specs.declared.view.View.{View};
ghost use Rattle.jimple_tree.specs.Bodies.{all_stmts};
ghost use Rattle.class_table.specs.Methods.{stmts_in};
ghost use Rattle.field_table.specs.Numbers.{AreFields};
ghost use Rattle.statement_views.specs.Seen.{AreSeen, AreTargets, ComeNext, Refers, Sees, ref_of};

use crate::views::view_of;
use access_path::View;
use call_graph::{KnownCalls, call_of};
use class_table::ClassTable;
use clean_base::{FieldId, MethodId, Seq, StmtId};
use field_table::FieldTable;
use flat_rows::FlatRows;
use jimple_tree::{FieldSig, Method, Place, Rhs, Stmt, stmts_of};
use source_sink::Lists;
use std::alloc::{AllocError, Global};

/// For each statement its view, and the methods that its call may come to where it is open.
#[derive(Drop)]
pub struct Seen {
    pub views: Seq<View>,
    pub targets: FlatRows<MethodId>,
}

// The field to which a statement refers.
fn reference(stmt: &Stmt) -> Option<&FieldSig>
    ensures some { IfSome result (λ sig. ref_of stmt.now ≡ Some sig.now) }
    ensures none { IfNone result (ref_of stmt.now ≡ None) }
{
    match stmt {
        Stmt::Assign {
            place: Place::Field { sig, .. },
            ..
        } => Some(sig),
        Stmt::Assign {
            place: Place::Static(sig),
            ..
        } => Some(sig),
        Stmt::Assign {
            rhs: Rhs::Load { sig, .. },
            ..
        } => Some(sig),
        Stmt::Assign {
            rhs: Rhs::StaticLoad(sig),
            ..
        } => Some(sig),
        _ => None,
    }
}

// Its number, or any where it refers to none.
fn field_of(table: &ClassTable, fields: &FieldTable, stmt: &Stmt) -> FieldId
    requires fields { AreFields table.now fields.now }
    requires stands { Contains (stmts_in table.now) stmt.now }
    ensures { Refers table.now stmt.now result }
{
    let Some(sig) = reference(stmt) else {
        return FieldId(0);
    };
    match fields.number(table, sig) {
        Some(field) => field,
        None => unreachable!(),
    }
}

// Adds the methods that a statement calls.
fn add_targets(
    alloc: Global,
    known: &mut KnownCalls<'_>,
    targets: &mut FlatRows<MethodId>,
    stmt: &Stmt,
) -> Result<(), AllocError>
    ensures classes { known.new.classes ≡ known.old.classes }
    ensures lines { known.new.lines ≡ known.old.lines }
    ensures added { OnOk result ((row : List MethodId) × AreTargets known.old.classes known.old.lines stmt.now row × (targets.new ≡ targets.old ++ row ∷ [])) }
{
    match call_of(stmt) {
        Some(call) => {
            let number = known.know(alloc, call.kind, &call.sig)?;
            let sig = known.at(call.kind, number);
            targets.push_row(sig.targets.as_slice())
        }
        None => targets.push_row(&[]),
    }
}

// Adds the view of the next statement.
fn add_view(
    alloc: Global,
    table: &ClassTable,
    fields: &FieldTable,
    known: &mut KnownCalls<'_>,
    views: &mut Vec<View>,
    stmt: &Stmt,
) -> Result<(), AllocError>
    requires fields { AreFields table.now fields.now }
    requires table { known.old.classes ≡ table.now }
    requires next { At (stmts_in table.now) (length views.old.items) stmt.now }
    ensures classes { known.new.classes ≡ known.old.classes }
    ensures lines { known.new.lines ≡ known.old.lines }
    ensures added { OnOk result ((view : View) × Sees table.now known.old.lines (length views.old.items) stmt.now view × (views.new.items ≡ views.old.items ++ view ∷ [])) }
{
    // The classes have few enough statements for numbers of 32 bits.
    let _given = table.given();
    let at = StmtId(views.len() as u32);
    let field = field_of(table, fields, stmt);
    views.push(view_of(alloc, known, field, at, stmt)?)?;
    Ok(())
}

// Adds the next statement.
fn add_stmt(
    alloc: Global,
    table: &ClassTable,
    fields: &FieldTable,
    known: &mut KnownCalls<'_>,
    views: &mut Vec<View>,
    targets: &mut FlatRows<MethodId>,
    stmt: &Stmt,
) -> Result<(), AllocError>
    requires fields { AreFields table.now fields.now }
    requires table { known.old.classes ≡ table.now }
    requires next { At (stmts_in table.now) (length views.old.items) stmt.now }
    requires seen { AreSeen table.now known.old.lines views.old.items targets.old }
    ensures classes { known.new.classes ≡ known.old.classes }
    ensures lines { known.new.lines ≡ known.old.lines }
    ensures more { OnOk result (length views.new.items ≡ length views.old.items + 1) }
    ensures seen { OnOk result (AreSeen table.now known.old.lines views.new.items targets.new) }
{
    add_view(alloc, table, fields, known, views, stmt)?;
    add_targets(alloc, known, targets, stmt)
}

// Adds the next statements.
fn add_stmts(
    alloc: Global,
    table: &ClassTable,
    fields: &FieldTable,
    known: &mut KnownCalls<'_>,
    views: &mut Vec<View>,
    targets: &mut FlatRows<MethodId>,
    stmts: &[Stmt],
) -> Result<(), AllocError>
    requires fields { AreFields table.now fields.now }
    requires table { known.old.classes ≡ table.now }
    requires next { ComeNext table.now (length views.old.items) stmts.now }
    requires seen { AreSeen table.now known.old.lines views.old.items targets.old }
    ensures classes { known.new.classes ≡ known.old.classes }
    ensures lines { known.new.lines ≡ known.old.lines }
    ensures more { OnOk result (length views.new.items ≡ length views.old.items + length stmts.now) }
    ensures seen { OnOk result (AreSeen table.now known.old.lines views.new.items targets.new) }
{
    for stmt in stmts {
        add_stmt(alloc, table, fields, known, views, targets, stmt)?;
    }
    Ok(())
}

// Adds the statements of these methods, which come next.
fn add_methods(
    alloc: Global,
    table: &ClassTable,
    fields: &FieldTable,
    known: &mut KnownCalls<'_>,
    views: &mut Vec<View>,
    targets: &mut FlatRows<MethodId>,
    methods: &[Method],
) -> Result<(), AllocError>
    requires fields { AreFields table.now fields.now }
    requires table { known.old.classes ≡ table.now }
    requires next { ComeNext table.now (length views.old.items) (all_stmts methods.now) }
    requires seen { AreSeen table.now known.old.lines views.old.items targets.old }
    ensures classes { known.new.classes ≡ known.old.classes }
    ensures lines { known.new.lines ≡ known.old.lines }
    ensures more { OnOk result (length views.new.items ≡ length views.old.items + length (all_stmts methods.now)) }
    ensures seen { OnOk result (AreSeen table.now known.old.lines views.new.items targets.new) }
{
    for method in methods {
        add_stmts(
            alloc,
            table,
            fields,
            known,
            views,
            targets,
            stmts_of(method),
        )?;
    }
    Ok(())
}

/// How the flow rules see all statements of the classes, in the order of their numbers. The fields are those of the classes.
pub fn seen_in(
    alloc: Global,
    table: &ClassTable,
    lists: &Lists,
    fields: &FieldTable,
) -> Result<Seen, AllocError>
    requires { AreFields table.now fields.now }
    ensures all { IfOk result (λ seen. length seen.views ≡ length (stmts_in table.now)) }
    ensures seen { IfOk result (λ seen. AreSeen table.now lists.now seen.views seen.targets) }
{
    let mut known = KnownCalls::new(alloc, table, lists);
    let mut views = Vec::new(alloc);
    let mut targets = FlatRows::new(alloc);
    for class in table.given() {
        let methods = class.methods.as_slice();
        add_methods(
            alloc,
            table,
            fields,
            &mut known,
            &mut views,
            &mut targets,
            methods,
        )?;
    }
    Ok(Seen {
        views: Seq::from_vec(views),
        targets,
    })
}
