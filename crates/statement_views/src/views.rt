// The view of a statement (docs/FLOW-RULES.md, "Statements"). What is known of calls stands below; programs above.
ghost use Rattle.std.specs.Prelude.{◌≡◌, IfOk, map};
ghost use Rattle.statement_views.specs.Views.{copied, given_by, local_of, source_of, stored, IsAssignment, IsRead, IsView, IsViewOfCall};

use access_path::{Base, CallView, View};
use call_graph::KnownCalls;
use clean_base::{FieldId, LocalId, Seq, StmtId};
use jimple_tree::{Given, Imm, Invoke, Place, Rhs, Stmt};
use std::alloc::{AllocError, Global};

// The elements of arrays, as a field.
const ELEMENTS: FieldId = FieldId(0);

fn local_of(imm: &Imm) -> Option<LocalId>
    ensures { result ≡ local_of imm.now }
{
    match imm {
        Imm::Local(x) => Some(*x),
        Imm::Literal(_) => None,
    }
}

fn locals_of(alloc: Global, args: &[Imm]) -> Result<Vec<Option<LocalId>>, AllocError>
    ensures { IfOk result (λ v. v.items ≡ map local_of args.now) }
{
    let mut locals = Vec::new(alloc);
    for arg in args {
        locals.push(local_of(arg))?;
    }
    Ok(locals)
}

// The local that a return gives.
fn given_by(value: &Option<Imm>) -> Option<LocalId>
    ensures { result ≡ given_by value.now }
{
    match value {
        Some(imm) => local_of(imm),
        None => None,
    }
}

// The local that a store puts into a field.
fn stored(rhs: &Rhs) -> Option<LocalId>
    ensures { result ≡ stored rhs.now }
{
    match rhs {
        Rhs::Use(value) => local_of(value),
        _ => None,
    }
}

// What an identity statement copies.
fn source_of(what: &Given) -> Base
    ensures { result ≡ source_of what.now }
{
    match what {
        Given::This(_) => Base::This,
        Given::Param(number, _) => Base::Param(*number),
        Given::Caught => Base::Thrown,
    }
}

// What an assignment of an operand does to a local.
fn copied(to: LocalId, value: &Imm) -> View
    ensures { result ≡ copied to value.now }
{
    match value {
        Imm::Local(from) => View::Copy {
            to,
            from: Base::Local(*from),
        },
        Imm::Literal(_) => View::Kill { to },
    }
}

fn call_view(
    alloc: Global,
    known: &mut KnownCalls<'_>,
    at: StmtId,
    to: Option<LocalId>,
    invoke: &Invoke,
) -> Result<View, AllocError>
    ensures classes { known.new.classes ≡ known.old.classes }
    ensures lines { known.new.lines ≡ known.old.lines }
    ensures view { IfOk result (IsViewOfCall known.old.classes known.old.lines at to invoke.now) }
{
    let args = locals_of(alloc, invoke.args.as_slice())?;
    let number = known.know(alloc, invoke.kind, &invoke.sig)?;
    let sig = known.at(invoke.kind, number);
    Ok(View::Call(CallView {
        stmt: at,
        result: to,
        receiver: invoke.base,
        args: Seq::from_vec(args),
        source: sig.said.source,
        sink: sig.said.sink,
        is_open: !sig.targets.as_slice().is_empty(),
    }))
}

// The view of an assignment to a local.
fn read_view(
    alloc: Global,
    known: &mut KnownCalls<'_>,
    field: FieldId,
    at: StmtId,
    to: LocalId,
    rhs: &Rhs,
) -> Result<View, AllocError>
    ensures classes { known.new.classes ≡ known.old.classes }
    ensures lines { known.new.lines ≡ known.old.lines }
    ensures view { IfOk result (IsRead known.old.classes known.old.lines field at to rhs.now) }
{
    match rhs {
        Rhs::Use(value) => Ok(copied(to, value)),
        Rhs::Cast(_, value) => Ok(copied(to, value)),
        Rhs::Load { base, .. } => Ok(View::Load {
            to,
            base: *base,
            field,
        }),
        Rhs::StaticLoad(_) => Ok(View::Copy {
            to,
            from: Base::Static(field),
        }),
        Rhs::Element { base, .. } => Ok(View::Load {
            to,
            base: *base,
            field: ELEMENTS,
        }),
        Rhs::Neg(value) => Ok(View::Mix {
            to,
            left: local_of(value),
            right: None,
        }),
        Rhs::Binary { left, right, .. } => Ok(View::Mix {
            to,
            left: local_of(left),
            right: local_of(right),
        }),
        Rhs::Call(invoke) => call_view(alloc, known, at, Some(to), invoke),
        _ => Ok(View::Kill { to }),
    }
}

// The view of an assignment.
fn assignment_view(
    alloc: Global,
    known: &mut KnownCalls<'_>,
    field: FieldId,
    at: StmtId,
    place: &Place,
    rhs: &Rhs,
) -> Result<View, AllocError>
    ensures classes { known.new.classes ≡ known.old.classes }
    ensures lines { known.new.lines ≡ known.old.lines }
    ensures view { IfOk result (IsAssignment known.old.classes known.old.lines field at place.now rhs.now) }
{
    match place {
        Place::Local(to) => read_view(alloc, known, field, at, *to, rhs),
        Place::Field { base, .. } => Ok(View::Store {
            base: *base,
            field,
            from: stored(rhs),
        }),
        Place::Static(_) => Ok(View::StaticStore {
            field,
            from: stored(rhs),
        }),
        Place::Element { base, .. } => Ok(View::Store {
            base: *base,
            field: ELEMENTS,
            from: stored(rhs),
        }),
    }
}

/// How the flow rules see the statement with this number. `field` is the number of the field to which it refers, if it
/// refers to one.
pub fn view_of(
    alloc: Global,
    known: &mut KnownCalls<'_>,
    field: FieldId,
    at: StmtId,
    stmt: &Stmt,
) -> Result<View, AllocError>
    ensures classes { known.new.classes ≡ known.old.classes }
    ensures lines { known.new.lines ≡ known.old.lines }
    ensures view { IfOk result (IsView known.old.classes known.old.lines field at stmt.now) }
{
    match stmt {
        Stmt::Identity { local, what } => Ok(View::Copy {
            to: *local,
            from: source_of(what),
        }),
        Stmt::Assign { place, rhs } => assignment_view(alloc, known, field, at, place, rhs),
        Stmt::Call(invoke) => call_view(alloc, known, at, None, invoke),
        Stmt::Return(value) => Ok(View::Return {
            value: given_by(value),
        }),
        Stmt::Throw(value) => Ok(View::Throw {
            value: local_of(value),
        }),
        _ => Ok(View::Other),
    }
}
