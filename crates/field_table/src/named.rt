// The fields that references name because no class declares them (docs/FLOW-RULES.md, "Fields"). What references mean stands
// below; the table of fields above.
ghost use Rattle.std.specs.Prelude.{◌≡◌, ◌∷◌, [], IfOk, OnOk};
ghost use Rattle.indexmap.specs.IndexSet.{insert_all};
ghost use Rattle.field_table.specs.Fields.{declared_sigs, place_refs, rhs_refs, stmt_refs, refs_in, same_sig};
ghost use Rattle.field_table.specs.Numbers.{named_sigs, undeclared};
ghost use Rattle.field_table.specs.Sigs.{sigs_of};
ghost use Rattle.jimple_tree.specs.Bodies.{all_stmts};

use crate::chain::find_declared;
use crate::sigs::Sigs;
use class_table::ClassTable;
use jimple_tree::{FieldSig, Method, Place, Rhs, Stmt, stmts_of};
use std::alloc::{AllocError, Global};

// Adds the signature of a reference where no class declares what it means.
fn add_reference(
    alloc: Global,
    table: &ClassTable,
    declared: &Sigs,
    named: &mut Sigs,
    sig: &FieldSig,
) -> Result<(), AllocError>
    requires { declared.now ≡ declared_sigs table.now }
    ensures { OnOk result (named.new ≡ insert_all same_sig named.old (undeclared table.now (sig.now ∷ []))) }
{
    if find_declared(table, declared, sig).is_some() {
        return Ok(());
    }
    named.add(alloc, &sig.class, &sig.ty, &sig.name)
}

// The reference in a place that is written.
fn place_reference(place: &Place) -> Option<&FieldSig>
    ensures { sigs_of result ≡ place_refs place.now }
{
    match place {
        Place::Field { sig, .. } | Place::Static(sig) => Some(sig),
        _ => None,
    }
}

// The reference in what is read.
fn rhs_reference(rhs: &Rhs) -> Option<&FieldSig>
    ensures { sigs_of result ≡ rhs_refs rhs.now }
{
    match rhs {
        Rhs::Load { sig, .. } | Rhs::StaticLoad(sig) => Some(sig),
        _ => None,
    }
}

// The same of the reference, if there is one.
fn add_optional(
    alloc: Global,
    table: &ClassTable,
    declared: &Sigs,
    named: &mut Sigs,
    sig: Option<&FieldSig>,
) -> Result<(), AllocError>
    requires { declared.now ≡ declared_sigs table.now }
    ensures { OnOk result (named.new ≡ insert_all same_sig named.old (undeclared table.now (sigs_of sig.entry))) }
{
    match sig {
        Some(sig) => add_reference(alloc, table, declared, named, sig),
        None => Ok(()),
    }
}

// The same of the references in a statement.
fn add_stmt(
    alloc: Global,
    table: &ClassTable,
    declared: &Sigs,
    named: &mut Sigs,
    stmt: &Stmt,
) -> Result<(), AllocError>
    requires { declared.now ≡ declared_sigs table.now }
    ensures { OnOk result (named.new ≡ insert_all same_sig named.old (undeclared table.now (stmt_refs stmt.now))) }
{
    let Stmt::Assign { place, rhs } = stmt else {
        return Ok(());
    };
    add_optional(alloc, table, declared, named, place_reference(place))?;
    add_optional(alloc, table, declared, named, rhs_reference(rhs))
}

// The same of the statements of a method.
fn add_stmts(
    alloc: Global,
    table: &ClassTable,
    declared: &Sigs,
    named: &mut Sigs,
    stmts: &[Stmt],
) -> Result<(), AllocError>
    requires { declared.now ≡ declared_sigs table.now }
    ensures { OnOk result (named.new ≡ insert_all same_sig named.old (undeclared table.now (refs_in stmts.now))) }
{
    for stmt in stmts {
        add_stmt(alloc, table, declared, named, stmt)?;
    }
    Ok(())
}

// The same of the methods of a class.
fn add_methods(
    alloc: Global,
    table: &ClassTable,
    declared: &Sigs,
    named: &mut Sigs,
    methods: &[Method],
) -> Result<(), AllocError>
    requires { declared.now ≡ declared_sigs table.now }
    ensures { OnOk result (named.new ≡ insert_all same_sig named.old (undeclared table.now (refs_in (all_stmts methods.now)))) }
{
    for method in methods {
        add_stmts(alloc, table, declared, named, stmts_of(method))?;
    }
    Ok(())
}

/// The fields that references of the classes name because no class declares them, each once. Those that classes declare are
/// given.
pub fn named_in(alloc: Global, table: &ClassTable, declared: &Sigs) -> Result<Sigs, AllocError>
    requires { declared.now ≡ declared_sigs table.now }
    ensures { IfOk result (λ sigs. sigs ≡ named_sigs table.now) }
{
    let mut named = Sigs::new(alloc);
    for class in table.given() {
        add_methods(alloc, table, declared, &mut named, class.methods.as_slice())?;
    }
    Ok(named)
}
