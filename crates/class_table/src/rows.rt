// The graphs of the hierarchy: for each name the numbers of the names of one kind that its class has. Numbers of names stand
// below; the links above.
ghost use Rattle.std.specs.Prelude.{◌≡◌, ◌≤◌, ◌++◌, ◌-◌, [], length, replicate, All, Contains, IfOk, OnOk};
ghost use Rattle.clean_base.specs.Limits.{most_classes};
ghost use Rattle.clean_base.specs.Lists.{At};
ghost use Rattle.jimple_tree.specs.declared.tree.Class.{Class};
ghost use Rattle.class_table.specs.Faults.{HaveNames};
ghost use Rattle.class_table.specs.Hierarchy.{class_names};
ghost use Rattle.class_table.specs.Kinds.{kind_names, names_at, AreWithin, IsRow, AreOwnRows};
ghost use Rattle.class_table.specs.Links.{AreRows};

use crate::names::number_of;
use clean_base::{Name, Seq};
use indexmap::IndexSet;
use jimple_tree::Class;
use std::alloc::{AllocError, Global};

/// A kind of names in the heading of a class.
#[derive(Clone, Copy, Debug)]
pub enum Kind {
    /// All of them.
    Heading,
    Superclass,
    Interfaces,
}

// The names of this kind, in two parts.
fn parts(kind: Kind, class: &Class) -> (&[Name], &[Name])
    ensures { result.0.now ++ result.1.now ≡ kind_names kind class.now }
{
    let extends = class.extends.as_slice();
    let implements = class.implements.as_slice();
    match kind {
        Kind::Heading => (extends, implements),
        Kind::Superclass if class.is_interface => (&[], &[]),
        Kind::Superclass => (extends, &[]),
        Kind::Interfaces if class.is_interface => (extends, implements),
        Kind::Interfaces => (&[], implements),
    }
}

// The number of a name that has one.
fn known_number(names: &IndexSet<Name>, name: &Name) -> u32
    requires few { length names.now.keys ≤ most_classes }
    requires known { Contains names.now.keys name.now }
    ensures { At names.now.keys result name.now }
{
    match number_of(names, name) {
        Some(number) => number,
        None => unreachable!(),
    }
}

// Adds the numbers of the names.
fn add_numbers(names: &IndexSet<Name>, some: &[Name], row: &mut Vec<u32>) -> Result<(), AllocError>
    requires few { length names.now.keys ≤ most_classes }
    requires known { All (Contains names.now.keys) some.now }
    requires within { AreWithin names.now.keys row.old.items }
    ensures names { OnOk result (names_at names.now.keys row.new.items ≡ names_at names.now.keys row.old.items ++ some.now) }
    ensures within { OnOk result (AreWithin names.now.keys row.new.items) }
{
    for name in some {
        row.push(known_number(names, name))?;
    }
    Ok(())
}

// The numbers of the names of a kind that the class has.
fn row_of(
    alloc: Global,
    names: &IndexSet<Name>,
    kind: Kind,
    class: &Class,
) -> Result<Seq<u32>, AllocError>
    requires few { length names.now.keys ≤ most_classes }
    requires known { All (Contains names.now.keys) (kind_names kind class.now) }
    ensures { IfOk result (λ row. IsRow names.now.keys row (kind_names kind class.now)) }
{
    let (front, back) = parts(kind, class);
    let mut row = Vec::new(alloc);
    add_numbers(names, front, &mut row)?;
    add_numbers(names, back, &mut row)?;
    Ok(Seq::from_vec(row))
}

// The rows of the classes, in order.
fn own_rows(
    alloc: Global,
    names: &IndexSet<Name>,
    kind: Kind,
    classes: &[Class],
) -> Result<Vec<Seq<u32>>, AllocError>
    requires few { length names.now.keys ≤ most_classes }
    requires known { All (λ (c : Class). All (Contains names.now.keys) (kind_names kind c)) classes.now }
    ensures { IfOk result (λ rows. AreOwnRows names.now.keys (kind_names kind) classes.now rows.items) }
{
    let mut rows = Vec::new(alloc);
    for class in classes {
        rows.push(row_of(alloc, names, kind, class)?)?;
    }
    Ok(rows)
}

// Adds empty rows until there are so many.
fn add_empty(alloc: Global, rows: &mut Vec<Seq<u32>>, count: usize) -> Result<(), AllocError>
    requires { length rows.old.items ≤ count }
    ensures { OnOk result (rows.new.items ≡ rows.old.items ++ replicate (count - length rows.old.items) []) }
{
    for _ in rows.len()..count {
        rows.push(Seq::from_vec(Vec::new(alloc)))?;
    }
    Ok(())
}

/// The graph of the names of a kind. A name that isn't given has no step.
pub fn rows_of(
    alloc: Global,
    names: &IndexSet<Name>,
    kind: Kind,
    classes: &[Class],
) -> Result<Vec<Seq<u32>>, AllocError>
    requires keys { names.now.keys ≡ class_names classes.now }
    requires few { length names.now.keys ≤ most_classes }
    requires distinct { HaveNames classes.now }
    ensures { IfOk result (λ rows. AreRows classes.now (kind_names kind) rows.items) }
{
    let mut rows = own_rows(alloc, names, kind, classes)?;
    add_empty(alloc, &mut rows, names.len())?;
    Ok(rows)
}
