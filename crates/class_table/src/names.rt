// The names of classes, numbered by their places in an ordered set: those of the given classes first, then those that stand
// only in headings. Trees of classes stand below; the links of the hierarchy above.
ghost use Rattle.std.specs.Prelude.{◌≡◌, ◌≤◌, ◌↔◌, nat_eq, map, flat_map, length, Contains, IfOk, IfErr, OnOk, MatchOption, IsTrue};
ghost use lib.Pointwise.{pointwise};
ghost use Rattle.indexmap.specs.IndexSet.{insert_key, insert_all};
ghost use Rattle.clean_base.specs.Limits.{most_classes};
ghost use Rattle.clean_base.specs.Lists.{At};
ghost use Rattle.jimple_tree.specs.declared.tree.Class.{Class};
ghost use Rattle.class_table.specs.Faults.{HaveNames, HasFewNames, IsFirstDouble, Refused};
ghost use Rattle.class_table.specs.Hierarchy.{class_names, heading};

use clean_base::limits::MOST_CLASSES;
use clean_base::{InputFault, Name, Stop};
use indexmap::IndexSet;
use jimple_tree::Class;
use std::alloc::{AllocError, Global};

// Adds a name at the end where it isn't there yet. Only a new one is copied.
fn add_name(alloc: Global, names: &mut IndexSet<Name>, name: &Name) -> Result<(), AllocError>
    ensures { OnOk result (names.new.keys ≡ insert_key (pointwise nat_eq) names.old.keys name.now) }
{
    if names.contains(name) {
        return Ok(());
    }
    let copy = name.copy(alloc)?;
    names.insert(copy)?;
    Ok(())
}

fn add_names(alloc: Global, names: &mut IndexSet<Name>, more: &[Name]) -> Result<(), AllocError>
    ensures { OnOk result (names.new.keys ≡ insert_all (pointwise nat_eq) names.old.keys more.now) }
{
    for name in more {
        add_name(alloc, names, name)?;
    }
    Ok(())
}

// Adds the names of the classes.
fn add_own(alloc: Global, names: &mut IndexSet<Name>, classes: &[Class]) -> Result<(), AllocError>
    ensures { OnOk result (names.new.keys ≡ insert_all (pointwise nat_eq) names.old.keys (map (λ (c : Class). c.name) classes.now)) }
{
    for class in classes {
        add_name(alloc, names, &class.name)?;
    }
    Ok(())
}

fn add_heading(alloc: Global, names: &mut IndexSet<Name>, class: &Class) -> Result<(), AllocError>
    ensures { OnOk result (names.new.keys ≡ insert_all (pointwise nat_eq) names.old.keys (heading class.now)) }
{
    add_names(alloc, names, class.extends.as_slice())?;
    add_names(alloc, names, class.implements.as_slice())
}

// Adds the names in the headings of the classes.
fn add_headings(
    alloc: Global,
    names: &mut IndexSet<Name>,
    classes: &[Class],
) -> Result<(), AllocError>
    ensures { OnOk result (names.new.keys ≡ insert_all (pointwise nat_eq) names.old.keys (flat_map heading classes.now)) }
{
    for class in classes {
        add_heading(alloc, names, class)?;
    }
    Ok(())
}

// The names that the classes give and name, each once, in the order of their numbers.
fn names_of(alloc: Global, classes: &[Class]) -> Result<IndexSet<Name>, AllocError>
    ensures { IfOk result (λ names. names.keys ≡ class_names classes.now) }
{
    let mut names = IndexSet::new(alloc);
    add_own(alloc, &mut names, classes)?;
    add_headings(alloc, &mut names, classes)?;
    Ok(names)
}

/// The number of a name.
pub fn number_of(names: &IndexSet<Name>, name: &Name) -> Option<u32>
    requires { length names.now.keys ≤ most_classes }
    ensures { MatchOption result (¬ Contains names.now.keys name.now) (λ n. At names.now.keys n name.now) }
{
    match names.get_index_of(name) {
        Some(place) => Some(place as u32),
        None => None,
    }
}

// Whether the name has this number.
fn stands_at(names: &IndexSet<Name>, place: usize, name: &Name) -> bool
    ensures { IsTrue result ↔ At names.now.keys place name.now }
{
    match names.as_slice().get(place) {
        Some(found) => found == name,
        None => false,
    }
}

// The first name that a class before has too: until one comes twice, a class's name has the class's place for its number.
fn first_double<'a>(names: &IndexSet<Name>, classes: &'a [Class]) -> Option<&'a Name>
    requires { names.now.keys ≡ class_names classes.now }
    ensures { MatchOption result (HaveNames classes.now) (λ name. IsFirstDouble classes.now name.now) }
{
    for (place, class) in classes.iter().enumerate() {
        if !stands_at(names, place, &class.name) {
            return Some(&class.name);
        }
    }
    None
}

// That a name stands twice.
fn double(alloc: Global, classes: &[Class], name: &Name) -> Stop
    requires few { HasFewNames classes.now }
    requires double { IsFirstDouble classes.now name.now }
    ensures { Refused classes.now result }
{
    match name.copy(alloc) {
        Ok(name) => Stop::Fault(InputFault::DoubleClass { name }),
        Err(AllocError) => Stop::OutOfMemory,
    }
}

/// The names that the classes give and name, each once, in the order of their numbers. An error is that they are too many,
/// the first name that is given twice, or want of memory.
pub fn numbered(alloc: Global, classes: &[Class]) -> Result<IndexSet<Name>, Stop>
    ensures keys { IfOk result (λ names. names.keys ≡ class_names classes.now) }
    ensures few { OnOk result (HasFewNames classes.now) }
    ensures distinct { OnOk result (HaveNames classes.now) }
    ensures err { IfErr result (Refused classes.now) }
{
    let names = match names_of(alloc, classes) {
        Ok(names) => names,
        Err(AllocError) => return Err(Stop::OutOfMemory),
    };
    if names.len() > MOST_CLASSES {
        return Err(Stop::Fault(InputFault::LimitClasses));
    }
    match first_double(&names, classes) {
        Some(name) => Err(double(alloc, classes, name)),
        None => Ok(names),
    }
}
