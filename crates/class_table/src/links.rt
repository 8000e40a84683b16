// The graphs of the hierarchy, and an order of its names. The graph of one kind of names stands below; the table above.
ghost use Rattle.std.specs.Prelude.{◌≡◌, ◌<◌, length, IfOk, IfErr, OnOk};
ghost use Rattle.jimple_tree.specs.declared.tree.Class.{Class};
ghost use Rattle.class_table.specs.Faults.{HaveNames, HasFewNames, IsAcyclic, IsFirstCycle, Refused};
ghost use Rattle.class_table.specs.Hierarchy.{class_names, heading};
ghost use Rattle.class_table.specs.Kept.{HasLinks};
ghost use Rattle.class_table.specs.Kinds.{kind_names};
ghost use Rattle.class_table.specs.Links.{AreRows, name_at};
ghost use Rattle.reach_rows.specs.Graphs.{IsOrder};

use crate::rows::{Kind, rows_of};
use clean_base::{InputFault, Name, Seq, Stop};
use indexmap::IndexSet;
use jimple_tree::Class;
use reach_rows::{OrderStop, order};
use std::alloc::{AllocError, Global};

/// The graphs of the hierarchy.
#[derive(Drop)]
pub struct Links {
    /// For each name the numbers of those in its heading.
    pub headings: Vec<Seq<u32>>,
    /// Of these the superclass.
    pub superclasses: Vec<Seq<u32>>,
    /// And the interfaces.
    pub interfaces: Vec<Seq<u32>>,
    /// The numbers of all names, each behind those in its heading.
    pub order: Vec<u32>,
}

// That the class of this number stands above itself.
fn cycle(alloc: Global, names: &IndexSet<Name>, classes: &[Class], number: u32) -> Stop
    requires keys { names.now.keys ≡ class_names classes.now }
    requires few { HasFewNames classes.now }
    requires distinct { HaveNames classes.now }
    requires number { number < length names.now.keys }
    requires cycle { IsFirstCycle classes.now (name_at classes.now number) }
    ensures { Refused classes.now result }
{
    match names.as_slice()[number as usize].copy(alloc) {
        Ok(name) => Stop::Fault(InputFault::Cycle { name }),
        Err(AllocError) => Stop::OutOfMemory,
    }
}

// An order of the graph of headings.
fn order_of(
    alloc: Global,
    names: &IndexSet<Name>,
    classes: &[Class],
    headings: &[Seq<u32>],
) -> Result<Vec<u32>, Stop>
    requires keys { names.now.keys ≡ class_names classes.now }
    requires few { HasFewNames classes.now }
    requires distinct { HaveNames classes.now }
    requires headings { AreRows classes.now heading headings.now }
    ensures order { IfOk result (λ order. IsOrder headings.now order.items) }
    ensures acyclic { OnOk result (IsAcyclic classes.now) }
    ensures err { IfErr result (Refused classes.now) }
{
    match order(alloc, headings) {
        Ok(order) => Ok(order),
        Err(OrderStop::Cycle(number)) => Err(cycle(alloc, names, classes, number)),
        Err(OrderStop::OutOfMemory) => Err(Stop::OutOfMemory),
    }
}

// The graph of the names of a kind.
fn graph(
    alloc: Global,
    names: &IndexSet<Name>,
    classes: &[Class],
    kind: Kind,
) -> Result<Vec<Seq<u32>>, Stop>
    requires keys { names.now.keys ≡ class_names classes.now }
    requires few { HasFewNames classes.now }
    requires distinct { HaveNames classes.now }
    ensures rows { IfOk result (λ rows. AreRows classes.now (kind_names kind) rows.items) }
    ensures err { IfErr result (Refused classes.now) }
{
    match rows_of(alloc, names, kind, classes) {
        Ok(rows) => Ok(rows),
        Err(AllocError) => Err(Stop::OutOfMemory),
    }
}

impl Links {
    /// The graphs of the classes, whose names are numbered. An error is the first class that stands above itself, or want of
    /// memory.
    pub fn new(alloc: Global, names: &IndexSet<Name>, classes: &[Class]) -> Result<Links, Stop>
        requires keys { names.now.keys ≡ class_names classes.now }
        requires few { HasFewNames classes.now }
        requires distinct { HaveNames classes.now }
        ensures links { IfOk result (HasLinks classes.now) }
        ensures acyclic { OnOk result (IsAcyclic classes.now) }
        ensures err { IfErr result (Refused classes.now) }
    {
        let headings = graph(alloc, names, classes, Kind::Heading)?;
        let order = order_of(alloc, names, classes, headings.as_slice())?;
        let superclasses = graph(alloc, names, classes, Kind::Superclass)?;
        let interfaces = graph(alloc, names, classes, Kind::Interfaces)?;
        Ok(Links {
            headings,
            superclasses,
            interfaces,
            order,
        })
    }
}
