// Where statements lead in their body (docs/FLOW-RULES.md, "Successors"). Trees of classes stand below; `bodies` above.
ghost use Rattle.std.specs.Prelude.{◌≡◌, ◌↔◌, ◌⊎◌, ◌<◌, ◌≤◌, ◌+◌, ◌++◌, ◌∷◌, [], ℕ, List, Contains, IfOk, IsTrue, OnOk, length, map};
ghost use Rattle.std.specs.List.Sorted.{IsStrictlyIncreasing};
ghost use Rattle.clean_base.specs.Limits.{most_stmts};
ghost use Rattle.jimple_tree.specs.Labels.{targets_of};
ghost use Rattle.jimple_tree.specs.declared.tree.Case.{Case};
ghost use Rattle.jimple_tree.specs.declared.tree.Catch.{Catch};
ghost use Rattle.jimple_tree.specs.declared.tree.Stmt.{Stmt};
ghost use Rattle.jimple_tree.specs.Successors.{GoesOn, Succ};
ghost use Rattle.statement_graph.specs.Successors.{IsOwn, Handles, IsCaught};

use jimple_tree::{Body, Case, Catch, Stmt};
use std::alloc::{AllocError, Global};
use std::marker::Model;

/// Places of a body.
#[derive(Drop)]
pub struct Places {
    items: Vec<u32>,
}

impl Model for Places {
    ghost use Rattle.std.specs.Prelude.{List, ℕ};

    ghost Value = { List ℕ };

    ghost view = { λ s. s.items.items };
}

impl Places {
    pub fn new(alloc: Global) -> Places
        ensures { result ≡ [] }
    {
        Places {
            items: Vec::new(alloc),
        }
    }

    pub fn add(&mut self, place: u32) -> Result<(), AllocError>
        ensures { OnOk result (self.new ≡ self.old ++ place ∷ []) }
    {
        self.items.push(place)?;
        Ok(())
    }

    /// Puts the places in order, each once.
    pub fn sort(&mut self)
        ensures sorted { IsStrictlyIncreasing self.new }
        ensures same { (t : ℕ) → Contains self.new t ↔ Contains self.old t }
    {
        self.items.sort_unstable();
        self.items.dedup();
    }

    pub fn as_slice(&self) -> &[u32]
        ensures { result.now ≡ self.now }
    {
        self.items.as_slice()
    }

    pub fn into_vec(self) -> Vec<u32>
        ensures { result.items ≡ self }
    {
        self.items
    }
}

// Whether the statement may be left for the next one.
fn goes_on(stmt: &Stmt) -> bool
    ensures { IsTrue result ↔ GoesOn stmt.now }
{
    match stmt {
        Stmt::Goto(_) | Stmt::Switch { .. } | Stmt::Return(_) | Stmt::Throw(_) => false,
        _ => true,
    }
}

fn add_cases(places: &mut Places, cases: &[Case]) -> Result<(), AllocError>
    ensures { OnOk result (places.new ≡ places.old ++ map (λ (c : Case). c.target) cases.now) }
{
    for case in cases {
        places.add(case.target)?;
    }
    Ok(())
}

// Adds the places of a switch.
fn add_switch(places: &mut Places, cases: &[Case], default: u32) -> Result<(), AllocError>
    ensures { OnOk result (places.new ≡ places.old ++ (map (λ (c : Case). c.target) cases.now ++ default ∷ [])) }
{
    add_cases(places, cases)?;
    places.add(default)
}

// Adds the places that a statement names.
fn add_targets(places: &mut Places, stmt: &Stmt) -> Result<(), AllocError>
    ensures { OnOk result (places.new ≡ places.old ++ targets_of stmt.now) }
{
    match stmt {
        Stmt::If { target, .. } => places.add(*target),
        Stmt::Goto(target) => places.add(*target),
        Stmt::Switch { cases, default, .. } => add_switch(places, cases.as_slice(), *default),
        _ => Ok(()),
    }
}

// Adds the place behind a statement, of so many, where it goes on there.
fn add_next(places: &mut Places, stmt: &Stmt, place: usize, count: usize) -> Result<(), AllocError>
    requires few { count ≤ most_stmts }
    requires place { place < count }
    ensures { OnOk result ((t : ℕ) → Contains places.new t ↔ (Contains places.old t ⊎ (GoesOn stmt.now × (t ≡ place + 1) × (t < count)))) }
{
    let on = goes_on(stmt);
    if !on {
        return Ok(());
    }
    let next = place + 1;
    if next < count {
        return places.add(next as u32);
    }
    Ok(())
}

/// Where a statement at a place, of so many, leads itself.
pub fn own_places(
    alloc: Global,
    stmt: &Stmt,
    place: usize,
    count: usize,
) -> Result<Places, AllocError>
    requires few { count ≤ most_stmts }
    requires place { place < count }
    ensures { IfOk result (λ v. (t : ℕ) → Contains v t ↔ IsOwn stmt.now count place t) }
{
    let mut places = Places::new(alloc);
    add_targets(&mut places, stmt)?;
    add_next(&mut places, stmt, place, count)?;
    Ok(places)
}

// Adds the handler of a clause whose range covers a place.
fn add_handler(places: &mut Places, catch: &Catch, place: u32) -> Result<(), AllocError>
    ensures { OnOk result ((t : ℕ) → Contains places.new t ↔ (Contains places.old t ⊎ Handles catch.now place t)) }
{
    if place < catch.from {
        return Ok(());
    }
    if place < catch.to {
        return places.add(catch.with);
    }
    Ok(())
}

// Adds the handlers of the clauses whose ranges cover a place.
fn add_handlers(places: &mut Places, catches: &[Catch], place: u32) -> Result<(), AllocError>
    ensures { OnOk result ((t : ℕ) → Contains places.new t ↔ (Contains places.old t ⊎ IsCaught catches.now place t)) }
{
    for catch in catches {
        add_handler(places, catch, place)?;
    }
    Ok(())
}

/// The successors of the statement at a place of a body, in order.
pub fn next_places(alloc: Global, body: &Body, place: u32) -> Result<Vec<u32>, AllocError>
    requires few { length body.now.stmts ≤ most_stmts }
    requires place { place < length body.now.stmts }
    ensures sorted { IfOk result (λ v. IsStrictlyIncreasing v.items) }
    ensures exact { IfOk result (λ v. (t : ℕ) → Contains v.items t ↔ Succ body.now place t) }
{
    let stmts = body.stmts.as_slice();
    let at = place as usize;
    let mut places = own_places(alloc, &stmts[at], at, stmts.len())?;
    add_handlers(&mut places, body.catches.as_slice(), place)?;
    places.sort();
    Ok(places.into_vec())
}
