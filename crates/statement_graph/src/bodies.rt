// The successors of all statements of a body. Where one statement leads stands below; `rows` above.
ghost use Rattle.std.specs.Prelude.{◌≡◌, ◌↔◌, ◌⊎◌, ◌<◌, ◌≤◌, ◌++◌, ◌∷◌, [], ℕ, All, Contains, IfOk, OnOk, length, slice_index_or, slice_set};
ghost use Rattle.clean_base.specs.Limits.{most_stmts};
ghost use Rattle.clean_base.specs.Lists.{At};
ghost use Rattle.jimple_tree.specs.Successors.{Succ};
ghost use Rattle.jimple_tree.specs.WellFormed.{BodyFits};
ghost use Rattle.jimple_tree.specs.declared.tree.Catch.{Catch};
ghost use Rattle.jimple_tree.specs.declared.tree.Stmt.{Stmt};
ghost use Rattle.statement_graph.specs.Successors.{IsOwn, Handles, IsCaught};

use crate::successors::{Places, own_places};
use jimple_tree::{Body, Catch, Stmt};
use std::alloc::{AllocError, Global};

// For each statement where it leads itself.
fn own_lists(alloc: Global, stmts: &[Stmt]) -> Result<Vec<Places>, AllocError>
    requires { length stmts.now ≤ most_stmts }
    ensures len { IfOk result (λ v. length v.items ≡ length stmts.now) }
    ensures own { IfOk result (λ v. (s t : ℕ) (stmt : Stmt) → At stmts.now s stmt → Contains (slice_index_or v.items s []) t ↔ IsOwn stmt (length stmts.now) s t) }
{
    let count = stmts.len();
    let mut lists = Vec::new(alloc);
    for (at, stmt) in stmts.iter().enumerate() {
        lists.push(own_places(alloc, stmt, at, count)?)?;
    }
    Ok(lists)
}

fn add_at(lists: &mut [Places], at: usize, place: u32) -> Result<(), AllocError>
    requires { at < length lists.old }
    ensures { OnOk result (lists.new ≡ slice_set lists.old at (slice_index_or lists.old at [] ++ place ∷ [])) }
{
    lists[at].add(place)
}

// Adds the handler of a clause at each statement of its range.
fn add_catch(lists: &mut [Places], catch: &Catch) -> Result<(), AllocError>
    requires { catch.now.to ≤ length lists.old }
    ensures { OnOk result ((s t : ℕ) → s < length lists.old → Contains (slice_index_or lists.new s []) t ↔ (Contains (slice_index_or lists.old s []) t ⊎ Handles catch.now s t)) }
{
    for at in catch.from..catch.to {
        add_at(lists, at as usize, catch.with)?;
    }
    Ok(())
}

fn add_catches(lists: &mut [Places], catches: &[Catch]) -> Result<(), AllocError>
    requires { All (λ (c : Catch). c.to ≤ length lists.old) catches.now }
    ensures { OnOk result ((s t : ℕ) → s < length lists.old → Contains (slice_index_or lists.new s []) t ↔ (Contains (slice_index_or lists.old s []) t ⊎ IsCaught catches.now s t)) }
{
    for catch in catches {
        add_catch(lists, catch)?;
    }
    Ok(())
}

/// For each statement of a body where it leads.
pub fn lists_of(alloc: Global, body: &Body) -> Result<Vec<Places>, AllocError>
    requires fits { BodyFits body.now }
    requires few { length body.now.stmts ≤ most_stmts }
    ensures len { IfOk result (λ v. length v.items ≡ length body.now.stmts) }
    ensures exact { IfOk result (λ v. (s t : ℕ) → s < length body.now.stmts → Contains (slice_index_or v.items s []) t ↔ Succ body.now s t) }
{
    let mut lists = own_lists(alloc, body.stmts.as_slice())?;
    add_catches(lists.as_mut_slice(), body.catches.as_slice())?;
    Ok(lists)
}
