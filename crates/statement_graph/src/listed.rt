// The statements of all methods by number, with their successors. `rows` stands below; `graph` above.
ghost use Rattle.std.specs.Prelude.{◌≡◌, ◌<◌, ◌≤◌, ◌+◌, ◌++◌, ◌∷◌, [], ℕ, List, IfOk, OnOk, length, replicate};
ghost use Rattle.clean_base.specs.Limits.{most_stmts};
ghost use Rattle.jimple_tree.specs.WellFormed.{BodyFits};
ghost use Rattle.class_table.specs.Methods.{all_methods};
ghost use Rattle.statement_graph.specs.Kept.{AreListed, stmt_id};
ghost use Rattle.statement_graph.specs.Successors.{AreRows};

use crate::rows::add_rows;
use class_table::ClassTable;
use clean_base::{MethodId, StmtId};
use flat_rows::FlatRows;
use jimple_tree::Body;
use std::alloc::{AllocError, Global};

/// The first statement of each method, and for each statement its method and the numbers of its successors.
#[derive(Drop)]
pub struct Listed {
    pub firsts: Vec<StmtId>,
    pub owners: Vec<MethodId>,
    pub rows: FlatRows<u32>,
}

// Adds the method for each of so many statements.
fn add_owners(owners: &mut Vec<MethodId>, method: MethodId, count: usize) -> Result<(), AllocError>
    ensures { OnOk result (owners.new.items ≡ owners.old.items ++ replicate count method) }
{
    for _ in 0..count {
        owners.push(method)?;
    }
    Ok(())
}

// Lists a method with this body.
fn add_body(
    alloc: Global,
    listed: &mut Listed,
    method: MethodId,
    body: &Body,
) -> Result<(), AllocError>
    requires fits { BodyFits body.now }
    requires few { length listed.old.owners.items + length body.now.stmts ≤ most_stmts }
    ensures firsts { OnOk result (listed.new.firsts.items ≡ listed.old.firsts.items ++ stmt_id (length listed.old.owners.items) ∷ []) }
    ensures owners { OnOk result (listed.new.owners.items ≡ listed.old.owners.items ++ replicate (length body.now.stmts) method) }
    ensures rows { OnOk result ((more : List (List ℕ)) × AreRows body.now (length listed.old.owners.items) (length body.now.stmts) more × (listed.new.rows ≡ listed.old.rows ++ more)) }
{
    let first = listed.owners.len();
    listed.firsts.push(StmtId(first as u32))?;
    add_owners(&mut listed.owners, method, body.stmts.as_slice().len())?;
    add_rows(alloc, &mut listed.rows, body, first)
}

// Lists the next method of a table.
fn add_method(
    alloc: Global,
    listed: &mut Listed,
    table: &ClassTable,
    number: u32,
) -> Result<(), AllocError>
    requires method { number < length (all_methods table.now) }
    requires listed { AreListed table.now number listed.old.firsts.items listed.old.owners.items listed.old.rows }
    ensures { OnOk result (AreListed table.now (number + 1) listed.new.firsts.items listed.new.owners.items listed.new.rows) }
{
    // What is known of the classes: they are well formed, and have few statements.
    let _classes = table.given();
    let method = table.method(MethodId(number));
    match &method.body {
        Some(body) => add_body(alloc, listed, MethodId(number), body),
        None => Ok(()),
    }
}

/// Lists all methods of a table.
pub fn list_all(alloc: Global, table: &ClassTable) -> Result<Listed, AllocError>
    ensures { IfOk result (λ l. AreListed table.now (length (all_methods table.now)) l.firsts.items l.owners.items l.rows) }
{
    let mut listed = Listed {
        firsts: Vec::new(alloc),
        owners: Vec::new(alloc),
        rows: FlatRows::new(alloc),
    };
    for number in 0..table.methods() {
        add_method(alloc, &mut listed, table, number)?;
    }
    Ok(listed)
}
