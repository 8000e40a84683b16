// Edges, each under its method. Room is made before, so that adding takes no memory. The edges of one method stand below.
ghost use Rattle.std.specs.Prelude.{◌≡◌, ◌≢◌, ◌≤◌, ◌<◌, ◌+◌, ◌-◌, ◌++◌, ◌⊎◌, ℕ, [], false, replicate, IsTrue, length, OnOk, OnErr, IfOk, ◌^◌, slice_index, slice_set};
ghost use Rattle.ifds_model.specs.Runs.{HasCount};
ghost use Rattle.ifds_model.specs.State.{At, IsDistinct};
ghost use Rattle.edge_store.specs.declared.page.Page.{Page};
ghost use Rattle.edge_store.specs.Pages.{Spot, spot, uses_of};
ghost use Rattle.edge_store.specs.Store.{edges_under, Holds, IsFact, spare_of, IsPadded};
ghost use Rattle.edge_store.specs.Table.{no_pages};

use crate::edges::{Added, add_edge, add_numbered, has_edge};
use crate::page::Page;
use crate::pool::Pool;
use crate::table::Table;
use clean_base::Plain;
use ifds_model::Node;
use std::alloc::{AllocError, Global};
use std::marker::Model;
use std::mem::replace;

/// A set of edges. Contexts and methods go by their numbers.
#[derive(Drop)]
pub struct EdgeStore<F: Plain> {
    alloc: Global,
    pool: Pool<F>,
    tables: Vec<Table>,
    room: u64,
}

impl<F: Plain> Model for EdgeStore<F> {
    ghost use Rattle.edge_store.specs.Store.{Store, store_of, IsStore};

    ghost Value = { Store F };

    ghost view = { λ s. store_of s.pool.facts s.tables.items };

    ghost invariant = { λ s. IsStore s.pool s.tables.items s.room };
}

impl<F: Plain> EdgeStore<F> {
    pub fn new(alloc: Global) -> Self
        ensures edges { result.edges ≡ [] }
        ensures facts { result.facts ≡ [] }
        ensures spare { result.spare ≡ [] }
    {
        EdgeStore {
            alloc,
            pool: Pool::new(alloc),
            tables: Vec::new(alloc),
            room: 0,
        }
    }

    /// The number of edges under a method.
    pub fn holds(&self, m: u64) -> u64
        ensures count { result ≡ length (edges_under self.now m) }
        ensures distinct { IsDistinct (edges_under self.now m) }
    {
        let at = m as usize;
        if at < self.tables.len() {
            self.tables[at].held()
        } else {
            0
        }
    }

    /// Whether the edge is held under a method.
    pub fn has(&self, m: u64, context: u64, node: Node, fact: &F) -> bool
        ensures yes { IsTrue result → Holds self.now m (spot context node fact.now) }
        ensures no { result ≡ false → ¬ Holds self.now m (spot context node fact.now) }
    {
        let at = m as usize;
        if at >= self.tables.len() {
            return false;
        }
        has_edge(&self.pool, &self.tables[at], context, node, fact)
    }

    /// The fact with this number.
    pub fn fact(&self, number: u32) -> F
        requires { number < length self.now.facts }
        ensures { At self.now.facts number result }
    {
        self.pool.fact(number)
    }

    /// The number of different facts of held edges.
    pub fn facts(&self) -> u64
        ensures { HasCount (IsFact self.now) result }
    {
        self.pool.live()
    }

    /// Makes room for so many further edges under a method.
    pub fn reserve(&mut self, m: u64, n: u64) -> Result<(), AllocError>
        ensures same { (k : ℕ) → edges_under self.new k ≡ edges_under self.old k }
        ensures facts { self.new.facts ≡ self.old.facts }
        ensures spare { (k : ℕ) → spare_of self.old k ≤ spare_of self.new k }
        ensures ok { OnOk result (n ≤ spare_of self.new m) }
    {
        let at = m as usize;
        prepare(&mut self.tables, self.alloc, at)?;
        self.room = make_room(&mut self.pool, &mut self.tables[at], self.room, n)?;
        Ok(())
    }

    /// Holds the edge under a method, and tells its fact's number and whether it is new.
    pub fn add(&mut self, m: u64, context: u64, node: Node, fact: F) -> Added
        requires { 0 < spare_of self.old m }
        ensures is_new { IsTrue result.is_new → ¬ Holds self.old m (spot context node fact) }
        ensures was { result.is_new ≡ false → Holds self.old m (spot context node fact) }
        ensures there { Holds self.new m (spot context node fact) }
        ensures kept { (k : ℕ) (e : Spot F) → Holds self.old k e → Holds self.new k e }
        ensures from { (k : ℕ) (e : Spot F) → Holds self.new k e → Holds self.old k e ⊎ ((k ≡ m) × (e ≡ spot context node fact)) }
        ensures once { (k : ℕ) → IsDistinct (edges_under self.new k) }
        ensures number { At self.new.facts result.number fact }
        ensures facts { (n : ℕ) (f : F) → At self.old.facts n f → IsFact self.old f → At self.new.facts n f }
        ensures room { spare_of self.old m ≤ spare_of self.new m + 1 }
        ensures others { (k : ℕ) → k ≢ m → spare_of self.old k ≤ spare_of self.new k }
    {
        let added = add_edge(
            &mut self.pool,
            &mut self.tables[m as usize],
            context,
            node,
            fact,
        );
        self.room -= 1;
        added
    }

    /// Holds the edge of the fact with this number, as `add` does. It costs no hash of the fact.
    pub fn add_numbered(&mut self, m: u64, context: u64, node: Node, number: u32) -> bool
        requires within { number < length self.old.facts }
        requires room { 0 < spare_of self.old m }
        ensures is_new { (f : F) → At self.old.facts number f → IsTrue result → ¬ Holds self.old m (spot context node f) }
        ensures was { (f : F) → At self.old.facts number f → result ≡ false → Holds self.old m (spot context node f) }
        ensures there { (f : F) → At self.old.facts number f → Holds self.new m (spot context node f) }
        ensures kept { (k : ℕ) (e : Spot F) → Holds self.old k e → Holds self.new k e }
        ensures from { (f : F) → At self.old.facts number f → (k : ℕ) (e : Spot F) → Holds self.new k e → Holds self.old k e ⊎ ((k ≡ m) × (e ≡ spot context node f)) }
        ensures once { (k : ℕ) → IsDistinct (edges_under self.new k) }
        ensures facts { self.new.facts ≡ self.old.facts }
        ensures room { spare_of self.old m ≤ spare_of self.new m + 1 }
        ensures others { (k : ℕ) → k ≢ m → spare_of self.old k ≤ spare_of self.new k }
    {
        let is_new = add_numbered(
            &mut self.pool,
            &mut self.tables[m as usize],
            context,
            node,
            number,
        );
        self.room -= 1;
        is_new
    }

    /// Takes all edges of a method out, and tells their number.
    pub fn drop_method(&mut self, m: u64) -> u64
        ensures count { HasCount (Holds self.old m) result }
        ensures gone { (e : Spot F) → ¬ Holds self.new m e }
        ensures kept { (k : ℕ) → k ≢ m → (e : Spot F) → Holds self.old k e → Holds self.new k e }
        ensures from { (k : ℕ) (e : Spot F) → Holds self.new k e → Holds self.old k e }
        ensures facts { self.new.facts ≡ self.old.facts }
        ensures others { (k : ℕ) → k ≢ m → spare_of self.old k ≤ spare_of self.new k }
    {
        let at = m as usize;
        if at >= self.tables.len() {
            return 0;
        }
        let empty = Table::new(self.alloc);
        let table = replace(&mut self.tables[at], empty);
        self.room -= table.room();
        release_all(&mut self.pool, table.pages());
        table.held()
    }
}

// Makes tables up to that with this number.
fn prepare(tables: &mut Vec<Table>, alloc: Global, at: usize) -> Result<(), AllocError>
    ensures more { IsPadded tables.old.items tables.new.items }
    ensures ok { OnOk result (at < length tables.new.items) }
{
    let len = tables.len();
    if at < len {
        return Ok(());
    }
    tables.reserve(at - len)?;
    for _ in len..at {
        push_table(tables, alloc)?;
    }
    push_table(tables, alloc)
}

fn push_table(tables: &mut Vec<Table>, alloc: Global) -> Result<(), AllocError>
    ensures more { tables.new.items ≡ tables.old.items ++ replicate (length tables.new.items - length tables.old.items) no_pages }
    ensures ok { OnOk result (length tables.new.items ≡ length tables.old.items + 1) }
{
    tables.push(Table::new(alloc))?;
    Ok(())
}

// Makes room for so many further edges of a table, each with a new fact, and tells the room of all tables.
fn make_room<F: Plain>(
    pool: &mut Pool<F>,
    table: &mut Table,
    room: u64,
    n: u64,
) -> Result<u64, AllocError>
    requires part { table.old.room ≤ room }
    requires spare { room ≤ pool.old.spare }
    requires few { pool.old.used + room < 2 ^ 64 }
    ensures facts { pool.new.facts ≡ pool.old.facts }
    ensures counts { pool.new.counts ≡ pool.old.counts }
    ensures used { pool.new.used ≡ pool.old.used }
    ensures spare { pool.old.spare ≤ pool.new.spare }
    ensures pages { table.new.pages ≡ table.old.pages }
    ensures bits { table.new.bits ≡ table.old.bits }
    ensures held { table.new.held ≡ table.old.held }
    ensures kept { table.old.room ≤ table.new.room }
    ensures err { OnErr result (table.new.room ≡ table.old.room) }
    ensures ok { OnOk result (n ≤ table.new.room) }
    ensures sum { IfOk result (λ r. r + table.old.room ≡ room + table.new.room) }
    ensures fits { IfOk result (λ r. r ≤ pool.new.spare) }
    ensures few { IfOk result (λ r. pool.new.used + r < 2 ^ 64) }
{
    let had = table.room();
    if n <= had {
        return Ok(room);
    }
    let Some(total) = room.checked_add(n - had) else {
        return Err(AllocError);
    };
    if pool.used().checked_add(total).is_none() {
        return Err(AllocError);
    }
    pool.reserve(total as usize)?;
    table.reserve(n)?;
    Ok(total)
}

// Takes back the uses of facts by pages that go.
fn release_all<F: Plain>(pool: &mut Pool<F>, pages: &[Page])
    requires { (n : ℕ) → uses_of pages.now n ≤ slice_index pool.old.counts n }
    ensures facts { pool.new.facts ≡ pool.old.facts }
    ensures counts { (n : ℕ) → slice_index pool.new.counts n + uses_of pages.now n ≡ slice_index pool.old.counts n }
    ensures used { pool.new.used ≤ pool.old.used }
    ensures spare { pool.new.spare ≡ pool.old.spare }
{
    for page in pages {
        pool.down(page.fact);
    }
}
