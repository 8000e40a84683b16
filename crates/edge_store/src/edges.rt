// Edges of one method: a fact's number, then a bit of a page. The pool of facts and the table of pages stand below, the
// store of all methods above.
ghost use Rattle.std.specs.Prelude.{◌≡◌, ◌≤◌, ◌<◌, ◌+◌, ◌^◌, ◌⊎◌, ℕ, false, IsTrue, length, Contains, IfSome, IfNone, slice_index};
ghost use Rattle.ifds_model.specs.State.{At, IsDistinct};
ghost use Rattle.edge_store.specs.declared.page.Page.{Page};
ghost use Rattle.edge_store.specs.Pages.{Spot, spot, HasBit, Marked, uses_of};
ghost use Rattle.edge_store.specs.Adds.{AddsEdge};

use crate::page::{Page, bit_place, page_number};
use crate::pool::Pool;
use crate::table::Table;
use clean_base::Plain;
use ifds_model::Node;

/// What adding an edge tells: its fact's number, and whether the edge is new.
#[derive(Clone, Copy, Debug, PartialEq, Eq)]
pub struct Added {
    pub number: u32,
    pub is_new: bool,
}

/// The number of a fact. That of the page that was last held on costs no hash.
fn number_of<F: Plain>(pool: &Pool<F>, table: &Table, fact: &F) -> Option<u32>
    ensures there { IfSome result (λ n. At pool.now.facts n fact.now) }
    ensures unknown { IfNone result (¬ Contains pool.now.facts fact.now) }
    ensures distinct { IsDistinct pool.now.facts }
{
    let number = table.last_fact();
    if pool.is_at(number, fact) {
        return Some(number);
    }
    pool.find(fact)
}

/// Whether a table has the edge.
pub fn has_edge<F: Plain>(pool: &Pool<F>, table: &Table, context: u64, node: Node, fact: &F) -> bool
    ensures yes { IsTrue result → Marked pool.now.facts table.now.pages table.now.bits (spot context node fact.now) }
    ensures no { result ≡ false → ¬ Marked pool.now.facts table.now.pages table.now.bits (spot context node fact.now) }
{
    let number = page_number(node);
    let place = bit_place(node);
    match number_of(pool, table, fact) {
        Some(fact) => has_bit_at(
            table,
            &Page {
                context,
                fact,
                number,
            },
            place,
        ),
        None => false,
    }
}

fn has_bit_at(table: &Table, page: &Page, place: u32) -> bool
    requires { place < 64 }
    ensures yes { IsTrue result → HasBit table.now.pages table.now.bits page.now place }
    ensures no { result ≡ false → ¬ HasBit table.now.pages table.now.bits page.now place }
{
    match table.find(page) {
        Some(at) => table.is_marked(at, place),
        None => false,
    }
}

/// Sets a bit of a page, which may be new, and tells whether the bit is.
fn hold<F: Plain>(pool: &mut Pool<F>, table: &mut Table, page: Page, place: u32) -> bool
    requires within { page.fact < length pool.old.facts }
    requires few { pool.old.used + 1 < 2 ^ 64 }
    requires place { place < 64 }
    requires room { 0 < table.old.room }
    ensures is_new { IsTrue result → ¬ HasBit table.old.pages table.old.bits page place }
    ensures was { result ≡ false → HasBit table.old.pages table.old.bits page place }
    ensures there { HasBit table.new.pages table.new.bits page place }
    ensures kept { (q : Page) (b : ℕ) → HasBit table.old.pages table.old.bits q b → HasBit table.new.pages table.new.bits q b }
    ensures from { (q : Page) (b : ℕ) → HasBit table.new.pages table.new.bits q b → HasBit table.old.pages table.old.bits q b ⊎ ((q ≡ page) × (b ≡ place)) }
    ensures full { (p : Page) → Contains table.new.pages p → Contains table.old.pages p ⊎ ((b : ℕ) × (b < 64) × HasBit table.new.pages table.new.bits p b) }
    ensures facts { pool.new.facts ≡ pool.old.facts }
    ensures counts { (n : ℕ) → slice_index pool.new.counts n + uses_of table.old.pages n ≡ slice_index pool.old.counts n + uses_of table.new.pages n }
    ensures more { IsTrue result → table.new.held ≡ table.old.held + 1 }
    ensures same { result ≡ false → table.new.held ≡ table.old.held }
    ensures used { pool.new.used ≤ pool.old.used + 1 }
    ensures spare { pool.new.spare ≡ pool.old.spare }
    ensures room { table.new.room + 1 ≡ table.old.room }
    ensures once { IsDistinct table.new.pages }
{
    match table.find(&page) {
        Some(at) => table.mark(at, place),
        None => {
            table.open(page, place);
            pool.up(page.fact);
            true
        }
    }
}

/// Adds the edge of the fact with this number, and tells whether it is new.
pub fn add_numbered<F: Plain>(
    pool: &mut Pool<F>,
    table: &mut Table,
    context: u64,
    node: Node,
    fact: u32,
) -> bool
    requires within { fact < length pool.old.facts }
    requires distinct { IsDistinct pool.old.facts }
    requires few { pool.old.used + 1 < 2 ^ 64 }
    requires room { 0 < table.old.room }
    requires used { (p : Page) → Contains table.old.pages p → 0 < slice_index pool.old.counts p.fact }
    ensures adds { (f : F) → At pool.old.facts fact f → AddsEdge pool.old pool.new table.old table.new (spot context node f) result }
    ensures facts { pool.new.facts ≡ pool.old.facts }
    ensures spare { pool.new.spare ≡ pool.old.spare }
{
    let number = page_number(node);
    let place = bit_place(node);
    hold(
        pool,
        table,
        Page {
            context,
            fact,
            number,
        },
        place,
    )
}

/// Adds an edge, and tells its fact's number and whether it is new.
pub fn add_edge<F: Plain>(
    pool: &mut Pool<F>,
    table: &mut Table,
    context: u64,
    node: Node,
    fact: F,
) -> Added
    requires distinct { IsDistinct pool.old.facts }
    requires few { pool.old.used + 1 < 2 ^ 64 }
    requires room { 0 < table.old.room }
    requires spare { 0 < pool.old.spare }
    requires used { (p : Page) → Contains table.old.pages p → 0 < slice_index pool.old.counts p.fact }
    ensures adds { AddsEdge pool.old pool.new table.old table.new (spot context node fact) result.is_new }
    ensures number { At pool.new.facts result.number fact }
    ensures distinct { IsDistinct pool.new.facts }
{
    match number_of(pool, table, &fact) {
        Some(number) => Added {
            number,
            is_new: add_numbered(pool, table, context, node, number),
        },
        None => {
            let number = pool.put(fact);
            let is_new = add_numbered(pool, table, context, node, number);
            Added { number, is_new }
        }
    }
}
