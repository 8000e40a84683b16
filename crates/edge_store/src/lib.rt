// The path edges that a solver holds, each under its method: facts once in a pool, edges as bits of pages
// (docs/SOLVER.md, "Held edges by method"). `ifds_model` and `indexmap` stand below; a solver's state stands above.
#![tactic(auto)]

mod edges;
mod page;
mod pool;
mod sets;
mod store;
mod table;

pub use edges::Added;
pub use store::EdgeStore;
