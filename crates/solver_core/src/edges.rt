// The held edges as a set, of which what stands above sees members alone, and how many were ever held.
ghost use Rattle.std.specs.Prelude.{◌≡◌, ◌⊎◌, ◌≤◌, ◌<◌, ◌+◌, [], IsTrue, false, length, Contains, OnOk};
ghost use Rattle.clean_base.specs.Lists.{IsDistinct};
ghost use Rattle.solver_core.specs.Store.{Spot, spot};

use clean_base::Plain;
use edge_store::EdgeStore;
use ifds_model::Node;
use std::alloc::{AllocError, Global};
use std::marker::Model;

// All edges stand under one number, since none is dropped.
const ALL: u64 = 0;

/// The edges of all contexts, which go by their numbers.
#[derive(Drop)]
pub struct Edges<F: Plain> {
    store: EdgeStore<F>,
    found: u64,
}

impl<F: Plain> Model for Edges<F> {
    ghost use Rattle.std.specs.Prelude.{◌-◌, ◌^◌, min};
    ghost use Rattle.edge_store.specs.Store.{edges_under, spare_of};
    ghost use Rattle.solver_core.specs.Store.{Store};

    ghost Value = { Store F };

    ghost view = { λ s. record { held = record { edges = edges_under s.store 0; found = s.found }; spare = min (spare_of s.store 0) (2 ^ 64 - 1 - s.found) } };
}

impl<F: Plain> Edges<F> {
    pub fn new(alloc: Global) -> Edges<F>
        ensures edges { result.held.edges ≡ [] }
        ensures found { result.held.found ≡ 0 }
    {
        Edges {
            store: EdgeStore::new(alloc),
            found: 0,
        }
    }

    /// The number of edges that are held.
    pub fn len(&self) -> u64
        ensures { result ≡ length self.now.held.edges }
    {
        self.store.holds(ALL)
    }

    /// How many edges were ever held.
    pub fn found(&self) -> u64
        ensures { result ≡ self.now.held.found }
    {
        self.found
    }

    /// Whether the edge is held.
    pub fn has(&self, context: u64, node: Node, fact: F) -> bool
        ensures yes { IsTrue result → Contains self.now.held.edges (spot context node fact) }
        ensures no { result ≡ false → ¬ Contains self.now.held.edges (spot context node fact) }
    {
        self.store.has(ALL, context, node, &fact)
    }

    /// Makes room for so many further edges.
    pub fn reserve(&mut self, more: u64) -> Result<(), AllocError>
        ensures same { self.new.held ≡ self.old.held }
        ensures room { OnOk result (more ≤ self.new.spare) }
        ensures kept { self.old.spare ≤ self.new.spare }
    {
        if self.found.checked_add(more).is_none() {
            return Err(AllocError);
        }
        self.store.reserve(ALL, more)
    }

    /// Holds the edge, and tells whether it is new.
    pub fn add(&mut self, context: u64, node: Node, fact: F) -> bool
        requires { 0 < self.old.spare }
        ensures is_new { IsTrue result → ¬ Contains self.old.held.edges (spot context node fact) }
        ensures was { result ≡ false → Contains self.old.held.edges (spot context node fact) }
        ensures there { Contains self.new.held.edges (spot context node fact) }
        ensures kept { (e : Spot F) → Contains self.old.held.edges e → Contains self.new.held.edges e }
        ensures from { (e : Spot F) → Contains self.new.held.edges e → Contains self.old.held.edges e ⊎ (e ≡ spot context node fact) }
        ensures once { IsDistinct self.new.held.edges }
        ensures more { IsTrue result → self.new.held.found ≡ self.old.held.found + 1 }
        ensures same { result ≡ false → self.new.held.found ≡ self.old.held.found }
        ensures room { self.old.spare ≤ self.new.spare + 1 }
    {
        if self.store.add(ALL, context, node, fact).is_new {
            self.found += 1;
            return true;
        }
        false
    }
}
