// An index of names. It is made name by name and asked by name.
ghost use Rattle.std.specs.Prelude.{◌≡◌, ◌↔◌, ◌+◌, ◌++◌, ◌∷◌, ℕ, List, [], take, nat_eq, cond, Contains, OnOk, IfOk};
ghost use Rattle.std.specs.List.Sorted.{IsStrictlyIncreasing};
ghost use lib.Pointwise.{pointwise};
ghost use Rattle.clean_base.specs.Lists.{At};
ghost use Rattle.name_index.specs.Index.{IsIndex, places_of};

use clean_base::Name;
use std::alloc::{AllocError, Global};
use std::collections::HashMap;

/// For each name the places where it stands in a list.
#[derive(Debug, Drop)]
pub struct NameIndex {
    places: HashMap<Name, Vec<usize>>,
}

// A list of one place.
fn one(alloc: Global, place: usize) -> Result<Vec<usize>, AllocError>
    ensures { IfOk result (λ v. v.items ≡ place ∷ []) }
{
    let mut places = Vec::new(alloc);
    places.push(place)?;
    Ok(places)
}

impl NameIndex {
    // Adds a place to those of a name.
    fn add_place(&mut self, alloc: Global, name: &Name, place: usize) -> Result<(), AllocError>
        ensures { OnOk result ((other : List ℕ) → places_of self.new other ≡ cond (pointwise nat_eq name.now other) (places_of self.old other ++ place ∷ []) (places_of self.old other)) }
    {
        match self.places.get_mut(name) {
            Some(kept) => {
                kept.push(place)?;
                Ok(())
            }
            None => {
                self.places.insert(name.copy(alloc)?, one(alloc, place)?)?;
                Ok(())
            }
        }
    }

    /// The index of no names.
    pub fn new(alloc: Global) -> NameIndex
        ensures { IsIndex [] result }
    {
        NameIndex {
            places: HashMap::new(alloc),
        }
    }

    /// Adds the name at a place, where the index has those before it.
    pub fn add(&mut self, alloc: Global, name: &Name, place: usize) -> Result<(), AllocError>
        ensures { OnOk result ((names : List (List ℕ)) → At names place name.now → IsIndex (take place names) self.old → IsIndex (take (place + 1) names) self.new) }
    {
        self.add_place(alloc, name, place)
    }

    // What is kept for a name.
    fn kept(&self, name: &Name) -> &[usize]
        ensures { result.now ≡ places_of self.now name.now }
    {
        match self.places.get(name) {
            Some(places) => places.as_slice(),
            None => &[],
        }
    }

    /// The places of a name, in order.
    pub fn places(&self, name: &Name) -> &[usize]
        ensures exact { (names : List (List ℕ)) → IsIndex names self.now → (place : ℕ) → Contains result.now place ↔ At names place name.now }
        ensures ascending { (names : List (List ℕ)) → IsIndex names self.now → IsStrictlyIncreasing result.now }
    {
        self.kept(name)
    }
}
