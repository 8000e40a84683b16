// Names by number, and the keys of field signatures that are made of these numbers. Names stand below; sets of signatures
// above.
ghost use Rattle.std.specs.Prelude.{◌≡◌, ◌++◌, ℕ, List, Contains, IfOk, MatchOption};
ghost use Rattle.std.proofs.Common.{rules};
ghost use Rattle.clean_base.specs.Lists.{At, IsDistinct};
ghost use Rattle.field_table.specs.Fields.{signature};
ghost use Rattle.field_table.specs.declared.key.Key.{Key};

use clean_base::{Name, Plain};
use indexmap::IndexSet;
use jimple_tree::JType;
use std::alloc::{AllocError, Global};

/// A field signature by the places of its names among some names.
#[derive(Clone, Copy, Debug, PartialEq, Eq, PartialOrd, Ord, Hash)]
pub struct Key {
    pub class: usize,
    pub base: usize,
    pub dims: u64,
    pub name: usize,
}

impl Plain for Key {
    ghost exact = { λ x y h. Prim.search rules };
}

/// The place of a name.
pub fn place_of(names: &IndexSet<Name>, name: &Name) -> Option<usize>
    ensures { MatchOption result (¬ Contains names.now.keys name.now) (λ n. At names.now.keys n name.now) }
{
    names.get_index_of(name)
}

/// The place of a name, which is added at the end where it isn't there yet.
pub fn add_name(alloc: Global, names: &mut IndexSet<Name>, name: &Name) -> Result<usize, AllocError>
    requires { IsDistinct names.old.keys }
    ensures distinct { IsDistinct names.new.keys }
    ensures kept { (more : List (List ℕ)) × (names.new.keys ≡ names.old.keys ++ more) }
    ensures at { IfOk result (λ n. At names.new.keys n name.now) }
{
    if let Some(place) = place_of(names, name) {
        return Ok(place);
    }
    let copy = name.copy(alloc)?;
    let place = names.len();
    names.insert(copy)?;
    Ok(place)
}
