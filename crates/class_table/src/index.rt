// Finds the methods of a class by their signatures (docs/FLOW-RULES.md, "Classes"). Trees of classes and the
// index of names stand below; the methods
// of all classes above.
ghost use Rattle.std.specs.Prelude.{◌≡◌, ◌↔◌, ℕ, Some, map, IfOk};
ghost use Rattle.jimple_tree.specs.WellFormed.{IsWellFormed};
ghost use Rattle.jimple_tree.specs.declared.tree.Method.{Method};
ghost use Rattle.name_index.specs.Index.{IsIndex};
ghost use Rattle.class_table.specs.Index.{IsMethodAt, name_of};

use jimple_tree::{Class, Method, Sig};
use name_index::NameIndex;
use std::alloc::{AllocError, Global};

/// The index of the methods of a class by their names.
pub fn index_of(alloc: Global, methods: &[Method]) -> Result<NameIndex, AllocError>
    ensures { IfOk result (IsIndex (map name_of methods.now)) }
{
    let mut index = NameIndex::new(alloc);
    for (place, method) in methods.iter().enumerate() {
        index.add(alloc, &method.name, place)?;
    }
    Ok(index)
}

/// Where the method of the class stands that has the signature's name, parameters and result.
pub fn find(class: &Class, index: &NameIndex, sig: &Sig) -> Option<usize>
    requires formed { IsWellFormed class.now }
    requires index { IsIndex (map name_of class.now.methods) index.now }
    ensures { (place : ℕ) → (result ≡ Some place) ↔ ((method : Method) × IsMethodAt class.now sig.now place method) }
{
    let methods = class.methods.as_slice();
    for place in index.places(&sig.name) {
        if methods[*place].is_named(&sig.class, sig) {
            return Some(*place);
        }
    }
    None
}
