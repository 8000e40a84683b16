// The class that declares what a reference means (docs/FLOW-RULES.md, "Fields"). Sets of signatures stand below; the fields
// that references name above.
ghost use Rattle.std.specs.Prelude.{◌≡◌, ◌↔◌, ◌∷◌, [], IfSome, IfNone, IsSome, MatchOption, Some, None};
ghost use Rattle.clean_base.specs.Lists.{At};
ghost use Rattle.class_table.specs.Hierarchy.{given, names_in};
ghost use Rattle.class_table.specs.Resolving.{superclass};
ghost use Rattle.field_table.specs.Chains.{declarer, meaning, Means};
ghost use Rattle.field_table.specs.Fields.{declared_sigs};
ghost use Rattle.jimple_tree.specs.WellFormed.{IsWellFormed};
ghost use Rattle.jimple_tree.specs.declared.tree.FieldSig.{FieldSig};

use crate::sigs::Sigs;
use class_table::ClassTable;
use clean_base::Name;
use jimple_tree::{Class, FieldSig};

// The name after `extends` of a class that is no interface.
fn superclass_of(class: &Class) -> Option<&Name>
    requires { IsWellFormed class.now }
    ensures { MatchOption result (superclass class.now ≡ []) (λ name. superclass class.now ≡ name.now ∷ []) }
{
    if class.is_interface {
        return None;
    }
    class.extends.as_slice().first()
}

// The class that is given under the name.
fn given_class<'a>(table: &'a ClassTable, name: &Name) -> Option<&'a Class>
    ensures some { IfSome result (λ class. given table.now name.now ≡ Some class.now) }
    ensures formed { IfSome result (λ class. IsWellFormed class.now) }
    ensures none { IfNone result (given table.now name.now ≡ None) }
{
    let Some(number) = table.find(name) else {
        return None;
    };
    table.given().get(number.0 as usize)
}

// The superclass of the class that is given under the name.
fn above<'a>(table: &'a ClassTable, name: &Name) -> Option<&'a Name>
    ensures { MatchOption result (names_in superclass table.now name.now ≡ []) (λ up. names_in superclass table.now name.now ≡ up.now ∷ []) }
{
    let Some(class) = given_class(table, name) else {
        return None;
    };
    superclass_of(class)
}

/// Where the field that the reference means stands among those that classes declare, if it is one of them. No class comes
/// twice on the way up, so all names but the last are those of given classes.
pub fn find_declared<'a>(table: &'a ClassTable, declared: &Sigs, sig: &'a FieldSig) -> Option<usize>
    requires { declared.now ≡ declared_sigs table.now }
    ensures means { (own : FieldSig) → Means table.now sig.now own ↔ (own ≡ meaning table.now sig.now) }
    ensures found { MatchOption result (declarer table.now sig.now ≡ None) (λ place. IsSome (declarer table.now sig.now) × At declared.now place (meaning table.now sig.now)) }
{
    let mut class = &sig.class;
    let most = table.given().len() + 1;
    for _ in 0..most {
        if let Some(place) = declared.place(class, &sig.ty, &sig.name) {
            return Some(place);
        }
        let Some(up) = above(table, class) else {
            return None;
        };
        class = up;
    }
    None
}
