// The classes of a file. Members stand below; the reader of classes above.
ghost use Rattle.std.specs.Prelude.{map, All, IfOk};
ghost use Rattle.jimple_grammar.specs.Fits.{ClassFits};
ghost use Rattle.jimple_tree.specs.WellFormed.{IsWellFormed};
ghost use Rattle.jimple_names.specs.Tree.{class_of};
ghost use Rattle.jimple_names.specs.Faults.{class_fault, names_fault};
ghost use Rattle.jimple_names.specs.Named.{Named};
ghost use Rattle.jimple_names.specs.Resolving.{Given};

use crate::members::name_members;
use crate::stop::NameStop;
use crate::texts::{name, names};
use jimple_grammar::raw::RawClass;
use jimple_tree::Class;
use std::alloc::Global;

fn class_of(alloc: Global, bytes: &[u8], raw: &RawClass) -> Result<Class, NameStop>
    requires { Given bytes.now (λ P n. ClassFits P n raw.now) }
    ensures { Named (λ c. c) result (class_of bytes.now raw.now) (class_fault bytes.now raw.now) }
{
    let modifiers = names(alloc, bytes, raw.modifiers.as_slice())?;
    let name = name(alloc, bytes, raw.heading.name)?;
    let extends = names(alloc, bytes, raw.heading.extends.as_slice())?;
    let implements = names(alloc, bytes, raw.heading.implements.as_slice())?;
    let members = name_members(alloc, bytes, raw.members.as_slice())?;
    Ok(Class {
        modifiers,
        is_interface: raw.heading.is_interface,
        name,
        extends,
        implements,
        fields: members.fields,
        methods: members.methods,
    })
}

/// The class of each raw class, or the first name that breaks a rule.
fn classes_of(alloc: Global, bytes: &[u8], raw: &[RawClass]) -> Result<Vec<Class>, NameStop>
    requires { Given bytes.now (λ P n. All (ClassFits P n) raw.now) }
    ensures { Named (λ v. v.items) result (map (class_of bytes.now) raw.now) (names_fault bytes.now raw.now) }
{
    let mut classes = Vec::with_capacity(alloc, raw.len())?;
    for next in raw {
        let class = class_of(alloc, bytes, next)?;
        classes.push(class)?;
    }
    Ok(classes)
}

/// The classes of a file's raw classes.
///
/// An error is want of memory, or the first name in the text that breaks a rule (docs/FORMATS.md, "Names").
pub fn name_classes(alloc: Global, bytes: &[u8], raw: &[RawClass]) -> Result<Vec<Class>, NameStop>
    requires { Given bytes.now (λ P n. All (ClassFits P n) raw.now) }
    ensures named { Named (λ v. v.items) result (map (class_of bytes.now) raw.now) (names_fault bytes.now raw.now) }
    ensures well_formed { IfOk result (λ cs. All IsWellFormed cs.items) }
{
    classes_of(alloc, bytes, raw)
}
