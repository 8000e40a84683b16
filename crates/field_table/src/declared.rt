// The fields that classes declare (docs/FLOW-RULES.md, "Fields"). Sets of signatures stand below; the table of fields above.
ghost use Rattle.std.specs.Prelude.{◌≡◌, All, IfOk, OnOk};
ghost use Rattle.indexmap.specs.IndexSet.{insert_all};
ghost use Rattle.class_table.specs.Faults.{HaveNames};
ghost use Rattle.clean_base.specs.Lists.{IsDistinct};
ghost use Rattle.field_table.specs.Fields.{declared_sigs, fields_of, same_sig};
ghost use Rattle.jimple_tree.specs.WellFormed.{IsWellFormed};

use crate::sigs::Sigs;
use jimple_tree::Class;
use std::alloc::{AllocError, Global};

// Adds the fields of a class.
fn add_fields(alloc: Global, sigs: &mut Sigs, class: &Class) -> Result<(), AllocError>
    ensures { OnOk result (sigs.new ≡ insert_all same_sig sigs.old (fields_of class.now)) }
{
    for field in class.fields.as_slice() {
        sigs.add(alloc, &class.name, &field.ty, &field.name)?;
    }
    Ok(())
}

/// The fields that the classes declare. None stands twice.
pub fn declared_in(alloc: Global, classes: &[Class]) -> Result<Sigs, AllocError>
    requires names { HaveNames classes.now }
    requires formed { All IsWellFormed classes.now }
    ensures distinct { IfOk result (λ sigs. IsDistinct sigs) }
    ensures sigs { IfOk result (λ sigs. sigs ≡ declared_sigs classes.now) }
{
    let mut sigs = Sigs::new(alloc);
    for class in classes {
        add_fields(alloc, &mut sigs, class)?;
    }
    Ok(sigs)
}
