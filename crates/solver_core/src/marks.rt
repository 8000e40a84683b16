// A list in order. The state stands above.
ghost use Rattle.std.specs.Prelude.{◌↔◌, Contains, IfOk};
ghost use Rattle.std.specs.List.Sorted.{IsStrictlySortedBy};
ghost use Rattle.ifds_model.specs.State.{IsDistinct};

use clean_base::Plain;
use std::alloc::AllocError;

/// The items in ascending order, each once.
pub fn in_order<T: Plain + Ord>(items: Vec<T>) -> Result<Vec<T>, AllocError>
    ensures sorted { IfOk result (λ v. IsStrictlySortedBy T.cmp v.items) }
    ensures distinct { IfOk result (λ v. IsDistinct v.items) }
    ensures same { IfOk result (λ v. (x : T) → Contains v.items x ↔ Contains items.items x) }
{
    let mut items = items;
    items.sort()?;
    items.dedup();
    Ok(items)
}
