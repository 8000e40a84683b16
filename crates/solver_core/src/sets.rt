// Sets of plain items that keep the order of adding. The count of new edges stands above.
ghost use Rattle.std.specs.Prelude.{◌≡◌, ◌≤◌, ◌<◌, ◌+◌, ◌++◌, ◌∷◌, [], IsTrue, false, Contains};
ghost use Rattle.indexmap.specs.IndexSet.{spare};

use clean_base::Plain;
use indexmap::IndexSet;

/// Adds an item where it is not there yet, and tells whether it is new.
pub fn add_once<T: Plain>(items: &mut IndexSet<T>, item: T) -> bool
    requires { 0 < spare items.old }
    ensures is_new { IsTrue result → ¬ Contains items.old.keys item }
    ensures added { IsTrue result → items.new.keys ≡ items.old.keys ++ item ∷ [] }
    ensures was { result ≡ false → Contains items.old.keys item }
    ensures same { result ≡ false → items.new.keys ≡ items.old.keys }
    ensures room { spare items.old ≤ spare items.new + 1 }
{
    match items.insert(item) {
        Ok(added) => added,
        Err(_) => unreachable!(),
    }
}
