// Ordered sets, whose items are numbered by their places. Tables and long lists of entries stand above.
ghost use Rattle.std.specs.Prelude.{◌≡◌, ◌⊎◌, ◌≤◌, ◌<◌, ◌+◌, ◌++◌, ◌∷◌, [], IsTrue, false, length, Contains, IfSome, IfNone};
ghost use Rattle.indexmap.specs.IndexSet.{spare};
ghost use Rattle.ifds_model.specs.State.{At};

use clean_base::Plain;
use indexmap::IndexSet;

/// The place of an item in a set.
pub fn place_of<T: Plain>(set: &IndexSet<T>, item: &T) -> Option<usize>
    ensures there { IfSome result (λ n. At set.now.keys n item.now) }
    ensures unknown { IfNone result (¬ Contains set.now.keys item.now) }
{
    set.get_index_of(item)
}

/// Adds a new item at the end, and tells its place.
pub fn place_new<T: Plain>(set: &mut IndexSet<T>, item: T) -> usize
    requires room { 0 < spare set.old }
    requires fresh { ¬ Contains set.old.keys item }
    ensures keys { set.new.keys ≡ set.old.keys ++ item ∷ [] }
    ensures place { result ≡ length set.old.keys }
    ensures spare { spare set.old ≤ spare set.new + 1 }
{
    let place = set.len();
    match set.insert(item) {
        Ok(_) => place,
        Err(_) => unreachable!(),
    }
}

/// Adds an item at the end where it is not there yet, and tells whether it is new.
pub fn place_once<T: Plain>(set: &mut IndexSet<T>, item: T) -> bool
    requires { Contains set.old.keys item ⊎ (0 < spare set.old) }
    ensures is_new { IsTrue result → ¬ Contains set.old.keys item }
    ensures added { IsTrue result → set.new.keys ≡ set.old.keys ++ item ∷ [] }
    ensures was { result ≡ false → Contains set.old.keys item }
    ensures same { result ≡ false → set.new.keys ≡ set.old.keys }
    ensures spare { spare set.old ≤ spare set.new + 1 }
{
    match set.insert(item) {
        Ok(added) => added,
        Err(_) => unreachable!(),
    }
}
