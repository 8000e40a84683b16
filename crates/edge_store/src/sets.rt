// Ordered sets, whose items are numbered by their places. The pool of facts and the tables of pages stand above.
ghost use Rattle.std.specs.Prelude.{◌≡◌, ◌≤◌, ◌<◌, ◌+◌, ◌++◌, ◌∷◌, [], IsTrue, length, Contains, IfSome, IfNone, slice_set};
ghost use Rattle.indexmap.specs.IndexSet.{spare};
ghost use Rattle.ifds_model.specs.State.{At};

use clean_base::Plain;
use indexmap::IndexSet;

/// The place of an item in a set.
pub fn place_of<T: Plain>(set: &IndexSet<T>, item: &T) -> Option<usize>
    ensures there { IfSome result (λ n. At set.now.keys n item.now) }
    ensures unknown { IfNone result (¬ Contains set.now.keys item.now) }
{
    set.get_index_of(item)
}

/// Adds a new item at the end, and tells its place.
pub fn place_new<T: Plain>(set: &mut IndexSet<T>, item: T) -> usize
    requires room { 0 < spare set.old }
    requires fresh { ¬ Contains set.old.keys item }
    ensures keys { set.new.keys ≡ set.old.keys ++ item ∷ [] }
    ensures place { result ≡ length set.old.keys }
    ensures spare { spare set.old ≤ spare set.new + 1 }
{
    let place = set.len();
    match set.insert(item) {
        Ok(_) => place,
        Err(_) => unreachable!(),
    }
}

/// Puts a new item in the place of another.
pub fn replace_at<T: Plain>(set: &mut IndexSet<T>, at: usize, item: T)
    requires within { at < length set.old.keys }
    requires room { 0 < spare set.old }
    requires fresh { ¬ Contains set.old.keys item }
    ensures keys { set.new.keys ≡ slice_set set.old.keys at item }
    ensures spare { spare set.old ≤ spare set.new + 1 }
{
    let last = set.len() - 1;
    set.swap_remove_index(at);
    place_new(set, item);
    set.swap_indices(at, last);
}
