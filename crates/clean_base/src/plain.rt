// Small values that `==` tells apart.
ghost use Rattle.std.specs.Prelude.{◌≡◌, true};

use std::hash::Hash;

/// A small value without parts on the heap.
pub trait Plain: Copy + Eq + Hash {
    /// Two values that `==` calls equal are one and the same.
    ghost exact: { (x y : Self) → Self.eq x y ≡ true → x ≡ y };
}
