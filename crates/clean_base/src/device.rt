// What the program reads from and writes to, with faults that are counted.
ghost use Rattle.std.specs.Prelude.{◌≡◌, ◌≤◌, ◌<◌, ◌+◌, ◌-◌, List, ℕ, Option, length, IfOk, IfSome, OnErr};
ghost use Rattle.clean_base.specs.Device.{Rose, Reads, AppendsFirst, TookNone, count_of};

/// A device has failed.
#[derive(Clone, Copy, Debug, PartialEq, Eq)]
pub struct Failed;

/// Files by name.
pub trait Shelf {
    /// The bytes that a name holds, where the shelf tells them.
    ghost holds: { Self → List ℕ → Option (List ℕ) };

    /// How often the shelf has failed at a name.
    ghost faults: { Self → List ℕ → ℕ };

    /// How many calls the shelf has counted. One that counts none says so by a number that stays.
    ghost calls: { Self → ℕ };

    /// Puts bytes of the name, from a place on, into the front of `into`, and says how many.
    fn read_at(&mut self, name: &str, from: u64, into: &mut [u8]) -> Result<usize, Failed>
        requires { 0 < length into.old }
        ensures fits { IfOk result (λ n. n ≤ length into.new) }
        ensures bytes { IfOk result (λ n. IfSome (holds self.old name.now) (λ bytes. Reads bytes from n into.new)) }
        ensures same { (other : List ℕ) → holds self.new other ≡ holds self.old other }
        ensures later { (other : List ℕ) → faults self.old other ≤ faults self.new other }
        ensures cause { OnErr result (Rose (faults self.old name.now) (faults self.new name.now)) }
        ensures one_call { calls self.new ≤ calls self.old + 1 };
}

/// Where bytes go.
pub trait Sink {
    /// The bytes that it took so far, where it tells them.
    ghost taken: { Self → Option (List ℕ) };

    /// How often it has failed.
    ghost faults: { Self → ℕ };

    /// Takes the first bytes of a piece, and says how many.
    fn write(&mut self, piece: &[u8]) -> Result<usize, Failed>
        requires { 0 < length piece.now }
        ensures fits { IfOk result (λ n. n ≤ length piece.now) }
        ensures taken { AppendsFirst (taken self.old) (taken self.new) (count_of result) piece.now }
        ensures later { faults self.old ≤ faults self.new }
        ensures cause { TookNone result → Rose (faults self.old) (faults self.new) };
}
