// What workers pass between a take and its commit, and values that count their commits.
ghost use Rattle.std.specs.Prelude.{◌≡◌, ℕ};

/// Where a worker passes between a take and its commit, outside the turn. `take` is the number of the take over all
/// workers, counted from 1.
pub trait Gate: Sync {
    fn passed(&self, worker: u32, take: u64);
}

/// A gate that holds nobody.
#[derive(Clone, Copy, Debug, PartialEq, Eq)]
pub struct Open;

impl Gate for Open {
    fn passed(&self, _worker: u32, _take: u64) {}
}

/// A value that counts its commits, and has an owner, which contracts alone know.
pub trait Counted {
    type Owner;

    ghost owner: { Self → Self.Owner };

    ghost count: { Self → ℕ };

    /// The number of its commits.
    fn commits(&self) -> u64
        ensures { result ≡ count self.now };
}
