// A value that is a number alone: an example of what a turn may hold, and of a round.
ghost use Rattle.std.specs.Prelude.{◌≡◌, ◌≤◌, ◌+◌, ◌^◌, false, MatchBool};

use crate::pass::Pass;
use crate::turn::Turn;
use clean_base::Counted;
use std::sync::Wait;

/// A number of commits, and whose they are.
#[derive(Drop)]
pub struct Tally {
    pub commits: u64,
    pub owner: u8,
}

impl Counted for Tally {
    type Owner = u8;

    ghost owner = { λ t. t.owner };

    ghost count = { λ t. t.commits };

    fn commits(&self) -> u64 {
        self.commits
    }
}

/// Raises the number, and says whether it did. It did not where the sum doesn't fit.
pub fn raise<R: Wait>(rt: &R, turn: &Turn<Tally>, pass: &mut Pass<Tally>, by: u64) -> bool
    requires own { pass.old.turn ≡ turn.now }
    requires out { pass.old.inside ≡ false }
    ensures { MatchBool result (pass.new ≡ record pass.old { seen = pass.new.seen; made = pass.old.made + by }) ((pass.new ≡ record pass.old { seen = pass.new.seen }) × (2 ^ 64 ≤ pass.new.seen + by)) }
{
    let mut guard = turn.enter(rt, pass);
    let old = guard.value().commits;
    let fits = by <= u64::MAX - old;
    let more = if fits { by } else { 0 };
    guard.value_mut().commits = old + more;
    turn.leave(pass, guard);
    fits
}
