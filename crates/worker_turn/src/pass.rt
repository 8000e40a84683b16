// A pass: the right to enter a turn, with what it has seen and made.
ghost use Rattle.std.specs.Prelude.{◌≡◌};

use crate::rule::Place;
use clean_base::Counted;
use std::marker::Model;

/// The right to enter a turn. Contracts see what it knows. One that is dropped takes its shares with it, so the turn is never closed.
#[derive(Drop)]
pub struct Pass<V: Counted> {
    pub(crate) seat: Place<V>,
    pub(crate) seen: u64,
    pub(crate) made: u64,
    pub(crate) shares: u32,
}

impl<V: Counted> Model for Pass<V> {
    ghost use Rattle.worker_turn.specs.Passes.{PassView, view_of, IsPass};

    ghost Value = { PassView V.Owner };

    ghost view = { λ p. view_of p.seat.table_id p.seat.me.0 };

    ghost invariant = { λ p. IsPass p.seat.me p.seen p.made p.shares };
}

/// A number of commits that never falls.
pub fn seen<V: Counted>(pass: &Pass<V>) -> u64
    ensures { result ≡ pass.now.seen }
{
    pass.seen
}

/// By how much the passes that were joined into this one raised the commits.
pub fn made<V: Counted>(pass: &Pass<V>) -> u64
    ensures { result ≡ pass.now.made }
{
    pass.made
}

pub fn shares<V: Counted>(pass: &Pass<V>) -> u32
    ensures { result ≡ pass.now.shares }
{
    pass.shares
}
