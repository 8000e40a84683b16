// A value in hand.
ghost use Rattle.std.specs.Prelude.{◌≡◌};
ghost use Rattle.std.specs.Borrow.{sem};
ghost use Rattle.worker_turn.specs.Lending.{LendsValue};

use crate::turn::Turn;
use clean_base::Counted;
use std::snapshot::Snapshot;

/// The value of a turn in hand, until it is given back.
pub struct Guard<V: Counted> {
    pub(crate) value: V,
    pub(crate) turn: Snapshot<Turn<V>>,
}

impl<V: Counted> Guard<V> {
    pub fn value(&self) -> &V
        ensures { result.now ≡ self.now.value }
    {
        &self.value
    }

    /// The value, to change.
    pub fn value_mut(&mut self) -> &mut V
        ensures* writes_back { sem 𝓛 (LendsValue V.row V.Owner.row (record { owner = V.owner; count = V.count }) self.entry result) }
        ensures value { result.now ≡ self.old.value }
    {
        &mut self.value
    }
}
