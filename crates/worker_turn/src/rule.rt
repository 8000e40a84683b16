// The rule of the turn at its table, and what each kind of step tells.
ghost use Rattle.worker_turn.specs.Steps.{Draws, Looks, Counts, TakesOut, PutsIn, PassesOn, kept_part, given_part, joined, nobody};

use crate::known::Known;
use atomic_table::{Join, Play, Seat, Shared, Split, TableRule};
use clean_base::Counted;
use std::marker::PhantomData;
use std::snapshot::Snapshot;

/// What the table is told as it is made: the value, and the number of all shares.
#[derive(Drop)]
pub struct Opening<V> {
    pub value: Snapshot<V>,
    pub shares: u32,
}

pub struct Turning<V> {
    value: PhantomData<V>,
}

impl<V: Counted> TableRule<Option<V>, Known<V::Owner>, Opening<V>> for Turning<V> {
    ghost use Rattle.worker_turn.specs.Rule.{IsTurn, first_view};

    ghost holds = { λ _. IsTurn V.owner V.count };

    ghost first = { λ k. first_view V.owner V.count k.value.value k.shares };
}

pub type Row<V> = Shared<Option<V>, Known<<V as Counted>::Owner>, Opening<V>, Turning<V>>;

pub type Place<V> = Seat<Option<V>, Known<<V as Counted>::Owner>>;

pub struct Draw;

impl<V, O> Play<Option<V>, Known<O>> for Draw {
    ghost then = { Draws };
}

pub struct Look;

impl<V, O> Play<Option<V>, Known<O>> for Look {
    ghost then = { Looks };
}

pub struct Count;

impl<V, O> Play<Option<V>, Known<O>> for Count {
    ghost then = { Counts };
}

pub struct TakeOut;

impl<V: Counted> Play<Option<V>, Known<V::Owner>> for TakeOut {
    ghost then = { TakesOut V.owner V.count };
}

pub struct PutIn;

impl<V, O> Play<Option<V>, Known<O>> for PutIn {
    ghost then = { PutsIn };
}

pub struct PassOn;

impl<V, O> Play<Option<V>, Known<O>> for PassOn {
    ghost then = { PassesOn };
}

pub struct Cut;

impl<O> Split<Known<O>> for Cut {
    ghost left = { kept_part };

    ghost right = { given_part };
}

pub struct Merge;

impl<O> Join<Known<O>> for Merge {
    ghost both = { joined };

    ghost spent = { nobody };
}
