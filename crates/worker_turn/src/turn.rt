// The turn: one value, which one pass at a time has in hand.
ghost use Rattle.std.specs.Prelude.{◌≡◌, ◌<◌, ◌≤◌, ◌+◌, ◌-◌, IfOk, IfErr, Some, None, true, false, max, [], ◌∷◌};
ghost use Rattle.worker_turn.specs.Steps.{drawn, with_turn};

use crate::guard::Guard;
use crate::known::Known;
use crate::pass::Pass;
use crate::rule::{Opening, Place, Row, Turning};
use crate::steps::{count, cut, glance, look, merge, pass_on, put_back, take_out, try_draw};
use atomic_table::Table;
use clean_base::Counted;
use std::alloc::{AllocError, Global};
use std::marker::Model;
use std::snapshot::Snapshot;
use std::sync::Wait;
use std::{hint, thread};

/// A lock over a value, whose word counts the value's commits. Contracts see which turn it is.
#[derive(Drop)]
pub struct Turn<V: Counted> {
    table: Table<Option<V>, Known<V::Owner>, Opening<V>, Turning<V>, Global>,
}

impl<V: Counted> Model for Turn<V> {
    ghost use Rattle.std.specs.Prelude.{◌≡◌};
    ghost use Rattle.atomic_table.specs.Seated.{TableId};

    ghost Value = { TableId };

    ghost view = { λ t. t.table.shared.table_id };

    ghost invariant = { λ t. (t.table.shared.table_id.words ≡ 3) × (t.table.shared.table_id.slots ≡ 1) };
}

// Draws a ticket. After 2^64 - 1 tickets it waits for ever.
fn draw<V: Counted, R: Wait>(rt: &R, row: &Row<V>, seat: &mut Place<V>) -> u64
    requires own { (seat.old.table_id ≡ row.now.table_id) × (row.now.table_id.words ≡ 3) }
    requires live { 0 < seat.old.me.0.shares }
    requires idle { seat.old.me.0.ticket ≡ None }
    ensures own { seat.new.table_id ≡ seat.old.table_id }
    ensures drawn { seat.new.me ≡ (drawn seat.old.me.0 result, seat.old.me.1) }
{
    let mut next = row.peek(0);
    for _ in rt.forever() {
        if next < u64::MAX {
            let found = try_draw(row, seat, next);
            if found == next {
                return next;
            }
            next = found;
        } else {
            next = row.peek(0);
        }
    }
    unreachable!()
}

// How often a waiter looks before it yields between two looks. It never sleeps, so nobody is woken.
const LOOKS: u32 = 64;

// Waits until the ticket is served.
fn wait<V: Counted, R: Wait>(rt: &R, row: &Row<V>, seat: &mut Place<V>, ticket: u64)
    requires own { (seat.old.table_id ≡ row.now.table_id) × (row.now.table_id.words ≡ 3) }
    requires live { 0 < seat.old.me.0.shares }
    requires drawn { seat.old.me.0.ticket ≡ Some ticket }
    ensures own { seat.new.table_id ≡ seat.old.table_id }
    ensures come { seat.new.me ≡ (with_turn seat.old.me.0, seat.old.me.1) }
{
    let mut looks: u32 = 0;
    for _ in rt.forever() {
        let served = look(row, seat, ticket);
        if served == ticket {
            return;
        }
        if looks < LOOKS {
            looks += 1;
            hint::spin_loop();
        } else {
            thread::yield_now();
        }
    }
    unreachable!()
}

impl<V: Counted> Turn<V> {
    /// Waits for the turn, and takes the value.
    pub fn enter<R: Wait>(&self, rt: &R, pass: &mut Pass<V>) -> Guard<V>
        requires own { pass.old.turn ≡ self.now }
        requires out { pass.old.inside ≡ false }
        ensures guard { result.turn.value ≡ self.now }
        ensures owner { pass.old.owner ≡ Some (V.owner result.value) }
        ensures word { pass.new.seen ≡ V.count result.value }
        ensures grows { pass.old.seen ≤ pass.new.seen }
        ensures pass { pass.new ≡ record pass.old { seen = pass.new.seen; inside = true } }
    {
        let row = &self.table.shared;
        let ticket = draw(rt, row, &mut pass.seat);
        wait(rt, row, &mut pass.seat, ticket);
        pass.seen = count(row, &mut pass.seat, 0);
        let value = take_out(row, &mut pass.seat);
        Guard {
            value,
            turn: Snapshot::of(self),
        }
    }

    /// Gives the value back, and serves the next pass.
    pub fn leave(&self, pass: &mut Pass<V>, guard: Guard<V>)
        requires own { pass.old.turn ≡ self.now }
        requires inside { pass.old.inside ≡ true }
        requires guard { guard.turn.value ≡ self.now }
        requires owner { pass.old.owner ≡ Some (V.owner guard.value) }
        requires grown { pass.old.seen ≤ V.count guard.value }
        ensures { pass.new ≡ record pass.old { seen = V.count guard.value; made = pass.old.made + (V.count guard.value - pass.old.seen); inside = false } }
    {
        let Guard { value, turn: _ } = guard;
        let row = &self.table.shared;
        let commits = value.commits();
        let rise = commits - pass.seen;
        count(row, &mut pass.seat, rise);
        put_back(row, &mut pass.seat, value);
        pass_on(row, &mut pass.seat);
        pass.seen = commits;
        pass.made += rise;
    }

    /// Gives one share to a new pass.
    pub fn split(&self, pass: &mut Pass<V>) -> Result<Pass<V>, AllocError>
        requires own { pass.old.turn ≡ self.now }
        requires two { 2 ≤ pass.old.shares }
        ensures kept { IfOk result (λ p. pass.new ≡ record pass.old { shares = pass.old.shares - 1 }) }
        ensures given { IfOk result (λ p. p ≡ record pass.old { made = 0; shares = 1; inside = false }) }
        ensures refused { IfErr result (λ _. pass.new ≡ pass.old) }
    {
        let seat = cut(&self.table.shared, &mut pass.seat);
        pass.shares -= 1;
        Ok(Pass {
            seat,
            seen: pass.seen,
            made: 0,
            shares: 1,
        })
    }

    /// Takes in another pass.
    pub fn join(&self, pass: &mut Pass<V>, other: Pass<V>)
        requires own { (pass.old.turn ≡ self.now) × (other.turn ≡ self.now) }
        requires out { (pass.old.inside ≡ false) × (other.inside ≡ false) }
        ensures { pass.new ≡ record pass.old { seen = max pass.old.seen other.seen; made = pass.old.made + other.made; shares = pass.old.shares + other.shares } }
    {
        let Pass {
            seat,
            seen,
            made,
            shares,
        } = other;
        let row = &self.table.shared;
        merge(row, &mut pass.seat, seat);
        glance(row, &mut pass.seat);
        pass.seen = pass.seen.max(seen);
        pass.made += made;
        pass.shares += shares;
    }

    /// Ends the turn by the one pass that is left.
    pub fn close(self, pass: Pass<V>) -> V
        requires own { pass.turn ≡ self }
        requires all { pass.shares ≡ pass.all }
        requires out { pass.inside ≡ false }
        ensures owner { pass.owner ≡ Some (V.owner result) }
        ensures made { V.count result ≡ pass.opening + pass.made }
        ensures seen { pass.seen ≤ V.count result }
    {
        let Turn { table } = self;
        let Pass {
            seat,
            seen: _,
            made: _,
            shares: _,
        } = pass;
        let mut closed = table.close_with(seat);
        let slot = closed.take(0);
        closed.free();
        match slot {
            Some(value) => value,
            None => unreachable!(),
        }
    }
}

// The value alone in a list.
fn one_slot<V: Drop>(alloc: Global, value: V) -> Result<Vec<Option<V>>, AllocError>
    ensures { IfOk result (λ v. v.items ≡ Some value ∷ []) }
{
    let mut slots = Vec::new(alloc);
    match slots.push(Some(value)) {
        Ok(()) => Ok(slots),
        Err(_) => Err(AllocError),
    }
}

impl<V: Counted + Drop> Turn<V> {
    /// A turn over the value, and a pass with all shares.
    pub fn make(alloc: Global, value: V, shares: u32) -> Result<(Turn<V>, Pass<V>), AllocError>
        requires { 1 ≤ shares }
        ensures { IfOk result (λ r. r.1 ≡ record { turn = r.0; owner = Some (V.owner value); seen = V.count value; made = 0; shares = shares; all = shares; opening = V.count value; inside = false }) }
    {
        let commits = value.commits();
        let about = Opening {
            value: Snapshot::of(&value),
            shares,
        };
        let slots = one_slot(alloc, value)?;
        match Table::new(alloc, &[0, 0, commits], slots, &about) {
            Ok((table, seat)) => Ok((
                Turn { table },
                Pass {
                    seat,
                    seen: commits,
                    made: 0,
                    shares,
                },
            )),
            Err(_) => Err(AllocError),
        }
    }
}
