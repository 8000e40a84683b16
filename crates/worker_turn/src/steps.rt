// The steps of the turn, each on the seat of a pass.
ghost use Rattle.std.specs.Prelude.{◌≡◌, ◌≢◌, ◌⊎◌, ◌<◌, ◌≤◌, ◌+◌, ◌^◌, ◌-◌, None, Some, [], ◌∷◌, true, false};
ghost use Rattle.worker_turn.specs.Steps.{drawn, with_turn, counted, taken_out, put_in, passed_on, kept_part, given_part, joined};

use crate::rule::{Count, Cut, Draw, Look, Merge, PassOn, Place, PutIn, Row, TakeOut};
use clean_base::Counted;

// One try to draw a ticket. The answer is the word as it was found.
pub fn try_draw<V: Counted>(row: &Row<V>, seat: &mut Place<V>, next: u64) -> u64
    requires own { (seat.old.table_id ≡ row.now.table_id) × (row.now.table_id.words ≡ 3) }
    requires live { 0 < seat.old.me.0.shares }
    requires idle { seat.old.me.0.ticket ≡ None }
    requires small { next < 2 ^ 64 - 1 }
    ensures own { seat.new.table_id ≡ seat.old.table_id }
    ensures drawn { result ≡ next → seat.new.me ≡ (drawn seat.old.me.0 next, seat.old.me.1) }
    ensures kept { result ≢ next → seat.new.me ≡ seat.old.me }
{
    row.compare_exchange::<Draw>(seat, 0, next, next + 1)
}

// Reads which ticket is served. Where it is the pass's own, its turn has come.
pub fn look<V: Counted>(row: &Row<V>, seat: &mut Place<V>, ticket: u64) -> u64
    requires own { (seat.old.table_id ≡ row.now.table_id) × (row.now.table_id.words ≡ 3) }
    requires live { 0 < seat.old.me.0.shares }
    requires drawn { seat.old.me.0.ticket ≡ Some ticket }
    ensures own { seat.new.table_id ≡ seat.old.table_id }
    ensures come { result ≡ ticket → seat.new.me ≡ (with_turn seat.old.me.0, seat.old.me.1) }
    ensures kept { result ≢ ticket → seat.new.me ≡ seat.old.me }
{
    row.load::<Look>(seat, 1)
}

// A look without a ticket, which changes nothing: what was made, and the shares, fit their words.
pub fn glance<V: Counted>(row: &Row<V>, seat: &mut Place<V>)
    requires own { (seat.old.table_id ≡ row.now.table_id) × (row.now.table_id.words ≡ 3) }
    requires live { 0 < seat.old.me.0.shares }
    requires idle { seat.old.me.0.ticket ≡ None }
    ensures own { seat.new.table_id ≡ seat.old.table_id }
    ensures kept { seat.new.me ≡ seat.old.me }
    ensures fits { (seat.old.me.0.made < 2 ^ 64) × (seat.old.me.0.shares < 2 ^ 32) }
{
    row.load::<Look>(seat, 1);
}

// Adds to the word, and answers what it was before.
pub fn count<V: Counted>(row: &Row<V>, seat: &mut Place<V>, more: u64) -> u64
    requires own { (seat.old.table_id ≡ row.now.table_id) × (row.now.table_id.words ≡ 3) }
    requires live { 0 < seat.old.me.0.shares }
    requires turn { seat.old.me.0.turn ≡ true }
    requires held { (more ≡ 0) ⊎ (seat.old.me.0.hand ≡ true) }
    requires room { seat.old.me.0.seen + more < 2 ^ 64 }
    ensures own { seat.new.table_id ≡ seat.old.table_id }
    ensures counted { seat.new.me ≡ (counted seat.old.me.0 more (result + more), seat.old.me.1) }
    ensures seen { seat.old.me.0.seen ≤ result }
    ensures exact { seat.old.me.0.hand ≡ true → seat.old.me.0.seen ≡ result }
    ensures fits { (result + more < 2 ^ 64) × (seat.old.me.0.made + more < 2 ^ 64) }
{
    row.fetch_add::<Count>(seat, 2, more)
}

// Serves the next ticket.
pub fn pass_on<V: Counted>(row: &Row<V>, seat: &mut Place<V>)
    requires own { (seat.old.table_id ≡ row.now.table_id) × (row.now.table_id.words ≡ 3) }
    requires live { 0 < seat.old.me.0.shares }
    requires turn { (seat.old.me.0.turn ≡ true) × (seat.old.me.0.hand ≡ false) }
    ensures own { seat.new.table_id ≡ seat.old.table_id }
    ensures passed { seat.new.me ≡ (passed_on seat.old.me.0, seat.old.me.1) }
{
    row.fetch_add::<PassOn>(seat, 1, 1);
}

// Takes the value out of the slot.
pub fn take_out<V: Counted>(row: &Row<V>, seat: &mut Place<V>) -> V
    requires own { (seat.old.table_id ≡ row.now.table_id) × (row.now.table_id.words ≡ 3) }
    requires live { 0 < seat.old.me.0.shares }
    requires counted { (seat.old.me.0.counted ≡ true) × (seat.old.me.0.hand ≡ false) × (seat.old.me.1 ≡ []) }
    ensures own { seat.new.table_id ≡ seat.old.table_id }
    ensures taken { seat.new.me ≡ (taken_out seat.old.me.0, (0, None) ∷ []) }
    ensures owner { seat.old.me.0.owner ≡ Some (V.owner result) }
    ensures commits { V.count result ≡ seat.old.me.0.seen }
{
    row.load::<TakeOut>(seat, 2);
    match row.exchange(seat, 0, None) {
        Some(value) => value,
        None => unreachable!(),
    }
}

// Puts the value into the slot.
pub fn put_back<V: Counted>(row: &Row<V>, seat: &mut Place<V>, value: V)
    requires own { (seat.old.table_id ≡ row.now.table_id) × (row.now.table_id.words ≡ 3) }
    requires live { 0 < seat.old.me.0.shares }
    requires held { (seat.old.me.0.counted ≡ true) × (seat.old.me.0.hand ≡ true) × (seat.old.me.1 ≡ (0, None) ∷ []) }
    requires owner { seat.old.me.0.owner ≡ Some (V.owner value) }
    requires commits { V.count value ≡ seat.old.me.0.seen }
    ensures own { seat.new.table_id ≡ seat.old.table_id }
    ensures put { seat.new.me ≡ (put_in seat.old.me.0, []) }
{
    let held = row.exchange(seat, 0, Some(value));
    let None = held else { unreachable!() };
    row.load::<PutIn>(seat, 2);
}

// Gives one share to a new seat.
pub fn cut<V: Counted>(row: &Row<V>, seat: &mut Place<V>) -> Place<V>
    requires own { (seat.old.table_id ≡ row.now.table_id) × (row.now.table_id.words ≡ 3) }
    requires two { 2 ≤ seat.old.me.0.shares }
    ensures own { (seat.new.table_id ≡ seat.old.table_id) × (result.table_id ≡ seat.old.table_id) }
    ensures kept { seat.new.me ≡ (kept_part seat.old.me.0, seat.old.me.1) }
    ensures given { result.me ≡ (given_part seat.old.me.0, []) }
{
    row.split_seat::<Cut>(seat)
}

// Takes in another seat.
pub fn merge<V: Counted>(row: &Row<V>, seat: &mut Place<V>, other: Place<V>)
    requires own { (seat.old.table_id ≡ row.now.table_id) × (other.table_id ≡ row.now.table_id) × (row.now.table_id.words ≡ 3) }
    requires live { (0 < seat.old.me.0.shares) × (0 < other.me.0.shares) }
    requires idle { (seat.old.me.0.ticket ≡ None) × (other.me.0.ticket ≡ None) × (other.me.1 ≡ []) }
    ensures own { seat.new.table_id ≡ seat.old.table_id }
    ensures joined { seat.new.me ≡ (joined seat.old.me.0 other.me.0, seat.old.me.1) }
{
    row.join_seat::<Merge>(seat, other);
}
