// The moves of one item of a problem, computed away from any solver. What a solver does with them stands above.
ghost use Rattle.std.specs.Prelude.{◌≡◌, ◌↔◌, IfOk, Contains};
ghost use Rattle.ifds_model.specs.Outcome.{AreMovesOf};

use crate::{Item, Move, Node, Problem};
use clean_base::StmtId;
use std::alloc::{AllocError, Global};
use std::marker::Model;

/// An item of a problem with its moves. No outcome has other moves than its item's: all that an edge may do, or all
/// that a caller may do behind its call.
#[derive(Drop)]
pub struct Outcome<'a, P: Problem> {
    problem: &'a P,
    item: Item<P::Fact>,
    moves: Vec<Move<P::Fact, P::Mark>>,
}

impl<'a, P: Problem> Model for Outcome<'a, P> {
    ghost use Rattle.ifds_model.specs.Outcome.{Work, AreMovesOf};

    ghost Value = { Work P P.Fact P.Mark };

    ghost view = { λ o. record { problem = o.problem.now; item = o.item; moves = o.moves.items } };

    ghost invariant = { λ o. AreMovesOf (P.machine o.problem.now) o.item o.moves.items };
}

impl<'a, P: Problem> Outcome<'a, P> {
    /// The problem that `work` was given, for its whole life.
    pub fn problem(&self) -> &'a P
        ensures { result.now ≡ self.now.problem }
    {
        self.problem
    }

    /// The item that `work` was given.
    pub fn item(&self) -> Item<P::Fact>
        ensures { result ≡ self.now.item }
    {
        self.item
    }

    /// The item's moves in no order, perhaps with repeats.
    pub fn moves(&self) -> &[Move<P::Fact, P::Mark>]
        ensures kept { result.now ≡ self.now.moves }
        ensures exact { AreMovesOf (P.machine self.now.problem) self.now.item result.now }
    {
        self.moves.as_slice()
    }
}

// All that a fact at a node may do.
fn edge_moves<P: Problem>(
    alloc: Global,
    problem: &P,
    node: Node,
    fact: P::Fact,
) -> Result<Vec<Move<P::Fact, P::Mark>>, AllocError>
    ensures { IfOk result (λ v. (m : _) → Contains v.items m ↔ (P.machine problem.now).step node fact m) }
{
    let mut moves = Vec::new(alloc);
    problem.step(node, &fact, &mut moves)?;
    Ok(moves)
}

// All that a caller may do behind its call, for an exit of what it called.
fn join_moves<P: Problem>(
    alloc: Global,
    problem: &P,
    call: StmtId,
    exit: P::Fact,
) -> Result<Vec<Move<P::Fact, P::Mark>>, AllocError>
    ensures { IfOk result (λ v. (m : _) → Contains v.items m ↔ (P.machine problem.now).back call exit m) }
{
    let mut moves = Vec::new(alloc);
    problem.back(call, &exit, &mut moves)?;
    Ok(moves)
}

// The moves of an item of either kind.
fn moves_of<P: Problem>(
    alloc: Global,
    problem: &P,
    item: Item<P::Fact>,
) -> Result<Vec<Move<P::Fact, P::Mark>>, AllocError>
    ensures { IfOk result (λ v. AreMovesOf (P.machine problem.now) item v.items) }
{
    match item {
        Item::Edge { node, fact, .. } => edge_moves(alloc, problem, node, fact),
        Item::Join { call, exit, .. } => join_moves(alloc, problem, call, exit),
    }
}

/// Computes the moves of an item.
pub fn work<'a, P: Problem>(
    alloc: Global,
    problem: &'a P,
    item: Item<P::Fact>,
) -> Result<Outcome<'a, P>, AllocError>
    ensures { IfOk result (λ o. (o.problem ≡ problem.now) × (o.item ≡ item)) }
{
    let moves = moves_of(alloc, problem, item)?;
    Ok(Outcome {
        problem,
        item,
        moves,
    })
}
