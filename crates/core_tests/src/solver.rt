// The moves of each kind of item of the example, and what the driver answers of it, which is found by hand.
//
// The root holds 0, 1 and 2 with fact 7, and its callee holds 4 with 7: four edges and two contexts. In the recursive
// program the root holds 0 and 1 with 7, and 2 with 7 and 8; method 1 entered with 7 holds 3 with 7, and 4 with 7 and,
// back from 8, with 8; entered with 8 it holds 3 with 8, and 4 with 8 and 7: ten edges and three contexts.
use crate::example::{Example, before, entered};
use clean_base::{LocalId, StmtId};
use core_driver::{finish, play};
use ifds_model::{Event, Item, Move, work};
use solver_core::{CommitStop, State};
use std::test::Fail;

const fn edge(method: u32, stmt: u32, fact: u16) -> Item<LocalId> {
    Item::Edge {
        context: entered(method, LocalId(7)),
        node: before(stmt),
        fact: LocalId(fact),
    }
}

#[test]
fn the_moves_of_each_kind_of_item(rt: HostRuntime) -> Result<(), Fail> {
    let call = Move::Call {
        at: StmtId(1),
        context: entered(1, LocalId(8)),
    };
    let back = Move::Go {
        node: before(2),
        fact: LocalId(9),
    };
    let on = Move::Go {
        node: before(1),
        fact: LocalId(8),
    };
    let join = Item::Join {
        caller: entered(0, LocalId(7)),
        call: StmtId(1),
        callee: entered(1, LocalId(8)),
        exit: LocalId(9),
    };
    let table = [
        (edge(0, 0, 8), on),
        (edge(0, 1, 8), call),
        (edge(0, 2, 8), Move::Mark { mark: LocalId(8) }),
        (edge(1, 4, 8), Move::Exit { fact: LocalId(8) }),
        (join, back),
    ];
    for (item, only) in table {
        let outcome = work(rt.alloc(), &Example { recursive: true }, item)?;
        assert_eq!(rt; outcome.item(), item);
        assert_eq!(rt; outcome.moves(), [only].as_slice());
    }
    Ok(())
}

// The root's first two edges are committed by turns, and the second worker is left with a second start of the callee,
// where there is one. What can't happen is passed over: a take of what isn't there, a commit of nothing, and dropping.
const EVENTS: [Event; 10] = [
    Event::Take {
        worker: 0,
        place: 0,
    },
    Event::Take {
        worker: 1,
        place: 0,
    },
    Event::Commit { worker: 1 },
    Event::Commit { worker: 0 },
    Event::Take {
        worker: 1,
        place: 0,
    },
    Event::Back { worker: 1 },
    Event::Take {
        worker: 0,
        place: 0,
    },
    Event::Commit { worker: 0 },
    Event::Take {
        worker: 1,
        place: 1,
    },
    Event::Sweep,
];

#[test]
fn a_program_worked_off(rt: HostRuntime) -> Result<(), Fail> {
    let marks = [LocalId(7), LocalId(8)];
    let table = [
        (false, 4, 3, 1, 2),
        (false, 100, 3, 1, 2),
        (true, 10, 4, 2, 3),
        (true, 100, 4, 2, 3),
    ];
    for (recursive, max_edges, held, leaks, contexts) in table {
        let problem = Example { recursive };
        let mut state = State::open(rt.alloc(), &problem, 1, max_edges, 2)?;
        play(rt.alloc(), &mut state, &EVENTS).expect(&rt, "within the limit");
        assert_eq!(rt;
            (state.commits(), state.queued(), state.held()),
            (2, 1, held)
        );
        let answer = finish(rt.alloc(), state).expect(&rt, "within the limit");
        let edges = if recursive { 10 } else { 4 };
        assert_eq!(rt; answer.marks.as_slice(), &marks[..leaks]);
        assert_eq!(rt;
            (answer.edges, answer.contexts, answer.commits),
            (edges, contexts, edges)
        );
    }
    Ok(())
}

#[test]
fn more_edges_than_the_limit(rt: HostRuntime) -> Result<(), Fail> {
    for (recursive, max_edges) in [(false, 1), (false, 3), (true, 1), (true, 9)] {
        let problem = Example { recursive };
        let state = State::open(rt.alloc(), &problem, 1, max_edges, 1)?;
        let stop = finish(rt.alloc(), state).err();
        let found = max_edges + 1;
        assert_eq!(rt; stop, Some(CommitStop::EdgeLimit { found }));
    }
    Ok(())
}
