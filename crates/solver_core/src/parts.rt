// The parts of a state by numbers: how they begin, and what their numbers stand for. How moves are taken in stands
// beside; the state stands above.
ghost use Rattle.std.specs.Prelude.{◌≡◌, ◌≤◌, ◌∷◌, [], length, replicate, IfOk, None};
ghost use Rattle.std.specs.VecDeque.{deque_len, deque_capacity};
ghost use Rattle.ifds_model.specs.declared.node.Context.{Context};
ghost use Rattle.solver_core.specs.Numbers.{item_of, HasNumbersBelow};
ghost use Rattle.solver_core.specs.Store.{one_edge, spot};
ghost use Rattle.solver_core.specs.declared.pending.Pending.TheVariants.{Edge as PendingEdge};

use crate::edges::Edges;
use crate::pending::Pending;
use clean_base::Plain;
use entry_tables::EntryTables;
use ifds_model::{Context, Item, Node, Problem};
use std::alloc::{AllocError, Global};
use std::collections::VecDeque;

/// What a solver has found, and what is left to do.
#[derive(Drop)]
pub struct Parts<F: Plain, M: Plain> {
    pub tables: EntryTables<F>,
    pub edges: Edges<F>,
    pub queue: VecDeque<Pending<F>>,
    pub flights: Vec<Option<Pending<F>>>,
    pub marks: Vec<M>,
}

/// The node at which the root starts.
pub fn first_start<P: Problem>(
    alloc: Global,
    problem: &P,
    root: &Context<P::Fact>,
) -> Result<Node, AllocError>
    requires { root.now ≡ (P.machine problem.now).root }
    ensures { IfOk result (λ n. (P.machine problem.now).start (P.machine problem.now).root n) }
{
    let mut starts = Vec::new(alloc);
    problem.starts(root, &mut starts)?;
    Ok(starts[0])
}

// The tables that know the root alone.
fn root_tables<F: Plain>(alloc: Global, root: Context<F>) -> Result<EntryTables<F>, AllocError>
    ensures contexts { IfOk result (λ t. t.contexts ≡ root ∷ []) }
    ensures callers { IfOk result (λ t. t.callers ≡ [] ∷ []) }
    ensures exits { IfOk result (λ t. t.exits ≡ [] ∷ []) }
{
    let mut tables = EntryTables::new(alloc);
    tables.reserve_contexts(1, 0)?;
    tables.open_context(root);
    Ok(tables)
}

// The edge at which the root starts.
fn root_edge<F: Plain>(alloc: Global, node: Node, fact: F) -> Result<Edges<F>, AllocError>
    ensures { IfOk result (λ s. s.held ≡ one_edge (spot 0 node fact)) }
{
    let mut edges = Edges::new(alloc);
    edges.reserve(1)?;
    edges.add(0, node, fact);
    Ok(edges)
}

// So many workers with nothing in hand.
fn idle_workers<F: Plain>(
    alloc: Global,
    workers: u32,
) -> Result<Vec<Option<Pending<F>>>, AllocError>
    ensures { IfOk result (λ v. v.items ≡ replicate workers None) }
{
    let none: Option<Pending<F>> = None;
    vec![in alloc; none; workers as usize]
}

/// The parts that know the root alone, with its start to do.
pub fn first_parts<F: Plain, M: Plain>(
    alloc: Global,
    root: Context<F>,
    node: Node,
    workers: u32,
) -> Result<Parts<F, M>, AllocError>
    ensures contexts { IfOk result (λ s. s.tables.contexts ≡ root ∷ []) }
    ensures callers { IfOk result (λ s. s.tables.callers ≡ [] ∷ []) }
    ensures exits { IfOk result (λ s. s.tables.exits ≡ [] ∷ []) }
    ensures edges { IfOk result (λ s. s.edges.held ≡ one_edge (spot 0 node root.fact)) }
    ensures queue { IfOk result (λ s. s.queue.items ≡ PendingEdge 0 node root.fact ∷ []) }
    ensures room { IfOk result (λ s. deque_len s.queue ≤ deque_capacity s.queue) }
    ensures flights { IfOk result (λ s. s.flights.items ≡ replicate workers None) }
    ensures marks { IfOk result (λ s. s.marks.items ≡ []) }
{
    let tables = root_tables(alloc, root)?;
    let edges = root_edge(alloc, node, root.fact)?;
    let mut queue = VecDeque::with_capacity(alloc, 1)?;
    queue.push_back(Pending::Edge {
        context: 0,
        node,
        fact: root.fact,
    })?;
    let flights = idle_workers(alloc, workers)?;
    Ok(Parts {
        tables,
        edges,
        queue,
        flights,
        marks: Vec::new(alloc),
    })
}

/// The item that a work stands for.
pub fn named<F: Plain>(tables: &EntryTables<F>, work: Pending<F>) -> Item<F>
    requires { HasNumbersBelow (length tables.now.contexts) work }
    ensures { (root : Context F) → result ≡ item_of root tables.now.contexts work }
{
    match work {
        Pending::Edge {
            context,
            node,
            fact,
        } => Item::Edge {
            context: tables.context(context),
            node,
            fact,
        },
        Pending::Join {
            caller,
            call,
            callee,
            exit,
        } => Item::Join {
            caller: tables.context(caller),
            call,
            callee: tables.context(callee),
            exit,
        },
    }
}
