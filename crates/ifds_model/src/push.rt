// Moves put at the end of a list, for problems of any facts and marks.
ghost use Rattle.std.specs.Prelude.{◌≡◌, ◌++◌, ◌∷◌, [], OnOk};

use crate::{Context, Dir, Move, Node};
use clean_base::{MethodId, Plain, StmtId};
use std::alloc::AllocError;

/// A fact goes on to a node.
pub fn push_go<F: Plain, M: Plain>(
    out: &mut Vec<Move<F, M>>,
    node: Node,
    fact: &F,
) -> Result<(), AllocError>
    ensures { OnOk result (out.new.items ≡ out.old.items ++ Move.Go node fact.now ∷ []) }
{
    out.push(Move::Go { node, fact: *fact })?;
    Ok(())
}

/// It calls a context at a statement.
pub fn push_call<F: Plain, M: Plain>(
    out: &mut Vec<Move<F, M>>,
    at: StmtId,
    method: MethodId,
    dir: Dir,
    fact: &F,
) -> Result<(), AllocError>
    ensures { OnOk result (out.new.items ≡ out.old.items ++ Move.Call at (record { method = method; dir = dir; fact = fact.now }) ∷ []) }
{
    let context = Context {
        method,
        dir,
        fact: *fact,
    };
    out.push(Move::Call { at, context })?;
    Ok(())
}

/// It leaves its context.
pub fn push_exit<F: Plain, M: Plain>(out: &mut Vec<Move<F, M>>, fact: &F) -> Result<(), AllocError>
    ensures { OnOk result (out.new.items ≡ out.old.items ++ Move.Exit fact.now ∷ []) }
{
    out.push(Move::Exit { fact: *fact })?;
    Ok(())
}

/// It is a leak.
pub fn push_mark<F: Plain, M: Plain>(out: &mut Vec<Move<F, M>>, mark: &M) -> Result<(), AllocError>
    ensures { OnOk result (out.new.items ≡ out.old.items ++ Move.Mark mark.now ∷ []) }
{
    out.push(Move::Mark { mark: *mark })?;
    Ok(())
}
