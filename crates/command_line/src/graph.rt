// `graph (--entry SIGNATURE | --components FILE) --lists FILE FILE..`
ghost use Rattle.std.specs.Prelude.{◌≡◌, IfOk, IfSome, IfNone};
ghost use Rattle.command_line.specs.Graph.{AsksGraph};
ghost use Rattle.command_line.specs.Words.{IsOnly};

use crate::input::{Input, input_of};
use crate::line::read_line;
use clean_base::Word;
use std::alloc::{AllocError, Global};

/// The program of `graph`, or none where the words don't ask for it.
pub fn read_graph(alloc: Global, words: &[Word]) -> Result<Option<Input>, AllocError>
    ensures some { IfOk result (λ found. IfSome found (IsOnly (AsksGraph words.now))) }
    ensures none { IfOk result (λ found. IfNone found ((input : Input) → AsksGraph words.now input → ⊥)) }
{
    let Some(line) = read_line(alloc, "graph", &["entry", "components", "lists"], words)? else {
        return Ok(None);
    };
    input_of(alloc, &line)
}
