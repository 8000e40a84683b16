// `check FILE..`
ghost use Rattle.std.specs.Prelude.{◌≡◌, List, IfOk, IfSome, IfNone};
ghost use Rattle.command_line.specs.Check.{AsksCheck};
ghost use Rattle.command_line.specs.Words.{IsOnly, Text};

use crate::line::read_line;
use crate::matches::files_of;
use clean_base::{Seq, Word};
use std::alloc::{AllocError, Global};

/// The class files of `check`, or none where the words don't ask for it.
pub fn read_check(alloc: Global, words: &[Word]) -> Result<Option<Seq<Word>>, AllocError>
    ensures some { IfOk result (λ found. IfSome found (IsOnly (AsksCheck words.now))) }
    ensures none { IfOk result (λ found. IfNone found ((files : List Text) → AsksCheck words.now files → ⊥)) }
{
    let Some(line) = read_line(alloc, "check", &[], words)? else {
        return Ok(None);
    };
    files_of(alloc, &line)
}
