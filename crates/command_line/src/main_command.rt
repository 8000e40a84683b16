// `main --components FILE`
ghost use Rattle.std.specs.Prelude.{◌≡◌, IfOk, IfSome, IfNone};
ghost use Rattle.command_line.specs.Main.{AsksMain};
ghost use Rattle.command_line.specs.Words.{IsOnly, Text};

use crate::line::read_line;
use crate::matches::{has_no_file, value_of};
use crate::words::copy_of;
use clean_base::Word;
use std::alloc::{AllocError, Global};

/// The component list of `main`, or none where the words don't ask for it.
pub fn read_main(alloc: Global, words: &[Word]) -> Result<Option<Word>, AllocError>
    ensures some { IfOk result (λ found. IfSome found (IsOnly (AsksMain words.now))) }
    ensures none { IfOk result (λ found. IfNone found ((components : Text) → AsksMain words.now components → ⊥)) }
{
    let Some(line) = read_line(alloc, "main", &["components"], words)? else {
        return Ok(None);
    };
    if !has_no_file(&line) {
        return Ok(None);
    }
    let Some(components) = value_of(&line, "components") else {
        return Ok(None);
    };
    Ok(Some(copy_of(alloc, components)?))
}
