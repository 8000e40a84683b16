// `serial (--entry SIGNATURE | --components FILE) --lists FILE [--k N] [--period N] [--max-edges N] FILE..`
ghost use Rattle.std.specs.Prelude.{◌≡◌, IfOk, IfSome, IfNone};
ghost use Rattle.command_line.specs.Serial.{AsksSerial};
ghost use Rattle.command_line.specs.Words.{IsOnly};

use crate::input::{Input, input_of};
use crate::line::read_line;
use crate::tuning::{Tuning, tuning_of};
use clean_base::Word;
use std::alloc::{AllocError, Global};

/// What `serial` is asked for.
#[derive(Debug, Drop)]
pub struct Serial {
    pub input: Input,
    pub tuning: Tuning,
}

/// What `serial` is asked for, or none where the words don't ask for it.
pub fn read_serial(alloc: Global, words: &[Word]) -> Result<Option<Serial>, AllocError>
    ensures some { IfOk result (λ found. IfSome found (IsOnly (AsksSerial words.now))) }
    ensures none { IfOk result (λ found. IfNone found ((serial : Serial) → AsksSerial words.now serial → ⊥)) }
{
    let options = ["entry", "components", "lists", "k", "period", "max-edges"];
    let Some(line) = read_line(alloc, "serial", &options, words)? else {
        return Ok(None);
    };
    let Some(tuning) = tuning_of(&line) else {
        return Ok(None);
    };
    let Some(input) = input_of(alloc, &line)? else {
        return Ok(None);
    };
    Ok(Some(Serial { input, tuning }))
}
