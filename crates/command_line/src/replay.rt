// `replay (--entry SIGNATURE | --components FILE) --lists FILE --schedule FILE [--workers N] [--k N] [--period N] [--max-edges N] FILE..`
ghost use Rattle.std.specs.Prelude.{◌≡◌, IfOk, IfSome, IfNone};
ghost use Rattle.command_line.specs.Replay.{AsksReplay};
ghost use Rattle.command_line.specs.Words.{IsOnly};

use crate::input::{Input, input_of};
use crate::line::read_line;
use crate::matches::value_of;
use crate::tuning::{Tuning, number_given, tuning_of};
use crate::words::copy_of;
use clean_base::Word;
use std::alloc::{AllocError, Global};

/// What `replay` is asked for: a program, numbers, the schedule to follow, and how many workers it speaks of.
#[derive(Debug, Drop)]
pub struct Replay {
    pub input: Input,
    pub tuning: Tuning,
    pub schedule: Word,
    pub workers: u32,
}

/// What `replay` is asked for, or none where the words don't ask for it.
pub fn read_replay(alloc: Global, words: &[Word]) -> Result<Option<Replay>, AllocError>
    ensures some { IfOk result (λ found. IfSome found (IsOnly (AsksReplay words.now))) }
    ensures none { IfOk result (λ found. IfNone found ((replay : Replay) → AsksReplay words.now replay → ⊥)) }
{
    let options = [
        "entry",
        "components",
        "lists",
        "k",
        "period",
        "max-edges",
        "schedule",
        "workers",
    ];
    let Some(line) = read_line(alloc, "replay", &options, words)? else {
        return Ok(None);
    };
    let Some(tuning) = tuning_of(&line) else {
        return Ok(None);
    };
    let Some(workers) = number_given(value_of(&line, "workers"), 1, 64, 1) else {
        return Ok(None);
    };
    let Some(schedule) = value_of(&line, "schedule") else {
        return Ok(None);
    };
    let Some(input) = input_of(alloc, &line)? else {
        return Ok(None);
    };
    let schedule = copy_of(alloc, schedule)?;
    Ok(Some(Replay {
        input,
        tuning,
        schedule,
        workers: workers as u32,
    }))
}
