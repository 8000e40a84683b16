// Words as a line: a simple command of clap reads them, and what it takes beyond a line is refused here.
ghost use Rattle.std.specs.Prelude.{◌≡◌, ◌≢◌, IfOk, IfSome, IfNone, [], true, map};
ghost use Rattle.clap.specs.Faults.{fault_of, is_simple_and_free};
ghost use Rattle.clap.specs.Simple.{app_of, matches_of, with_rule};
ghost use Rattle.command_line.specs.Words.{Given, Gives, IsOnly};
ghost use Rattle.command_line.specs.Written.{IsFit, given_in, option_written, rows_in, written};

use crate::matches::is_all_given;
use crate::words::{is_first, see_text};
use clap::error::ErrorKind;
use clap::{Arg, ArgAction, ArgMatches, Command};
use clean_base::Word;
use std::alloc::{AllocError, Global};

// The command of this name, with files and no options yet.
fn with_files<'a>(alloc: Global, name: &'a str) -> Result<Command<'a>, AllocError>
    ensures { IfOk result (λ c. app_of c ≡ written name.now []) }
{
    let files = Arg::new(alloc, "file").action(ArgAction::Append);
    Command::new(alloc, name).disable_help_flag(true).arg(files)
}

// The command with one more option, which takes a value.
fn with_option<'a>(
    alloc: Global,
    command: Command<'a>,
    name: &'a str,
) -> Result<Command<'a>, AllocError>
    ensures { IfOk result (λ c. app_of c ≡ with_rule (app_of command.entry) (option_written name.now)) }
{
    let option = Arg::new(alloc, name).long(name).action(ArgAction::Set);
    command.arg(option)
}

// The command of this name with files and these options.
fn command_of<'a>(
    alloc: Global,
    name: &'a str,
    options: &[&'a str],
) -> Result<Command<'a>, AllocError>
    ensures { IfOk result (λ c. app_of c ≡ written name.now (map (λ s. s.now) options.now)) }
{
    let mut command = with_files(alloc, name)?;
    for option in options {
        command = with_option(alloc, command, *option)?;
    }
    Ok(command)
}

// The matches of the words, the first of which is passed over, or none where the command refuses them.
fn matched<'a>(
    command: Command<'a>,
    words: &'a [Word],
) -> Result<Option<ArgMatches<'a>>, AllocError>
    ensures some { is_simple_and_free (app_of command.entry) ≡ true → IfOk result (λ found. IfSome found (λ m.
        (fault_of (app_of command.entry) words.entry.now ≡ []) × (rows_in m ≡ matches_of (app_of command.entry) words.entry.now))) }
    ensures none { is_simple_and_free (app_of command.entry) ≡ true → IfOk result (λ found. IfNone found (fault_of (app_of command.entry) words.entry.now ≢ [])) }
{
    match command.try_get_matches_from(words) {
        Ok(matches) => Ok(Some(matches)),
        Err(error) => {
            if error.kind() == ErrorKind::OutOfMemory {
                Err(AllocError)
            } else {
                Ok(None)
            }
        }
    }
}

// What the words give to the command of this name with these options, or none where they are no line of it.
pub(crate) fn read_line<'a>(
    alloc: Global,
    name: &'a str,
    options: &[&'a str],
    words: &'a [Word],
) -> Result<Option<ArgMatches<'a>>, AllocError>
    ensures some { IsFit name.now (map (λ s. s.now) options.now) → IfOk result (λ found. IfSome found (λ m. IsOnly (Gives name.now (map (λ s. s.now) options.now) words.now) (given_in (rows_in m)))) }
    ensures none { IsFit name.now (map (λ s. s.now) options.now) → IfOk result (λ found. IfNone found ((given : Given) → Gives name.now (map (λ s. s.now) options.now) words.now given → ⊥)) }
{
    if !is_first(words, name) {
        return Ok(None);
    }
    see_text(words);
    let command = command_of(alloc, name, options)?;
    let Some(line) = matched(command, words)? else {
        return Ok(None);
    };
    if !is_all_given(&line, options) {
        return Ok(None);
    }
    Ok(Some(line))
}
