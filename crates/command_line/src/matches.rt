// clap's matches of a line: its files, and the values of its options. `words` stands below; the readers of lines above.
ghost use Rattle.std.specs.Prelude.{◌≡◌, ◌↔◌, IfOk, IfSome, IfNone, IsTrue, Some, [], All, bytes_eq, codes, false, map, option_map};
ghost use Rattle.command_line.specs.Words.{AreFiles, IsGiven, Text};
ghost use Rattle.command_line.specs.Written.{HasGivenValues, given_in, rows_in};

use crate::words::{are_given, copies_of, is_given};
use clap::ArgMatches;
use clean_base::{Seq, Word};
use std::alloc::{AllocError, Global};

// The most files of a command.
const MOST_FILES: usize = 4096;

// The value of an option, where the line has it.
pub(crate) fn value_of<'a>(line: &ArgMatches<'a>, option: &str) -> Option<&'a str>
    ensures { bytes_eq (codes "file") option.now ≡ false → option_map (λ s. s.now) result ≡ (given_in (rows_in line.now)).value option.now }
{
    line.get_str(option)
}

pub(crate) fn has_no_file(line: &ArgMatches<'_>) -> bool
    ensures { IsTrue result ↔ ((given_in (rows_in line.now)).files ≡ []) }
{
    match line.get_strs("file") {
        Some(files) => files.is_empty(),
        None => true,
    }
}

fn are_files(names: &[&str]) -> bool
    ensures { IsTrue result ↔ AreFiles (map (λ s. s.now) names.now) }
{
    !names.is_empty() && names.len() <= MOST_FILES
}

// The files, where they are 1 to 4,096.
pub(crate) fn files_of(
    alloc: Global,
    line: &ArgMatches<'_>,
) -> Result<Option<Seq<Word>>, AllocError>
    ensures some { IfOk result (λ found. IfSome found (λ files. (files ≡ (given_in (rows_in line.now)).files) × AreFiles files)) }
    ensures none { IfOk result (λ found. IfNone found (AreFiles (given_in (rows_in line.now)).files → ⊥)) }
{
    let Some(files) = line.get_strs("file") else {
        return Ok(None);
    };
    if !are_files(files) {
        return Ok(None);
    }
    Ok(Some(copies_of(alloc, files)?))
}

fn has_given_files(line: &ArgMatches<'_>) -> bool
    ensures { IsTrue result ↔ All IsGiven (given_in (rows_in line.now)).files }
{
    match line.get_strs("file") {
        Some(files) => are_given(files),
        None => true,
    }
}

fn is_absent_or_given(value: Option<&str>) -> bool
    ensures { IsTrue result ↔ ((v : Text) → option_map (λ s. s.now) value.entry ≡ Some v → IsGiven v) }
{
    match value {
        Some(value) => is_given(value),
        None => true,
    }
}

fn has_given_values(line: &ArgMatches<'_>, options: &[&str]) -> bool
    ensures { IsTrue result ↔ HasGivenValues (map (λ s. s.now) options.now) (rows_in line.now) }
{
    for option in options {
        if !is_absent_or_given(line.get_str(*option)) {
            return false;
        }
    }
    true
}

// Whether no file and no value is empty or `-`.
pub(crate) fn is_all_given(line: &ArgMatches<'_>, options: &[&str]) -> bool
    ensures { IsTrue result ↔ (All IsGiven (given_in (rows_in line.now)).files × HasGivenValues (map (λ s. s.now) options.now) (rows_in line.now)) }
{
    has_given_files(line) && has_given_values(line, options)
}
