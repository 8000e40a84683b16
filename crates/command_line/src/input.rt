// Where a program is entered, and of what files it is made.
ghost use Rattle.std.specs.Prelude.{◌≡◌, IfOk, IfSome, IfNone, List, ℕ, option_map};
ghost use Rattle.command_line.specs.Input.{IsInput, IsRoot};
ghost use Rattle.command_line.specs.Words.{IsOnly};
ghost use Rattle.command_line.specs.Written.{given_in, rows_in};

use crate::matches::{files_of, value_of};
use crate::words::copy_of;
use clap::ArgMatches;
use clean_base::{Seq, Word};
use jimple_tree::Sig;
use source_sink::read_sig;
use std::alloc::{AllocError, Global};

/// Where a program is entered: at a method, or at the components of an app, which a file lists.
#[derive(Debug, Drop)]
pub enum Root {
    Entry(Sig),
    Components(Word),
}

/// A program as words name it: its root, the list of sources and sinks, and the class files in their order.
#[derive(Debug, Drop)]
pub struct Input {
    pub root: Root,
    pub lists: Word,
    pub classes: Seq<Word>,
}

fn entry_of(alloc: Global, signature: &str) -> Result<Option<Root>, AllocError>
    ensures some { IfOk result (λ found. IfSome found (IsOnly (IsRoot (Some signature.now) None))) }
    ensures none { IfOk result (λ found. IfNone found ((root : Root) → IsRoot (Some signature.now) None root → ⊥)) }
{
    match read_sig(alloc, signature.as_bytes())? {
        Some(sig) => Ok(Some(Root::Entry(sig))),
        None => Ok(None),
    }
}

fn root_of(
    alloc: Global,
    entry: Option<&str>,
    components: Option<&str>,
) -> Result<Option<Root>, AllocError>
    ensures some { IfOk result (λ found. IfSome found (IsOnly (IsRoot (option_map (λ s. s.now) entry.entry) (option_map (λ s. s.now) components.entry)))) }
    ensures none { IfOk result (λ found. IfNone found ((root : Root) → IsRoot (option_map (λ s. s.now) entry.entry) (option_map (λ s. s.now) components.entry) root → ⊥)) }
{
    match (entry, components) {
        (Some(signature), None) => entry_of(alloc, signature),
        (None, Some(file)) => Ok(Some(Root::Components(copy_of(alloc, file)?))),
        _ => Ok(None),
    }
}

// What the line names, or none where its root, its list or its files don't.
pub(crate) fn input_of(alloc: Global, line: &ArgMatches<'_>) -> Result<Option<Input>, AllocError>
    ensures some { IfOk result (λ found. IfSome found (IsOnly (IsInput (given_in (rows_in line.now))))) }
    ensures none { IfOk result (λ found. IfNone found ((input : Input) → IsInput (given_in (rows_in line.now)) input → ⊥)) }
{
    let Some(lists) = value_of(line, "lists") else {
        return Ok(None);
    };
    let Some(classes) = files_of(alloc, line)? else {
        return Ok(None);
    };
    let Some(root) = root_of(alloc, value_of(line, "entry"), value_of(line, "components"))? else {
        return Ok(None);
    };
    let lists = copy_of(alloc, lists)?;
    Ok(Some(Input {
        root,
        lists,
        classes,
    }))
}
