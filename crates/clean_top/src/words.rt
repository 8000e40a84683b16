// What the words of a command line ask for. `command_line` stands below.
ghost use Rattle.std.specs.Prelude.{◌≡◌, [], ◌∷◌, IfOk, IfSome, IfNone};
ghost use Rattle.clean_top.specs.Words.{Asks, Fits, IsUsage, named_of, start_of};
ghost use Rattle.clean_top.specs.declared.task.Command.{Command};

use crate::task::{Command, Named, Start, Task};
use clean_base::{Seq, Word};
use command_line::{Input, Root, Serial, read_check, read_graph, read_main, read_serial};
use std::alloc::{AllocError, Global};

// `check` of these class files.
fn check(alloc: Global, classes: Seq<Word>) -> Command
    ensures { result ≡ record { names = record { classes = classes; lists = [] }; task = Task.Check } }
{
    let names = Named {
        classes,
        lists: Seq::from_vec(Vec::new(alloc)),
    };
    Command {
        names,
        task: Task::Check,
    }
}

// `main` of this list of components.
fn main(alloc: Global, components: Word) -> Result<Command, AllocError>
    ensures { IfOk result (λ command. command ≡ record { names = record { classes = []; lists = components ∷ [] }; task = Task.Main }) }
{
    let mut lists = Vec::new(alloc);
    lists.push(components)?;
    let names = Named {
        classes: Seq::from_vec(Vec::new(alloc)),
        lists: Seq::from_vec(lists),
    };
    Ok(Command {
        names,
        task: Task::Main,
    })
}

// The files of a program, and where it begins.
fn named(alloc: Global, input: Input) -> Result<(Named, Start), AllocError>
    ensures names { IfOk result (λ parts. parts.0 ≡ named_of input) }
    ensures start { IfOk result (λ parts. parts.1 ≡ start_of input.root) }
{
    let Input {
        root,
        lists,
        classes,
    } = input;
    let mut others = Vec::new(alloc);
    let start = match root {
        Root::Entry(sig) => Start::Method(sig),
        Root::Components(file) => {
            others.push(file)?;
            Start::Components
        }
    };
    others.push(lists)?;
    let names = Named {
        classes,
        lists: Seq::from_vec(others),
    };
    Ok((names, start))
}

/// What the words ask for, or none where they are of no form.
pub fn parse(alloc: Global, words: &[Word]) -> Result<Option<Command>, AllocError>
    ensures some { IfOk result (λ found. IfSome found (λ command. Asks words.now command × ((other : Command) → Asks words.now other → other ≡ command))) }
    ensures fits { IfOk result (λ found. IfSome found Fits) }
    ensures none { IfOk result (λ found. IfNone found (IsUsage words.now)) }
{
    if let Some(classes) = read_check(alloc, words)? {
        return Ok(Some(check(alloc, classes)));
    }
    if let Some(components) = read_main(alloc, words)? {
        return Ok(Some(main(alloc, components)?));
    }
    if let Some(input) = read_graph(alloc, words)? {
        let (names, start) = named(alloc, input)?;
        let task = Task::Graph { start };
        return Ok(Some(Command { names, task }));
    }
    if let Some(Serial { input, tuning }) = read_serial(alloc, words)? {
        let (names, start) = named(alloc, input)?;
        let task = Task::Serial { start, tuning };
        return Ok(Some(Command { names, task }));
    }
    Ok(None)
}
