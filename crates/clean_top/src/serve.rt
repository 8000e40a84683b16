// The top call: from words and files to an output, or a status that says why there is none.
ghost use Rattle.std.specs.Prelude.{◌≡◌, ◌≤◌, List, ℕ, length, IfErr};
ghost use Rattle.clean_top.specs.Answer.{Serves, IsRefused, Writes, Complains, run_of, halted};
ghost use Rattle.clean_top.specs.Meaning.{means};
ghost use Rattle.clean_top.specs.Reading.{Reads, IsHaltAmong};
ghost use Rattle.clean_top.specs.Words.{Asks, AreNamed, Fits, IsUsage, in_order};
ghost use Rattle.clean_top.specs.declared.task.Command.{Command};

use crate::complain::{MEMORY, USAGE, complain, say};
use crate::output::Output;
use crate::read::{ReadHalt, read_named};
use crate::status::Status;
use crate::task::Command;
use crate::words::parse;
use crate::work::work;
use clean_base::{Shelf, Sink, Word, put_all};
use clean_stage::{Halt, Refusal};
use std::alloc::Global;

// Reads the files of a command, and does its work.
fn answer<S: Shelf>(alloc: Global, command: &Command, shelf: &mut S) -> Result<Output, ReadHalt>
    requires { Fits command.now }
    ensures read { Reads (S.holds shelf.old) (S.faults shelf.old) (S.faults shelf.new) (in_order command.now.names) 0 (means command.now) result }
    ensures among { IfErr result (IsHaltAmong (length (in_order command.now.names))) }
    ensures same { (other : List ℕ) → S.holds shelf.new other ≡ S.holds shelf.old other }
    ensures later { (other : List ℕ) → S.faults shelf.old other ≤ S.faults shelf.new other }
{
    let texts = read_named(alloc, shelf, &command.names)?;
    Ok(work(alloc, &command.task, &texts)?)
}

fn halted(halt: ReadHalt) -> Status
    ensures { result ≡ halted halt }
{
    match halt {
        ReadHalt::ReadFault { file } => Status::ReadFault { file },
        ReadHalt::Halt(Halt::Refused(Refusal::Fault(fault))) => Status::Input(fault),
        ReadHalt::Halt(Halt::Refused(Refusal::EdgeLimit { found })) => Status::EdgeLimit { found },
        ReadHalt::Halt(Halt::OutOfMemory) => Status::OutOfMemory,
    }
}

// Writes an output.
fn write_out<K: Sink>(out: &mut K, output: &Output) -> Status
    ensures { Writes (K.taken out.old) (K.taken out.new) (K.faults out.old) (K.faults out.new) output.now result }
{
    match put_all(out, output.text.as_slice()) {
        Ok(()) if output.leaky => Status::Leaks,
        Ok(()) => Status::Clean,
        Err(fault) => Status::WriteFault {
            written: fault.written,
        },
    }
}

// Serves a command, without a line on the error sink.
fn serve<S: Shelf, K: Sink>(alloc: Global, command: &Command, shelf: &mut S, out: &mut K) -> Status
    requires { Fits command.now }
    ensures serves { Serves (run_of S.holds S.faults K.taken K.faults shelf.old shelf.new out.old out.new) command.now result }
    ensures same { (name : List ℕ) → S.holds shelf.new name ≡ S.holds shelf.old name }
{
    match answer(alloc, command, shelf) {
        Ok(output) => write_out(out, &output),
        Err(halt) => halted(halt),
    }
}

/// Serves a command line (docs/COMMANDS.md).
///
/// The words are those behind the program's name. The whole output is made before a byte of it is written to `out`;
/// after a refusal `err` takes its one line.
pub fn clean_plain<S: Shelf, K: Sink, E: Sink>(
    alloc: Global,
    words: &[Word],
    shelf: &mut S,
    out: &mut K,
    err: &mut E,
) -> Status
    // What was asked for is served: the status says so much and no more, and no other may come.
    ensures serves { (command : Command) → Asks words.now command → Serves (run_of S.holds S.faults K.taken K.faults shelf.old shelf.new out.old out.new) command result }
    ensures usage { IsUsage words.now → IsRefused (K.taken out.old) (K.taken out.new) result }

    // The shelf holds what it held, so a second call on these words means the same.
    ensures same { (name : List ℕ) → S.holds shelf.new name ≡ S.holds shelf.old name }

    // The error sink takes the line of the status, with the names of the words, and nothing else.
    ensures line { (names : List (List ℕ)) → AreNamed words.now names → Complains names (E.taken err.old) (E.taken err.new) (E.faults err.old) (E.faults err.new) result }
{
    match parse(alloc, words) {
        Ok(Some(command)) => {
            let status = serve(alloc, &command, shelf, out);
            complain(alloc, &command.names, status, err)
        }
        Ok(None) => {
            say(err, USAGE);
            Status::Usage
        }
        Err(_) => {
            say(err, MEMORY);
            Status::OutOfMemory
        }
    }
}
