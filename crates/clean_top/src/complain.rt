// The line on the standard error that says why a call refused.
ghost use Rattle.std.specs.Prelude.{◌≡◌, ◌-◌, ◌++◌, OnOk, IfOk, codes, decimal};
ghost use Rattle.clean_top.specs.Answer.{Complains, OrMemory, Takes};
ghost use Rattle.clean_top.specs.Status.{class_fault_text, fault_text, file_word, form_word, place_text, line_text};
ghost use Rattle.clean_top.specs.Words.{in_order};

use crate::status::Status;
use crate::task::Named;
use arrayvec::ArrayString;
use clean_base::{Form, InputFault, Name, Sink, put_all};
use itoa::Buffer;
use std::alloc::{AllocError, Global};

// The name of a file, by its place in the order of reading.
fn file_of(names: &Named, file: u32) -> &str
    ensures { result.now ≡ file_word (in_order names.now) file }
{
    let classes = names.classes.as_slice();
    let lists = names.lists.as_slice();
    let place = file as usize;
    if place < classes.len() {
        return classes[place].as_str();
    }
    match lists.get(place - classes.len()) {
        Some(word) => word.as_str(),
        None => "",
    }
}

// What is wrong with a file, and where.
fn write_place(line: &mut Vec<u8>, name: &str, wrong: &[u8], at: u64) -> Result<(), AllocError>
    ensures { OnOk result (line.new.items ≡ line.old.items ++ place_text name.now wrong.now at) }
{
    let mut buffer = Buffer::new();
    line.extend_from_slice(name.as_bytes())?;
    line.extend_from_slice(b": ")?;
    line.extend_from_slice(wrong)?;
    line.extend_from_slice(buffer.format(at).as_bytes())
}

// The same, and a word behind it.
fn write_place_and(
    line: &mut Vec<u8>,
    name: &str,
    wrong: &[u8],
    at: u64,
    behind: &[u8],
) -> Result<(), AllocError>
    ensures { OnOk result (line.new.items ≡ line.old.items ++ (place_text name.now wrong.now at ++ behind.now)) }
{
    write_place(line, name, wrong, at)?;
    line.extend_from_slice(behind)
}

// What is wrong with the whole input.
fn write_whole(line: &mut Vec<u8>, wrong: &[u8]) -> Result<(), AllocError>
    ensures { OnOk result (line.new.items ≡ line.old.items ++ wrong.now) }
{
    line.extend_from_slice(wrong)
}

// What is said of a word that isn't supported, up to its place.
fn refusal(form: Form) -> &'static [u8]
    ensures { result.now ≡ form_word form ++ codes " not supported at " }
{
    match form {
        Form::Dynamic => b"dynamicinvoke not supported at ",
        Form::Ret => b"ret not supported at ",
        Form::Breakpoint => b"breakpoint not supported at ",
        Form::MethodConst => b"methodhandle not supported at ",
    }
}

// What is wrong with a class.
fn write_class_fault(line: &mut Vec<u8>, class: &Name, wrong: &[u8]) -> Result<(), AllocError>
    ensures { OnOk result (line.new.items ≡ line.old.items ++ class_fault_text class.now wrong.now) }
{
    line.extend_from_slice(b"class ")?;
    line.extend_from_slice(class.bytes())?;
    line.extend_from_slice(wrong)
}

fn write_fault(line: &mut Vec<u8>, names: &Named, fault: &InputFault) -> Result<(), AllocError>
    ensures { OnOk result (line.new.items ≡ line.old.items ++ fault_text (in_order names.now) fault.now) }
{
    match fault {
        InputFault::TooLong { file, at } => {
            write_place_and(line, file_of(names, *file), b"longer than ", *at, b" bytes")
        }
        InputFault::BadByte { file, at } => {
            write_place(line, file_of(names, *file), b"byte not allowed at ", *at)
        }
        InputFault::OpenText { file, at } => {
            write_place(line, file_of(names, *file), b"text not ended at ", *at)
        }
        InputFault::Syntax { file, at } => {
            write_place(line, file_of(names, *file), b"syntax at ", *at)
        }
        InputFault::Unsupported { file, at, form } => {
            write_place(line, file_of(names, *file), refusal(*form), *at)
        }
        InputFault::TooMany { file, at } => {
            write_place(line, file_of(names, *file), b"too many names at ", *at)
        }
        InputFault::DoubleName { file, at } => {
            write_place(line, file_of(names, *file), b"name given twice at ", *at)
        }
        InputFault::UnknownLocal { file, at } => {
            write_place(line, file_of(names, *file), b"unknown local at ", *at)
        }
        InputFault::UnknownLabel { file, at } => {
            write_place(line, file_of(names, *file), b"unknown label at ", *at)
        }
        InputFault::BadLine { file, line: number } => write_place_and(
            line,
            file_of(names, *file),
            b"line ",
            *number,
            b" not understood",
        ),
        InputFault::DoubleComponent { file, line: number } => write_place(
            line,
            file_of(names, *file),
            b"component given twice in line ",
            *number,
        ),
        InputFault::LimitClasses => write_whole(line, b"too many classes"),
        InputFault::DoubleClass { name } => write_class_fault(line, name, b" given twice"),
        InputFault::Cycle { name } => write_class_fault(line, name, b" is its own supertype"),
        InputFault::LimitMethods => write_whole(line, b"too many methods"),
        InputFault::LimitStmts => write_whole(line, b"too many statements"),
        InputFault::ComponentMissing { name } => {
            line.extend_from_slice(b"component ")?;
            line.extend_from_slice(name.bytes())?;
            line.extend_from_slice(b" not found")
        }
        InputFault::EntryMissing => write_whole(line, b"entry method not found"),
        InputFault::LimitFields => write_whole(line, b"too many fields"),
        InputFault::BadTrace { file, line: number } => {
            write_place_and(
                line,
                file_of(names, *file),
                b"trace line ",
                *number,
                b" not valid",
            )
        }
    }
}

// The line of a fault of the input.
fn fault_line(alloc: Global, names: &Named, fault: &InputFault) -> Result<Vec<u8>, AllocError>
    ensures { IfOk result (λ line. line.items ≡ line_text (fault_text (in_order names.now) fault.now)) }
{
    let mut line = Vec::from_slice(alloc, b"clean: ")?;
    write_fault(&mut line, names, fault)?;
    line.extend_from_slice(b"\n")?;
    Ok(line)
}

// The line of a file that couldn't be read.
fn read_line(alloc: Global, names: &Named, file: u32) -> Result<Vec<u8>, AllocError>
    ensures { IfOk result (λ line. line.items ≡ line_text (file_word (in_order names.now) file ++ codes ": read fault")) }
{
    let mut line = Vec::from_slice(alloc, b"clean: ")?;
    line.extend_from_slice(file_of(names, file).as_bytes())?;
    line.extend_from_slice(b": read fault\n")?;
    Ok(line)
}

// The line of a sink that failed. Making it takes no memory.
fn write_fault_line(written: u64) -> ArrayString<128>
    ensures { result.bytes ≡ line_text (codes "write fault after " ++ decimal written ++ codes " bytes") }
{
    let mut buffer = Buffer::new();
    let mut line = ArrayString::<128>::new();
    line.push_str("clean: write fault after ");
    line.push_str(buffer.format(written));
    line.push_str(" bytes\n");
    line
}

// Writes a line; a failure is passed over.
pub fn say<E: Sink>(err: &mut E, line: &[u8])
    ensures { Takes (E.taken err.old) (E.taken err.new) (E.faults err.old) (E.faults err.new) line.now }
{
    let _ = put_all(err, line);
}

pub const USAGE: &[u8] =
    b"clean: usage: clean check, main, graph, serial, replay, solve or big, with its options and files\n";

pub const MEMORY: &[u8] = b"clean: out of memory\n";

// The line of a limit that was passed. Making it takes no memory.
fn limit_line(found: u64) -> ArrayString<128>
    ensures { result.bytes ≡ line_text (codes "edge limit " ++ decimal (found - 1) ++ codes " passed, " ++ decimal found ++ codes " found") }
{
    let mut limit = Buffer::new();
    let mut count = Buffer::new();
    let mut line = ArrayString::<128>::new();
    line.push_str("clean: edge limit ");
    line.push_str(limit.format(found.saturating_sub(1)));
    line.push_str(" passed, ");
    line.push_str(count.format(found));
    line.push_str(" found\n");
    line
}

// Writes the line of a fault of the input.
fn say_fault<E: Sink>(alloc: Global, names: &Named, fault: InputFault, err: &mut E) -> Status
    ensures status { OrMemory (Status.Input fault) result }
    ensures line { Complains (in_order names.now) (E.taken err.old) (E.taken err.new) (E.faults err.old) (E.faults err.new) result }
{
    match fault_line(alloc, names, &fault) {
        Ok(line) => {
            say(err, line.as_slice());
            Status::Input(fault)
        }
        Err(_) => {
            say(err, MEMORY);
            Status::OutOfMemory
        }
    }
}

// Writes the line of a file that couldn't be read.
fn say_read_fault<E: Sink>(alloc: Global, names: &Named, file: u32, err: &mut E) -> Status
    ensures status { OrMemory (Status.ReadFault file) result }
    ensures line { Complains (in_order names.now) (E.taken err.old) (E.taken err.new) (E.faults err.old) (E.faults err.new) result }
{
    match read_line(alloc, names, file) {
        Ok(line) => {
            say(err, line.as_slice());
            Status::ReadFault { file }
        }
        Err(_) => {
            say(err, MEMORY);
            Status::OutOfMemory
        }
    }
}

/// Writes the line of a status, and answers the status; where there is no memory for the line, that is the answer.
pub fn complain<E: Sink>(alloc: Global, names: &Named, status: Status, err: &mut E) -> Status
    ensures status { OrMemory status result }
    ensures line { Complains (in_order names.now) (E.taken err.old) (E.taken err.new) (E.faults err.old) (E.faults err.new) result }
{
    match status {
        Status::Input(fault) => return say_fault(alloc, names, fault, err),
        Status::ReadFault { file } => return say_read_fault(alloc, names, file, err),
        Status::Usage => say(err, USAGE),
        Status::OutOfMemory => say(err, MEMORY),
        Status::EdgeLimit { found } => say(err, limit_line(found).as_str().as_bytes()),
        Status::WriteFault { written } => say(err, write_fault_line(written).as_str().as_bytes()),
        Status::Clean | Status::Leaks => {}
    }
    status
}
