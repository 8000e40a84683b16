// What is wrong with the input, and why a call stops.
use crate::Name;
use thiserror::Error;

/// What is wrong with the input (docs/COMMANDS.md, "Refusals", which tells what each command says). `file` is the file's
/// place in the order of reading, `at` a byte of it, and `line` is counted from 1.
#[derive(Debug, Drop, Error, PartialEq, Eq)]
pub enum InputFault {
    /// The file has more bytes than its room, which is `at`.
    #[error("longer than {at} bytes")]
    TooLong { file: u32, at: u64 },
    /// The first byte at which no token begins.
    #[error("byte not allowed at {at}")]
    BadByte { file: u32, at: u64 },
    /// A string, a quoted name or a comment begins there and doesn't end.
    #[error("text not ended at {at}")]
    OpenText { file: u32, at: u64 },
    /// The first token that can't continue the grammar, or the file's length.
    #[error("syntax at {at}")]
    Syntax { file: u32, at: u64 },
    /// A word stands there in its place that isn't supported.
    #[error("not supported at {at}")]
    Unsupported { file: u32, at: u64, form: Form },
    /// One local or parameter too many stands there, or the word of a parameter whose number is too high.
    #[error("too many names at {at}")]
    TooMany { file: u32, at: u64 },
    /// The second local, label, field or method of that name stands there.
    #[error("name given twice at {at}")]
    DoubleName { file: u32, at: u64 },
    /// A local that isn't declared.
    #[error("unknown local at {at}")]
    UnknownLocal { file: u32, at: u64 },
    /// A label that doesn't stand in the body.
    #[error("unknown label at {at}")]
    UnknownLabel { file: u32, at: u64 },
    /// The first line that isn't of the file's form.
    #[error("line {line} not understood")]
    BadLine { file: u32, line: u64 },
    /// A line before it names the same component.
    #[error("component given twice in line {line}")]
    DoubleComponent { file: u32, line: u64 },
    /// The classes give and name more classes than there is room for.
    #[error("too many classes")]
    LimitClasses,
    /// A class of that name was given before.
    #[error("class given twice")]
    DoubleClass { name: Name },
    /// A class that is reached from itself along `extends` and `implements`.
    #[error("class is its own supertype")]
    Cycle { name: Name },
    /// The classes have more methods with a body than there is room for.
    #[error("too many methods")]
    LimitMethods,
    /// Their bodies have more statements than there is room for.
    #[error("too many statements")]
    LimitStmts,
    /// The first component that is no concrete class.
    #[error("component not found")]
    ComponentMissing { name: Name },
    /// The entry signature names no method with a body.
    #[error("entry method not found")]
    EntryMissing,
    /// The classes declare and name more fields than there is room for.
    #[error("too many fields")]
    LimitFields,
    /// A line of a trace that isn't allowed there.
    #[error("trace line {line} not valid")]
    BadTrace { file: u32, line: u64 },
}

/// A form that no flow rule covers. Its word is refused.
#[derive(Clone, Copy, Debug, PartialEq, Eq)]
pub enum Form {
    /// `dynamicinvoke`
    Dynamic,
    Ret,
    Breakpoint,
    /// `methodhandle` or `methodtype`
    MethodConst,
}

/// Why a call stops.
#[derive(Debug, Drop, Error, PartialEq, Eq)]
pub enum Stop {
    #[error("{0}")]
    Fault(InputFault),
    #[error("out of memory")]
    OutOfMemory,
}
