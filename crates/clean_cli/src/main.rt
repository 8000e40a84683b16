// The program: real words, files and streams for the top call, and its status as the code.
#![tactic(auto)]

use clean_base::{StdShelf, StdSink, Word};
use clean_top::{Status, clean_plain};
use std::process::ExitCode;
use std::rt::Env;
use std::{env, io};

// The words behind the program's name.
fn words_of(rt: &(impl Env + AllocGlobal)) -> io::Result<Vec<Word>> {
    let mut words = Vec::new(rt.alloc());
    for word in env::args(rt)?.skip(1) {
        words.push(Word::new(word))?;
    }
    Ok(words)
}

// The words, or none where they aren't UTF-8, which no form of a command allows.
fn words_or_none(rt: &(impl Env + AllocGlobal)) -> io::Result<Vec<Word>> {
    match words_of(rt) {
        Err(error) if error.kind() == io::ErrorKind::InvalidData => Ok(Vec::new(rt.alloc())),
        words => words,
    }
}

fn main(rt: HostRuntime) -> ExitCode {
    let Ok(words) = words_or_none(&rt) else {
        return ExitCode::from(Status::OutOfMemory.code());
    };
    let mut shelf = StdShelf::new(&rt);
    let mut out = StdSink::output(rt.stdout());
    let mut err = StdSink::error(rt.stderr());
    let status = clean_plain(rt.alloc(), words.as_slice(), &mut shelf, &mut out, &mut err);
    ExitCode::from(status.code())
}
