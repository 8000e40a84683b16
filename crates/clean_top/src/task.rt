// What a command line asks for: what is to be done, and with which files.
use clean_base::{Seq, Word};
use command_line::Tuning;
use jimple_tree::Sig;

/// The files that the words name, in the order of reading: class files, then lists. A list of components stands before one of
/// sources and sinks.
#[derive(Debug, Drop)]
pub struct Named {
    pub classes: Seq<Word>,
    pub lists: Seq<Word>,
}

/// Where a program begins.
#[derive(Debug, Drop)]
pub enum Start {
    /// At the method of this signature.
    Method(Sig),
    /// At the method that is generated for the components of the first list.
    Components,
}

/// What is to be done with the texts of the files.
#[derive(Debug, Drop)]
pub enum Task {
    /// The numbers of classes, methods and statements.
    Check,
    /// The text of the class that is generated for components.
    Main,
    /// The graph of the calls of a program.
    Graph { start: Start },
    /// The report of a program.
    Serial { start: Start, tuning: Tuning },
}

/// What the words ask for.
#[derive(Debug, Drop)]
pub struct Command {
    pub names: Named,
    pub task: Task,
}
