// How a call ends.
ghost use Rattle.std.specs.Prelude.{◌≡◌};
ghost use Rattle.clean_top.specs.Status.{code_of};

use clean_base::InputFault;

/// How a call ends (docs/COMMANDS.md, "Statuses").
#[derive(Debug, Drop, PartialEq, Eq)]
pub enum Status {
    /// The whole output was written, and has no leak line.
    Clean,
    /// The whole output was written, and has a leak line.
    Leaks,
    /// The words are of no form.
    Usage,
    /// The input has this fault, and none before it.
    Input(InputFault),
    /// The program has more path edges than the words allow.
    EdgeLimit { found: u64 },
    /// The shelf failed at that file of the words.
    ReadFault { file: u32 },
    /// The output's sink failed after so many bytes.
    WriteFault { written: u64 },
    /// Memory ran out.
    OutOfMemory,
}

impl Status {
    /// The code that the program ends with.
    pub fn code(&self) -> u8
        ensures { result ≡ code_of self.now }
    {
        match self {
            Status::Clean => 0,
            Status::Leaks => 1,
            Status::Usage => 2,
            Status::Input(_) => 3,
            Status::EdgeLimit { .. } => 3,
            Status::ReadFault { .. } => 4,
            Status::WriteFault { .. } => 5,
            Status::OutOfMemory => 6,
        }
    }
}
