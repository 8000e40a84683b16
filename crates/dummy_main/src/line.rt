// The lines of a component's block. Callbacks stand below; blocks above.
use crate::callback::Callback;

/// A line of a block. Its targets are counted from the block's first statement.
#[derive(Clone, Copy, Debug, PartialEq, Eq)]
pub enum Line {
    /// `rJ = new C;`
    Makes,
    /// The call of `void <init>()`.
    Inits,
    Calls(Callback),
    /// `if i0 == 0 goto` the target.
    Chooses(u8),
    Jumps(u8),
    /// `goto` the first choice among the components.
    Leaves,
}
