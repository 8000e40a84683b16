// Calls of a program: what the lists say of them, the methods that they may come to, and the graph of the open ones. The
// table of classes and the lists of sources and sinks stand below; programs above.
#![tactic(auto)]

mod calls;
pub mod edges;
pub mod known;

pub use calls::{in_order, kind_of, targets};
pub use edges::{CallEdge, CallGraph, call_of, graph};
pub use known::{KnownCalls, KnownSig};
