// A whole program as a problem for a solver: the machine with fields, receivers, aliases and exceptions. Programs and the
// flow rules stand below; the solver that works on it is told of no rule.
#![tactic(auto)]

mod crossing;
mod facts;
mod leaks;
mod moves;
mod places;
pub mod problem;
mod starts;
mod steps;

pub use problem::TaintProblem;
