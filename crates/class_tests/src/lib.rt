// Tests of graphs, of lists of sources and sinks, of tables of classes, of call graphs and of programs: rows of tables, worked
// out by hand. It holds nothing else.
#![tactic(auto)]

pub mod tests;
