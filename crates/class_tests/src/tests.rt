// What no clause says, and each call that takes memory, once with enough of it.
pub mod calls;
pub mod classes;
pub mod closure;
pub mod graphs;
pub mod order;
pub mod programs;
pub mod signatures;
pub mod statements;
pub mod texts;
