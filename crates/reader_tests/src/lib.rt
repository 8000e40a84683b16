// Tests of the crates that read and write classes, as tables of texts: their tokens, their first faults, their canonical
// texts. Those crates stand below.
#![tactic(auto)]

#[cfg(test)]
mod answer;
#[cfg(test)]
mod classes;
#[cfg(test)]
mod grammar;
#[cfg(test)]
mod names;
#[cfg(test)]
mod tokens;
#[cfg(test)]
mod written;
