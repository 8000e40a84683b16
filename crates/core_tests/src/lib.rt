// Tests of the core: the moves of items, the tables of contexts, the driver and the turn, each on a small example that is
// worked off by hand. Nothing stands above.
#![tactic(auto)]

#[cfg(test)]
mod example;
#[cfg(test)]
mod solver;
#[cfg(test)]
mod tables;
#[cfg(test)]
mod turns;
