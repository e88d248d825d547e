//! Models that are written and read back, as tests over memory: what the crates below the program
//! do together, and that they have memory enough to do it.
#![tactic(auto)]

#[cfg(test)]
mod canonical;
#[cfg(test)]
mod documents;
#[cfg(test)]
mod large;
#[cfg(test)]
mod models;
#[cfg(test)]
mod writing;
