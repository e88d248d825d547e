//! Documents of every spelling that are read, as tests over memory: what the crates below the
//! program do together, and that they have memory enough to do it.
#![tactic(auto)]

#[cfg(test)]
mod faults;
#[cfg(test)]
mod limits;
#[cfg(test)]
mod pieces;
#[cfg(test)]
mod tags;
