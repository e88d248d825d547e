//! A store with its keeper and its readers, as tests over memory and with threads.
#![tactic(auto)]

#[cfg(test)]
mod versions;
