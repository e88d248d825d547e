//! What the crate of the service does, as tests, and that it has memory enough to do it: links and
//! doors in memory, a door without a listener, and the words that ask for the service.
#![tactic(auto)]

#[cfg(test)]
mod doors;
