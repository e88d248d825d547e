//! Whole runs of the program, as tests over memory: sessions and the forms on documents, and that
//! there is memory enough for them.
#![tactic(auto)]

#[cfg(test)]
mod calls;
#[cfg(test)]
mod commands;
#[cfg(test)]
mod forms;
#[cfg(test)]
mod tests;
