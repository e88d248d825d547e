//! Words that the contracts of the crates above share. The crate has definitions alone.
#![tactic(auto)]
