//! What single crates below the program do, as tests, and that they have memory enough to do it:
//! bytes, texts, identifiers, pieces, statements, headers, days, projects, timelines, trees, lists in
//! blocks, generated streams, and requests and replies of HTTP.
#![tactic(auto)]

#[cfg(test)]
mod blocks;
#[cfg(test)]
mod bytes;
#[cfg(test)]
mod client_heads;
#[cfg(test)]
mod days;
#[cfg(test)]
mod edits;
#[cfg(test)]
mod heads;
#[cfg(test)]
mod identifiers;
#[cfg(test)]
mod models;
#[cfg(test)]
mod pieces;
#[cfg(test)]
mod routes;
#[cfg(test)]
mod stages;
#[cfg(test)]
mod statements;
#[cfg(test)]
mod steps;
#[cfg(test)]
mod streams;
#[cfg(test)]
mod texts;
#[cfg(test)]
mod timelines;
#[cfg(test)]
mod trees;
