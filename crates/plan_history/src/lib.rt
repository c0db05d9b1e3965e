//! `History`: a list that only clauses read. It takes no memory.
#![tactic(auto)]

mod history;
#[cfg(test)]
mod tests;

pub use history::History;
