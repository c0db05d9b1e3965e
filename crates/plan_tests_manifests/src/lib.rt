//! The tests of what reads manifests and command lines: plan_text, plan_parse, plan_scope, plan_graph, plan_options
//! and plan_tools. A module is named after the crate that it tests.
#![tactic(auto)]

#[cfg(test)]
mod graph;
#[cfg(test)]
mod options;
#[cfg(test)]
mod outcome;
#[cfg(test)]
mod parse;
#[cfg(test)]
mod scope;
#[cfg(test)]
mod text;
#[cfg(test)]
mod tools;
