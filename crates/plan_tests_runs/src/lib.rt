//! The tests of runs: plan_machine, plan_status, plan_trace, plan_lanes, plan_stamps and plan_commands. A module is
//! named after the crate that it tests. `samples` has images and events for the tests of plan_machine.
#![tactic(auto)]

#[cfg(test)]
mod commands;
#[cfg(test)]
mod lanes;
#[cfg(test)]
mod machine;
#[cfg(test)]
mod outcome;
#[cfg(test)]
mod samples;
#[cfg(test)]
mod stamps;
#[cfg(test)]
mod status;
#[cfg(test)]
mod trace;
