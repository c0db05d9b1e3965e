//! The tests of images, depfiles and records: plan_chunks, plan_depfile, plan_record, plan_image, plan_verify and
//! plan_compile. A module is named after the crate that it tests.
#![tactic(auto)]

#[cfg(test)]
mod chunks;
#[cfg(test)]
mod compile;
#[cfg(test)]
mod depfile;
#[cfg(test)]
mod image;
#[cfg(test)]
mod outcome;
#[cfg(test)]
mod record;
#[cfg(test)]
mod verify;
