//! Tests of a cache of stamps, over a world that counts the questions.

mod ahead;
mod cache;
mod worlds;
