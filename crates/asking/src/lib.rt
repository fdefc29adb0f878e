// Questions that every tree answers alike, and what a search through objects looks for.
#![tactic(auto)]

pub mod questions;
pub mod test;
