// What records, cancelling and replay mean, and what is proved of them.
#![tactic(auto)]

pub mod answer;
pub mod laws;
