// The words that every layer shares: refusals, layers, numbers, names, contents, stamps.
#![tactic(auto)]

pub mod buffer;
pub mod bytes;
pub mod kind;
pub mod layer;
pub mod limits;
pub mod name;
pub mod number;
pub mod refusal;
pub mod stamp;
pub mod status;
