// The format of images, and what is proved of it.
#![tactic(auto)]

pub mod laws;
pub mod layout;
