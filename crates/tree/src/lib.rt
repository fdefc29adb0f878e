// Trees: their definitions, what is proved of them, and what a store of one does.
#![tactic(auto)]

pub mod laws;
pub mod root;
pub mod store;
pub mod view;
