// Rows of memory, one for each object, and searches through them.
#![tactic(auto)]

pub mod entry;
pub mod freeing;
pub mod head;
pub mod row;
pub mod search;
