// How many bytes names and contents may have, and objects a store.
pub const LONGEST_NAME: usize = 24;

pub const LONGEST_CONTENTS: usize = 256;

pub const MOST_OBJECTS: usize = 4096;
