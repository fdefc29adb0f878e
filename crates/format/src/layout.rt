// Where the fields of an image stand, in bytes.
use vocab::limits::{LONGEST_CONTENTS, LONGEST_NAME};

// In an entry, which begins with its number.
pub const PARENT: usize = 4;

pub const AUTHOR: usize = 8;

pub const SERIAL: usize = 10;

pub const NAME_LENGTH: usize = 14;

pub const NAME: usize = 15;

// The size of a directory's entry, and of the front of a file's.
pub const HEAD_SIZE: usize = NAME + LONGEST_NAME;

// A file's contents stand behind their length, which follows the head.
pub const CONTENTS: usize = HEAD_SIZE + 2;

pub const FILE_SIZE: usize = CONTENTS + LONGEST_CONTENTS;

// The count of directories stands behind the next number.
pub const COUNT: usize = 4;

pub const DIRECTORIES: usize = COUNT + 2;

// The size of an image with no objects.
pub const BARE_SIZE: usize = DIRECTORIES + 2;

// Fewer bytes keep no object.
pub const LEAST_SIZE: usize = BARE_SIZE + FILE_SIZE;
