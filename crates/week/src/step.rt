// One step of the office's work, by paths from the root. It is data, since it is printed as well as taken.
use std::fmt;

#[derive(Clone, Copy)]
pub enum Step<'a> {
    Mkdir(&'a str),
    Create(&'a str),
    Store(&'a str, &'a str),
    Remove(&'a str),
    Rmdir(&'a str),
    Rename(&'a str, &'a str),
}

impl fmt::Display for Step<'_> {
    fn fmt<W: fmt::Write>(&self, f: &mut fmt::Formatter<W>) -> fmt::Result {
        match *self {
            Step::Mkdir(path) => write!(f, "mkdir {path}"),
            Step::Create(path) => write!(f, "create {path}"),
            Step::Store(path, contents) => write!(f, "store {path} \"{contents}\""),
            Step::Remove(path) => write!(f, "remove {path}"),
            Step::Rmdir(path) => write!(f, "rmdir {path}"),
            Step::Rename(from, to) => write!(f, "rename {from} {to}"),
        }
    }
}
