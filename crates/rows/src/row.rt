// A place in memory for one object.
use vocab::bytes::Contents;
use vocab::name::Name;
use vocab::number::Number;
use vocab::stamp::Stamp;

// Not an Option of contents: a directory is a kind of object, and not a file that lacks something.
#[derive(Clone, Copy)]
pub enum Body {
    Directory,
    File(Contents),
}

#[derive(Clone, Copy)]
pub struct Entry {
    pub number: Number,
    pub parent: Number,
    pub name: Name,
    pub stamp: Stamp,
    pub body: Body,
}

// A row is free, or holds an entry.
pub type Row = Option<Entry>;
