// What is known of an object but for its contents.
use crate::kind::Kind;
use crate::name::Name;
use crate::number::Number;
use crate::stamp::Stamp;

#[derive(Clone, Copy, PartialEq, Eq, Hash, Debug)]
pub struct Status {
    pub number: Number,
    pub kind: Kind,
    pub parent: Number,
    pub name: Name,
    pub stamp: Stamp,
}
