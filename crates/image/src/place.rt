// A place in an image: a section, and an entry of it. That it stands there is asked at each call: a type that says so
// would have to borrow the image, which a change takes whole.
use vocab::kind::Kind;

#[derive(Clone, Copy)]
pub(crate) struct Place {
    pub(crate) kind: Kind,
    pub(crate) index: usize,
}
