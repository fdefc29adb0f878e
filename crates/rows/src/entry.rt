// What a row's entry shows of its object.
ghost use Rattle.std.specs.Prelude.{◌≡◌};
ghost use Rattle.tree.specs.Questions.{directory, contents, kind_of, new_body, bare};
ghost use Rattle.tree.specs.Meaning.{status_of};
ghost use Rattle.rows.specs.Rows.{body_of, object_of, Bounded};

use crate::row::{Body, Entry};
use vocab::bytes::Contents;
use vocab::kind::Kind;
use vocab::status::Status;

impl Body {
    pub fn new(kind: Kind) -> Body
        ensures { body_of result ≡ new_body kind }
    {
        match kind {
            Kind::Directory => Body::Directory,
            Kind::File => Body::File(Contents::empty()),
        }
    }
}

impl Entry {
    // Does nothing: its callers are told what the types of the name and of the contents hold.
    fn tell_bounds(&self)
        ensures { Bounded self.now }
    {
        let _ = self.name.as_bytes();
        if let Body::File(contents) = &self.body {
            let _ = contents.as_slice();
        }
    }

    fn kind(&self) -> Kind
        ensures { result ≡ kind_of (object_of self.now) }
    {
        match self.body {
            Body::Directory => Kind::Directory,
            Body::File(_) => Kind::File,
        }
    }

    pub fn is_directory(&self) -> bool
        ensures value { result ≡ directory (object_of self.now) }
        ensures bounded { Bounded self.now }
    {
        self.tell_bounds();
        self.kind() == Kind::Directory
    }

    pub fn held(&self) -> Contents
        ensures value { result ≡ contents (object_of self.now) }
        ensures bounded { Bounded self.now }
    {
        self.tell_bounds();
        match self.body {
            Body::Directory => Contents::empty(),
            Body::File(contents) => contents,
        }
    }

    pub fn status(&self) -> Status
        ensures value { status_of result ≡ bare (object_of self.now) }
        ensures bounded { Bounded self.now }
    {
        self.tell_bounds();
        Status {
            number: self.number,
            kind: self.kind(),
            parent: self.parent,
            name: self.name,
            stamp: self.stamp,
        }
    }
}
