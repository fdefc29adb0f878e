// Questions of the tree that an image holds.
ghost use Rattle.std.specs.Prelude.{◌≡◌};
ghost use Rattle.asking.specs.Tests.{passing};
ghost use Rattle.tree.specs.Questions.{child};
ghost use Rattle.format.specs.Images.{section, sections_of};
ghost use Rattle.image.specs.Places.{found, Found, FoundFile, FoundIn, Picked};
ghost use Rattle.image.specs.Stores.{tree_of, Within};

use crate::Image;
use crate::field::number_in;
use crate::place::Place;
use asking::test::{Follows, Test};
use format::layout::{BARE_SIZE, FILE_SIZE, PARENT};
use vocab::kind::Kind;
use vocab::limits::MOST_OBJECTS;
use vocab::number::Number;

impl Image {
    pub(crate) fn find(&self, number: Number) -> Option<Place>
        ensures { Found number (tree_of self.now) result }
    {
        self.find_in(Kind::Directory, number)
            .or_else(|| self.find_in(Kind::File, number))
    }

    pub(crate) fn find_file(&self, number: Number) -> Option<Place>
        ensures { FoundFile number (tree_of self.now) result }
    {
        self.find_in(Kind::File, number)
    }

    fn find_in(&self, kind: Kind, number: Number) -> Option<Place>
        ensures { FoundIn kind number (tree_of self.now) result }
    {
        let index = self.search(kind, number).ok()?;
        Some(Place { kind, index })
    }

    // The first directory or, where there is none, the first file that passes a test.
    pub(crate) fn find_first<T: Test>(&self, test: &T) -> Option<Place>
        ensures { Picked (passing (T.passes test.now)) (tree_of self.now) result }
    {
        self.first(Kind::Directory, test)
            .or_else(|| self.first(Kind::File, test))
    }

    pub(crate) fn number_at(&self, place: Place) -> Number
        requires { Within self.now place }
        ensures { result ≡ (found (tree_of self.now) place).number }
    {
        number_in(self.entry(place), 0)
    }

    pub(crate) fn parent_at(&self, place: Place) -> Number
        requires { Within self.now place }
        ensures { result ≡ (found (tree_of self.now) place).parent }
    {
        number_in(self.entry(place), PARENT)
    }

    // The smallest number above `above` among the objects of a parent that are of one kind: by two parameters, as
    // `child` asks.
    fn child_in(&self, kind: Kind, parent: Number, above: Number) -> Option<Number>
        ensures { result ≡ child parent above (section kind (sections_of (tree_of self.now))) }
    {
        let place = self.first(kind, &Follows { parent, above })?;
        Some(self.number_at(place))
    }

    pub(crate) fn least_child(&self, parent: Number, above: Number) -> Option<Number>
        ensures { result ≡ child parent above (tree_of self.now).objects }
    {
        let directory = self.child_in(Kind::Directory, parent, above);
        let file = self.child_in(Kind::File, parent, above);
        match (directory, file) {
            (Some(x), Some(y)) => Some(x.min(y)),
            (Some(x), None) => Some(x),
            (None, y) => y,
        }
    }

    // How many objects the bytes have room for.
    pub(crate) fn room(&self) -> usize
        ensures { result ≡ (tree_of self.now).capacity }
    {
        (self.bytes.len().saturating_sub(BARE_SIZE) / FILE_SIZE).min(MOST_OBJECTS)
    }
}
