// The questions of `asking`, of the tree that an image holds: an image is no view yet.
ghost use Rattle.std.specs.Prelude.{◌≡◌};
ghost use Rattle.tree.specs.Trees.{at};
ghost use Rattle.tree.specs.Questions.{is_some, dir_at, taken, has_child, climbs};
ghost use Rattle.image.specs.Stores.{tree_of};

use crate::Image;
use asking::test::{HasParent, HasPlace};
use vocab::kind::Kind;
use vocab::number::Number;

impl Image {
    pub(crate) fn holds(&self, number: Number) -> bool
        ensures { result ≡ is_some (at number (tree_of self.now).objects) }
    {
        self.find(number).is_some()
    }

    pub(crate) fn has_directory(&self, number: Number) -> bool
        ensures { result ≡ dir_at number (tree_of self.now).objects }
    {
        number == Number::ROOT
            || self
                .find(number)
                .is_some_and(|place| place.kind == Kind::Directory)
    }

    pub(crate) fn has_name(&self, parent: Number, name: &[u8]) -> bool
        ensures { result ≡ taken parent name.now (tree_of self.now).objects }
    {
        self.find_first(&HasPlace { parent, name }).is_some()
    }

    pub(crate) fn has_children(&self, number: Number) -> bool
        ensures { result ≡ has_child number (tree_of self.now).objects }
    {
        self.find_first(&HasParent(number)).is_some()
    }

    // Whether `number` is `from` or stands above it. No way up is longer than the room.
    pub(crate) fn encloses(&self, number: Number, from: Number) -> bool
        ensures { result ≡ climbs (tree_of self.now).capacity number from (tree_of self.now).objects }
    {
        let mut here = from;
        for _ in 0..self.room() {
            if here == number {
                return true;
            }
            let Some(place) = self.find(here) else {
                return false;
            };
            here = self.parent_at(place);
        }
        here == number
    }
}
