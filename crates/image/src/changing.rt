// How entries are inserted, changed and removed in place.
ghost use Rattle.std.specs.Prelude.{◌≡◌, ◌<◌, false, length};
ghost use Rattle.tree.specs.Changes.{with_contents, with_place};
ghost use Rattle.tree.specs.Meaning.{status_of};
ghost use Rattle.tree.specs.Questions.{is_some};
ghost use Rattle.tree.specs.Trees.{at, insert};
ghost use Rattle.image.specs.Stores.{tree_of, Within, changed_at, rest_of, CanHold, NowHolds};

use crate::Image;
use crate::entry::{
    size_of, write_contents, write_count, write_entry, write_name, write_number, write_stamp,
};
use crate::gap::{close_gap, open_gap};
use crate::place::Place;
use format::layout::{AUTHOR, HEAD_SIZE, NAME_LENGTH, PARENT};
use vocab::bytes::Contents;
use vocab::kind::Kind;
use vocab::name::Name;
use vocab::number::Number;
use vocab::stamp::Stamp;
use vocab::status::Status;

impl Image {
    // An entry more, where its number is free and there is room.
    pub(crate) fn insert(&mut self, status: &Status)
        requires free { is_some (at status.now.number (tree_of self.old).objects) ≡ false }
        requires room { length (tree_of self.old).objects < (tree_of self.old).capacity }
        requires lawful { CanHold self.old (insert (status_of status.now) (tree_of self.old).objects) }
        ensures { NowHolds self.old self.new (insert (status_of status.now) (tree_of self.old).objects) }
    {
        let kind = status.kind;
        let Err(index) = self.search(kind, status.number) else {
            return;
        };
        let start = self.start_of(kind);
        let at = self.offset_of(Place { kind, index });
        let end = self.end();
        let count = self.count_of(kind) + 1;
        let bytes = self.bytes.as_mut_slice();
        open_gap(bytes, at, end, size_of(kind));
        write_entry(bytes, at, status);
        write_count(bytes, start, count);
        match kind {
            Kind::Directory => self.directories = count,
            Kind::File => self.files = count,
        }
    }

    // Other contents and another stamp for the file at a place.
    pub(crate) fn overwrite(&mut self, place: Place, contents: &Contents, stamp: Stamp)
        requires kind { place.kind ≡ Kind.File }
        requires within { Within self.old place }
        requires lawful { CanHold self.old (changed_at self.old place (with_contents contents.now stamp)) }
        ensures { NowHolds self.old self.new (changed_at self.old place (with_contents contents.now stamp)) }
    {
        let at = self.offset_of(place);
        let bytes = self.bytes.as_mut_slice();
        write_stamp(bytes, at + AUTHOR, stamp);
        write_contents(bytes, at + HEAD_SIZE, contents);
    }

    // Another parent and name for the object at a place.
    pub(crate) fn replace(&mut self, place: Place, parent: Number, name: &Name)
        requires within { Within self.old place }
        requires lawful { CanHold self.old (changed_at self.old place (with_place parent name.now)) }
        ensures { NowHolds self.old self.new (changed_at self.old place (with_place parent name.now)) }
    {
        let at = self.offset_of(place);
        let bytes = self.bytes.as_mut_slice();
        write_number(bytes, at + PARENT, parent);
        write_name(bytes, at + NAME_LENGTH, name);
    }

    // The object at a place goes.
    pub(crate) fn remove(&mut self, place: Place)
        requires within { Within self.old place }
        requires lawful { CanHold self.old (rest_of self.old place) }
        ensures { NowHolds self.old self.new (rest_of self.old place) }
    {
        let start = self.start_of(place.kind);
        let at = self.offset_of(place);
        let end = self.end();
        let count = self.count_of(place.kind) - 1;
        let bytes = self.bytes.as_mut_slice();
        close_gap(bytes, at, end, size_of(place.kind));
        write_count(bytes, start, count);
        match place.kind {
            Kind::Directory => self.directories = count,
            Kind::File => self.files = count,
        }
    }
}
