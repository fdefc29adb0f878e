// Where the entries of an image stand, and what they show.
ghost use Rattle.std.specs.Prelude.{◌≡◌, ◌+◌, ◌*◌, ◌≤◌, length};
ghost use Rattle.format.specs.Images.{section, section_at, size};
ghost use Rattle.format.specs.Layout.{entry_size};
ghost use Rattle.format.specs.Reading.{Shows};
ghost use Rattle.image.specs.Heads.{Heads};
ghost use Rattle.image.specs.Places.{found};
ghost use Rattle.image.specs.Searches.{Numbers};
ghost use Rattle.image.specs.Stores.{store_sections, tree_of, Within};

use crate::Image;
use crate::entry::size_of;
use crate::field::number_in;
use crate::head::EntryHead;
use crate::place::Place;
use format::layout::{BARE_SIZE, DIRECTORIES, FILE_SIZE, HEAD_SIZE, NAME, NAME_LENGTH, PARENT};
use vocab::kind::Kind;

impl Image {
    pub(crate) fn count_of(&self, kind: Kind) -> usize
        ensures { result ≡ length (section kind (store_sections self.now)) }
    {
        match kind {
            Kind::Directory => self.directories,
            Kind::File => self.files,
        }
    }

    // Where the entries of a kind begin; their count stands before them.
    pub(crate) fn start_of(&self, kind: Kind) -> usize
        ensures { result ≡ section_at kind (store_sections self.now) }
    {
        match kind {
            Kind::Directory => DIRECTORIES,
            Kind::File => BARE_SIZE + HEAD_SIZE * self.directories,
        }
    }

    // Where the image ends.
    pub(crate) fn end(&self) -> usize
        ensures { result ≡ size (store_sections self.now) }
    {
        BARE_SIZE + HEAD_SIZE * self.directories + FILE_SIZE * self.files
    }

    // Where an entry begins, or one more would.
    pub(crate) fn offset_of(&self, place: Place) -> usize
        requires { place.index ≤ length (section place.kind (store_sections self.now)) }
        ensures { result ≡ section_at place.kind (store_sections self.now) + entry_size place.kind * place.index }
    {
        self.start_of(place.kind) + size_of(place.kind) * place.index
    }

    // All entries of a kind.
    pub(crate) fn entries(&self, kind: Kind) -> &[u8]
        ensures len { length result.now ≡ entry_size kind * length (section kind (store_sections self.now)) }
        ensures numbers { Numbers (entry_size kind) (section kind (store_sections self.now)) result.now }
    {
        let count = self.count_of(kind);
        if count == 0 {
            return &[];
        }
        let end = self.offset_of(Place { kind, index: count });
        &self.bytes.as_slice()[self.start_of(kind)..end]
    }

    // An entry, and what stands behind it.
    pub(crate) fn entry(&self, place: Place) -> &[u8]
        requires { Within self.now place }
        ensures { Shows place.kind (found (tree_of self.now) place) result.now }
    {
        let all = self.bytes.as_slice();
        &all[self.offset_of(place)..]
    }

    pub(crate) fn head(&self, place: Place) -> EntryHead<'_>
        requires { Within self.now place }
        ensures { Heads (found (tree_of self.now) place) result }
    {
        let entry = self.entry(place);
        let len = entry[NAME_LENGTH] as usize;
        EntryHead {
            number: number_in(entry, 0),
            parent: number_in(entry, PARENT),
            name: &entry[NAME..NAME + len],
        }
    }
}
