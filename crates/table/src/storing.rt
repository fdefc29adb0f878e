// A table as a store. By let-else: `ok_or(..)?` on a place was tried, and has no proof in `drop_object`.
use crate::Table;
use asking::questions::{encloses, has_name, holds, is_directory};
use rows::freeing::free_all;
use rows::row::{Body, Entry};
use rows::search::first_free;
use tree::store::Store;
use tree::view::TreeView;
use vocab::bytes::Contents;
use vocab::kind::Kind;
use vocab::name::Name;
use vocab::number::Number;
use vocab::refusal::Refusal;
use vocab::stamp::Stamp;

impl Store for Table {
    fn add(
        &mut self,
        kind: Kind,
        parent: Number,
        name: &[u8],
        number: Number,
        stamp: Stamp,
    ) -> Result<(), Refusal> {
        let own = Name::new(name)?;
        if number < Number::FIRST || holds(self, number) {
            return Err(Refusal::NumberInUse);
        }
        if !is_directory(self, parent) {
            return Err(Refusal::NoSuchDirectory);
        }
        if has_name(self, parent, name) {
            return Err(Refusal::NameTaken);
        }
        if self.count >= self.capacity() {
            return Err(Refusal::StoreFull);
        }
        let index = first_free(&self.rows).ok_or(Refusal::StoreFull)?;
        self.rows[index] = Some(Entry {
            number,
            parent,
            name: own,
            stamp,
            body: Body::new(kind),
        });
        self.count += 1;
        Ok(())
    }

    fn put(&mut self, number: Number, contents: &[u8], stamp: Stamp) -> Result<(), Refusal> {
        let Some(place) = self.find_file(number) else {
            return Err(Refusal::NoSuchObject);
        };
        let contents = Contents::new(contents).ok_or(Refusal::ContentsTooLong)?;
        self.rows[place.index] = Some(Entry {
            stamp,
            body: Body::File(contents),
            ..place.entry
        });
        Ok(())
    }

    fn drop_object(&mut self, number: Number) -> Result<(), Refusal> {
        let Some(place) = self.find(number) else {
            return Err(Refusal::NoSuchObject);
        };
        if self.has_children(number) {
            return Err(Refusal::HasChildren);
        }
        self.rows[place.index] = None;
        self.count -= 1;
        Ok(())
    }

    fn move_object(&mut self, number: Number, parent: Number, name: &[u8]) -> Result<(), Refusal> {
        let own = Name::new(name)?;
        let Some(place) = self.find(number) else {
            return Err(Refusal::NoSuchObject);
        };
        if !is_directory(self, parent) {
            return Err(Refusal::NoSuchDirectory);
        }
        if has_name(self, parent, name) {
            return Err(Refusal::NameTaken);
        }
        if encloses(self, number, parent) {
            return Err(Refusal::BeneathItself);
        }
        self.rows[place.index] = Some(Entry {
            parent,
            name: own,
            ..place.entry
        });
        Ok(())
    }

    fn set_next(&mut self, next: Number) -> Result<(), Refusal> {
        if next < self.next || next > Number::TEMPORARY {
            return Err(Refusal::NextOutOfRange);
        }
        self.next = next;
        Ok(())
    }

    fn clear(&mut self) {
        free_all(&mut self.rows);
        self.count = 0;
    }
}
