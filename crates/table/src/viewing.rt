// A table shows its tree.
ghost use Rattle.table.specs.Tables.{tree_of};

use crate::Table;
use rows::search::least;
use tree::root::root_status;
use tree::view::TreeView;
use vocab::buffer::copy_front;
use vocab::limits::MOST_OBJECTS;
use vocab::number::Number;
use vocab::refusal::Refusal;
use vocab::status::Status;

// By let-else: `?` and `map` on a place were tried, and the checker made no proof of them.
impl TreeView for Table {
    ghost tree = { tree_of };

    ghost lawful = { λ s. s.lawful };

    fn capacity(&self) -> usize {
        self.rows.len().min(MOST_OBJECTS)
    }

    fn next_number(&self) -> Number {
        self.next
    }

    fn count(&self) -> usize {
        self.count
    }

    fn look(&self, directory: Number, name: &[u8]) -> Option<Number> {
        let Some(place) = self.find_named(directory, name) else {
            return None;
        };
        Some(place.entry.number)
    }

    fn object(&self, number: Number) -> Option<Status> {
        if number == Number::ROOT {
            return Some(root_status());
        }
        let Some(place) = self.find(number) else {
            return None;
        };
        Some(place.entry.status())
    }

    fn child(&self, directory: Number, above: Number) -> Option<Number> {
        least(&self.rows, directory, above)
    }

    fn contents(&self, number: Number, buffer: &mut [u8]) -> Result<usize, Refusal> {
        let Some(place) = self.find_file(number) else {
            return Err(Refusal::NoSuchObject);
        };
        let held = place.entry.held();
        copy_front(held.as_slice(), buffer)
    }
}
