// How a table finds objects among its rows.
ghost use Rattle.std.specs.Prelude.{◌≡◌, true, false, MatchOption};
ghost use Rattle.std.specs.Option.{option_map};
ghost use Rattle.tree.specs.Trees.{is as has_number, at};
ghost use Rattle.tree.specs.Questions.{is_file, look, placed, has_child};
ghost use Rattle.rows.specs.Rows.{Found, Searched, object_of};
ghost use Rattle.table.specs.Tables.{rows_of, tree_of};

use crate::Table;
use asking::test::{HasNumber, HasParent, HasPlace};
use rows::search::{Place, first};
use vocab::number::Number;

impl Table {
    pub(crate) fn find(&self, number: Number) -> Option<Place>
        ensures place { Searched (has_number number) (rows_of self.now) result }
        ensures object { option_map (λ f. object_of f.entry) result ≡ at number (tree_of self.now).objects }
    {
        first(&self.rows, &HasNumber(number))
    }

    pub(crate) fn find_named(&self, parent: Number, name: &[u8]) -> Option<Place>
        ensures place { Searched (placed parent name.now) (rows_of self.now) result }
        ensures number { option_map (λ f. f.entry.number) result ≡ look parent name.now (tree_of self.now).objects }
    {
        first(&self.rows, &HasPlace { parent, name })
    }

    // Not by `child`, as `asking` has it: the first child is enough, and the smallest takes all rows.
    pub(crate) fn has_children(&self, number: Number) -> bool
        ensures { result ≡ has_child number (tree_of self.now).objects }
    {
        first(&self.rows, &HasParent(number)).is_some()
    }

    // No `filter`: it was tried, and the checker made no proof of it.
    pub(crate) fn find_file(&self, number: Number) -> Option<Place>
        ensures { MatchOption result
            (is_file (at number (tree_of self.now).objects) ≡ false)
            (λ f. (is_file (at number (tree_of self.now).objects) ≡ true) × (at number (tree_of self.now).objects ≡ Some (object_of f.entry)) × Found (has_number number) (rows_of self.now) f) }
    {
        let place = self.find(number)?;
        if place.entry.is_directory() {
            None
        } else {
            Some(place)
        }
    }
}
