// Searches through rows.
ghost use Rattle.std.specs.Prelude.{◌≡◌, ◌<◌, Bool, min, length, MatchOption};
ghost use Rattle.std.specs.List.{filter_map, reduce};
ghost use Rattle.asking.specs.Tests.{passing};
ghost use Rattle.tree.specs.Trees.{Object};
ghost use Rattle.tree.specs.Questions.{child};
ghost use Rattle.rows.specs.Rows.{object_of, objects_in, free as free_row, number_if, FirstAt, Nowhere, Searched};

use crate::row::{Entry, Row};
use asking::test::{Follows, Test as HeadTest};
use vocab::number::Number;

// What a search through rows looks for, by all that an entry holds. Each test of `asking` is one.
pub trait Test {
    ghost passes: { Self → Object → Bool };

    fn test(&self, entry: &Entry) -> bool
        ensures { result ≡ passes self.now (object_of entry.now) };
}

impl<T: HeadTest> Test for T {
    ghost passes = { λ t. passing (T.passes t) };

    fn test(&self, entry: &Entry) -> bool {
        HeadTest::test(self, entry)
    }
}

#[derive(Clone, Copy)]
pub struct Place {
    pub index: usize,
    pub entry: Entry,
}

// The first row whose object passes a test.
pub fn first<T: Test>(rows: &[Row], test: &T) -> Option<Place>
    ensures { Searched (T.passes test.now) rows.now result }
{
    // No `find_map`: with it, a trial run that fills 5,000 rows did not end within its minute.
    for (index, row) in rows.iter().enumerate() {
        if let Some(entry) = row {
            if test.test(entry) {
                return Some(Place {
                    index,
                    entry: *entry,
                });
            }
        }
    }
    None
}

pub fn first_free(rows: &[Row]) -> Option<usize>
    ensures { MatchOption result (Nowhere free_row rows.now) (λ i. FirstAt free_row rows.now i × (i < length rows.now)) }
{
    rows.iter().position(|row| row.is_none())
}

// The smallest number of an object that passes a test.
fn least_that<T: HeadTest>(rows: &[Row], test: &T) -> Option<Number>
    ensures { result ≡ reduce min (filter_map (number_if (passing (T.passes test.now))) rows.now) }
{
    rows.iter()
        .filter_map(|row| {
            let entry = row.as_ref()?;
            test.test(entry).then_some(entry.number)
        })
        .min()
}

// The smallest number above `above` among the objects of a parent: asked as `child` is, by two parameters.
pub fn least(rows: &[Row], parent: Number, above: Number) -> Option<Number>
    ensures { result ≡ child parent above (objects_in rows.now) }
{
    least_that(rows, &Follows { parent, above })
}
