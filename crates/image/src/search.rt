// Searches through the entries of a section.
ghost use Rattle.std.specs.Prelude.{◌≡◌, ◌^◌, ◌/◌, ◌<◌, ◌≤◌, length};
ghost use Rattle.std.specs.List.Sorted.{IsBinarySearchResult, IsSearchInRange};
ghost use Rattle.std.specs.Ordering.{nat_cmp};
ghost use Rattle.std.specs.Simd.{first_chunks};
ghost use Rattle.asking.specs.Tests.{passing};
ghost use Rattle.format.specs.Fields.{word};
ghost use Rattle.format.specs.Images.{section};
ghost use Rattle.image.specs.Searches.{First, Located};
ghost use Rattle.image.specs.Stores.{store_sections};

use crate::Image;
use crate::field::number_in;
use crate::place::Place;
use asking::test::Test;
use format::layout::{FILE_SIZE, HEAD_SIZE};
use vocab::kind::Kind;
use vocab::number::Number;

impl Image {
    pub(crate) fn first<T: Test>(&self, kind: Kind, test: &T) -> Option<Place>
        ensures { First kind (passing (T.passes test.now)) (store_sections self.now) result }
    {
        // No `find`: it was tried, and the proof that the first that passes is given did not close.
        for index in 0..self.count_of(kind) {
            let place = Place { kind, index };
            if test.test(&self.head(place)) {
                return Some(place);
            }
        }
        None
    }

    // The index of a number among the entries of a kind, or that at which it would stand.
    pub(crate) fn search(&self, kind: Kind, number: Number) -> Result<usize, usize>
        ensures { Located number (section kind (store_sections self.now)) result }
    {
        let entries = self.entries(kind);
        match kind {
            Kind::Directory => locate::<HEAD_SIZE>(entries, number),
            Kind::File => locate::<FILE_SIZE>(entries, number),
        }
    }
}

// The same among entries of N bytes.
fn locate<const N: usize>(entries: &[u8], number: Number) -> Result<usize, usize>
    requires { (4 ≤ N) × (N < 2 ^ 63) }
    ensures bound { IsSearchInRange result (length entries.now / N) }
    ensures position { IsBinarySearchResult (λ e. nat_cmp (word e 0) number)
        (first_chunks N (length entries.now / N) entries.now) result }
{
    let (entries, _) = entries.as_chunks::<N>();
    entries.binary_search_by_key(
        &number,
        |entry|
            requires { 4 ≤ N }
            ensures { result ≡ word entry.entry.now 0 }
        { number_in(entry, 0) },
    )
}
