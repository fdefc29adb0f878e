// Listing any store.
use crate::change::Change;
use crate::expect::makes;
use listing::Listing;
use std::process::Abort;
use std::test::Fail;
use tree::store::Store;
use tree::view::TreeView;
use vocab::kind::Kind::{Directory, File};
use vocab::number::Number;
use vocab::refusal::Refusal;

// With a list of as many places as given, whatever it held before.
fn lists<V: TreeView>(
    rt: &impl Abort,
    view: &V,
    list: &mut [Number],
    expected: &[u32],
) -> Result<(), Fail> {
    let mut listing = Listing::new(view, list)?;
    for &number in expected {
        assert_eq!(rt; listing.next(), Some(Number(number)));
    }
    assert_eq!(rt; listing.next(), None);
    assert_eq!(rt; listing.next(), None);
    Ok(())
}

fn is_short<V: TreeView>(rt: &impl Abort, view: &V, list: &mut [Number]) {
    assert_eq!(rt; Listing::new(view, list).err(), Some(Refusal::ListShort));
}

// In an empty store with room for one object.
pub fn lists_nothing<S: Store>(rt: &impl Abort, s: &mut S) -> Result<(), Fail> {
    lists(rt, s, &mut [], &[])?;
    makes(s, &[Change::Add(File, 1, b"a", 40)])?;
    is_short(rt, s, &mut []);
    lists(rt, s, &mut [Number(0)], &[40])
}

// In a planted store.
pub fn lists_in_order<S: Store>(rt: &impl Abort, s: &mut S) -> Result<(), Fail> {
    makes(
        s,
        &[
            Change::Add(Directory, 1, b"last", 11),
            Change::Add(File, 11, b"z", 10),
            Change::Add(File, 1, b"a", 12),
            Change::Add(File, 4, b"a", 13),
            Change::Move(9, 2, b"solo.pre"),
        ],
    )?;
    let order = [2, 3, 4, 5, 6, 7, 13, 9, 8, 11, 10, 12];
    is_short(rt, s, &mut [Number(0); 11]);
    lists(rt, s, &mut [Number(9); 12], &order)?;
    lists(rt, s, &mut [Number(0); 13], &order)
}

// In an empty store with room for seven objects: directories within one another, with numbers that fall and rise.
pub fn lists_a_chain<S: Store>(rt: &impl Abort, s: &mut S) -> Result<(), Fail> {
    let chain = [9, 8, 2, 7, 3, 100, 50];
    let mut parent = 1;
    for number in chain {
        makes(s, &[Change::Add(Directory, parent, b"in", number)])?;
        parent = number;
    }
    is_short(rt, s, &mut [Number(0); 6]);
    lists(rt, s, &mut [Number(0); 7], &chain)
}
