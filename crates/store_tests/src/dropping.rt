// Dropping objects, in a planted store.
use crate::change::Change;
use crate::expect::{has_children, makes, refuses};
use std::process::Abort;
use std::test::Fail;
use tree::store::Store;
use tree::view::TreeView;
use vocab::kind::Kind::{Directory, File};
use vocab::number::Number;
use vocab::refusal::Refusal;

pub fn drops_what_is_there_and_empty<S: Store>(rt: &impl Abort, s: &mut S) -> Result<(), Fail> {
    for number in [0, 1, 20, u32::MAX] {
        refuses(rt, s, Refusal::NoSuchObject, &[Change::Remove(number)]);
    }
    for number in [2, 4, 5, 6, 8] {
        refuses(rt, s, Refusal::HasChildren, &[Change::Remove(number)]);
    }
    makes(s, &[Change::Remove(7), Change::Remove(6)])?;
    refuses(rt, s, Refusal::NoSuchObject, &[Change::Remove(6)]);
    refuses(rt, s, Refusal::HasChildren, &[Change::Remove(4)]);
    makes(
        s,
        &[
            Change::Remove(5),
            Change::Remove(3),
            Change::Remove(4),
            Change::Remove(2),
        ],
    )?;
    has_children(rt, s, 1, &[8]);
    has_children(rt, s, 8, &[9]);
    assert_eq!(rt; s.count(), 2);
    Ok(())
}

// The number and the name are free again.
pub fn frees_number_and_name<S: Store>(rt: &impl Abort, s: &mut S) -> Result<(), Fail> {
    makes(s, &[Change::Remove(3)])?;
    assert_eq!(rt; s.look(Number(2), b"lead.pre"), None);
    assert!(rt; s.object(Number(3)).is_none());
    makes(
        s,
        &[
            Change::Add(Directory, 2, b"lead.pre", 3),
            Change::Add(File, 3, b"lead.pre", 20),
        ],
    )?;
    assert_eq!(rt; s.look(Number(2), b"lead.pre"), Some(Number(3)));
    Ok(())
}
