// Moving objects, in a planted store.
use crate::change::{Change, STAMP};
use crate::expect::{has_children, holds, makes, refuses, status};
use std::process::Abort;
use std::test::Fail;
use tree::store::Store;
use tree::view::TreeView;
use vocab::kind::Kind;
use vocab::number::Number;
use vocab::refusal::Refusal;

pub fn moves_objects_into_directories<S: Store>(rt: &impl Abort, s: &mut S) {
    for number in [0, 1, 20, u32::MAX] {
        refuses(
            rt,
            s,
            Refusal::NoSuchObject,
            &[Change::Move(number, 8, b"a")],
        );
    }
    for parent in [0, 3, 9, 20, u32::MAX] {
        refuses(
            rt,
            s,
            Refusal::NoSuchDirectory,
            &[Change::Move(3, parent, b"a")],
        );
    }
}

// An object's own place is taken.
pub fn moves_to_free_places<S: Store>(rt: &impl Abort, s: &mut S) {
    refuses(
        rt,
        s,
        Refusal::NameTaken,
        &[
            Change::Move(3, 2, b"lead.pre"),
            Change::Move(2, 1, b"factory"),
            Change::Move(3, 8, b"lead.pre"),
            Change::Move(3, 2, b"rock"),
            Change::Move(2, 1, b"artists"),
        ],
    );
}

pub fn moves_nothing_beneath_itself<S: Store>(rt: &impl Abort, s: &mut S) {
    for parent in [2, 4, 5, 6] {
        refuses(
            rt,
            s,
            Refusal::BeneathItself,
            &[Change::Move(2, parent, b"factory")],
        );
    }
    for (parent, taken) in [(2, "rock"), (4, "metal"), (5, "doom"), (6, "slow.pre")] {
        refuses(
            rt,
            s,
            Refusal::NameTaken,
            &[Change::Move(2, parent, taken.as_bytes())],
        );
    }
}

pub fn gives_the_first_refusal<S: Store>(rt: &impl Abort, s: &mut S) {
    refuses(
        rt,
        s,
        Refusal::BadName,
        &[
            Change::Move(20, 8, b""),
            Change::Move(3, 20, b"a/b"),
            Change::Move(2, 2, b"a b"),
        ],
    );
    refuses(
        rt,
        s,
        Refusal::NoSuchObject,
        &[
            Change::Move(20, 3, b"a"),
            Change::Move(20, 2, b"lead.pre"),
            Change::Move(1, 1, b"a"),
        ],
    );
}

pub fn moves_a_file<S: Store>(rt: &impl Abort, s: &mut S) -> Result<(), Fail> {
    makes(s, &[Change::Move(3, 8, b"solo.pre")])?;
    has_children(rt, s, 8, &[3, 9]);
    has_children(rt, s, 2, &[4]);
    assert_eq!(rt; s.look(Number(2), b"lead.pre"), None);
    let after = status(s, 3)?;
    assert_eq!(rt; after.parent, Number(8));
    assert!(rt; after.name.is(b"solo.pre"));
    assert_eq!(rt; after.stamp, STAMP);
    assert_eq!(rt; after.kind, Kind::File);
    holds(rt, s, 3, b"gain 7")
}

pub fn moves_a_directory_with_all_beneath_it<S: Store>(
    rt: &impl Abort,
    s: &mut S,
) -> Result<(), Fail> {
    makes(s, &[Change::Move(4, 8, b"rock")])?;
    has_children(rt, s, 2, &[3]);
    has_children(rt, s, 8, &[4, 9]);
    has_children(rt, s, 4, &[5]);
    assert_eq!(rt; s.look(Number(6), b"slow.pre"), Some(Number(7)));
    makes(
        s,
        &[Change::Move(2, 6, b"factory"), Change::Move(2, 6, b"works")],
    )?;
    has_children(rt, s, 6, &[2, 7]);
    refuses(
        rt,
        s,
        Refusal::BeneathItself,
        &[Change::Move(8, 2, b"artists")],
    );
    Ok(())
}
