// Questions to a planted store.
use crate::change::{Change, STAMP};
use crate::expect::{has_children, holds, makes};
use std::process::Abort;
use std::test::Fail;
use tree::store::Store;
use tree::view::TreeView;
use vocab::kind::Kind::{Directory, File};
use vocab::name::Name;
use vocab::number::Number;
use vocab::refusal::Refusal;
use vocab::stamp::Stamp;
use vocab::status::Status;

pub fn finds_names<V: TreeView>(rt: &impl Abort, view: &V) {
    let bound: [(u32, &[u8], u32); 4] = [
        (1, b"factory", 2),
        (2, b"lead.pre", 3),
        (8, b"lead.pre", 9),
        (6, b"slow.pre", 7),
    ];
    for (directory, name, number) in bound {
        assert_eq!(rt; view.look(Number(directory), name), Some(Number(number)));
    }
    let unbound: [(u32, &[u8]); 9] = [
        (1, b"lead.pre"),
        (2, b"lead"),
        (2, b"lead.pre2"),
        (2, b"Lead.pre"),
        (3, b"lead.pre"),
        (20, b"lead.pre"),
        (0, b"factory"),
        (1, b""),
        (2, b"lead pre"),
    ];
    for (directory, name) in unbound {
        assert_eq!(rt; view.look(Number(directory), name), None);
    }
}

pub fn shows_objects<V: TreeView>(rt: &impl Abort, view: &V) -> Result<(), Fail> {
    let all = [
        Status {
            number: Number(1),
            kind: Directory,
            parent: Number(1),
            name: Name::none(),
            stamp: Stamp {
                author: 0,
                serial: 0,
            },
        },
        Status {
            number: Number(2),
            kind: Directory,
            parent: Number(1),
            name: Name::new(b"factory")?,
            stamp: STAMP,
        },
        Status {
            number: Number(6),
            kind: Directory,
            parent: Number(5),
            name: Name::new(b"doom")?,
            stamp: STAMP,
        },
        Status {
            number: Number(9),
            kind: File,
            parent: Number(8),
            name: Name::new(b"lead.pre")?,
            stamp: STAMP,
        },
    ];
    for status in all {
        assert_eq!(rt; view.object(status.number), Some(status));
    }
    for number in [0, 10, 20, u32::MAX] {
        assert_eq!(rt; view.object(Number(number)), None);
    }
    Ok(())
}

pub fn gives_children_by_number<S: Store>(rt: &impl Abort, s: &mut S) -> Result<(), Fail> {
    makes(
        s,
        &[
            Change::Add(File, 1, b"z", 30),
            Change::Add(File, 1, b"a", u32::MAX),
            Change::Add(File, 1, b"m", 5_000),
            Change::Add(File, 1, b"b", 20),
        ],
    )?;
    has_children(rt, s, 1, &[2, 8, 20, 30, 5_000, u32::MAX]);
    has_children(rt, s, 2, &[3, 4]);
    for childless in [0, 3, 10, u32::MAX] {
        has_children(rt, s, childless, &[]);
    }
    let cases = [
        (7, Some(Number(8))),
        (8, Some(Number(20))),
        (19, Some(Number(20))),
        (20, Some(Number(30))),
        (u32::MAX, None),
    ];
    for (above, child) in cases {
        assert_eq!(rt; s.child(Number::ROOT, Number(above)), child);
    }
    Ok(())
}

pub fn copies_contents_of_files<V: TreeView>(rt: &impl Abort, view: &V) -> Result<(), Fail> {
    let mut exact = [0; 6];
    assert_eq!(rt; view.contents(Number(3), &mut exact), Ok(6));
    assert_eq!(rt; &exact, b"gain 7");
    let mut longer = [b'-'; 9];
    assert_eq!(rt; view.contents(Number(3), &mut longer), Ok(6));
    assert_eq!(rt; &longer, b"gain 7---");
    assert_eq!(rt; view.contents(Number(9), &mut []), Ok(0));
    holds(rt, view, 9, b"")
}

pub fn refuses_to_copy<V: TreeView>(rt: &impl Abort, view: &V) {
    for number in [0, 1, 2, 20, u32::MAX] {
        leaves_buffers_alone(rt, view, number, Refusal::NoSuchObject);
    }
    leaves_buffers_alone(rt, view, 3, Refusal::BufferShort);
}

fn leaves_buffers_alone<V: TreeView>(rt: &impl Abort, view: &V, number: u32, refusal: Refusal) {
    let mut short = [b'-'; 5];
    assert_eq!(rt; view.contents(Number(number), &mut short), Err(refusal));
    assert_eq!(rt; &short, b"-----");
    assert_eq!(rt; view.contents(Number(number), &mut []), Err(refusal));
}
