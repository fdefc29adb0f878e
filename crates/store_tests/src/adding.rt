// Adding objects.
use crate::change::Change;
use crate::expect::{has_children, makes, refuses};
use std::process::Abort;
use std::test::Fail;
use tree::store::Store;
use tree::view::TreeView;
use vocab::kind::Kind::{Directory, File};
use vocab::number::Number;
use vocab::refusal::Refusal;

pub fn takes_names_of_1_to_24_bytes<S: Store>(rt: &impl Abort, s: &mut S) -> Result<(), Fail> {
    let long = [b'a'; 25];
    refuses_name(rt, s, b"")?;
    takes_name(rt, s, &long[0..1])?;
    takes_name(rt, s, &long[0..24])?;
    refuses_name(rt, s, &long)
}

// Wherever it stands in the name.
pub fn takes_printable_bytes_but_the_slash<S: Store>(
    rt: &impl Abort,
    s: &mut S,
) -> Result<(), Fail> {
    for byte in [33, 46, 48, 126] {
        takes_name(rt, s, &[byte])?;
        takes_name(rt, s, &[byte, b'a', b'b'])?;
        takes_name(rt, s, &[b'a', byte, b'b'])?;
        takes_name(rt, s, &[b'a', b'b', byte])?;
    }
    for byte in [0, 10, 32, 47, 127, 128, 255] {
        refuses_name(rt, s, &[byte])?;
        refuses_name(rt, s, &[byte, b'a', b'b'])?;
        refuses_name(rt, s, &[b'a', byte, b'b'])?;
        refuses_name(rt, s, &[b'a', b'b', byte])?;
    }
    Ok(())
}

// A new object and a moved one take the same names.
fn takes_name<S: Store>(rt: &impl Abort, s: &mut S, name: &[u8]) -> Result<(), Fail> {
    makes(s, &[Change::Add(File, 1, name, 20)])?;
    assert_eq!(rt; s.look(Number::ROOT, name), Some(Number(20)));
    makes(
        s,
        &[
            Change::Remove(20),
            Change::Add(File, 1, b"old", 21),
            Change::Move(21, 1, name),
        ],
    )?;
    assert_eq!(rt; s.look(Number::ROOT, name), Some(Number(21)));
    makes(s, &[Change::Remove(21)])
}

fn refuses_name<S: Store>(rt: &impl Abort, s: &mut S, name: &[u8]) -> Result<(), Fail> {
    makes(s, &[Change::Add(File, 1, b"old", 21)])?;
    refuses(
        rt,
        s,
        Refusal::BadName,
        &[Change::Add(File, 1, name, 20), Change::Move(21, 1, name)],
    );
    makes(s, &[Change::Remove(21)])
}

pub fn takes_free_numbers_from_2_up<S: Store>(rt: &impl Abort, s: &mut S) -> Result<(), Fail> {
    let first = s.next_number();
    refuses(
        rt,
        s,
        Refusal::NumberInUse,
        &[
            Change::Add(File, 1, b"zero", 0),
            Change::Add(Directory, 1, b"one", 1),
        ],
    );
    makes(
        s,
        &[
            Change::Add(File, 1, b"last", u32::MAX),
            Change::Add(Directory, 1, b"first", 2),
            Change::Add(File, 2, b"temporary", 0x8000_0000),
        ],
    )?;
    refuses(
        rt,
        s,
        Refusal::NumberInUse,
        &[
            Change::Add(File, 1, b"again", 2),
            Change::Add(File, 2, b"again", u32::MAX),
            Change::Add(Directory, 1, b"again", 0x8000_0000),
        ],
    );
    has_children(rt, s, 1, &[2, u32::MAX]);
    assert_eq!(rt; s.next_number(), first);
    Ok(())
}

// In a planted store.
pub fn takes_free_places_in_directories<S: Store>(rt: &impl Abort, s: &mut S) -> Result<(), Fail> {
    for parent in [0, 3, 20, 21, u32::MAX] {
        refuses(
            rt,
            s,
            Refusal::NoSuchDirectory,
            &[Change::Add(File, parent, b"clean.pre", 20)],
        );
    }
    refuses(
        rt,
        s,
        Refusal::NameTaken,
        &[
            Change::Add(File, 2, b"lead.pre", 20),
            Change::Add(Directory, 2, b"lead.pre", 20),
            Change::Add(File, 1, b"factory", 20),
        ],
    );
    makes(
        s,
        &[
            Change::Add(File, 1, b"lead.pre", 20),
            Change::Add(Directory, 6, b"lead.pre", 21),
        ],
    )?;
    has_children(rt, s, 1, &[2, 8, 20]);
    has_children(rt, s, 6, &[7, 21]);
    assert_eq!(rt; s.count(), 10);
    Ok(())
}

// In a planted store.
pub fn gives_the_first_refusal<S: Store>(rt: &impl Abort, s: &mut S) {
    refuses(
        rt,
        s,
        Refusal::BadName,
        &[
            Change::Add(File, 3, b"", 3),
            Change::Add(File, 2, b"a/b", 1),
        ],
    );
    refuses(
        rt,
        s,
        Refusal::NumberInUse,
        &[
            Change::Add(File, 3, b"a", 3),
            Change::Add(File, 2, b"lead.pre", 1),
        ],
    );
}

// In an empty store with room for three objects.
pub fn fills_up<S: Store>(rt: &impl Abort, s: &mut S) -> Result<(), Fail> {
    makes(
        s,
        &[
            Change::Add(File, 1, b"a", 4),
            Change::Add(File, 1, b"b", 3),
            Change::Add(File, 1, b"c", 2),
        ],
    )?;
    refuses(rt, s, Refusal::BadName, &[Change::Add(File, 1, b"", 5)]);
    refuses(
        rt,
        s,
        Refusal::NumberInUse,
        &[Change::Add(File, 1, b"d", 4)],
    );
    refuses(
        rt,
        s,
        Refusal::NoSuchDirectory,
        &[Change::Add(File, 4, b"d", 5)],
    );
    refuses(rt, s, Refusal::NameTaken, &[Change::Add(File, 1, b"a", 5)]);
    refuses(
        rt,
        s,
        Refusal::StoreFull,
        &[
            Change::Add(File, 1, b"d", 5),
            Change::Add(Directory, 1, b"d", 5),
        ],
    );
    for (number, name) in [(4, b"a"), (3, b"b"), (2, b"c")] {
        makes(s, &[Change::Remove(number), Change::Add(File, 1, b"d", 5)])?;
        refuses(
            rt,
            s,
            Refusal::StoreFull,
            &[Change::Add(File, 1, name, number)],
        );
        makes(s, &[Change::Remove(5), Change::Add(File, 1, name, number)])?;
    }
    assert_eq!(rt; s.count(), 3);
    Ok(())
}

// In a store with no room.
pub fn has_no_room<S: Store>(rt: &impl Abort, s: &mut S) {
    refuses(
        rt,
        s,
        Refusal::StoreFull,
        &[
            Change::Add(File, 1, b"a", 2),
            Change::Add(Directory, 1, b"a", 2),
        ],
    );
    assert_eq!(rt; s.count(), 0);
}
