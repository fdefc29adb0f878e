// New contents for files, in a planted store.
use crate::change::{Change, STAMP};
use crate::expect::{holds, makes, refuses, status};
use std::process::Abort;
use std::test::Fail;
use tree::store::Store;
use tree::view::TreeView;
use vocab::kind::Kind;
use vocab::number::Number;
use vocab::refusal::Refusal;
use vocab::stamp::Stamp;

pub fn puts_up_to_256_bytes<S: Store>(rt: &impl Abort, s: &mut S) -> Result<(), Fail> {
    let long = [b'x'; 257];
    let full = &long[0..256];
    makes(s, &[Change::Put(3, full)])?;
    holds(rt, s, 3, full)?;
    refuses(rt, s, Refusal::ContentsTooLong, &[Change::Put(3, &long)]);
    makes(s, &[Change::Put(3, b"short")])?;
    holds(rt, s, 3, b"short")?;
    makes(s, &[Change::Put(3, b"")])?;
    holds(rt, s, 3, b"")
}

pub fn puts_into_files_alone<S: Store>(rt: &impl Abort, s: &mut S) {
    let long = [b'x'; 257];
    for number in [0, 1, 2, 20, u32::MAX] {
        refuses(
            rt,
            s,
            Refusal::NoSuchObject,
            &[Change::Put(number, b"x"), Change::Put(number, &long)],
        );
    }
}

pub fn puts_a_new_stamp<S: Store>(rt: &impl Abort, s: &mut S) -> Result<(), Fail> {
    let stamp = Stamp {
        author: 65_535,
        serial: 1,
    };
    assert_eq!(rt; status(s, 3)?.stamp, STAMP);
    s.put(Number(3), b"gain 8", stamp)?;
    let after = status(s, 3)?;
    assert_eq!(rt; after.stamp, stamp);
    assert_eq!(rt; after.parent, Number(2));
    assert_eq!(rt; after.kind, Kind::File);
    assert!(rt; after.name.is(b"lead.pre"));
    assert_eq!(rt; status(s, 9)?.stamp, STAMP);
    holds(rt, s, 3, b"gain 8")?;
    holds(rt, s, 9, b"")
}
