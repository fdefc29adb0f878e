// What a test expects of a store: that it makes changes, or refuses them and stays as it was.
use crate::change::Change;
use std::hash::{FoldHasher, Hash, Hasher};
use std::iter::once;
use std::process::Abort;
use std::test::Fail;
use tree::store::Store;
use tree::view::TreeView;
use vocab::number::Number;
use vocab::refusal::Refusal;
use vocab::status::Status;

pub fn makes<S: Store>(s: &mut S, changes: &[Change]) -> Result<(), Fail> {
    for change in changes {
        if let Err(refusal) = change.make(s) {
            return Err(Fail::new(format_args!("{change:?} gave {refusal:?}")));
        }
    }
    Ok(())
}

pub fn refuses<S: Store>(rt: &impl Abort, s: &mut S, refusal: Refusal, changes: &[Change]) {
    let before = fingerprint(s);
    for change in changes {
        assert_eq!(rt; change.make(s), Err(refusal), "{change:?}");
        assert_eq!(rt; fingerprint(s), before, "{change:?}");
    }
}

// Children of a directory, from the lowest number on.
pub fn has_children<V: TreeView>(rt: &impl Abort, view: &V, directory: u32, expected: &[u32]) {
    let mut above = Number::BEFORE_ALL;
    for &number in expected {
        let number = Number(number);
        assert_eq!(rt; view.child(Number(directory), above), Some(number));
        above = number;
    }
    assert_eq!(rt; view.child(Number(directory), above), None);
}

pub fn holds<V: TreeView>(
    rt: &impl Abort,
    view: &V,
    number: u32,
    expected: &[u8],
) -> Result<(), Fail> {
    let mut buffer = [0; 256];
    let len = view.contents(Number(number), &mut buffer)?;
    assert_eq!(rt; len, expected.len());
    assert!(rt; buffer.starts_with(expected));
    Ok(())
}

pub fn status<V: TreeView>(view: &V, number: u32) -> Result<Status, Fail> {
    match view.object(Number(number)) {
        Some(status) => Ok(status),
        None => Err(Fail::new(format_args!("no object {number}"))),
    }
}

// All that is shown of the numbers below 128 and the highest one, as one number.
fn fingerprint<V: TreeView>(view: &V) -> u64 {
    let mut hasher = FoldHasher::default();
    view.next_number().hash(&mut hasher);
    view.count().hash(&mut hasher);
    for number in (0..128).chain(once(u32::MAX)) {
        let number = Number(number);
        let mut buffer = [0; 256];
        let len = view.contents(number, &mut buffer).ok();
        (view.object(number), len, buffer).hash(&mut hasher);
    }
    hasher.finish()
}
