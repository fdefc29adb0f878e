// The next number, and clearing a store.
use crate::change::Change;
use crate::expect::{has_children, makes, refuses};
use crate::library::plant;
use std::process::Abort;
use std::test::Fail;
use tree::store::Store;
use tree::view::TreeView;
use vocab::number::Number;
use vocab::refusal::Refusal;

// From 2, the next number of a new store.
pub fn raises_the_next_number<S: Store>(rt: &impl Abort, s: &mut S) -> Result<(), Fail> {
    assert_eq!(rt; s.next_number(), Number::FIRST);
    refuses(
        rt,
        s,
        Refusal::NextOutOfRange,
        &[Change::SetNext(0), Change::SetNext(1)],
    );
    makes(
        s,
        &[Change::SetNext(2), Change::SetNext(9), Change::SetNext(9)],
    )?;
    assert_eq!(rt; s.next_number(), Number(9));
    refuses(
        rt,
        s,
        Refusal::NextOutOfRange,
        &[Change::SetNext(8), Change::SetNext(0x8000_0001)],
    );
    makes(
        s,
        &[Change::SetNext(0x8000_0000), Change::SetNext(0x8000_0000)],
    )?;
    assert_eq!(rt; s.next_number(), Number::TEMPORARY);
    for next in [0x7fff_ffff, 0x8000_0001, u32::MAX] {
        refuses(rt, s, Refusal::NextOutOfRange, &[Change::SetNext(next)]);
    }
    Ok(())
}

pub fn clears_all_but_the_next_number<S: Store>(rt: &impl Abort, s: &mut S) -> Result<(), Fail> {
    let room = s.capacity();
    plant(s)?;
    makes(s, &[Change::SetNext(10)])?;
    s.clear();
    assert_eq!(rt; s.count(), 0);
    assert_eq!(rt; s.capacity(), room);
    assert_eq!(rt; s.next_number(), Number(10));
    for number in 2..10 {
        assert!(rt; s.object(Number(number)).is_none());
    }
    assert_eq!(rt; s.look(Number::ROOT, b"factory"), None);
    has_children(rt, s, 1, &[]);
    plant(s)?;
    assert_eq!(rt; s.count(), 8);
    Ok(())
}
