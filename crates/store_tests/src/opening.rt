// How many objects a table takes, and what becomes of its rows.
use crate::library::plant;
use rows::row::Row;
use std::alloc::{AllocError, Global};
use std::process::Abort;
use std::test::Fail;
use table::Table;
use tree::store::Store;
use tree::view::TreeView;
use vocab::kind::Kind;
use vocab::number::Number;
use vocab::refusal::Refusal;
use vocab::stamp::Stamp;

// A table in new rows.
pub fn open(heap: Global, count: usize) -> Result<Table, AllocError> {
    let mut rows = Vec::new(heap);
    rows.resize(count, None)?;
    Ok(Table::open(rows))
}

fn used(rows: &[Row]) -> usize {
    rows.iter().filter(|row| row.is_some()).count()
}

fn is_new<V: TreeView>(rt: &impl Abort, view: &V, room: usize) {
    assert_eq!(rt; view.capacity(), room);
    assert_eq!(rt; view.count(), 0);
    assert_eq!(rt; view.next_number(), Number(2));
    assert_eq!(rt; view.child(Number::ROOT, Number::BEFORE_ALL), None);
}

#[test]
fn capacity_is_the_count_of_rows_up_to_4096(rt: HostRuntime) -> Result<(), Fail> {
    for (rows, room) in [
        (0, 0),
        (1, 1),
        (4_095, 4_095),
        (4_096, 4_096),
        (4_097, 4_096),
        (5_000, 4_096),
    ] {
        let table = open(rt.alloc(), rows)?;
        is_new(&rt, &table, room);
        assert_eq!(rt; table.close().len(), rows);
    }
    Ok(())
}

#[test]
fn rows_are_opened_empty_and_given_back(rt: HostRuntime) -> Result<(), Fail> {
    let mut table = open(rt.alloc(), 12)?;
    plant(&mut table)?;
    table.set_next(Number(10))?;
    let rows = table.close();
    assert_eq!(rt; rows.len(), 12);
    assert_eq!(rt; used(&rows), 8);
    let again = Table::open(rows);
    is_new(&rt, &again, 12);
    let rows = again.close();
    assert_eq!(rt; rows.len(), 12);
    assert_eq!(rt; used(&rows), 0);
    Ok(())
}

fn add_numbered<S: Store>(
    s: &mut S,
    heap: Global,
    number: u32,
) -> Result<Result<(), Refusal>, AllocError> {
    let name = format!(in heap; "{number}")?;
    Ok(s.add(
        Kind::File,
        Number::ROOT,
        name.as_bytes(),
        Number(number),
        Stamp {
            author: 0,
            serial: number,
        },
    ))
}

#[test]
fn takes_4096_objects_in_5000_rows(rt: HostRuntime) -> Result<(), Fail> {
    let mut table = open(rt.alloc(), 5_000)?;
    for number in 2..4_098 {
        add_numbered(&mut table, rt.alloc(), number)??;
    }
    assert_eq!(rt;
        add_numbered(&mut table, rt.alloc(), 4_098)?,
        Err(Refusal::StoreFull)
    );
    assert_eq!(rt; table.count(), 4_096);
    assert_eq!(rt; used(&table.close()), 4_096);
    Ok(())
}
