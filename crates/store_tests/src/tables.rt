// The tests of stores, on tables.
use crate::library::plant;
use crate::opening::open;
use crate::{adding, dropping, listings, moving, numbering, putting, showing};
use std::alloc::Global;
use std::test::Fail;
use table::Table;

fn planted(heap: Global) -> Result<Table, Fail> {
    let mut table = open(heap, 16)?;
    plant(&mut table)?;
    Ok(table)
}

#[test]
fn names(rt: HostRuntime) -> Result<(), Fail> {
    let mut table = open(rt.alloc(), 1)?;
    adding::takes_names_of_1_to_24_bytes(&rt, &mut table)?;
    adding::takes_printable_bytes_but_the_slash(&rt, &mut table)
}

#[test]
fn adds(rt: HostRuntime) -> Result<(), Fail> {
    adding::takes_free_numbers_from_2_up(&rt, &mut open(rt.alloc(), 4)?)?;
    let mut table = planted(rt.alloc())?;
    adding::gives_the_first_refusal(&rt, &mut table);
    adding::takes_free_places_in_directories(&rt, &mut table)
}

#[test]
fn adds_while_there_is_room(rt: HostRuntime) -> Result<(), Fail> {
    adding::has_no_room(&rt, &mut open(rt.alloc(), 0)?);
    adding::fills_up(&rt, &mut open(rt.alloc(), 3)?)
}

#[test]
fn puts(rt: HostRuntime) -> Result<(), Fail> {
    let mut table = planted(rt.alloc())?;
    putting::puts_into_files_alone(&rt, &mut table);
    putting::puts_a_new_stamp(&rt, &mut table)?;
    putting::puts_up_to_256_bytes(&rt, &mut table)
}

#[test]
fn drops(rt: HostRuntime) -> Result<(), Fail> {
    dropping::drops_what_is_there_and_empty(&rt, &mut planted(rt.alloc())?)?;
    dropping::frees_number_and_name(&rt, &mut planted(rt.alloc())?)
}

#[test]
fn moves(rt: HostRuntime) -> Result<(), Fail> {
    let mut table = planted(rt.alloc())?;
    moving::moves_objects_into_directories(&rt, &mut table);
    moving::moves_to_free_places(&rt, &mut table);
    moving::moves_nothing_beneath_itself(&rt, &mut table);
    moving::gives_the_first_refusal(&rt, &mut table);
    moving::moves_a_file(&rt, &mut table)?;
    moving::moves_a_directory_with_all_beneath_it(&rt, &mut planted(rt.alloc())?)
}

#[test]
fn sets_next_and_clears(rt: HostRuntime) -> Result<(), Fail> {
    numbering::raises_the_next_number(&rt, &mut open(rt.alloc(), 2)?)?;
    numbering::clears_all_but_the_next_number(&rt, &mut open(rt.alloc(), 8)?)
}

#[test]
fn looks(rt: HostRuntime) -> Result<(), Fail> {
    showing::finds_names(&rt, &planted(rt.alloc())?);
    Ok(())
}

#[test]
fn objects(rt: HostRuntime) -> Result<(), Fail> {
    showing::shows_objects(&rt, &planted(rt.alloc())?)
}

#[test]
fn children(rt: HostRuntime) -> Result<(), Fail> {
    showing::gives_children_by_number(&rt, &mut planted(rt.alloc())?)
}

#[test]
fn contents(rt: HostRuntime) -> Result<(), Fail> {
    let table = planted(rt.alloc())?;
    showing::copies_contents_of_files(&rt, &table)?;
    showing::refuses_to_copy(&rt, &table);
    Ok(())
}

#[test]
fn listing(rt: HostRuntime) -> Result<(), Fail> {
    listings::lists_nothing(&rt, &mut open(rt.alloc(), 1)?)?;
    listings::lists_in_order(&rt, &mut planted(rt.alloc())?)?;
    listings::lists_a_chain(&rt, &mut open(rt.alloc(), 7)?)
}
