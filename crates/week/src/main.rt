// A week at the library server of a pedal workshop. It is Monday yet.
#![tactic(auto)]

mod monday;
mod print;
mod step;

use listing::Listing;
use print::{Answer, Shown};
use std::io;
use step::Step;
use table::Table;
use tree::store::Store;
use tree::view::TreeView;
use vocab::bytes::Contents;
use vocab::kind::Kind;
use vocab::name::Name;
use vocab::number::Number;
use vocab::refusal::Refusal;
use vocab::stamp::Stamp;

// The server's room: few, so that it is full once.
const ROWS: usize = 8;

// The office, whoever works at the server itself.
const OFFICE: u16 = 0;

fn main(rt: HostRuntime) -> io::Result<()> {
    let mut server = Table::open(Vec::from_array(rt.alloc(), [None; ROWS])?);
    println!(rt; "Monday")?;
    for step in &monday::STEPS {
        let answer = take(&mut server, step);
        println!(rt; "{step}: {}", Answer(answer))?;
    }
    show(&rt, &server)
}

// Each object, followed by all beneath it.
fn show<V: TreeView>(rt: &HostRuntime, view: &V) -> io::Result<()> {
    let count = view.count();
    println!(rt; "{count} objects, next number {}", view.next_number())?;
    let mut list = vec![in rt.alloc(); Number(0); count]?;
    let listing = match Listing::new(view, &mut list) {
        Ok(listing) => listing,
        Err(refusal) => return println!(rt; "{}", Answer(Err(refusal))),
    };
    for number in listing {
        println!(rt; "{}", Shown { view, number })?;
    }
    Ok(())
}

// One step of the office's work at the server; the number of the object.
fn take<S: Store>(server: &mut S, step: &Step) -> Result<Number, Refusal> {
    match *step {
        Step::Mkdir(path) => make(server, Kind::Directory, path),
        Step::Create(path) => make(server, Kind::File, path),
        Step::Store(path, contents) => fill(server, path, contents.as_bytes()),
        Step::Remove(path) => drop_one(server, Kind::File, path),
        Step::Rmdir(path) => drop_one(server, Kind::Directory, path),
        Step::Rename(from, to) => rename(server, from, to),
    }
}

// Each takes the server and a path: the one lasts, the other is the step's.
fn make<S: Store>(server: &mut S, kind: Kind, path: &str) -> Result<Number, Refusal> {
    let spot = Spot::at(server, path);
    Name::new(spot.name)?;
    let (number, after) = numbers(server)?;
    let directory = spot.directory.ok_or(Refusal::NoSuchDirectory)?;
    server.add(kind, directory, spot.name, number, stamp(number))?;
    server.set_next(after)?;
    Ok(number)
}

fn fill<S: Store>(server: &mut S, path: &str, contents: &[u8]) -> Result<Number, Refusal> {
    Contents::new(contents).ok_or(Refusal::ContentsTooLong)?;
    let (serial, after) = numbers(server)?;
    let number = bound(server, path)?;
    server.put(number, contents, stamp(serial))?;
    server.set_next(after)?;
    Ok(number)
}

fn drop_one<S: Store>(server: &mut S, kind: Kind, path: &str) -> Result<Number, Refusal> {
    let number = bound(server, path)?;
    match server.object(number) {
        Some(status) if status.kind == kind => server.drop_object(number)?,
        _ => return Err(Refusal::NoSuchObject),
    }
    Ok(number)
}

fn rename<S: Store>(server: &mut S, from: &str, to: &str) -> Result<Number, Refusal> {
    let spot = Spot::at(server, to);
    Name::new(spot.name)?;
    let number = bound(server, from)?;
    let directory = spot.directory.ok_or(Refusal::NoSuchDirectory)?;
    server.move_object(number, directory, spot.name)?;
    Ok(number)
}

// The server's next number, for a new object or a stamp, and the one after it.
fn numbers<V: TreeView>(server: &V) -> Result<(Number, Number), Refusal> {
    let next = server.next_number();
    if next >= Number::TEMPORARY {
        return Err(Refusal::NumbersSpent);
    }
    Ok((next, Number(next.0 + 1)))
}

fn stamp(serial: Number) -> Stamp {
    Stamp {
        author: OFFICE,
        serial: serial.0,
    }
}

// Where an object is to be: the name, and the directory, if the path to it leads to an object.
#[derive(Clone, Copy)]
struct Spot<'a> {
    directory: Option<Number>,
    name: &'a [u8],
}

impl<'a> Spot<'a> {
    fn at<V: TreeView>(server: &V, path: &'a str) -> Spot<'a> {
        match path.rsplit_once('/') {
            Some((directory, name)) => Spot {
                directory: find(server, directory),
                name: name.as_bytes(),
            },
            None => Spot {
                directory: Some(Number::ROOT),
                name: path.as_bytes(),
            },
        }
    }
}

fn find<V: TreeView>(server: &V, path: &str) -> Option<Number> {
    path.split('/').try_fold(
        Number::ROOT,
        |here, name| server.look(here, name.as_bytes()),
    )
}

fn bound<V: TreeView>(server: &V, path: &str) -> Result<Number, Refusal> {
    find(server, path).ok_or(Refusal::NoSuchObject)
}
