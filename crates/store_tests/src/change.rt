// Changes of a store as values, for tables of cases; a failed test prints the change.
use tree::store::Store;
use vocab::kind::Kind;
use vocab::number::Number;
use vocab::refusal::Refusal;
use vocab::stamp::Stamp;

pub const STAMP: Stamp = Stamp {
    author: 3,
    serial: 70_000,
};

// Kinds, numbers and names come in the order of the store's own calls.
#[derive(Clone, Copy, Debug)]
pub enum Change<'a> {
    Add(Kind, u32, &'a [u8], u32),
    Put(u32, &'a [u8]),
    Remove(u32),
    Move(u32, u32, &'a [u8]),
    SetNext(u32),
}

impl Change<'_> {
    pub fn make<S: Store>(&self, s: &mut S) -> Result<(), Refusal> {
        match *self {
            Change::Add(kind, parent, name, number) => s.add(
                kind,
                Number(parent),
                name,
                Number(number),
                STAMP,
            ),
            Change::Put(number, contents) => s.put(Number(number), contents, STAMP),
            Change::Remove(number) => s.drop_object(Number(number)),
            Change::Move(number, parent, name) => s.move_object(
                Number(number),
                Number(parent),
                name,
            ),
            Change::SetNext(next) => s.set_next(Number(next)),
        }
    }
}
