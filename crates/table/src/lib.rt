// A store in rows of memory: the rows, and the tree that they stand for.
#![tactic(auto)]

ghost use Rattle.std.specs.Prelude.{◌≡◌, length};
ghost use Rattle.tree.specs.Law.{Lawful};
ghost use Rattle.tree.proofs.Props.{lawful_prop};
ghost use Rattle.rows.specs.Rows.{objects_in, tree_in};

use rows::row::Row;
use vocab::number::Number;

// Rows and no map: memory is passed in, and no call allocates.
#[derive(Drop)]
pub struct Table {
    rows: Vec<Row>,
    count: usize,
    next: Number,
    ghost counted: { count ≡ length (objects_in rows.items) },
    ghost lawful: { Lawful (tree_in rows.items next) } by { lawful_prop (tree_in rows.items next) },
}

mod finding;
pub mod opening;
pub mod storing;
pub mod viewing;
