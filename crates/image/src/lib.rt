// A store in bytes that begin with the image of its tree.
#![tactic(auto)]

ghost use Rattle.std.specs.Prelude.{◌≤◌, length};
ghost use Rattle.tree.specs.Law.{Lawful};
ghost use Rattle.tree.proofs.Props.{lawful_prop};
ghost use Rattle.format.specs.Images.{Begins, sections_of, tree_in};
ghost use Rattle.format.specs.declared.layout.TheConstants.{LEAST_SIZE};

use vocab::number::Number;

#[derive(Drop)]
pub struct Image {
    bytes: Vec<u8>,
    // What stands in the image too. Where the bytes are too few for an image, it stands here alone.
    next: Number,
    directories: usize,
    files: usize,
    ghost lawful: { Lawful (tree_in bytes.items next directories files) } by { lawful_prop (tree_in bytes.items next directories files) },
    ghost held: { (LEAST_SIZE ≤ length bytes.items
        → Begins bytes.items (sections_of (tree_in bytes.items next directories files))) },
}

mod changing;
mod entry;
mod field;
mod finding;
mod gap;
mod head;
mod place;
mod questions;
mod reading;
mod search;
