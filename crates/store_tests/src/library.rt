// The library that most tests start from.
use crate::change::Change;
use crate::expect::makes;
use std::test::Fail;
use tree::store::Store;
use vocab::kind::Kind::{Directory, File};

//  2 factory/        8 artists/
//    3 lead.pre        9 lead.pre
//    4 rock/
//      5 metal/
//        6 doom/
//          7 slow.pre
pub fn plant<S: Store>(s: &mut S) -> Result<(), Fail> {
    makes(
        s,
        &[
            Change::Add(Directory, 1, b"artists", 8),
            Change::Add(Directory, 1, b"factory", 2),
            Change::Add(Directory, 2, b"rock", 4),
            Change::Add(Directory, 4, b"metal", 5),
            Change::Add(Directory, 5, b"doom", 6),
            Change::Add(File, 6, b"slow.pre", 7),
            Change::Add(File, 2, b"lead.pre", 3),
            Change::Add(File, 8, b"lead.pre", 9),
            Change::Put(3, b"gain 7"),
        ],
    )
}
