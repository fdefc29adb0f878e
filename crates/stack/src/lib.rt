// One stack over memory that is passed in, for every kind of element.
#![tactic(auto)]

use std::marker::Model;

// No heap: the memory is passed in, and how much of it is in use stands beside it.
#[derive(Drop)]
pub struct Stack<'a, T> {
    room: &'a mut [T],
    len: usize,
}

impl<'a, T> Model for Stack<'a, T> {
    ghost use Rattle.std.specs.Prelude.{◌≤◌, length, reverse, take};
    ghost use Rattle.stack.specs.Stacks.{Pile, pile};

    ghost Value = { Pile T };

    ghost view = { λ s. pile (length s.room.now) (reverse (take s.len s.room.now)) };

    ghost invariant = { λ s. s.len ≤ length s.room.now };
}

pub mod holding;
