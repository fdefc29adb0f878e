// What comes onto a stack, and leaves it.
ghost use Rattle.std.specs.Prelude.{◌≡◌, ◌≤◌, [], length};
ghost use Rattle.stack.specs.Stacks.{pile, pushed, first, popped};

use crate::Stack;
use vocab::refusal::Refusal;

impl<'a, T: Copy> Stack<'a, T> {
    // Holds nothing.
    pub fn new(room: &'a mut [T]) -> Stack<'a, T>
        ensures { result ≡ pile (length room.old) [] }
    {
        Stack { room, len: 0 }
    }

    // How many it can hold.
    pub fn places(&self) -> usize
        ensures value { result ≡ self.now.places }
        ensures within { length self.now.held ≤ result }
    {
        self.room.len()
    }

    pub fn clear(&mut self)
        ensures held { self.new ≡ pile self.old.places [] }
        ensures within { length self.old.held ≤ self.old.places }
    {
        self.len = 0;
    }

    // Refused where all places are taken.
    pub fn push(&mut self, x: T) -> Result<(), Refusal>
        ensures held { (self.new, result) ≡ pushed x self.old }
        ensures within { length self.new.held ≤ self.new.places }
    {
        if self.len == self.places() {
            return Err(Refusal::ListShort);
        }
        self.room[self.len] = x;
        self.len += 1;
        Ok(())
    }

    // Takes the last that came.
    pub fn pop(&mut self) -> Option<T>
        ensures held { (self.new, result) ≡ popped self.old }
        ensures within { length self.old.held ≤ self.old.places }
    {
        self.len = self.len.checked_sub(1)?;
        Some(self.room[self.len])
    }

    // The last that came, which stays.
    pub fn top(&self) -> Option<T>
        ensures held { result ≡ first self.now.held }
        ensures within { length self.now.held ≤ self.now.places }
    {
        self.room[..self.len].last().copied()
    }
}
