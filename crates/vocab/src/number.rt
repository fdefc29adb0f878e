use std::fmt;
use std::marker::Model;

// The number of an object in a tree. The root is 1; numbers from 2^31 up are temporary, given out away from the server.
#[derive(Clone, Copy, PartialEq, Eq, PartialOrd, Ord, Hash, Debug)]
pub struct Number(pub u32);

impl Model for Number {
    ghost use Rattle.std.specs.Prelude.{ℕ};

    ghost Value = { ℕ };

    ghost view = { λ n. n.0 };

    ghost inverse = { λ n. record { 0 = n } };
}

impl Number {
    // Below the number of every object.
    pub const BEFORE_ALL: Number = Number(0);

    pub const ROOT: Number = Number(1);
    // The first number that an object can have.
    pub const FIRST: Number = Number(2);
    // The next number of a server goes up to this one, which is the first temporary number.
    pub const TEMPORARY: Number = Number(0x8000_0000);
}

impl fmt::Display for Number {
    ghost use Rattle.std.specs.Prelude.{Some};
    ghost use Rattle.std.specs.Fmt.{decimal};

    ghost output = { λ number. Some (decimal number) };

    fn fmt<W: fmt::Write>(&self, f: &mut fmt::Formatter<W>) -> fmt::Result {
        write!(f, "{}", self.0)
    }
}
