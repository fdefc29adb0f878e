use std::fmt;

// Who set an object's contents last, or made it, and the author's count at that time.
#[derive(Clone, Copy, PartialEq, Eq, Hash, Debug)]
pub struct Stamp {
    pub author: u16,
    pub serial: u32,
}

impl Stamp {
    // The root's stamp.
    pub const NONE: Stamp = Stamp {
        author: 0,
        serial: 0,
    };
}

impl fmt::Display for Stamp {
    ghost use Rattle.std.specs.Prelude.{Some};
    ghost use Rattle.vocab.specs.Texts.{stamp_text};

    ghost output = { λ stamp. Some (stamp_text stamp) };

    fn fmt<W: fmt::Write>(&self, f: &mut fmt::Formatter<W>) -> fmt::Result {
        write!(f, "{}.{}", self.author, self.serial)
    }
}
