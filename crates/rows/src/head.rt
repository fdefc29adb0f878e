// What a test can ask of a row's entry.
use crate::row::Entry;
use asking::test::Head;
use vocab::number::Number;

impl Head for Entry {
    ghost number = { λ e. e.number };

    ghost parent = { λ e. e.parent };

    ghost name = { λ e. e.name };

    fn number(&self) -> Number {
        self.number
    }

    fn parent(&self) -> Number {
        self.parent
    }

    fn name(&self) -> &[u8] {
        self.name.as_bytes()
    }
}
