// What a test can ask of an entry, read from the bytes.
use asking::test::Head;
use vocab::number::Number;

#[derive(Clone, Copy)]
pub(crate) struct EntryHead<'a> {
    pub(crate) number: Number,
    pub(crate) parent: Number,
    pub(crate) name: &'a [u8],
}

impl Head for EntryHead<'_> {
    ghost number = { λ h. h.number };

    ghost parent = { λ h. h.parent };

    ghost name = { λ h. h.name.now };

    fn number(&self) -> Number {
        self.number
    }

    fn parent(&self) -> Number {
        self.parent
    }

    fn name(&self) -> &[u8] {
        self.name
    }
}
