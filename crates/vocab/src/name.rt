// An object's name: a valid one, or the root's empty one.
ghost use Rattle.std.specs.Prelude.{◌≡◌, ◌≤◌, true, false, [], length, MatchResult};
ghost use Rattle.vocab.specs.Buffers.{padded};
ghost use Rattle.vocab.specs.Limits.{longest_name};
ghost use Rattle.vocab.specs.Names.{name_byte, valid_name, name_or_none, same_name};
ghost use Rattle.vocab.specs.declared.refusal.Refusal.TheVariants.{BadName};

use crate::bytes::Bytes;
use crate::limits::LONGEST_NAME;
use crate::refusal::Refusal;
use std::marker::Model;
use std::{fmt, str};

#[derive(Clone, Copy, PartialEq, Eq, Hash, Debug)]
pub struct Name {
    text: Bytes<LONGEST_NAME>,
}

impl Model for Name {
    ghost use Rattle.std.specs.Prelude.{◌≡◌, ℕ, true, List};
    ghost use Rattle.vocab.specs.Names.{name_or_none};

    ghost Value = { List ℕ };

    ghost view = { λ n. n.text };

    ghost invariant = { λ n. name_or_none n.text ≡ true };

    ghost inverse = { λ l. record { text = l } };
}

impl Name {
    pub fn new(name: &[u8]) -> Result<Name, Refusal>
        ensures { MatchResult result (λ n. (valid_name name.now ≡ true) × (n ≡ name.now)) (λ e. (valid_name name.now ≡ false) × (e ≡ BadName)) }
    {
        if !is_valid(name) {
            return Err(Refusal::BadName);
        }
        let text = Bytes::new(name).ok_or(Refusal::BadName)?;
        Ok(Name { text })
    }

    // The root's.
    pub fn none() -> Name
        ensures { result ≡ [] }
    {
        Name {
            text: Bytes::empty(),
        }
    }

    pub fn as_bytes(&self) -> &[u8]
        ensures value { result.now ≡ self.now }
        ensures short { length result.now ≤ longest_name }
        ensures sound { name_or_none result.now ≡ true }
    {
        self.text.as_slice()
    }

    // The name's bytes, and zeros behind them.
    pub fn filled(&self) -> &[u8]
        ensures value { result.now ≡ padded longest_name self.now }
        ensures short { length self.now ≤ longest_name }
        ensures sound { name_or_none self.now ≡ true }
    {
        self.text.filled()
    }

    // No `==`: the other need not be valid, so there may be no `Name` of it.
    pub fn is(&self, name: &[u8]) -> bool
        ensures value { result ≡ same_name self.now name.now }
        ensures sound { name_or_none self.now ≡ true }
    {
        same(self.as_bytes(), name)
    }
}

// Its bytes are printable ones of ASCII, and so a text.
impl fmt::Display for Name {
    ghost use Rattle.std.specs.Prelude.{Some};

    ghost output = { λ name. Some name };

    fn fmt<W: fmt::Write>(&self, f: &mut fmt::Formatter<W>) -> fmt::Result {
        let text = str::from_utf8(self.as_bytes()).map_err(|_| fmt::Error)?;
        f.write_str(text)
    }
}

fn is_name_byte(b: u8) -> bool
    ensures { result ≡ name_byte b }
{
    b.is_ascii_graphic() && b != b'/'
}

fn is_valid(name: &[u8]) -> bool
    ensures { result ≡ valid_name name.now }
{
    if name.is_empty() || name.len() > LONGEST_NAME {
        return false;
    }
    name.iter().all(|&b| is_name_byte(b))
}

// Whether two names are the same one. `==` at each place would be no shorter, and here the rule stands once.
pub fn same(m: &[u8], n: &[u8]) -> bool
    ensures { result ≡ same_name m.now n.now }
{
    m == n
}
