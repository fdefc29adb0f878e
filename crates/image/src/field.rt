// Numbers in bytes, the lowest byte first.
ghost use Rattle.std.specs.Prelude.{◌≡◌, ◌+◌, ◌≤◌, length};
ghost use Rattle.format.specs.Fields.{word};

use vocab::number::Number;

pub(crate) fn number_in(bytes: &[u8], at: usize) -> Number
    requires { at + 4 ≤ length bytes.now }
    ensures { result ≡ word bytes.now at }
{
    Number(u32::from_le_bytes([bytes[at], bytes[at + 1], bytes[at + 2], bytes[at + 3]]))
}
