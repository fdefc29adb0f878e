// Bytes copied into the front of a buffer.
ghost use Rattle.std.specs.Prelude.{◌≡◌};
ghost use Rattle.vocab.specs.Buffers.{copied};

use crate::refusal::Refusal;

pub fn copy_front(bytes: &[u8], buffer: &mut [u8]) -> Result<usize, Refusal>
    ensures { (buffer.new, result) ≡ copied bytes.now buffer.old }
{
    let len = bytes.len();
    if len > buffer.len() {
        return Err(Refusal::BufferShort);
    }
    buffer[0..len].copy_from_slice(bytes);
    Ok(len)
}
