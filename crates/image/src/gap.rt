// Fields written over bytes, and gaps that are opened and closed among them. Bytes and a place,
// and no part of the bytes: each call would have to say the size of the field, which the writer knows.
ghost use Rattle.std.specs.Prelude.{◌≡◌, ◌+◌, ◌≤◌, length};
ghost use Rattle.format.specs.Fields.{written, opened, closed};
ghost use Rattle.format.specs.Images.{fronted};

use format::layout::LEAST_SIZE;

pub(crate) fn write(bytes: &mut [u8], at: usize, field: &[u8])
    requires { at + length field.now ≤ length bytes.old }
    ensures { bytes.new ≡ written bytes.old at field.now }
{
    bytes[at..at + field.len()].copy_from_slice(field);
}

// Where the bytes are too few for an image, none is written.
pub(crate) fn write_front(bytes: &mut [u8], at: usize, field: &[u8])
    requires { at + length field.now ≤ LEAST_SIZE }
    ensures { bytes.new ≡ fronted bytes.old at field.now }
{
    if bytes.len() >= LEAST_SIZE {
        write(bytes, at, field);
    }
}

// A gap of `width` bytes at `at`: what stood from there to `end` is moved back.
pub(crate) fn open_gap(bytes: &mut [u8], at: usize, end: usize, width: usize)
    requires { (at ≤ end) × (end + width ≤ length bytes.old) }
    ensures { bytes.new ≡ opened bytes.old at end width }
{
    bytes[at..end + width].rotate_right(width);
}

// The `width` bytes at `at` go: what stood behind them up to `end` is moved up.
pub(crate) fn close_gap(bytes: &mut [u8], at: usize, end: usize, width: usize)
    requires { (at + width ≤ end) × (end ≤ length bytes.old) }
    ensures { bytes.new ≡ closed bytes.old at end width }
{
    bytes[at..end].rotate_left(width);
}
