// The entries of an image, and their fields.
ghost use Rattle.std.specs.Prelude.{◌≡◌, ◌+◌, ◌-◌, ◌^◌, ◌<◌, ◌≤◌, length};
ghost use Rattle.tree.specs.Meaning.{status_of};
ghost use Rattle.format.specs.Entries.{stamp_field, name_field, contents_field, head_bytes, entry_bytes};
ghost use Rattle.format.specs.Fields.{le16, le32, written};
ghost use Rattle.format.specs.Layout.{entry_size};

use crate::gap::write;
use format::layout::{AUTHOR, FILE_SIZE, HEAD_SIZE, NAME_LENGTH, PARENT};
use vocab::bytes::Contents;
use vocab::kind::Kind;
use vocab::name::Name;
use vocab::number::Number;
use vocab::stamp::Stamp;
use vocab::status::Status;

pub(crate) fn size_of(kind: Kind) -> usize
    ensures { result ≡ entry_size kind }
{
    match kind {
        Kind::Directory => HEAD_SIZE,
        Kind::File => FILE_SIZE,
    }
}

pub(crate) fn write_number(bytes: &mut [u8], at: usize, number: Number)
    requires { at + 4 ≤ length bytes.old }
    ensures { bytes.new ≡ written bytes.old at (le32 number) }
{
    write(bytes, at, &number.0.to_le_bytes());
}

pub(crate) fn write_stamp(bytes: &mut [u8], at: usize, stamp: Stamp)
    requires { at + 6 ≤ length bytes.old }
    ensures { bytes.new ≡ written bytes.old at (stamp_field stamp) }
{
    write(bytes, at, &stamp.author.to_le_bytes());
    write(bytes, at + 2, &stamp.serial.to_le_bytes());
}

pub(crate) fn write_name(bytes: &mut [u8], at: usize, name: &Name)
    requires { at + 25 ≤ length bytes.old }
    ensures { bytes.new ≡ written bytes.old at (name_field name.now) }
{
    write(bytes, at, &[name.as_bytes().len() as u8]);
    write(bytes, at + 1, name.filled());
}

pub(crate) fn write_contents(bytes: &mut [u8], at: usize, contents: &Contents)
    requires { at + 258 ≤ length bytes.old }
    ensures { bytes.new ≡ written bytes.old at (contents_field contents.now) }
{
    let len = contents.as_slice().len() as u16;
    write(bytes, at, &len.to_le_bytes());
    write(bytes, at + 2, contents.filled());
}

// The count of the entries that begin at `start` stands before them.
pub(crate) fn write_count(bytes: &mut [u8], start: usize, count: usize)
    requires { (2 ≤ start) × (start ≤ length bytes.old) × (count < 2 ^ 16) }
    ensures { bytes.new ≡ written bytes.old (start - 2) (le16 count) }
{
    write(bytes, start - 2, &(count as u16).to_le_bytes());
}

// The number, the parent, the stamp and the name.
fn write_head(bytes: &mut [u8], at: usize, status: &Status)
    requires { at + HEAD_SIZE ≤ length bytes.old }
    ensures { bytes.new ≡ written bytes.old at (head_bytes (status_of status.now)) }
{
    write_number(bytes, at, status.number);
    write_number(bytes, at + PARENT, status.parent);
    write_stamp(bytes, at + AUTHOR, status.stamp);
    write_name(bytes, at + NAME_LENGTH, &status.name);
}

// The entry of a new object.
pub(crate) fn write_entry(bytes: &mut [u8], at: usize, status: &Status)
    requires { at + entry_size status.now.kind ≤ length bytes.old }
    ensures { bytes.new ≡ written bytes.old at (entry_bytes status.now.kind (status_of status.now)) }
{
    write_head(bytes, at, status);
    match status.kind {
        Kind::Directory => {}
        Kind::File => write_contents(bytes, at + HEAD_SIZE, &Contents::empty()),
    }
}
