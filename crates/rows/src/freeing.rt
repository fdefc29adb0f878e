// Rows that held anything hold nothing.
ghost use Rattle.std.specs.Prelude.{◌≡◌, []};
ghost use Rattle.rows.specs.Rows.{objects_in};

use crate::row::Row;

pub fn free_all(rows: &mut [Row])
    ensures { objects_in rows.new ≡ [] }
{
    rows.fill_with(|| None);
}
