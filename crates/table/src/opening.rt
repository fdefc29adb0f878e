// How a table is opened in rows that it owns from then on, and closed.
ghost use Rattle.std.specs.Prelude.{◌≡◌};
ghost use Rattle.tree.specs.Law.{empty};
ghost use Rattle.rows.specs.Rows.{capacity_of};
ghost use Rattle.table.specs.Tables.{rows_of, tree_of};

use crate::Table;
use rows::freeing::free_all;
use rows::row::Row;
use vocab::number::Number;

impl Table {
    // An empty table, whatever the rows held.
    pub fn open(mut rows: Vec<Row>) -> Table
        ensures { tree_of result ≡ empty (capacity_of rows.items) }
    {
        free_all(&mut rows);
        Table {
            rows,
            count: 0,
            next: Number::FIRST,
        }
    }

    pub fn close(self) -> Vec<Row>
        ensures { result.items ≡ rows_of self }
    {
        self.rows
    }
}
