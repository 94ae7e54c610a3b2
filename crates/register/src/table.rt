ghost use Rattle.std.specs.Prelude.{◌≡◌, ◌<◌, ◌≤◌, length, take, replicate, slice_index_or, slice_set};
ghost use Rattle.rows.specs.Row.{no_row};
ghost use Rattle.register.specs.Table.{blank_row, marked};

use rows::row::{BLANK, Mark, Row};

// 256 rows. By a rule of the project it has no invariant, so its methods ask for a place and tell its length.
#[derive(Drop)]
pub struct Table {
    rows: [Row; 256],
}

impl Table {
    pub(crate) fn blank() -> Table
        ensures { result.rows ≡ replicate 256 blank_row }
    {
        Table { rows: [BLANK; 256] }
    }

    // How many rows there are.
    pub(crate) fn capacity(&self) -> usize
        ensures value { result ≡ 256 }
        ensures size { length self.now.rows ≡ 256 }
    {
        self.rows.len()
    }

    // Puts a row at a place.
    pub(crate) fn put(&mut self, place: usize, row: Row)
        requires { place < 256 }
        ensures rows { self.new.rows ≡ slice_set self.old.rows place row }
        ensures size { length self.old.rows ≡ 256 }
    {
        self.rows[place] = row;
    }

    // Changes the mark of one row.
    pub(crate) fn set_mark(&mut self, place: usize, mark: Mark)
        requires { place < 256 }
        ensures rows { self.new.rows ≡ slice_set self.old.rows place (marked mark (slice_index_or self.old.rows place no_row)) }
        ensures size { length self.old.rows ≡ 256 }
    {
        let row = &mut self.rows[place];
        row.mark = mark;
    }

    // The first rows.
    pub(crate) fn first(&self, count: usize) -> &[Row]
        requires { count ≤ 256 }
        ensures rows { result.now ≡ take count self.now.rows }
        ensures size { length self.now.rows ≡ 256 }
    {
        &self.rows[0..count]
    }
}
