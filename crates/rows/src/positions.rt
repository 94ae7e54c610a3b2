pub mod making;
pub mod pool;

ghost use Rattle.std.specs.Prelude.{length};
ghost use Rattle.rows.specs.Numbers.{numbers_in};
ghost use Rattle.rows.specs.Rising.{Rising};

use crate::numbers::Numbers;

// At most eight positions, each larger than the one before it.
#[derive(Clone, Copy)]
pub struct Positions {
    list: Numbers<8>,
    ghost rising: { Rising (numbers_in list) (length (numbers_in list)) },
}
