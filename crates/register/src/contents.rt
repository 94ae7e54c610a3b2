mod changing;

ghost use Rattle.std.specs.Prelude.{◌≤◌, take};
ghost use Rattle.rows.specs.List.{positions};
ghost use Rattle.checking.specs.Filed.{OnOpen, AllBelow, Covers};

use crate::table::Table;
use rows::positions::Positions;

// What a register holds, whatever its problem: the rows in use, the order of their positions, and the filed basis.
// By a rule of the project the table has 256 rows and the order 256 places; `used` says how many count.
#[derive(Drop)]
pub struct Contents {
    pub(crate) table: Table,
    pub(crate) used: usize,
    pub(crate) order: [usize; 256],
    pub(crate) basis: Positions,
    ghost room: { used ≤ 256 },
    ghost filed: { OnOpen (take used table.rows) (positions basis) },
    ghost below: { AllBelow order used },
    ghost covers: { Covers order used },
}
