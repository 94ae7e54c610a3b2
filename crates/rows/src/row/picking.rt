ghost use Rattle.std.specs.Prelude.{◌≡◌};
ghost use Rattle.rows.specs.List.{positions};
ghost use Rattle.rows.specs.Row.{Named, picked};

use crate::positions::Positions;
use crate::row::{Constraint, Row, constraint_at};
use arrayvec::ArrayVec;

// The constraints of the rows at the positions of a list.
pub fn picked(rows: &[Row], list: &Positions) -> ArrayVec<Constraint, 8>
    requires { Named rows.now (positions list.now) }
    ensures { result.items ≡ picked rows.now (positions list.now) }
{
    let mut constraints = ArrayVec::new();
    for &p in list.as_slice() {
        constraints.push(constraint_at(rows, p));
    }
    constraints
}
