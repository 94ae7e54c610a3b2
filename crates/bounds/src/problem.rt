ghost use Rattle.std.specs.Prelude.{◌≡◌};
ghost use Rattle.bounds.specs.Bounds.{boxes};
ghost use Rattle.bounds.specs.Sides.{Reads};
ghost use Rattle.bounds.specs.Boxes.{boxes_laws};
ghost use Rattle.std.proofs.Common.{rules};

use crate::answer::BoundsAnswer;
use crate::sides::{all_needed, around};
use lptype::problem::Problem;
use points::is_point;
use rows::row::Constraint;

// The smallest box, with sides along the axes, around the points of the rows.
#[derive(Clone, Copy)]
pub struct Bounds;

impl Problem for Bounds {
    type Answer = BoundsAnswer;

    ghost meaning = { λ _. boxes };

    ghost reads = { λ _. Reads };

    ghost lawful = { λ p. boxes_laws };

    ghost apart = { Prim.search rules };

    fn dimension(&self) -> usize {
        4
    }

    fn admits(&self, a: i32, b: i32, c: i32) -> bool {
        is_point(a, b, c)
    }

    fn is_standing(&self, list: &[Constraint]) -> bool {
        all_needed(list)
    }

    fn is_raised(&self, list: &[Constraint], row: Constraint) -> bool {
        around(list).misses(row)
    }

    fn best(&self, list: &[Constraint]) -> BoundsAnswer {
        around(list)
    }
}
