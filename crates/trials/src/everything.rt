ghost use Rattle.std.specs.Prelude.{◌≡◌, Some};
ghost use Rattle.trials.specs.Everything.{everything};
ghost use Rattle.trials.specs.Everythings.{everything_laws, none_some};

use lptype::problem::Problem;
use rows::row::Constraint;

// The problem whose one rival keeps every row.
#[derive(Clone, Copy)]
pub struct Everything;

impl Problem for Everything {
    type Answer = ();

    ghost meaning = { λ _. everything };

    ghost reads = { λ _ a o. o ≡ Some a };

    ghost lawful = { λ p. everything_laws };

    ghost apart = { λ p a r e f. none_some a e };

    fn dimension(&self) -> usize {
        1
    }

    fn admits(&self, _a: i32, _b: i32, _c: i32) -> bool {
        true
    }

    fn is_standing(&self, list: &[Constraint]) -> bool {
        list.is_empty()
    }

    fn is_raised(&self, _list: &[Constraint], _row: Constraint) -> bool {
        false
    }

    fn best(&self, _list: &[Constraint]) {}
}
