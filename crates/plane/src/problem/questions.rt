ghost use Rattle.std.specs.Prelude.{◌≡◌, not, ◌&&◌};
ghost use Rattle.limits.specs.Plane.{is_zero, plane};
ghost use Rattle.plane.specs.Answer.{Reads};
ghost use Rattle.limits.proofs.Lawful.{plane_laws};
ghost use Rattle.std.proofs.Common.{rules};

use crate::answer::PlaneAnswer;
use crate::problem::Plane;
use lptype::problem::Problem;
use rows::range::is_within;
use rows::row::Constraint;

// Whether a and b are the factors of a line: not both are 0.
fn is_line(a: i32, b: i32) -> bool
    ensures { result ≡ not (is_zero a && is_zero b) }
{
    a != 0 || b != 0
}

impl Problem for Plane {
    type Answer = PlaneAnswer;

    ghost meaning = { λ t. plane t.p t.q };

    ghost reads = { λ _. Reads };

    ghost lawful = { λ t. plane_laws t.p t.q };

    ghost apart = { Prim.search rules };

    fn dimension(&self) -> usize {
        3
    }

    fn admits(&self, a: i32, b: i32, c: i32) -> bool {
        is_within(1_000, a) && is_within(1_000, b) && is_within(1_000_000, c) && is_line(a, b)
    }

    fn is_standing(&self, list: &[Constraint]) -> bool {
        self.all_missed(list)
    }

    #[tactic(auto, using(crate::proofs::Answering::few_stand, crate::proofs::Answering::all_bounded))]
    fn is_raised(&self, list: &[Constraint], row: Constraint) -> bool {
        self.search(list).misses(row)
    }

    #[tactic(auto, using(crate::proofs::Answering::few_stand))]
    fn best(&self, list: &[Constraint]) -> PlaneAnswer {
        self.search(list).cheapest()
    }
}
