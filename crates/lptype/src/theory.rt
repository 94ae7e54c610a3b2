ghost use Rattle.std.specs.Prelude.{◌≡◌};
ghost use Rattle.lptype.specs.Theory.{Theory};

use crate::problem::Problem;

// What the laws imply, for every problem.
fn theory_holds<P: Problem>(problem: &P)
    ensures { Theory (P.meaning problem.now) }
{}

// How long a list that stands can be.
pub fn longest_basis<P: Problem>(problem: &P) -> usize
    ensures dimension { result ≡ (P.meaning problem.now).dimension }
    ensures theory { Theory (P.meaning problem.now) }
{
    theory_holds(problem);
    problem.dimension()
}
