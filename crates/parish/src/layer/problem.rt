ghost use Rattle.parish.specs.Layer.{over};
ghost use Rattle.parish.specs.Layering.{over_laws};

use crate::layer::Parish;
use lptype::problem::Problem;
use rows::row::Constraint;

impl<P: Problem> Problem for Parish<P> {
    type Answer = P::Answer;

    ghost meaning = { λ p. over (P.Problem.meaning p.below) p.parish };

    ghost reads = { λ p. P.Problem.reads p.below };

    ghost lawful = { λ p. over_laws (P.Problem.meaning p.below) (P.Problem.lawful p.below) p.parish };

    ghost apart = { λ p. P.Problem.apart p.below };

    fn dimension(&self) -> usize {
        self.below.dimension()
    }

    fn admits(&self, a: i32, b: i32, c: i32) -> bool {
        self.below.admits(a, b, c)
    }

    fn is_standing(&self, list: &[Constraint]) -> bool {
        self.counts_all(list) && self.below.is_standing(list)
    }

    fn is_raised(&self, list: &[Constraint], row: Constraint) -> bool {
        self.counts(row) && self.below.is_raised(list, row)
    }

    fn best(&self, list: &[Constraint]) -> P::Answer {
        self.below.best(list)
    }
}
