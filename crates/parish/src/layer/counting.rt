ghost use Rattle.std.specs.Prelude.{◌≡◌, ◌↔◌, IsTrue, Decides};
ghost use Rattle.parish.specs.Kept.{AllOf};

use crate::layer::Parish;
use rows::row::Constraint;

impl<P> Parish<P> {
    // Whether a row is of the parish.
    pub(super) fn counts(&self, row: Constraint) -> bool
        ensures { IsTrue result ↔ (row.parish ≡ self.now.parish) }
    {
        row.parish == self.parish
    }

    // Whether each row of a list is of the parish.
    pub(super) fn counts_all(&self, list: &[Constraint]) -> bool
        ensures { Decides result (AllOf self.now.parish list.now) }
    {
        list.iter().all(|row| self.counts(*row))
    }
}
