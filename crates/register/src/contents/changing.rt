ghost use Rattle.std.specs.Prelude.{◌≡◌, ◌<◌, ◌≤◌, ◌↔◌, length, Ok, IsTrue, slice_set};
ghost use Rattle.rows.specs.Row.{HasRow, row_at};
ghost use Rattle.rows.specs.Judged.{Gives, Unless};
ghost use Rattle.rows.specs.List.{positions};
ghost use Rattle.rows.specs.declared.refusal.Refusal.TheVariants.{NoRow};
ghost use Rattle.walk.specs.Shuffling.{shuffled};
ghost use Rattle.walk.specs.Walks.{WalkEnds, WalkLaw};
ghost use Rattle.register.specs.State.{new_state, Became, Good, entered, Emptied, BasisAfter, already, MarkAnswer, MarkedAt};
ghost use Rattle.register.specs.Days.{with_order, with_basis};
ghost use Rattle.register.specs.Contents.{contents_state};

use crate::contents::Contents;
use crate::table::Table;
use lptype::problem::Problem;
use rows::positions::Positions;
use rows::refusal::Refusal;
use rows::row::{Constraint, Mark, Row, row_at};
use walk::shuffling::shuffle;
use walk::walking::{Counts, walk};

// The basis after a row is struck: empty if it named the row.
fn basis_without(basis: Positions, position: i64) -> Positions
    ensures { Emptied position (positions basis) (positions result) }
{
    if basis.as_slice().contains(&position) {
        Positions::empty()
    } else {
        basis
    }
}

// The basis after the row at a position is given another mark.
fn basis_after(basis: Positions, position: i64, mark: Mark) -> Positions
    ensures { BasisAfter mark position (positions basis) (positions result) }
{
    match mark {
        Mark::Struck => basis_without(basis, position),
        Mark::Open => basis,
    }
}

// Why a row cannot be given the mark that it has.
fn already(mark: Mark) -> Refusal
    ensures { result ≡ already mark }
{
    match mark {
        Mark::Struck => Refusal::AlreadyStruck,
        Mark::Open => Refusal::AlreadyOpen,
    }
}

// Puts a place last in an order that had as many places as its number.
fn append(order: &mut [usize; 256], place: usize)
    requires { place < 256 }
    ensures { order.new ≡ slice_set order.old place place }
{
    order[place] = place;
}

impl Contents {
    // Blank rows, none of them in use.
    pub(crate) fn blank() -> Contents
        ensures { contents_state result ≡ new_state }
    {
        Contents {
            table: Table::blank(),
            used: 0,
            order: [0; 256],
            basis: Positions::empty(),
        }
    }

    // The rows in use.
    pub(crate) fn rows(&self) -> &[Row]
        ensures rows { result.now ≡ (contents_state self.now).rows }
        ensures few { length result.now ≤ 256 }
    {
        self.table.first(self.used)
    }

    // Whether all rows of the table are in use.
    pub(crate) fn is_full(&self) -> bool
        ensures { IsTrue result ↔ (256 ≤ length (contents_state self.now).rows) }
    {
        self.used >= self.table.capacity()
    }

    // Files one open row more, its position last in the order.
    pub(crate) fn file(&mut self, row: Constraint)
        requires { length (contents_state self.old).rows < 256 }
        ensures { contents_state self.new ≡ entered row (contents_state self.old) }
    {
        let place = self.used;
        self.table.put(place, row.opened());
        append(&mut self.order, place);
        self.used = place + 1;
    }

    // The row in use at a position.
    fn in_use(&self, position: i64) -> Result<Row, Refusal>
        ensures { Unless NoRow (HasRow (contents_state self.now).rows position) (Gives (λ x. x ≡ row_at (contents_state self.now).rows position)) result }
    {
        row_at(self.rows(), position).ok_or(Refusal::NoRow)
    }

    // Whether the row at a position may be given a mark. A struct of position and mark is no plainer.
    fn judge_mark(&self, position: i64, mark: Mark) -> Result<(), Refusal>
        ensures { MarkAnswer mark (contents_state self.now) position result }
    {
        if self.in_use(position)?.mark == mark {
            return Err(already(mark));
        }
        Ok(())
    }

    // Changes the mark of one row; a basis that names a row that is struck becomes empty.
    fn put_mark(&mut self, position: i64, mark: Mark)
        requires { MarkAnswer mark (contents_state self.old) position (Ok tt) }
        ensures { MarkedAt mark position (contents_state self.old) (contents_state self.new) }
    {
        self.basis = basis_after(self.basis, position, mark);
        self.table.set_mark(position as usize, mark);
    }

    // Gives the row at a position another mark than it has.
    pub(crate) fn mark(&mut self, position: i64, mark: Mark) -> Result<(), Refusal>
        ensures answer { MarkAnswer mark (contents_state self.old) position result }
        ensures after { Became result (contents_state self.old) (MarkedAt mark position (contents_state self.old)) (contents_state self.new) }
    {
        self.judge_mark(position, mark)?;
        self.put_mark(position, mark);
        Ok(())
    }

    // Puts the rows in use into the order that a seed gives.
    pub(crate) fn shuffle(&mut self, seed: u32)
        ensures { contents_state self.new ≡ with_order (shuffled (length (contents_state self.old).rows) seed) (contents_state self.old) }
    {
        let count = self.rows().len();
        shuffle(&mut self.order, count, seed);
    }

    // Walks through the order to a basis of the open rows, and says what the walk counted.
    pub(crate) fn walk<P: Problem>(&mut self, problem: &P) -> Counts
        requires { Good (P.meaning problem.now) (contents_state self.old) }
        ensures ends { WalkEnds (P.meaning problem.now) (contents_state self.old).rows (contents_state self.old).order (contents_state self.old).basis (contents_state self.new).basis result.tests result.exchanges }
        ensures law { WalkLaw (P.meaning problem.now) (contents_state self.old).rows (contents_state self.old).order (contents_state self.old).basis }
        ensures state { contents_state self.new ≡ with_basis (contents_state self.new).basis (contents_state self.old) }
        ensures good { Good (P.meaning problem.now) (contents_state self.new) }
    {
        let held = &*self;
        let mut basis = held.basis;
        let counts = walk(problem, held.rows(), &held.order[..held.used], &mut basis);
        self.basis = basis;
        counts
    }
}
