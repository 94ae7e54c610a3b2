ghost use Rattle.std.specs.Prelude.{◌≡◌, pos};
ghost use Rattle.rows.specs.List.{positions};
ghost use Rattle.lptype.specs.Questions.{Exchanged};
ghost use Rattle.walk.specs.Steps.{Tested, StepAnswer, no_counts, counted, left_after};
ghost use Rattle.walk.specs.Walks.{WalkReady, WalkEnds, WalkLaw};

use lptype::problem::Problem;
use rows::positions::Positions;
use rows::row::picking::picked;
use rows::row::{Mark, Row};

// How many tests and exchanges a walk made; neither count passes 64 bits.
#[derive(Clone, Copy, PartialEq, Eq)]
pub struct Counts {
    tests: u64,
    exchanges: u64,
}

// What one row did: a struck row was passed over, or an open one was tested, and the basis was kept or changed.
#[derive(Clone, Copy)]
enum Step {
    Passed,
    Kept,
    Changed,
}

impl Step {
    // The part of an order that is left after this step: all of it after an exchange, else what comes later.
    fn left<'a>(self, order: &'a [usize], later: &'a [usize]) -> &'a [usize]
        ensures { result.now ≡ left_after self order.now later.now }
    {
        match self {
            Step::Passed | Step::Kept => later,
            Step::Changed => order,
        }
    }
}

impl Counts {
    // No test and no exchange.
    pub fn none() -> Counts
        ensures { result ≡ no_counts }
    {
        Counts {
            tests: 0,
            exchanges: 0,
        }
    }

    pub fn tests(&self) -> u64
        ensures { result ≡ self.now.tests }
    {
        self.tests
    }

    pub fn exchanges(&self) -> u64
        ensures { result ≡ self.now.exchanges }
    {
        self.exchanges
    }

    // These counts after one step more.
    fn after(self, step: Step) -> Counts
        ensures { result ≡ counted step self }
    {
        match step {
            Step::Passed => self,
            Step::Kept => Counts {
                tests: self.tests.saturating_add(1),
                exchanges: self.exchanges,
            },
            Step::Changed => Counts {
                tests: self.tests.saturating_add(1),
                exchanges: self.exchanges.saturating_add(1),
            },
        }
    }
}

// Makes the basis one of its rows with the row at a place.
// Problem and rows are two parameters here and in `visit`: two small methods of a struct of both are no plainer.
fn change<P: Problem>(problem: &P, rows: &[Row], basis: &mut Positions, place: usize)
    requires { Tested (P.meaning problem.now) rows.now (positions basis.old) place }
    ensures { Exchanged (P.meaning problem.now) rows.now (positions basis.old) (pos place) (positions basis.new) }
{
    let _ = problem.exchange(rows, basis, place as i64);
}

// Passes over a struck row; tests an open one, and exchanges if it violates the basis.
fn visit<P: Problem>(problem: &P, rows: &[Row], basis: &mut Positions, place: usize) -> Step
    requires { Tested (P.meaning problem.now) rows.now (positions basis.old) place }
    ensures { StepAnswer (P.meaning problem.now) rows.now (positions basis.old) (pos place) (positions basis.new) result }
{
    let row = rows[place];
    if row.mark == Mark::Struck {
        return Step::Passed;
    }
    if !problem.is_raised(&picked(rows, basis), row.constraint) {
        return Step::Kept;
    }
    change(problem, rows, basis, place);
    Step::Changed
}

// Walks through the order from its first place, and back there after each exchange.
pub fn walk<P: Problem>(problem: &P, rows: &[Row], order: &[usize], basis: &mut Positions) -> Counts
    requires { WalkReady (P.meaning problem.now) rows.now order.now (positions basis.old) }
    ensures ends { WalkEnds (P.meaning problem.now) rows.now order.now (positions basis.old) (positions basis.new) result.tests result.exchanges }
    ensures law { WalkLaw (P.meaning problem.now) rows.now order.now (positions basis.old) }
{
    let mut counts = Counts::none();
    let mut left = order;
    while let [place, later @ ..] = left {
        let step = visit(problem, rows, basis, *place);
        counts = counts.after(step);
        left = step.left(order, later);
    }
    counts
}
