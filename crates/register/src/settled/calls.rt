ghost use Rattle.std.specs.Prelude.{◌≡◌, List, is_ok, Decides};
ghost use Rattle.rows.specs.List.{positions};
ghost use Rattle.checking.specs.Checking.{CheckAnswer, BasisOfOpen};
ghost use Rattle.register.specs.State.{Good};
ghost use Rattle.register.specs.Days.{Call, reopening, checking, working, Day, Extends};
ghost use Rattle.register.specs.DayLaw.{SettledBy, AnswerOf};
ghost use Rattle.register.specs.Calls.{state_of, settled_state, settled_phase};

use crate::settled::Settled;
use crate::working::Working;
use lptype::problem::Problem;
use rows::positions::Positions;
use rows::refusal::Refusal;
use walk::walking::Counts;

impl<P: Problem> Settled<P> {
    // What holds of every day that led to this register.
    fn on_every_day(&self)
        ensures basis { (calls : List Call) → Day (P.meaning self.now.register.problem) calls (settled_phase self.now) → BasisOfOpen (P.meaning self.now.register.problem) (settled_state self.now).rows (settled_state self.now).basis }
        ensures counts { (calls : List Call) → Day (P.meaning self.now.register.problem) calls (settled_phase self.now) → SettledBy (P.meaning self.now.register.problem) calls (settled_state self.now) self.now.counts.tests self.now.counts.exchanges }
    {}

    // The rows that force the answer.
    pub fn basis(&self) -> Positions
        ensures value { positions result ≡ (settled_state self.now).basis }
        ensures law { (calls : List Call) → Day (P.meaning self.now.register.problem) calls (settled_phase self.now) → BasisOfOpen (P.meaning self.now.register.problem) (settled_state self.now).rows (positions result) }
    {
        self.on_every_day();
        self.register.contents.basis
    }

    // How many tests and exchanges the walk made.
    pub fn counts(&self) -> Counts
        ensures value { result ≡ self.now.counts }
        ensures law { (calls : List Call) → Day (P.meaning self.now.register.problem) calls (settled_phase self.now) → SettledBy (P.meaning self.now.register.problem) calls (settled_state self.now) result.tests result.exchanges }
    {
        self.on_every_day();
        self.counts
    }

    // The best rival for the open rows, or none.
    pub fn answer(&self) -> P::Answer
        requires { Good (P.meaning self.now.register.problem) (settled_state self.now) }
        ensures { AnswerOf (P.meaning self.now.register.problem) (P.Problem.reads self.now.register.problem result) (settled_state self.now) self.now.counts.tests self.now.counts.exchanges }
    {
        self.register.best()
    }

    // A check goes on with every day that led here. `Working` has the same of its own phase; one function, told the phase, is no plainer.
    fn checked(&self, list: &Positions)
        ensures { Extends (P.meaning self.now.register.problem) (settled_phase self.now) (checking (positions list.now)) (settled_phase self.now) }
    {}

    // Whether the list is a basis of the open rows.
    pub fn check(&self, list: &Positions) -> Result<(), Refusal>
        requires { Good (P.meaning self.now.register.problem) (settled_state self.now) }
        ensures answer { CheckAnswer (P.meaning self.now.register.problem) (settled_state self.now).rows (positions list.now) result }
        ensures passes { Decides (is_ok result) (BasisOfOpen (P.meaning self.now.register.problem) (settled_state self.now).rows (positions list.now)) }
        ensures day { Extends (P.meaning self.now.register.problem) (settled_phase self.now) (checking (positions list.now)) (settled_phase self.now) }
    {
        self.checked(list);
        self.register.check(list)
    }

    // The register without its counts.
    fn into_working(self) -> Working<P>
        ensures { result ≡ self.register }
    {
        let Settled {
            register,
            counts: _,
        } = self;
        register
    }

    // The register at work again, with its basis and its order.
    pub fn reopen(self) -> Working<P>
        ensures same { result ≡ self.register }
        ensures day { Extends (P.meaning self.register.problem) (settled_phase self) reopening (working (state_of result)) }
    {
        self.into_working()
    }
}
