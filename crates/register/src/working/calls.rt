ghost use Rattle.std.specs.Prelude.{◌≡◌, [], length, is_ok, Decides};
ghost use Rattle.rows.specs.List.{positions};
ghost use Rattle.rows.specs.Row.{picked};
ghost use Rattle.lptype.specs.Questions.{ReadsBest, AnswerAnswer};
ghost use Rattle.checking.specs.Checking.{CheckAnswer, BasisOfOpen};
ghost use Rattle.walk.specs.Shuffling.{shuffled};
ghost use Rattle.walk.specs.Walks.{WalkEnds};
ghost use Rattle.register.specs.State.{new_state, Good, Became, EnterAnswer, entered, StrikeAnswer, StruckAt, RestoreAnswer, restored};
ghost use Rattle.register.specs.Days.{entering, striking, restoring, shuffling, settling, checking, working, with_order, with_basis, Day, Extends};
ghost use Rattle.register.specs.DayLaw.{DayLaw};
ghost use Rattle.register.specs.Calls.{state_of, settled_state, settled_phase};

use crate::contents::Contents;
use crate::settled::Settled;
use crate::working::Working;
use checking::check::check_list;
use lptype::problem::Problem;
use rows::positions::Positions;
use rows::refusal::Refusal;
use rows::row::{Constraint, Mark, is_parish};

impl<P: Problem> Working<P> {
    pub fn new(problem: P) -> Working<P>
        ensures state { state_of result ≡ new_state }
        ensures problem { result.problem ≡ problem }
        ensures good { Good (P.meaning problem) (state_of result) }
        ensures day { Day (P.meaning problem) [] (working (state_of result)) }
        ensures law { DayLaw (P.meaning problem) }
    {
        Working {
            problem,
            contents: Contents::blank(),
        }
    }

    // Whether a row may be entered.
    fn judge_entry(&self, row: Constraint) -> Result<(), Refusal>
        ensures { EnterAnswer (P.meaning self.now.problem) (state_of self.now) row result }
    {
        if !self.problem.admits(row.a, row.b, row.c) {
            return Err(Refusal::NotAdmitted);
        }
        if !is_parish(row.parish) {
            return Err(Refusal::ParishRange);
        }
        if self.contents.is_full() {
            return Err(Refusal::TableFull);
        }
        Ok(())
    }

    // Enters one open row more.
    pub fn enter(&mut self, row: Constraint) -> Result<(), Refusal>
        requires { Good (P.meaning self.old.problem) (state_of self.old) }
        ensures answer { EnterAnswer (P.meaning self.old.problem) (state_of self.old) row result }
        ensures after { Became result (state_of self.old) (λ t. t ≡ entered row (state_of self.old)) (state_of self.new) }
        ensures problem { self.new.problem ≡ self.old.problem }
        ensures good { Good (P.meaning self.new.problem) (state_of self.new) }
        ensures day { Extends (P.meaning self.old.problem) (working (state_of self.old)) (entering row) (working (state_of self.new)) }
    {
        self.judge_entry(row)?;
        self.contents.file(row);
        Ok(())
    }

    // Strikes one open row.
    pub fn strike(&mut self, position: i64) -> Result<(), Refusal>
        requires { Good (P.meaning self.old.problem) (state_of self.old) }
        ensures answer { StrikeAnswer (state_of self.old) position result }
        ensures after { Became result (state_of self.old) (λ t. StruckAt position (state_of self.old) t) (state_of self.new) }
        ensures problem { self.new.problem ≡ self.old.problem }
        ensures good { Good (P.meaning self.new.problem) (state_of self.new) }
        ensures day { Extends (P.meaning self.old.problem) (working (state_of self.old)) (striking position) (working (state_of self.new)) }
    {
        self.contents.mark(position, Mark::Struck)
    }

    // Opens one struck row again.
    pub fn restore(&mut self, position: i64) -> Result<(), Refusal>
        requires { Good (P.meaning self.old.problem) (state_of self.old) }
        ensures answer { RestoreAnswer (state_of self.old) position result }
        ensures after { Became result (state_of self.old) (λ t. t ≡ restored position (state_of self.old)) (state_of self.new) }
        ensures problem { self.new.problem ≡ self.old.problem }
        ensures good { Good (P.meaning self.new.problem) (state_of self.new) }
        ensures day { Extends (P.meaning self.old.problem) (working (state_of self.old)) (restoring position) (working (state_of self.new)) }
    {
        self.contents.mark(position, Mark::Open)
    }

    // Puts the rows in use into the order that a seed gives.
    pub fn shuffle(&mut self, seed: u32)
        requires { Good (P.meaning self.old.problem) (state_of self.old) }
        ensures after { state_of self.new ≡ with_order (shuffled (length (state_of self.old).rows) seed) (state_of self.old) }
        ensures problem { self.new.problem ≡ self.old.problem }
        ensures good { Good (P.meaning self.new.problem) (state_of self.new) }
        ensures day { Extends (P.meaning self.old.problem) (working (state_of self.old)) (shuffling seed) (working (state_of self.new)) }
    {
        self.contents.shuffle(seed);
    }

    // A check goes on with every day that led here.
    fn checked(&self, list: &Positions)
        ensures { Extends (P.meaning self.now.problem) (working (state_of self.now)) (checking (positions list.now)) (working (state_of self.now)) }
    {}

    // Whether the list is a basis of the open rows.
    pub fn check(&self, list: &Positions) -> Result<(), Refusal>
        requires { Good (P.meaning self.now.problem) (state_of self.now) }
        ensures answer { CheckAnswer (P.meaning self.now.problem) (state_of self.now).rows (positions list.now) result }
        ensures passes { Decides (is_ok result) (BasisOfOpen (P.meaning self.now.problem) (state_of self.now).rows (positions list.now)) }
        ensures day { Extends (P.meaning self.now.problem) (working (state_of self.now)) (checking (positions list.now)) (working (state_of self.now)) }
    {
        self.checked(list);
        check_list(&self.problem, self.contents.rows(), list)
    }

    // Walks through the order to a basis of the open rows.
    pub fn settle(self) -> Settled<P>
        requires { Good (P.meaning self.problem) (state_of self) }
        ensures walked { WalkEnds (P.meaning self.problem) (state_of self).rows (state_of self).order (state_of self).basis (settled_state result).basis result.counts.tests result.counts.exchanges }
        ensures state { settled_state result ≡ with_basis (settled_state result).basis (state_of self) }
        ensures problem { result.register.problem ≡ self.problem }
        ensures good { Good (P.meaning result.register.problem) (settled_state result) }
        ensures day { Extends (P.meaning self.problem) (working (state_of self)) settling (settled_phase result) }
    {
        let mut register = self;
        let counts = register.contents.walk(&register.problem);
        Settled { register, counts }
    }

    // What the problem answers for the filed basis.
    fn answered(&self) -> Result<P::Answer, Refusal>
        ensures { AnswerAnswer (P.meaning self.now.problem) (P.Problem.reads self.now.problem) (state_of self.now).rows (state_of self.now).basis result }
    {
        self.problem
            .answer(self.contents.rows(), &self.contents.basis)
    }

    // The answer for the filed basis, which is not refused.
    pub(crate) fn best(&self) -> P::Answer
        requires { Good (P.meaning self.now.problem) (state_of self.now) }
        ensures { ReadsBest (P.meaning self.now.problem) (P.Problem.reads self.now.problem) (picked (state_of self.now).rows (state_of self.now).basis) result }
    {
        match self.answered() {
            Ok(answer) => answer,
            Err(_) => unreachable(),
        }
    }
}
