ghost use Rattle.std.specs.Prelude.{◌≡◌, is_ok, Decides};
ghost use Rattle.register.specs.Calls.{state_of};
ghost use Rattle.register.specs.State.{Good, Became, entered};
ghost use Rattle.format.specs.Narrow.{constraint_of};
ghost use Rattle.listing.specs.Obeyed.{said, RowAnswer, HandedAnswer, HandedBasis, CommandAnswer};

use format::command::{Command, RowNumbers};
use lptype::problem::Problem;
use register::working::Working;
use rows::positions::Positions;
use rows::refusal::Refusal;
use rows::row::Constraint;

// What an accepted command has to say. A settle moves the register, so it is left to the register's owner.
#[derive(Clone, Copy, PartialEq, Eq)]
pub enum Outcome {
    Silent,
    Passed,
    Settle,
}

// The outcome where the call is accepted.
fn says(outcome: Outcome, res: Result<(), Refusal>) -> Result<Outcome, Refusal>
    ensures { result ≡ said outcome res }
{
    res.map(|()| outcome)
}

// Enters a row of four numbers.
fn enter_numbers<P: Problem>(register: &mut Working<P>, numbers: RowNumbers) -> Result<(), Refusal>
    requires { Good (P.meaning register.old.problem) (state_of register.old) }
    ensures answer { RowAnswer (P.meaning register.old.problem) (state_of register.old) numbers result }
    ensures after { Became result (state_of register.old) (λ t. t ≡ entered (constraint_of numbers) (state_of register.old)) (state_of register.new) }
    ensures problem { register.new.problem ≡ register.old.problem }
    ensures good { Good (P.meaning register.new.problem) (state_of register.new) }
{
    register.enter(Constraint::try_from(numbers)?)
}

// Checks a list of numbers, after making it.
fn check_numbers<P: Problem>(register: &Working<P>, numbers: &[i64]) -> Result<(), Refusal>
    requires { Good (P.meaning register.now.problem) (state_of register.now) }
    ensures answer { HandedAnswer (P.meaning register.now.problem) (state_of register.now).rows numbers.now result }
    ensures passes { Decides (is_ok result) (HandedBasis (P.meaning register.now.problem) (state_of register.now).rows numbers.now) }
{
    register.check(&Positions::try_from(numbers)?)
}

// Carries out one command of a file.
pub(crate) fn obey<P: Problem>(
    register: &mut Working<P>,
    command: Command,
) -> Result<Outcome, Refusal>
    requires { Good (P.meaning register.old.problem) (state_of register.old) }
    ensures answer { CommandAnswer (P.meaning register.old.problem) (state_of register.old) command result (state_of register.new) }
    ensures problem { register.new.problem ≡ register.old.problem }
    ensures good { Good (P.meaning register.new.problem) (state_of register.new) }
{
    match command {
        Command::Row(numbers) => says(Outcome::Silent, enter_numbers(register, numbers)),
        Command::Strike(position) => says(Outcome::Silent, register.strike(position)),
        Command::Restore(position) => says(Outcome::Silent, register.restore(position)),
        Command::Check(numbers) => says(
            Outcome::Passed,
            check_numbers(register, numbers.as_slice()),
        ),
        Command::Shuffle(seed) => {
            register.shuffle(seed);
            Ok(Outcome::Silent)
        }
        Command::Settle => Ok(Outcome::Settle),
    }
}
