ghost use Rattle.std.specs.Prelude.{◌≡◌, ℕ, List};
ghost use Rattle.register.specs.Calls.{state_of};
ghost use Rattle.register.specs.State.{Good};
ghost use Rattle.format.specs.Command.{CommandRead, HeaderRead};
ghost use Rattle.format.specs.Line.{Holds};
ghost use Rattle.listing.specs.Lines.{LineAnswer};

use crate::obeying::{Outcome, obey};
use format::command::{Command, Header, read_command, read_header};
use format::line::LineBuffer;
use lptype::problem::Problem;
use register::working::Working;
use rows::refusal::Refusal;

// What the first line of a file says.
pub fn first_line(line: &LineBuffer) -> Result<Header, Refusal>
    ensures { (xs : List ℕ) → Holds line.now xs → HeaderRead xs result }
{
    read_header(line.line()?)
}

// What a later line of a file says. One function for both, told the reader, is no plainer.
fn later_line(line: &LineBuffer) -> Result<Command, Refusal>
    ensures { (xs : List ℕ) → Holds line.now xs → CommandRead xs result }
{
    read_command(line.line()?)
}

// Carries out a later line of a file.
pub fn obey_line<P: Problem>(
    register: &mut Working<P>,
    line: &LineBuffer,
) -> Result<Outcome, Refusal>
    requires { Good (P.meaning register.old.problem) (state_of register.old) }
    ensures answer { (xs : List ℕ) → Holds line.now xs → LineAnswer (P.meaning register.old.problem) (state_of register.old) xs result (state_of register.new) }
    ensures problem { register.new.problem ≡ register.old.problem }
    ensures good { Good (P.meaning register.new.problem) (state_of register.new) }
{
    obey(register, later_line(line)?)
}
