#![tactic(auto)]

mod input;

ghost use Rattle.register.specs.Calls.{state_of};
ghost use Rattle.register.specs.State.{Good};

use bounds::problem::Bounds;
use disc::problem::Disc;
use format::command::Header;
use format::line::LineBuffer;
use input::Input;
use listing::answers::AnswerLine;
use listing::line::{first_line, obey_line};
use listing::obeying::Outcome;
use listing::planes::plane_of;
use listing::text::Printer;
use lptype::problem::Problem;
use register::working::Working;
use std::io;

// Carries out the lines after the first, and prints what each has to say.
fn run<P: Problem + Drop>(
    rt: &HostRuntime,
    problem: P,
    input: &mut Input,
    line: &mut LineBuffer,
) -> io::Result<()>
where
    P::Answer: AnswerLine + Drop,
{
    let mut register = Working::new(problem);
    for number in 2..u64::MAX {
        line.clear();
        if !input.next_line(line)? {
            break;
        }
        let printer = Printer::new(rt.alloc(), number);
        match obey_line(&mut register, line) {
            Ok(Outcome::Settle) => {
                let settled = register.settle();
                rt.print(printer.settlement(&settled)?)?;
                register = settled.reopen();
            }
            outcome => rt.print(printer.report(outcome)?)?,
        }
    }
    Ok(())
}

fn main(rt: HostRuntime) -> io::Result<()> {
    let mut input = Input::new(rt.stdin());
    let mut line = LineBuffer::new();
    if !input.next_line(&mut line)? {
        return Ok(());
    }
    let printer = Printer::new(rt.alloc(), 1);
    match first_line(&line) {
        Ok(Header::Disc) => run(&rt, Disc, &mut input, &mut line),
        Ok(Header::Plane { p, q }) => match plane_of(p, q) {
            Ok(plane) => run(&rt, plane, &mut input, &mut line),
            Err(refusal) => rt.print(printer.report(Err(refusal))?),
        },
        Ok(Header::Bounds) => run(&rt, Bounds, &mut input, &mut line),
        Err(refusal) => rt.print(printer.report(Err(refusal))?),
    }
}
