ghost use Rattle.std.specs.Prelude.{◌≡◌, IfOk, string_bytes};
ghost use Rattle.register.specs.Calls.{settled_state};
ghost use Rattle.register.specs.State.{Good};
ghost use Rattle.rows.specs.Number.{number_of};
ghost use Rattle.listing.specs.Settlement.{Printed};
ghost use Rattle.listing.specs.Text.{reported, refused_line, passes_line, listed, basis_line, walk_line};

use crate::answers::AnswerLine;
use crate::obeying::Outcome;
use lptype::problem::Problem;
use register::settled::Settled;
use rows::refusal::Refusal;
use std::alloc::{AllocError, Global};
use walk::walking::Counts;

// Makes the text for one input line, whose number it holds.
#[derive(Clone, Copy)]
pub struct Printer {
    heap: Global,
    line: u64,
}

// Each position, with a comma before it.
fn listed(heap: Global, list: &[i64]) -> Result<String, AllocError>
    ensures { IfOk result (λ s. string_bytes s ≡ listed list.now) }
{
    let mut text = String::new(heap);
    for p in list {
        let position = format!(in heap; ",{p}")?;
        text.push_str(position.as_str())?;
    }
    Ok(text)
}

impl Printer {
    pub fn new(heap: Global, line: u64) -> Printer
        ensures { result.line ≡ line }
    {
        Printer { heap, line }
    }

    // The line for a refusal.
    fn refused(self, refusal: Refusal) -> Result<String, AllocError>
        ensures { IfOk result (λ s. string_bytes s ≡ refused_line self.line (number_of refusal)) }
    {
        let line = self.line;
        let number = u8::from(refusal);
        format!(in self.heap; "refused,{line},{number}\n")
    }

    // The line for a check that passes.
    fn passes(self) -> Result<String, AllocError>
        ensures { IfOk result (λ s. string_bytes s ≡ passes_line self.line) }
    {
        let line = self.line;
        format!(in self.heap; "passes,{line}\n")
    }

    // What is printed for the outcome of the line.
    pub fn report(self, outcome: Result<Outcome, Refusal>) -> Result<String, AllocError>
        ensures { IfOk result (λ s. string_bytes s ≡ reported self.line outcome) }
    {
        match outcome {
            Err(refusal) => self.refused(refusal),
            Ok(Outcome::Passed) => self.passes(),
            Ok(Outcome::Silent | Outcome::Settle) => Ok(String::new(self.heap)),
        }
    }

    // The line for a basis.
    fn basis(self, list: &[i64]) -> Result<String, AllocError>
        ensures { IfOk result (λ s. string_bytes s ≡ basis_line self.line list.now) }
    {
        let line = self.line;
        let positions = listed(self.heap, list)?;
        let count = list.len();
        format!(in self.heap; "basis,{line},{count}{positions}\n")
    }

    // The line for the counts of a walk.
    fn walk(self, counts: Counts) -> Result<String, AllocError>
        ensures { IfOk result (λ s. string_bytes s ≡ walk_line self.line counts.tests counts.exchanges) }
    {
        let line = self.line;
        let tests = counts.tests();
        let exchanges = counts.exchanges();
        format!(in self.heap; "walk,{line},{tests},{exchanges}\n")
    }

    // What is printed for a settled register.
    pub fn settlement<P: Problem>(self, register: &Settled<P>) -> Result<String, AllocError>
    where
        P::Answer: AnswerLine + Drop,
        requires { Good (P.meaning register.now.register.problem) (settled_state register.now) }
        ensures { IfOk result (λ s. Printed (P.meaning register.now.register.problem) (P.Problem.reads register.now.register.problem) (λ a. P.Answer.AnswerLine.shown a self.line) self.line (settled_state register.now) register.now.counts.tests register.now.counts.exchanges (string_bytes s)) }
    {
        let first = self.basis(register.basis().as_slice())?;
        let answer = register.answer().line(self.heap, self.line)?;
        let last = self.walk(register.counts())?;
        format!(in self.heap; "{first}{answer}{last}")
    }
}
