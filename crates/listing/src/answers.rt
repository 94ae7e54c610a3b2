ghost use Rattle.std.specs.Prelude.{◌≡◌, ℕ, List, IfOk, string_bytes};
ghost use Rattle.listing.specs.Answers.{bounds_shown, disc_shown, plane_shown};

use bounds::answer::BoundsAnswer;
use disc::answer::DiscAnswer;
use lowest::reduce::RationalPoint;
use plane::answer::PlaneAnswer;
use std::alloc::{AllocError, Global};

// An answer that has a line in a listing. No Display: the number of the input line stands in it, after the word.
// The heap and that number are two parameters: a Printer prints answers, so an answer that took one would be no plainer.
pub trait AnswerLine {
    // The bytes of that line, for an input line of this number.
    ghost shown: { Self → ℕ → List ℕ };

    fn line(&self, heap: Global, line: u64) -> Result<String, AllocError>
        ensures { IfOk result (λ s. string_bytes s ≡ shown self.now line) };
}

impl AnswerLine for BoundsAnswer {
    ghost shown = { bounds_shown };

    fn line(&self, heap: Global, line: u64) -> Result<String, AllocError> {
        match *self {
            BoundsAnswer::Empty => format!(in heap; "empty,{line}\n"),
            BoundsAnswer::Sides {
                west,
                east,
                south,
                north,
            } => format!(in heap; "box,{line},{west},{east},{south},{north}\n"),
        }
    }
}

impl AnswerLine for DiscAnswer {
    ghost shown = { disc_shown };

    fn line(&self, heap: Global, line: u64) -> Result<String, AllocError> {
        match *self {
            DiscAnswer::Empty => format!(in heap; "empty,{line}\n"),
            DiscAnswer::Centre(RationalPoint { x, y, d }) => {
                format!(in heap; "disc,{line},{x},{y},{d}\n")
            }
        }
    }
}

impl AnswerLine for PlaneAnswer {
    ghost shown = { plane_shown };

    fn line(&self, heap: Global, line: u64) -> Result<String, AllocError> {
        match *self {
            PlaneAnswer::NoPoint => format!(in heap; "none,{line}\n"),
            PlaneAnswer::Point(RationalPoint { x, y, d }) => {
                format!(in heap; "plane,{line},{x},{y},{d}\n")
            }
        }
    }
}
