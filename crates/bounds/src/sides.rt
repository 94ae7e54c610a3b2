ghost use Rattle.std.specs.Prelude.{◌≡◌, ◌<◌, length, Decides};
ghost use Rattle.bounds.specs.Sides.{box_around, with_points, needed_at, AllNeeded};

use crate::answer::BoundsAnswer;
use rows::row::Constraint;

// A box, made just large enough for the points of the list.
fn with_points(start: BoundsAnswer, list: &[Constraint]) -> BoundsAnswer
    ensures { result ≡ with_points start list.now }
{
    list.iter()
        .fold(start, |sides, point| sides.with_point(*point))
}

// The smallest box around the points of the list.
pub(crate) fn around(list: &[Constraint]) -> BoundsAnswer
    ensures { result ≡ box_around list.now }
{
    with_points(BoundsAnswer::Empty, list)
}

// Whether the point at place i lies outside the smallest box around the others.
fn needed(list: &[Constraint], i: usize) -> bool
    requires { i < length list.now }
    ensures { result ≡ needed_at list.now i }
{
    let others = with_points(around(&list[..i]), &list[i + 1..]);
    others.misses(list[i])
}

// Whether this holds at each place of the list.
pub(crate) fn all_needed(list: &[Constraint]) -> bool
    ensures { Decides result (AllNeeded list.now) }
{
    (0..list.len()).all(|i| needed(list, i))
}
