ghost use Rattle.plane.specs.Made.{PlaneMade};

use format::narrowing::narrow;
use plane::problem::Plane;
use rows::refusal::Refusal;

// The plane of the two numbers of a first line.
pub fn plane_of(p: i64, q: i64) -> Result<Plane, Refusal>
    ensures { PlaneMade p q result }
{
    Plane::new(narrow(p)?, narrow(q)?)
}
