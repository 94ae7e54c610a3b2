ghost use Rattle.plane.specs.Made.{PlaneMade};

use crate::problem::Plane;
use rows::range::is_within;
use rows::refusal::Refusal;

impl Plane {
    // The plane in which a point costs p·x + q·y.
    pub fn new(p: i32, q: i32) -> Result<Plane, Refusal>
        ensures { PlaneMade p q result }
    {
        if is_within(1_000, p) && is_within(1_000, q) {
            Ok(Plane { p, q })
        } else {
            Err(Refusal::NotAdmitted)
        }
    }
}
