ghost use Rattle.circles.specs.Discs.{discs};
ghost use Rattle.disc.specs.Centres.{Reads};
ghost use Rattle.circles.proofs.Values.{discs_laws};
ghost use Rattle.std.proofs.Common.{rules};

use crate::answer::DiscAnswer;
use crate::place::Place;
use crate::point::Point;
use crate::triangle::Triangle;
use lptype::problem::Problem;
use points::is_point;
use rows::row::Constraint;

// The smallest disc around the points of the rows.
#[derive(Clone, Copy)]
pub struct Disc;

impl Problem for Disc {
    type Answer = DiscAnswer;

    ghost meaning = { λ _. discs };

    ghost reads = { λ _. Reads };

    ghost lawful = { λ p. discs_laws };

    ghost apart = { Prim.search rules };

    fn dimension(&self) -> usize {
        3
    }

    fn admits(&self, a: i32, b: i32, c: i32) -> bool {
        is_point(a, b, c)
    }

    fn is_standing(&self, list: &[Constraint]) -> bool {
        match *list {
            [] | [_] => true,
            [p, q] => Point::new(p).differs(Point::new(q)),
            [p, q, r] => Triangle::new(p, q, r).is_acute(),
            _ => false,
        }
    }

    fn is_raised(&self, list: &[Constraint], row: Constraint) -> bool {
        let h = Point::new(row);
        match *list {
            [] => true,
            [p] => Point::new(p).differs(h),
            [p, q] => h.is_outside(Point::new(p), Point::new(q)),
            [p, q, r] => Triangle::new(p, q, r).leaves_out(h),
            // More than three points never stand.
            _ => unreachable(),
        }
    }

    fn best(&self, list: &[Constraint]) -> DiscAnswer {
        match *list {
            [] => DiscAnswer::Empty,
            [p] => {
                let p = Point::new(p);
                DiscAnswer::Centre(Place::halfway(p, p).reduced())
            }
            [p, q] => DiscAnswer::Centre(Place::halfway(Point::new(p), Point::new(q)).reduced()),
            [p, q, r] => DiscAnswer::Centre(Triangle::new(p, q, r).circumcentre().reduced()),
            // More than three points never stand.
            _ => unreachable(),
        }
    }
}
