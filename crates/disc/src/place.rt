ghost use Rattle.std.specs.Prelude.{◌≡◌, pos, ◌+ℤ◌, ◌*ℤ◌, ◌<ℤ◌};
ghost use Rattle.algebra.specs.Small.{Small};
ghost use Rattle.lowest.specs.Reduced.{LowestTerms};

use crate::point::Point;
use lowest::reduce::{RationalPoint, reduce};

// The point x/d, y/d, by numbers no larger than those of a centre.
#[derive(Clone, Copy)]
pub(crate) struct Place {
    pub(crate) x: i64,
    pub(crate) y: i64,
    pub(crate) d: i64,
    ghost east: { Small 100000000000000 x },
    ghost north: { Small 100000000000000 y },
    ghost under: { Small 100000000000000 d },
    ghost nonzero: { ¬ (d ≡ pos 0) },
}

impl Place {
    // The point halfway between p and q.
    pub(crate) fn halfway(p: Point, q: Point) -> Self
        ensures x { result.x ≡ p.at.a +ℤ q.at.a }
        ensures y { result.y ≡ p.at.b +ℤ q.at.b }
        ensures d { result.d ≡ pos 2 }
    {
        Self {
            x: i64::from(p.at.a) + i64::from(q.at.a),
            y: i64::from(p.at.b) + i64::from(q.at.b),
            d: 2,
        }
    }

    // The same point with d above 0.
    fn upward(self) -> Self
        ensures up { pos 0 <ℤ result.d }
        ensures x { result.x *ℤ self.d ≡ self.x *ℤ result.d }
        ensures y { result.y *ℤ self.d ≡ self.y *ℤ result.d }
    {
        if self.d < 0 {
            return Self {
                x: -self.x,
                y: -self.y,
                d: -self.d,
            };
        }
        self
    }

    // The same point in lowest terms.
    pub(crate) fn reduced(self) -> RationalPoint
        ensures { LowestTerms self.x self.y self.d result.x result.y result.d }
    {
        let up = self.upward();
        reduce(up.x, up.y, up.d)
    }
}
