ghost use Rattle.std.specs.Prelude.{◌≡◌, ◌-ℤ◌, IsTrue};
ghost use Rattle.algebra.specs.Small.{Small};
ghost use Rattle.points.specs.Point.{admits_point};
ghost use Rattle.circles.specs.Angles.{squares, corner};
ghost use Rattle.circles.specs.Tests.{differ, acute_at, outside_pair};

use crate::vector::Vector;
use rows::row::Constraint;

// A point whose two coordinates are within 10,000 of 0.
#[derive(Clone, Copy)]
pub(crate) struct Point {
    pub(crate) at: Constraint,
    ghost east: { Small 10000 at.a },
    ghost north: { Small 10000 at.b },
}

impl Point {
    // The point of an admitted row.
    pub(crate) fn new(at: Constraint) -> Self
        requires { IsTrue (admits_point at.a at.b at.c) }
        ensures { result.at ≡ at }
    {
        Self { at }
    }

    // The vector to another point.
    pub(crate) fn to(self, other: Self) -> Vector
        ensures x { result.x ≡ other.at.a -ℤ self.at.a }
        ensures y { result.y ≡ other.at.b -ℤ self.at.b }
    {
        Vector {
            x: i64::from(other.at.a) - i64::from(self.at.a),
            y: i64::from(other.at.b) - i64::from(self.at.b),
        }
    }

    // The squared distance from 0, 0.
    pub(crate) fn square(self) -> i64
        ensures value { result ≡ squares self.at.a self.at.b }
        ensures bound { Small 800000000 result }
    {
        Vector {
            x: i64::from(self.at.a),
            y: i64::from(self.at.b),
        }
        .square()
    }

    // The dot product at this corner of the triangle with q and r.
    fn corner(self, q: Self, r: Self) -> i64
        ensures { result ≡ corner self.at q.at r.at }
    {
        self.to(q).dot(self.to(r))
    }

    // Whether the two differ. No PartialEq: the parish does not count.
    pub(crate) fn differs(self, other: Self) -> bool
        ensures { result ≡ differ self.at other.at }
    {
        0 < other.to(self).square()
    }

    // Whether this corner of the triangle with q and r is acute.
    pub(crate) fn is_acute(self, q: Self, r: Self) -> bool
        ensures { result ≡ acute_at self.at q.at r.at }
    {
        0 < self.corner(q, r)
    }

    // Whether this point lies outside the circle on p and q.
    pub(crate) fn is_outside(self, p: Self, q: Self) -> bool
        ensures { result ≡ outside_pair p.at q.at self.at }
    {
        self.is_acute(p, q)
    }
}
