ghost use Rattle.std.specs.Prelude.{◌≡◌, pos, ◌*ℤ◌, [], ◌∷◌, IsTrue};
ghost use Rattle.algebra.specs.Small.{Small};
ghost use Rattle.lptype.specs.Meaning.{Admitted};
ghost use Rattle.circles.specs.Discs.{discs};
ghost use Rattle.circles.specs.Angles.{turn, power, centre_x, centre_y, weighted};
ghost use Rattle.circles.specs.Tests.{acute, outside_circle};

use crate::place::Place;
use crate::point::Point;
use crate::vector::Vector;
use rows::row::Constraint;

// Three points.
#[derive(Clone, Copy)]
pub(crate) struct Triangle {
    pub(crate) p: Point,
    pub(crate) q: Point,
    pub(crate) r: Point,
}

// The square of u times the cross product of v and t.
fn weighted(u: Vector, v: Vector, t: Vector) -> i64
    ensures value { result ≡ weighted u.x u.y v.x v.y t.x t.y }
    ensures bound { Small 640000000000000000 result }
{
    u.square() * v.cross(t)
}

impl Triangle {
    // The points of three admitted rows.
    pub(crate) fn new(p: Constraint, q: Constraint, r: Constraint) -> Self
        requires { Admitted discs (p ∷ q ∷ r ∷ []) }
        ensures p { result.p.at ≡ p }
        ensures q { result.q.at ≡ q }
        ensures r { result.r.at ≡ r }
    {
        Self {
            p: Point::new(p),
            q: Point::new(q),
            r: Point::new(r),
        }
    }

    // Above 0 where the points turn to the left, and below 0 where they turn to the right.
    fn turn(self) -> i64
        ensures value { result ≡ turn self.p.at self.q.at self.r.at }
        ensures bound { Small 800000000 result }
    {
        self.p.to(self.q).cross(self.p.to(self.r))
    }

    // Times the turn: above 0 inside the circle through the points, and below 0 outside.
    fn power(self, h: Point) -> i64
        ensures { result ≡ power self.p.at self.q.at self.r.at h.at }
    {
        let u = h.to(self.p);
        let v = h.to(self.q);
        let t = h.to(self.r);
        weighted(u, v, t) + weighted(v, t, u) + weighted(t, u, v)
    }

    // Whether each corner is acute.
    pub(crate) fn is_acute(self) -> bool
        ensures { result ≡ acute self.p.at self.q.at self.r.at }
    {
        let Triangle { p, q, r } = self;
        p.is_acute(q, r) && q.is_acute(r, p) && r.is_acute(p, q)
    }

    // Whether h lies outside the circle through the points.
    pub(crate) fn leaves_out(self, h: Point) -> bool
        ensures { result ≡ outside_circle self.p.at self.q.at self.r.at h.at }
    {
        if self.turn() < 0 {
            0 < self.power(h)
        } else {
            self.power(h) < 0
        }
    }

    // The easting of the centre of the circle through the points, times twice their turn.
    fn centre_x(self) -> i64
        ensures value { result ≡ centre_x self.p.at self.q.at self.r.at }
        ensures bound { Small 48000000000000 result }
    {
        let Triangle { p, q, r } = self;
        p.square() * r.to(q).y + q.square() * p.to(r).y + r.square() * q.to(p).y
    }

    // The northing of that centre, times the same. One function for both, told the coordinate by a closure, is no plainer.
    fn centre_y(self) -> i64
        ensures value { result ≡ centre_y self.p.at self.q.at self.r.at }
        ensures bound { Small 48000000000000 result }
    {
        let Triangle { p, q, r } = self;
        p.square() * q.to(r).x + q.square() * r.to(p).x + r.square() * p.to(q).x
    }

    // The centre of the circle through the points.
    pub(crate) fn circumcentre(self) -> Place
        requires { IsTrue (acute self.p.at self.q.at self.r.at) }
        ensures x { result.x ≡ centre_x self.p.at self.q.at self.r.at }
        ensures y { result.y ≡ centre_y self.p.at self.q.at self.r.at }
        ensures d { result.d ≡ pos 2 *ℤ turn self.p.at self.q.at self.r.at }
    {
        Place {
            x: self.centre_x(),
            y: self.centre_y(),
            d: 2 * self.turn(),
        }
    }
}
