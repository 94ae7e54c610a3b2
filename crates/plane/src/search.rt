ghost use Rattle.std.specs.Prelude.{◌≡◌};
ghost use Rattle.std.specs.List.{AllByRecursion};
ghost use Rattle.limits.specs.Crossings.{crossing, crossings_with};
ghost use Rattle.limits.specs.Least.{better, improved, best};
ghost use Rattle.limits.specs.Standing.{misses};
ghost use Rattle.vertices.specs.Crossed.{Bounded};
ghost use Rattle.vertices.specs.Vertices.{point};
ghost use Rattle.plane.specs.Answer.{Tells};
ghost use Rattle.std.proofs.Props.{props};

use crate::answer::PlaneAnswer;
use arrayvec::ArrayVec;
use rows::row::Constraint;
use vertices::form::Form;
use vertices::vertex::Vertex;

// A search for the least point that keeps some limits; points are compared by the forms in turn.
#[derive(Drop)]
pub(crate) struct Search {
    pub(crate) forms: [Form; 3],
    pub(crate) limits: ArrayVec<Constraint, 7>,
    ghost bounded: { AllByRecursion Bounded limits.items } by { Prim.hlevel props },
}

impl Search {
    ghost use Rattle.plane.specs.Searched.{found, least_of};

    // The smaller of a point and what was found before.
    fn better(&self, before: Option<Vertex>, one: Vertex) -> Option<Vertex>
        ensures { found result ≡ better self.now.forms (point one) (found before) }
    {
        match before {
            Some(other) if !one.no_more(&self.forms, other) => before,
            _ => Some(one),
        }
    }

    // What was found, or one more point if it is smaller and keeps the limits.
    fn improved(&self, before: Option<Vertex>, one: Vertex) -> Option<Vertex>
        ensures { found result ≡ improved self.now.forms self.now.limits.items (found before) (point one) }
    {
        if one.keeps_all(&self.limits) {
            self.better(before, one)
        } else {
            before
        }
    }

    // What was found, or the crossing of two lines if it is smaller and keeps the limits.
    fn with_crossing(&self, before: Option<Vertex>, g: Constraint, h: Constraint) -> Option<Vertex>
        requires g_bounded { Bounded g }
        requires h_bounded { Bounded h }
        ensures { found result ≡ best self.now.forms self.now.limits.items (found before) (crossing g h) }
    {
        Vertex::of_lines(g, h).map_or(before, |one| self.improved(before, one))
    }

    // The same for the crossings of one line with those of a list. They are limits of the search, handed on as parts
    // of its slice; told by their places instead, the loop would count an index.
    fn with_line(
        &self,
        before: Option<Vertex>,
        g: Constraint,
        others: &[Constraint],
    ) -> Option<Vertex>
        requires g_bounded { Bounded g }
        requires others_bounded { AllByRecursion Bounded others.now }
        ensures { found result ≡ best self.now.forms self.now.limits.items (found before) (crossings_with g others.now) }
    {
        let mut least = before;
        for h in others {
            least = self.with_crossing(least, g, *h);
        }
        least
    }

    // The least crossing of two limits that keeps them all.
    fn least(&self) -> Option<Vertex>
        ensures { found result ≡ least_of self.now }
    {
        let mut least = None;
        let mut lines = self.limits.as_slice();
        while let [g, others @ ..] = lines {
            least = self.with_line(least, *g, others);
            lines = others;
        }
        least
    }

    // The least point in lowest terms, or none.
    pub(crate) fn cheapest(&self) -> PlaneAnswer
        ensures { Tells (least_of self.now) result }
    {
        self.least().map_or(
            PlaneAnswer::NoPoint,
            |vertex| PlaneAnswer::Point(vertex.reduced()),
        )
    }

    // Whether the least point misses one more row.
    pub(crate) fn misses(&self, row: Constraint) -> bool
        ensures { result ≡ misses (least_of self.now) row }
    {
        self.least().is_some_and(|vertex| !vertex.keeps(row))
    }
}
