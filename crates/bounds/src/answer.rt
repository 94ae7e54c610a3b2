ghost use Rattle.std.specs.Prelude.{◌≡◌};
ghost use Rattle.bounds.specs.Sides.{outside, with_point, misses};

use rows::row::Constraint;

// A box: without any point, or with these four sides.
// No Option: the empty box is a rival, and None would read as no rival.
#[derive(Clone, Copy)]
pub enum BoundsAnswer {
    Empty,
    Sides {
        west: i32,
        east: i32,
        south: i32,
        north: i32,
    },
}

// Whether n is below low or above high.
fn outside(low: i32, high: i32, n: i32) -> bool
    ensures { result ≡ outside low high n }
{
    !(low..=high).contains(&n)
}

impl BoundsAnswer {
    // This box, made just large enough for one more point.
    pub(crate) fn with_point(self, point: Constraint) -> BoundsAnswer
        ensures { result ≡ with_point self point }
    {
        match self {
            BoundsAnswer::Empty => BoundsAnswer::Sides {
                west: point.a,
                east: point.a,
                south: point.b,
                north: point.b,
            },
            BoundsAnswer::Sides {
                west,
                east,
                south,
                north,
            } => BoundsAnswer::Sides {
                west: west.min(point.a),
                east: east.max(point.a),
                south: south.min(point.b),
                north: north.max(point.b),
            },
        }
    }

    // Whether the point lies beyond a side.
    pub(crate) fn misses(self, point: Constraint) -> bool
        ensures { result ≡ misses self point }
    {
        match self {
            BoundsAnswer::Empty => true,
            BoundsAnswer::Sides {
                west,
                east,
                south,
                north,
            } => outside(west, east, point.a) || outside(south, north, point.b),
        }
    }
}
