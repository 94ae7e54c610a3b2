ghost use Rattle.std.specs.Prelude.{◌≡◌};
ghost use Rattle.algebra.specs.Small.{Small};
ghost use Rattle.circles.specs.Angles.{squares, dot, cross};

// A vector by its metres to the east and to the north, no longer than one between two points.
#[derive(Clone, Copy)]
pub(crate) struct Vector {
    pub(crate) x: i64,
    pub(crate) y: i64,
    ghost east: { Small 20000 x },
    ghost north: { Small 20000 y },
}

impl Vector {
    // The square of its length.
    pub(crate) fn square(self) -> i64
        ensures value { result ≡ squares self.x self.y }
        ensures bound { Small 800000000 result }
    {
        self.dot(self)
    }

    // The dot product of the two.
    pub(crate) fn dot(self, other: Vector) -> i64
        ensures value { result ≡ dot self.x self.y other.x other.y }
        ensures bound { Small 800000000 result }
    {
        self.x * other.x + self.y * other.y
    }

    // The cross product of the two.
    pub(crate) fn cross(self, other: Vector) -> i64
        ensures value { result ≡ cross self.x self.y other.x other.y }
        ensures bound { Small 800000000 result }
    {
        self.x * other.y - self.y * other.x
    }
}
