#![tactic(auto)]

ghost use Rattle.std.specs.Prelude.{◌≡◌};
ghost use Rattle.points.specs.Point.{near, admits_point};

use rows::range::is_within;

// Whether a coordinate is within 10,000 metres of 0.
fn near(n: i32) -> bool
    ensures { result ≡ near n }
{
    is_within(10_000, n)
}

// Whether the three numbers of a row are those of a point.
pub fn is_point(a: i32, b: i32, c: i32) -> bool
    ensures { result ≡ admits_point a b c }
{
    near(a) && near(b) && c == 0
}
