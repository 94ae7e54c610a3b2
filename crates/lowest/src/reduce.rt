ghost use Rattle.std.specs.Prelude.{pos, ◌<ℤ◌};
ghost use Rattle.std.specs.Int.{IsGcd};
ghost use Rattle.lowest.specs.Reduced.{Divisor, LowestTerms};

// The point x/d, y/d.
#[derive(Clone, Copy)]
pub struct RationalPoint {
    pub x: i64,
    pub y: i64,
    pub d: i64,
}

// The greatest common divisor, by Euclid's algorithm.
fn gcd(a: u64, b: u64) -> u64
    ensures { IsGcd a b result }
{
    let mut large = a;
    let mut small = b;
    while small != 0 {
        let rest = large % small;
        large = small;
        small = rest;
    }
    large
}

// The greatest common divisor of three numbers, the last above 0.
fn divisor(x: i64, y: i64, d: i64) -> i64
    requires { pos 0 <ℤ d }
    ensures { Divisor x y d result }
{
    gcd(gcd(x.unsigned_abs(), y.unsigned_abs()), d.unsigned_abs()) as i64
}

// The point x/d, y/d in lowest terms.
pub fn reduce(x: i64, y: i64, d: i64) -> RationalPoint
    requires { pos 0 <ℤ d }
    ensures { LowestTerms x y d result.x result.y result.d }
{
    let g = divisor(x, y, d);
    RationalPoint {
        x: x / g,
        y: y / g,
        d: d / g,
    }
}
