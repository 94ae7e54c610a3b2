ghost use Rattle.std.specs.Prelude.{◌≡◌, ◌≤◌, length};
ghost use Rattle.limits.specs.Least.{side, limits};

use arrayvec::ArrayVec;
use rows::row::Constraint;

// A side of the square in which the points lie.
fn side(a: i32, b: i32) -> Constraint
    ensures { result ≡ side a b }
{
    Constraint {
        a,
        b,
        c: 1_000_000,
        parish: 1,
    }
}

// The sides of the square, and then the rows.
pub(crate) fn limits(rows: &[Constraint]) -> ArrayVec<Constraint, 7>
    requires { length rows.now ≤ 3 }
    ensures { result.items ≡ limits rows.now }
{
    let sides = [side(1, 0), side(-1, 0), side(0, 1), side(0, -1)];
    let mut limits = ArrayVec::new();
    limits.try_extend_from_slice(&sides).unwrap();
    limits.try_extend_from_slice(rows).unwrap();
    limits
}
