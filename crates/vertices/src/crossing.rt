ghost use Rattle.std.specs.Prelude.{◌≡◌, true, ◌-ℤ◌, ◌*ℤ◌};
ghost use Rattle.rows.specs.Range.{within};
ghost use Rattle.vertices.specs.Crossed.{upright, crossing_numbers, Bounded};

use rows::row::Constraint;

// a·d − c·b
fn minor(a: i32, b: i32, c: i32, d: i32) -> i64
    requires a_small { within 1000000 a ≡ true }
    requires b_small { within 1000000 b ≡ true }
    requires c_small { within 1000000 c ≡ true }
    requires d_small { within 1000000 d ≡ true }
    ensures { result ≡ a *ℤ d -ℤ c *ℤ b }
{
    i64::from(a) * i64::from(d) - i64::from(c) * i64::from(b)
}

// The same point with d above 0; none where d is 0. The disc's places have a d other than 0, and a type of their own.
fn upright(x: i64, y: i64, d: i64) -> Option<(i64, i64, i64)>
    requires x_small { within 2000000000 x ≡ true }
    requires y_small { within 2000000000 y ≡ true }
    requires d_small { within 2000000 d ≡ true }
    ensures { result ≡ upright x y d }
{
    if d > 0 {
        Some((x, y, d))
    } else if d < 0 {
        Some((-x, -y, -d))
    } else {
        None
    }
}

// Where the lines of two limits cross, as X, Y and D by Cramer's rule with D above 0; none where they are parallel.
// By a rule of the project the answer is a tuple, and `Vertex::of_lines` destructures it.
// Limits have no type for small numbers: then `Vertex::keeps_all` would ask for it too, and takes any limits now.
#[tactic(auto, using(crate::proofs::Numbers::a_fine, crate::proofs::Numbers::b_fine, crate::proofs::Numbers::c_fine))]
pub fn crossing(g: Constraint, h: Constraint) -> Option<(i64, i64, i64)>
    requires g_bounded { Bounded g }
    requires h_bounded { Bounded h }
    ensures { result ≡ crossing_numbers g h }
{
    let x = minor(g.c, g.b, h.c, h.b);
    let y = minor(g.a, g.c, h.a, h.c);
    let d = minor(g.a, g.b, h.a, h.b);
    upright(x, y, d)
}
