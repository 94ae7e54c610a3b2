ghost use Rattle.std.specs.Prelude.{◌≡◌};
ghost use Rattle.limits.specs.Crossings.{crossing};
ghost use Rattle.vertices.specs.Crossed.{Bounded};
ghost use Rattle.vertices.specs.Vertices.{listed};

use crate::crossing::crossing;
use crate::vertex::Vertex;
use rows::row::Constraint;

impl Vertex {
    // The point where the lines of two limits cross; none where they are parallel.
    pub fn of_lines(g: Constraint, h: Constraint) -> Option<Vertex>
        requires g_bounded { Bounded g }
        requires h_bounded { Bounded h }
        ensures { listed result ≡ crossing g h }
    {
        let (x, y, d) = crossing(g, h)?;
        Some(Vertex { x, y, d })
    }
}
