ghost use Rattle.std.specs.Prelude.{◌≡◌, ◌*ℤ◌, Decides};
ghost use Rattle.limits.specs.Crossings.{kept};
ghost use Rattle.limits.specs.Forms.{at, first, no_more};
ghost use Rattle.vertices.specs.Vertices.{point, form, KeepsEach};

use crate::form::Form;
use crate::vertex::Vertex;
use rows::row::Constraint;

// Whether here is below there, or they are equal and the rest decides so.
fn first(here: i64, there: i64, rest: bool) -> bool
    ensures { result ≡ first here there rest }
{
    here < there || (here <= there && rest)
}

impl Vertex {
    // u·x + v·y, times d.
    fn scaled(self, u: i32, v: i32) -> i64
        ensures { result ≡ at (form u v) (point self) }
    {
        i64::from(u) * self.x + i64::from(v) * self.y
    }

    // A whole number, times d.
    fn over(self, c: i32) -> i64
        ensures { result ≡ c *ℤ self.d }
    {
        i64::from(c) * self.d
    }

    // Whether the point keeps the limit.
    pub fn keeps(self, limit: Constraint) -> bool
        ensures { result ≡ kept (point self) limit }
    {
        self.scaled(limit.a, limit.b) <= self.over(limit.c)
    }

    // Whether the point keeps each of the limits.
    pub fn keeps_all(self, limits: &[Constraint]) -> bool
        ensures { Decides result (KeepsEach (point self) limits.now) }
    {
        limits.iter().all(|limit| self.keeps(*limit))
    }

    // The value of a form, times both denominators.
    fn crossed(self, form: Form, other: Vertex) -> i64
        ensures { result ≡ at form (point self) *ℤ other.d }
    {
        self.scaled(form.u, form.v) * other.d
    }

    // Whether the form is smaller here, or equal and the rest decides so.
    pub fn first_by(self, form: Form, other: Vertex, rest: bool) -> bool
        ensures { result ≡ first (at form (point self) *ℤ (point other).D) (at form (point other) *ℤ (point self).D) rest }
    {
        first(self.crossed(form, other), other.crossed(form, self), rest)
    }

    // Whether the point is no larger than another: the forms are compared in turn. No Ord: the order depends on the forms.
    pub fn no_more(self, forms: &[Form], other: Vertex) -> bool
        ensures { result ≡ no_more forms.now (point self) (point other) }
    {
        match forms {
            [] => true,
            [form, rest @ ..] => self.first_by(*form, other, self.no_more(rest, other)),
        }
    }
}
