ghost use Rattle.std.specs.Prelude.{◌≡◌, ◌≤◌, length};
ghost use Rattle.std.specs.List.{AllByRecursion};
ghost use Rattle.limits.specs.Least.{least_crossing};
ghost use Rattle.limits.specs.Plane.{cost_x_y};
ghost use Rattle.limits.specs.Standing.{standing};
ghost use Rattle.vertices.specs.Crossed.{Bounded};
ghost use Rattle.plane.specs.Searched.{least_of};

use crate::problem::Plane;
use crate::problem::square::limits;
use crate::search::Search;
use rows::row::Constraint;
use vertices::form::Form;

impl Plane {
    // What points are compared by, in turn: the cost, then x, then y.
    fn forms(self) -> [Form; 3]
        ensures { result ≡ cost_x_y self.p self.q }
    {
        let cost = Form {
            u: self.p,
            v: self.q,
        };
        [cost, Form { u: 1, v: 0 }, Form { u: 0, v: 1 }]
    }

    // The search for the least point of the square that keeps the rows.
    pub(crate) fn search(self, rows: &[Constraint]) -> Search
        requires bounded { AllByRecursion Bounded rows.now }
        requires few { length rows.now ≤ 3 }
        ensures { least_of result ≡ least_crossing (cost_x_y self.p self.q) rows.now }
    {
        Search {
            forms: self.forms(),
            limits: limits(rows),
        }
    }

    // Whether there are at most three rows, and each is missed by the least point of the others.
    pub(crate) fn all_missed(self, rows: &[Constraint]) -> bool
        requires { AllByRecursion Bounded rows.now }
        ensures { result ≡ standing (cost_x_y self.p self.q) rows.now }
    {
        match rows {
            [] => true,
            [f] => self.search(&[]).misses(*f),
            [f, g] => self.search(&[*g]).misses(*f) && self.search(&[*f]).misses(*g),
            [f, g, h] => {
                self.search(&[*g, *h]).misses(*f)
                    && self.search(&[*f, *h]).misses(*g)
                    && self.search(&[*f, *g]).misses(*h)
            }
            _ => false,
        }
    }
}
