pub mod making;
pub mod questions;
mod searching;
mod square;

ghost use Rattle.std.specs.Prelude.{◌≡◌, true};
ghost use Rattle.rows.specs.Range.{within};

// The cheapest point of the plane under limits: p·x + q·y is least, then x, then y.
#[derive(Clone, Copy)]
pub struct Plane {
    p: i32,
    q: i32,
    ghost pbound: { within 1000 p ≡ true },
    ghost qbound: { within 1000 q ≡ true },
}
