ghost use Rattle.std.specs.Prelude.{◌≡◌, true};
ghost use Rattle.rows.specs.Range.{within};
ghost use Rattle.limits.specs.Forms.{Form as Linear};

use std::marker::Model;

// The form u·x + v·y, with factors small enough that its values at two points can be compared.
#[derive(Clone, Copy)]
pub struct Form {
    pub u: i32,
    pub v: i32,
}

impl Model for Form {
    ghost Value = { Linear };

    ghost view = { λ f. record { u = f.u; v = f.v } };

    ghost invariant = { λ f. (within 1000 f.u ≡ true) × (within 1000 f.v ≡ true) };

    ghost inverse = { λ f. record { u = f.u; v = f.v } };
}
