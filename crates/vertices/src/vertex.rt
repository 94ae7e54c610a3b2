pub mod comparing;
pub mod making;
pub mod reducing;

ghost use Rattle.std.specs.Prelude.{◌≡◌, true, pos, ◌<ℤ◌};
ghost use Rattle.rows.specs.Range.{within};

// The point x/d, y/d, with numbers small enough that the costs of two such points can be compared.
#[derive(Clone, Copy)]
pub struct Vertex {
    x: i64,
    y: i64,
    d: i64,
    ghost above: { pos 0 <ℤ d },
    ghost xbound: { within 2000000000 x ≡ true },
    ghost ybound: { within 2000000000 y ≡ true },
    ghost dbound: { within 2000000 d ≡ true },
}
