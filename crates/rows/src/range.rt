ghost use Rattle.std.specs.Prelude.{◌≡◌};
ghost use Rattle.rows.specs.Range.{within};

// Whether a number is at most `bound` away from 0.
pub fn is_within(bound: u32, number: i32) -> bool
    ensures { result ≡ within bound number }
{
    number.unsigned_abs() <= bound
}
