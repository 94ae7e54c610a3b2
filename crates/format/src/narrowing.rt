ghost use Rattle.std.specs.Prelude.{◌≡◌};
ghost use Rattle.format.specs.Narrow.{NumberNarrowed, narrowed, RowNarrowed};

use crate::command::RowNumbers;
use rows::refusal::Refusal;
use rows::row::Constraint;

// A number of at most 32 bits; one beyond them is refused like a row that is not admitted.
pub fn narrow(number: i64) -> Result<i32, Refusal>
    ensures { NumberNarrowed number result }
{
    i32::try_from(number).map_err(|_| Refusal::NotAdmitted)
}

// A number as a parish: 0, which is none, where it is out of a byte's range. So it is refused in its turn, after a, b and c.
fn narrow_parish(number: i64) -> u8
    ensures { result ≡ narrowed number }
{
    u8::try_from(number).unwrap_or(0)
}

// The constraint of four numbers.
impl TryFrom<RowNumbers> for Constraint {
    type Error = Refusal;

    ghost try_from_gives = { RowNarrowed };

    fn try_from(numbers: RowNumbers) -> Result<Constraint, Refusal> {
        Ok(Constraint {
            a: narrow(numbers.a)?,
            b: narrow(numbers.b)?,
            c: narrow(numbers.c)?,
            parish: narrow_parish(numbers.parish),
        })
    }
}
