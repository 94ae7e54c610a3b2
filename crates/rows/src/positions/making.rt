ghost use Rattle.std.specs.Prelude.{◌≡◌, true, false, [], length, Decides};
ghost use Rattle.rows.specs.Rising.{Rising};
ghost use Rattle.rows.specs.List.{positions, ListMade};

use crate::numbers::Numbers;
use crate::positions::Positions;
use crate::refusal::Refusal;

// Whether each number is larger than the one before it.
fn rising(numbers: &[i64]) -> bool
    ensures { Decides result (Rising numbers.now (length numbers.now)) }
{
    numbers.windows(2).all(|pair| pair[0] < pair[1])
}

impl Positions {
    pub fn empty() -> Positions
        ensures { positions result ≡ [] }
    {
        Positions {
            list: Numbers::empty(),
        }
    }

    pub fn as_slice(&self) -> &[i64]
        ensures { result.now ≡ positions self.now }
    {
        self.list.as_slice()
    }
}

// The list of some numbers: at most eight, and rising.
impl<'a> TryFrom<&'a [i64]> for Positions {
    type Error = Refusal;

    ghost try_from_gives = { λ numbers r. ListMade numbers.now r };

    fn try_from(numbers: &'a [i64]) -> Result<Positions, Refusal> {
        if numbers.len() > 8 {
            return Err(Refusal::TooManyPositions);
        }
        if !rising(numbers) {
            return Err(Refusal::NotRising);
        }
        Ok(Positions {
            list: Numbers::from_slice(numbers),
        })
    }
}
