ghost use Rattle.std.specs.Prelude.{◌≡◌, ◌-◌, ◌<◌, ◌≤◌, unsigned_abs};
ghost use Rattle.fields.specs.Numeral.{NumberRead, ReadExactly};
ghost use Rattle.fields.specs.Reader.{fresh, number_of, extended, Stepped};

// How much of a number the bytes so far are; `Digits` has the number that they write.
#[derive(Clone, Copy, PartialEq, Eq)]
pub enum State {
    Start,
    Minus,
    Zero,
    Digits(i64),
}

// Reads a number byte by byte.
#[derive(Clone, Copy)]
pub struct NumberReader {
    state: State,
}

// The number with one more digit at its end.
fn extend(value: i64, digit: u8) -> i64
    requires { (unsigned_abs value < 1000000000) × (digit ≤ 9) }
    ensures { result ≡ extended value digit }
{
    if value < 0 {
        value * 10 - i64::from(digit)
    } else {
        value * 10 + i64::from(digit)
    }
}

impl NumberReader {
    pub fn new() -> NumberReader
        ensures { result ≡ fresh }
    {
        NumberReader {
            state: State::Start,
        }
    }

    // Takes one more byte; false, and the reader unchanged, where no number goes on so.
    pub fn step(&mut self, byte: u8) -> bool
        ensures { Stepped self.old byte result self.new }
    {
        self.state = match (self.state, byte) {
            (State::Start, b'-') => State::Minus,
            (State::Start, b'0') => State::Zero,
            (State::Start, b'1'..=b'9') => State::Digits(i64::from(byte - b'0')),
            (State::Minus, b'1'..=b'9') => State::Digits(-i64::from(byte - b'0')),
            (State::Digits(value), b'0'..=b'9') if value.unsigned_abs() < 1_000_000_000 => {
                State::Digits(extend(value, byte - b'0'))
            }
            _ => return false,
        };
        true
    }

    // The number that the bytes so far write, if they are one.
    pub fn number(&self) -> Option<i64>
        ensures { result ≡ number_of self.now }
    {
        match self.state {
            State::Start | State::Minus => None,
            State::Zero => Some(0),
            State::Digits(value) => Some(value),
        }
    }
}

// The number that a whole field writes, if it is one.
pub fn read_number(field: &[u8]) -> Option<i64>
    ensures read { NumberRead field.now result }
    ensures exactly { ReadExactly field.now result }
{
    let mut reader = NumberReader::new();
    for byte in field {
        if !reader.step(*byte) {
            return None;
        }
    }
    reader.number()
}
