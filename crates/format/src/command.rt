ghost use Rattle.std.specs.Prelude.{◌≡◌};
ghost use Rattle.words.specs.Words.{command_spelling};
ghost use Rattle.rows.specs.Numbers.{numbers_in};
ghost use Rattle.format.specs.Command.{HeaderRead, CommandRead, CommandWritten, header_word, header_values, written};
ghost use Rattle.format.specs.Seed.{SeedJudged};

use crate::statement::{MOST_NUMBERS, Statement};
use rows::numbers::Numbers;
use rows::refusal::Refusal;
use words::keyword::{CommandWord, HeaderWord};

// What line 1 says.
#[derive(Clone, Copy)]
pub enum Header {
    Disc,
    Plane { p: i64, q: i64 },
    Bounds,
}

// The numbers of a line that enters a row.
#[derive(Clone, Copy, PartialEq, Eq, Debug)]
pub struct RowNumbers {
    pub a: i64,
    pub b: i64,
    pub c: i64,
    pub parish: i64,
}

// What a later line says.
#[derive(Clone, Copy)]
pub enum Command {
    Row(RowNumbers),
    Strike(i64),
    Restore(i64),
    Check(Numbers<MOST_NUMBERS>),
    Shuffle(u32),
    Settle,
}

// The header of a line.
impl From<Statement<HeaderWord>> for Header {
    ghost from_gives = { λ statement header. (header_word header ≡ statement.word) × (header_values header ≡ numbers_in statement.numbers) };

    fn from(statement: Statement<HeaderWord>) -> Header {
        let at = statement.numbers.as_slice();
        match statement.word {
            HeaderWord::Disc => Header::Disc,
            HeaderWord::Plane => Header::Plane { p: at[0], q: at[1] },
            HeaderWord::Bounds => Header::Bounds,
        }
    }
}

// The seed that a number is, or the refusal of a number that is none. One function for this and `narrow` is no plainer.
fn seed(number: i64) -> Result<u32, Refusal>
    ensures { SeedJudged number result }
{
    u32::try_from(number).map_err(|_| Refusal::SeedRange)
}

// The command of a line, unless its seed is out of range.
impl TryFrom<Statement<CommandWord>> for Command {
    type Error = Refusal;

    ghost try_from_gives = { λ statement r. CommandWritten (written command_spelling statement.word (numbers_in statement.numbers)) r };

    fn try_from(statement: Statement<CommandWord>) -> Result<Command, Refusal> {
        let Statement { word, numbers } = statement;
        let at = numbers.as_slice();
        match word {
            CommandWord::Row => Ok(Command::Row(RowNumbers {
                a: at[0],
                b: at[1],
                c: at[2],
                parish: at[3],
            })),
            CommandWord::Strike => Ok(Command::Strike(at[0])),
            CommandWord::Restore => Ok(Command::Restore(at[0])),
            CommandWord::Check => Ok(Command::Check(numbers)),
            CommandWord::Shuffle => Ok(Command::Shuffle(seed(at[0])?)),
            CommandWord::Settle => Ok(Command::Settle),
        }
    }
}

// What line 1 says, or the first reason to refuse it.
pub fn read_header(line: &[u8]) -> Result<Header, Refusal>
    ensures { HeaderRead line.now result }
{
    Ok(Header::from(Statement::<HeaderWord>::read(line)?))
}

// What a later line says, or the first reason to refuse it. One function for both would need a trait of what lines say, and be no plainer.
pub fn read_command(line: &[u8]) -> Result<Command, Refusal>
    ensures { CommandRead line.now result }
{
    Command::try_from(Statement::<CommandWord>::read(line)?)
}
