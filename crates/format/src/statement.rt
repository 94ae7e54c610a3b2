ghost use Rattle.std.specs.Prelude.{◌≡◌, ◌+◌, ◌≤◌, true, length};
ghost use Rattle.rows.specs.Numbers.{numbers_in};
ghost use Rattle.fields.specs.Fields.{left};
ghost use Rattle.format.specs.Steps.{sized, NumbersRead, WordHanded, WordJudged};

use crate::line::LIMIT;
use fields::token::{Fields, field_count};
use rows::numbers::Numbers;
use rows::refusal::Refusal;
use words::keyword::Keyword;

// The most numbers that a line may have: each takes a byte at least, and a comma before it.
pub const MOST_NUMBERS: usize = LIMIT / 2;

// A line as its word and its numbers, which are as many as the word takes.
#[derive(Drop)]
pub(crate) struct Statement<W: Keyword> {
    pub(crate) word: W,
    pub(crate) numbers: Numbers<MOST_NUMBERS>,
    ghost counted: { W.counts word (1 + length (numbers_in numbers)) ≡ true },
}

// The word that the next field spells, if it spells one.
fn next_word<W: Keyword>(fields: &mut Fields) -> Option<W>
    ensures { WordHanded W.Keyword.spelling (left fields.old) result (left fields.new) }
{
    W::from_bytes(fields.next()?.bytes())
}

// The word of a line with so many fields, or the first reason to refuse it.
fn judged<W: Keyword + Drop>(word: Option<W>, count: usize) -> Result<W, Refusal>
    ensures { WordJudged W.Keyword.counts word count result }
{
    let word = word.ok_or(Refusal::UnknownWord)?;
    if word.takes(count) {
        Ok(word)
    } else {
        Err(Refusal::FieldCount)
    }
}

// The numbers that are all the fields left, which have few enough bytes.
fn read_numbers(fields: Fields) -> Result<Numbers<MOST_NUMBERS>, Refusal>
    requires { sized (left fields) ≤ 81 }
    ensures { NumbersRead (left fields.entry) result }
{
    let mut numbers = Numbers::empty();
    for token in fields {
        let number = token.number().ok_or(Refusal::NoNumber)?;
        numbers.push(number);
    }
    Ok(numbers)
}

impl<W: Keyword + Drop> Statement<W> {
    ghost use Rattle.format.specs.Statement.{StatementRead};

    // The word and the numbers of a line.
    pub(crate) fn read(line: &[u8]) -> Result<Statement<W>, Refusal>
        ensures { StatementRead W.Keyword.spelling W.Keyword.counts line.now result }
    {
        if line.len() > LIMIT {
            return Err(Refusal::LongLine);
        }
        let mut fields = Fields::new(line);
        let word = judged(next_word::<W>(&mut fields), field_count(line))?;
        let numbers = read_numbers(fields)?;
        Ok(Statement { word, numbers })
    }
}
