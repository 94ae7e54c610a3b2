ghost use Rattle.std.specs.Prelude.{◌≡◌, ℕ, ◌<◌, ◌≤◌, length, ◌≢◌, slice_index};
ghost use Rattle.std.specs.Iterator.{item_count};
ghost use Rattle.fields.specs.Fields.{fields, left, bytes_of, Told, FieldHanded, TokenHanded};
ghost use Rattle.fields.specs.Numeral.{NumberRead};
ghost use Rattle.fields.specs.Parts.{PartsOf};

use crate::byte::find_byte;
use crate::number::read_number;

// A field of a line, told apart by whether it is a number.
#[derive(Clone, Copy)]
pub enum Token<'a> {
    Word(&'a [u8]),
    Number(&'a [u8]),
}

// A field as a token: a number where it is one, else a word.
impl<'a> From<&'a [u8]> for Token<'a> {
    ghost from_gives = { λ field token. (bytes_of token ≡ field.now) × Told token };

    fn from(field: &'a [u8]) -> Token<'a> {
        if read_number(field).is_some() {
            Token::Number(field)
        } else {
            Token::Word(field)
        }
    }
}

impl<'a> Token<'a> {
    // The bytes of the field.
    pub fn bytes(self) -> &'a [u8]
        ensures { result.now ≡ bytes_of self.entry }
    {
        match self {
            Token::Word(bytes) | Token::Number(bytes) => bytes,
        }
    }

    // The number that the field is, if it is one.
    pub fn number(self) -> Option<i64>
        ensures { Told self.entry → NumberRead (bytes_of self.entry) result }
    {
        match self {
            Token::Word(_) => None,
            Token::Number(bytes) => read_number(bytes),
        }
    }
}

// How many fields a line has.
pub fn field_count(line: &[u8]) -> usize
    ensures count { result ≡ length (fields line.now) }
    ensures parts { PartsOf 44 line.now (fields line.now) }
{
    1 + line.iter().filter(|byte| **byte == b',').count()
}

// The index of the first comma, or the length where there is none.
fn comma(bytes: &[u8]) -> usize
    ensures within { result ≤ length bytes.now }
    ensures before { (k : ℕ) → k < result → slice_index bytes.now k ≢ 44 }
    ensures found { result < length bytes.now → slice_index bytes.now result ≡ 44 }
{
    find_byte(b',', bytes).unwrap_or(bytes.len())
}

// Hands out the fields of a line, one at a time. By a rule of the project it tells the place of a field, so it holds the line
// and indices in it. `next` is where the next field begins, one past the line's end where none is left.
#[derive(Drop)]
pub struct Fields<'a> {
    line: &'a [u8],
    next: usize,
    place: usize,
}

impl<'a> Fields<'a> {
    pub fn new(line: &'a [u8]) -> Fields<'a>
        ensures left { left result ≡ fields line.now }
        ensures line { result.line.now ≡ line.now }
        ensures place { result.place ≡ 0 }
    {
        Fields {
            line,
            next: 0,
            place: 0,
        }
    }

    // The bytes of the next field, if one is left.
    fn next_field(&mut self) -> Option<&'a [u8]>
        ensures { FieldHanded self.old result self.new }
    {
        let rest = self.line.get(self.next..)?;
        let field = &rest[..comma(rest)];
        self.place = self.next;
        self.next += field.len() + 1;
        Some(field)
    }

    // Where the field last handed out begins; 0 before the first.
    pub fn place(&self) -> usize
        ensures { result ≡ self.now.place }
    {
        self.place
    }
}

impl<'a> Iterator for Fields<'a> {
    type Item = Token<'a>;

    ghost next_gives = { TokenHanded };

    ghost remaining = { item_count left };

    fn next(&mut self) -> Option<Token<'a>> {
        self.next_field().map(Token::from)
    }
}
