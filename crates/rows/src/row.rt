pub mod picking;

ghost use Rattle.std.specs.Prelude.{◌≡◌, Decides, MatchOption};
ghost use Rattle.rows.specs.Row.{HasRow, IsParish, Named, at, row_at, open_row};

// What a problem sees of a row: three numbers and the parish. Its default stands in the unused places of an ArrayVec only.
#[derive(Clone, Copy, Default)]
pub struct Constraint {
    pub a: i32,
    pub b: i32,
    pub c: i32,
    pub parish: u8,
}

// Whether a row counts.
#[derive(Clone, Copy, PartialEq, Eq)]
pub enum Mark {
    Open,
    Struck,
}

#[derive(Clone, Copy)]
pub struct Row {
    pub constraint: Constraint,
    pub mark: Mark,
}

pub const BLANK: Row = Row {
    constraint: Constraint {
        a: 0,
        b: 0,
        c: 0,
        parish: 1,
    },
    mark: Mark::Open,
};

impl Constraint {
    // This constraint as a row that counts. No From: the name says which mark it gives.
    pub fn opened(self) -> Row
        ensures { result ≡ open_row self }
    {
        Row {
            constraint: self,
            mark: Mark::Open,
        }
    }
}

// Whether there is a parish of this number.
pub fn is_parish(number: u8) -> bool
    ensures { Decides result (IsParish number) }
{
    (1..=16).contains(&number)
}

// The row at a position, where there is one.
pub fn row_at(rows: &[Row], position: i64) -> Option<Row>
    ensures { MatchOption result (HasRow rows.now position → ⊥) (λ x. HasRow rows.now position × (x ≡ row_at rows.now position)) }
{
    rows.get(usize::try_from(position).ok()?).copied()
}

// Whether the position has a row.
pub fn has_row(rows: &[Row], position: i64) -> bool
    ensures { Decides result (HasRow rows.now position) }
{
    row_at(rows, position).is_some()
}

// Whether each position of the list has a row.
pub fn all_named(rows: &[Row], list: &[i64]) -> bool
    ensures { Decides result (Named rows.now list.now) }
{
    list.iter().all(|p| has_row(rows, *p))
}

// The constraint of the row at a position.
pub fn constraint_at(rows: &[Row], position: i64) -> Constraint
    requires { HasRow rows.now position }
    ensures { result ≡ at rows.now position }
{
    match row_at(rows, position) {
        Some(row) => row.constraint,
        None => unreachable(),
    }
}
