ghost use Rattle.std.specs.Prelude.{◌≡◌};
ghost use Rattle.rows.specs.Number.{number_of};

// Why a call is refused. Only a violated row carries its position.
#[derive(Clone, Copy, PartialEq, Eq)]
pub enum Refusal {
    NotAdmitted,
    ParishRange,
    TableFull,
    NoRow,
    AlreadyStruck,
    AlreadyOpen,
    TooManyPositions,
    NotRising,
    StruckRow,
    NotStanding,
    Violated(i64),
    UnknownWord,
    NoNumber,
    FieldCount,
    LongLine,
    // A seed outside 0 to 4,294,967,295.
    SeedRange,
}

// The status number that a user sees.
impl From<Refusal> for u8 {
    ghost from_gives = { λ refusal number. number ≡ number_of refusal };

    fn from(refusal: Refusal) -> u8 {
        match refusal {
            Refusal::NotAdmitted => 1,
            Refusal::ParishRange => 2,
            Refusal::TableFull => 3,
            Refusal::NoRow => 4,
            Refusal::AlreadyStruck => 5,
            Refusal::AlreadyOpen => 6,
            Refusal::TooManyPositions => 7,
            Refusal::NotRising => 8,
            Refusal::StruckRow => 9,
            Refusal::NotStanding => 10,
            Refusal::Violated(_) => 11,
            Refusal::UnknownWord => 12,
            Refusal::NoNumber => 13,
            Refusal::FieldCount => 14,
            Refusal::LongLine => 15,
            Refusal::SeedRange => 16,
        }
    }
}
