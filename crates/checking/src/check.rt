ghost use Rattle.std.specs.Prelude.{◌≡◌, ◌≤◌, map, length, is_ok, Decides};
ghost use Rattle.rows.specs.List.{positions};
ghost use Rattle.lptype.specs.Meaning.{Admitted, Stands};
ghost use Rattle.checking.specs.Checking.{OpenAt, EachOpen, PickedOpen, CheckAnswer, BasisOfOpen, Searched};

use arrayvec::ArrayVec;
use lptype::problem::Problem;
use rows::positions::Positions;
use rows::refusal::Refusal;
use rows::row::picking::picked;
use rows::row::{Constraint, Mark, Row, all_named, row_at};

// Whether the position has an open row.
fn open_at(rows: &[Row], position: i64) -> bool
    ensures { Decides result (OpenAt rows.now position) }
{
    row_at(rows, position).is_some_and(|row| row.mark == Mark::Open)
}

// Whether each position of the list has an open row.
fn all_open(rows: &[Row], list: &[i64]) -> bool
    ensures { Decides result (EachOpen rows.now list.now) }
{
    list.iter().all(|p| open_at(rows, *p))
}

// The constraints at the positions of the list, each of which has an open row.
fn picked_open(rows: &[Row], list: &Positions) -> Result<ArrayVec<Constraint, 8>, Refusal>
    ensures { PickedOpen rows.now (positions list.now) result }
{
    if !all_named(rows, list.as_slice()) {
        return Err(Refusal::NoRow);
    }
    if !all_open(rows, list.as_slice()) {
        return Err(Refusal::StruckRow);
    }
    Ok(picked(rows, list))
}

// Goes through the rows by rising position, to the first open row that raises the value of rows that stand.
fn search_rows<P: Problem>(problem: &P, rows: &[Row], list: &[Constraint]) -> Result<(), Refusal>
    requires admitted { Admitted (P.meaning problem.now) (map (λ row. row.constraint) rows.now) }
    requires few { length rows.now ≤ 256 }
    requires listed { Admitted (P.meaning problem.now) list.now }
    requires stands { Stands (P.meaning problem.now) list.now }
    ensures { Searched (P.meaning problem.now) rows.now list.now result }
{
    for (i, row) in rows.iter().enumerate() {
        if row.mark == Mark::Open && problem.is_raised(list, row.constraint) {
            return Err(Refusal::Violated(i as i64));
        }
    }
    Ok(())
}

// Whether the list is a basis of the open rows.
pub fn check_list<P: Problem>(problem: &P, rows: &[Row], list: &Positions) -> Result<(), Refusal>
    requires admitted { Admitted (P.meaning problem.now) (map (λ row. row.constraint) rows.now) }
    requires few { length rows.now ≤ 256 }
    ensures answer { CheckAnswer (P.meaning problem.now) rows.now (positions list.now) result }
    ensures passes { Decides (is_ok result) (BasisOfOpen (P.meaning problem.now) rows.now (positions list.now)) }
{
    let picked = picked_open(rows, list)?;
    if !problem.is_standing(&picked) {
        return Err(Refusal::NotStanding);
    }
    search_rows(problem, rows, &picked)
}
